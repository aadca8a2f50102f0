// Which numbers the fields hold. The bounds come from the table of widths.
ghost use Rattle.std.specs.Prelude.{◌≡◌, ◌^◌, ◌≤◌, ◌&&◌, pos, ◌+ℤ◌, int_le, int_lt};
ghost use Rattle.laws.specs.Integer.{plus};
ghost use Rattle.pixel_segment.specs.Field.{cpu, widths_of, width_of, index_of};
ghost use Rattle.pixel_segment.specs.Pack.{is_held, lowest_signed, is_packable};

use crate::consts;
use crate::consts::{BitField, Layout};

// Whether a number is one of n from `low` on.
pub fn is_among(n: u64, low: i64, v: i64) -> bool
    requires { (plus low ≡ 0) × (n ≤ 2 ^ 21) }
    ensures { result ≡ (int_le low v && int_lt v (low +ℤ pos n)) }
{
    (low <= v) & (v < low + n as i64)
}

// Whether a field holds a number: it holds as many as it has values, from `low` on.
fn is_held(layout: Layout, field: BitField, low: i64, v: i64) -> bool
    requires { plus low ≡ 0 }
    ensures { result ≡ is_held low (width_of (widths_of layout) (index_of field)) v }
{
    is_among(consts::size(layout, field), low, v)
}

// The lowest number of the signed field.
pub fn lowest_cover() -> i64
    ensures { result ≡ lowest_signed (width_of cpu 6) }
{
    let half = consts::size(Layout::Cpu, BitField::Cover) / 2;
    0 - half as i64
}

// Whether every field holds its number. Tile numbers start at -1, covers are signed, the others start at 0.
pub fn is_packable(
    layout: Layout,
    layer_id: i64,
    tile_x: i64,
    tile_y: i64,
    local_x: i64,
    local_y: i64,
    double_area_multiplier: i64,
    cover: i64,
) -> bool
    ensures { result ≡ is_packable (widths_of layout)
        layer_id tile_x tile_y local_x local_y double_area_multiplier cover }
{
    is_held(layout, BitField::TileY, -1, tile_y)
        & is_held(layout, BitField::TileX, -1, tile_x)
        & is_held(layout, BitField::LayerId, 0, layer_id)
        & is_held(layout, BitField::LocalX, 0, local_x)
        & is_held(layout, BitField::LocalY, 0, local_y)
        & is_held(
            layout,
            BitField::DoubleAreaMultiplier,
            0,
            double_area_multiplier,
        )
        & is_held(layout, BitField::Cover, lowest_cover(), cover)
}
