// Whether a lent row is in order.
ghost use Rattle.std.specs.Prelude.{◌≡◌, ◌/◌, ◌^◌, ◌<◌};
ghost use Rattle.pixel_segment.specs.Field.{cpu, widths_of};
ghost use Rattle.pixel_segment.specs.Order.{order_key};
ghost use Rattle.segment_rows.specs.Rows.{ascends, is_row};

use pixel_segment::consts;
use pixel_segment::consts::{BitField, Layout};

// Whether the words don't descend in the bits from an offset on. Descents are counted, by the bit above a key: the key
// before, plus the highest key, minus a key has it exactly where the key before is greater. No early exit: a row is in
// order more often than not. Short enough to be compiled once for each tile height, with its bits as constants.
pub fn does_ascend_above(row: &[u64], offset: u32) -> bool
    requires { (0 < offset) × (offset < 64) }
    ensures { result ≡ ascends (λ w. w / 2 ^ offset) row.now }
{
    let bits = 64 - offset;
    let highest = (1u64 << bits) - 1;
    let mut descents: u64 = 0;
    let mut previous: u64 = 0;
    for word in row {
        let key = *word >> offset;
        descents += (previous + highest - key) >> bits;
        previous = key;
    }
    descents == 0
}

// Whether the words don't descend in the fields down to the layer id.
pub fn does_ascend_in(layout: Layout, row: &[u64]) -> bool
    ensures { result ≡ ascends (order_key (widths_of layout)) row.now }
{
    does_ascend_above(row, consts::shift(layout, BitField::LayerId))
}

// Whether a row is in order and in one tile row, given by its stored number. In an ascending row the first and the last
// word tell the tile y of all.
pub fn is_row_in(layout: Layout, row: &[u64], stored_tile_y: u64) -> bool
    ensures { result ≡ is_row (widths_of layout) stored_tile_y row.now }
{
    if !does_ascend_in(layout, row) {
        return false;
    }
    if row.is_empty() {
        return true;
    }
    let first = consts::extract(layout, row[0], BitField::TileY);
    let last = consts::extract(layout, row[row.len() - 1], BitField::TileY);
    (first == stored_tile_y) & (last == stored_tile_y)
}

// In tiles 16 pixels high.
pub fn does_ascend(row: &[u64]) -> bool
    ensures { result ≡ ascends (order_key cpu) row.now }
{
    does_ascend_in(Layout::Cpu, row)
}

pub fn is_row(row: &[u64], stored_tile_y: u64) -> bool
    ensures { result ≡ is_row cpu stored_tile_y row.now }
{
    is_row_in(Layout::Cpu, row, stored_tile_y)
}
