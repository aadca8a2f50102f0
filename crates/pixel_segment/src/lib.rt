// The packed pixel segment (cpu/pixel_segment.rs): seven fields in a word of 64 bits, and how two of them compare.
#![tactic(auto)]

pub mod consts;
pub mod order;
pub mod range;

ghost use Rattle.std.specs.Prelude.{◌≡◌, ◌^◌, pos};
ghost use Rattle.laws.specs.Integer.{modℤ};
ghost use Rattle.pixel_segment.specs.Field.{cpu, widths_of, width_of, layer_id_of, tile_x_of, tile_y_of, tile_of};
ghost use Rattle.pixel_segment.specs.Field.{local_x_of, local_y_of, multiplier_of, double_area_of, cover_of};
ghost use Rattle.pixel_segment.specs.Pack.{stored_of, word_of, Packs};
ghost use Rattle.pixel_segment.specs.Order.{rank, order_key, compare_of};

use consts::{BitField, Layout};
use refusals::Refusal;
use std::cmp::Ordering;

// A packed word. Any 64 bits are a segment.
#[derive(Clone, Copy)]
pub struct PixelSegment(pub u64);

// A tile number as it is stored: plus 1, and 0 for what is then negative.
pub fn stored(tile: i16) -> u64
    ensures { result ≡ stored_of tile }
{
    if tile < 0 { 0 } else { tile as u64 + 1 }
}

// The low bits of a cover, as many as its field has. 256 is a multiple of the field's size, and with it no cover is
// negative.
pub fn cover_bits(cover: i8) -> u64
    ensures { result ≡ modℤ (2 ^ width_of cpu 6) cover }
{
    ((cover as i16 + 256) as u64) % consts::size(Layout::Cpu, BitField::Cover)
}

// The word of seven numbers, each field below those before it.
fn join(
    layout: Layout,
    layer_id: u32,
    tile_x: i16,
    tile_y: i16,
    local_x: u8,
    local_y: u8,
    double_area_multiplier: u8,
    cover: i8,
) -> u64
    ensures { result ≡ word_of (widths_of layout)
        layer_id tile_x tile_y local_x local_y double_area_multiplier cover }
{
    let w0 = consts::append(layout, 0, BitField::TileY, stored(tile_y));
    let w1 = consts::append(layout, w0, BitField::TileX, stored(tile_x));
    let w2 = consts::append(layout, w1, BitField::LayerId, layer_id as u64);
    let w3 = consts::append(layout, w2, BitField::LocalX, local_x as u64);
    let w4 = consts::append(layout, w3, BitField::LocalY, local_y as u64);
    let w5 = consts::append(
        layout,
        w4,
        BitField::DoubleAreaMultiplier,
        double_area_multiplier as u64,
    );
    consts::append(layout, w5, BitField::Cover, cover_bits(cover))
}

// Packing of any numbers by a layout: those that every field holds, and no others.
pub fn pack_in(
    layout: Layout,
    layer_id: i64,
    tile_x: i64,
    tile_y: i64,
    local_x: i64,
    local_y: i64,
    double_area_multiplier: i64,
    cover: i64,
) -> Result<PixelSegment, Refusal>
    ensures { Packs (widths_of layout)
        layer_id tile_x tile_y local_x local_y double_area_multiplier cover result }
{
    if !range::is_packable(
        layout,
        layer_id,
        tile_x,
        tile_y,
        local_x,
        local_y,
        double_area_multiplier,
        cover,
    ) {
        return Err(Refusal::Fields);
    }
    let word = join(
        layout,
        layer_id as u32,
        tile_x as i16,
        tile_y as i16,
        local_x as u8,
        local_y as u8,
        double_area_multiplier as u8,
        cover as i8,
    );
    Ok(PixelSegment(word))
}

// The same of numbers as the Rust takes them.
pub fn new_in(
    layout: Layout,
    layer_id: u32,
    tile_x: i16,
    tile_y: i16,
    local_x: u8,
    local_y: u8,
    double_area_multiplier: u8,
    cover: i8,
) -> Result<PixelSegment, Refusal>
    ensures { Packs (widths_of layout) (pos layer_id) tile_x tile_y
        (pos local_x) (pos local_y) (pos double_area_multiplier) cover result }
{
    pack_in(
        layout,
        layer_id as i64,
        tile_x as i64,
        tile_y as i64,
        local_x as i64,
        local_y as i64,
        double_area_multiplier as i64,
        cover as i64,
    )
}

impl PixelSegment {
    // Packing of any numbers: those that every field holds, and no others.
    pub fn pack(
        layer_id: i64,
        tile_x: i64,
        tile_y: i64,
        local_x: i64,
        local_y: i64,
        double_area_multiplier: i64,
        cover: i64,
    ) -> Result<PixelSegment, Refusal>
        ensures { Packs cpu
            layer_id tile_x tile_y local_x local_y double_area_multiplier cover result }
    {
        pack_in(
            Layout::Cpu,
            layer_id,
            tile_x,
            tile_y,
            local_x,
            local_y,
            double_area_multiplier,
            cover,
        )
    }

    pub fn new(
        layer_id: u32,
        tile_x: i16,
        tile_y: i16,
        local_x: u8,
        local_y: u8,
        double_area_multiplier: u8,
        cover: i8,
    ) -> Result<PixelSegment, Refusal>
        ensures { Packs cpu (pos layer_id) tile_x tile_y
            (pos local_x) (pos local_y) (pos double_area_multiplier) cover result }
    {
        new_in(
            Layout::Cpu,
            layer_id,
            tile_x,
            tile_y,
            local_x,
            local_y,
            double_area_multiplier,
            cover,
        )
    }

    pub fn layer_id(self) -> u32
        ensures { result ≡ layer_id_of cpu self.0 }
    {
        consts::extract(Layout::Cpu, self.0, BitField::LayerId) as u32
    }

    pub fn tile_x(self) -> i16
        ensures { result ≡ tile_of (tile_x_of cpu self.0) }
    {
        consts::tile(Layout::Cpu, self.0, BitField::TileX)
    }

    pub fn tile_y(self) -> i16
        ensures { result ≡ tile_of (tile_y_of cpu self.0) }
    {
        consts::tile(Layout::Cpu, self.0, BitField::TileY)
    }

    pub fn local_x(self) -> u8
        ensures { result ≡ local_x_of cpu self.0 }
    {
        consts::extract(Layout::Cpu, self.0, BitField::LocalX) as u8
    }

    pub fn local_y(self) -> u8
        ensures { result ≡ local_y_of cpu self.0 }
    {
        consts::extract(Layout::Cpu, self.0, BitField::LocalY) as u8
    }

    pub fn double_area_multiplier(self) -> u8
        ensures { result ≡ multiplier_of cpu self.0 }
    {
        consts::extract(Layout::Cpu, self.0, BitField::DoubleAreaMultiplier) as u8
    }

    // Multiplier times cover.
    pub fn double_area(self) -> i16
        ensures { result ≡ double_area_of cpu self.0 }
    {
        (self.double_area_multiplier() as i16) * (self.cover() as i16)
    }

    // The lowest field is signed, -32 to 31. Nothing lies below it, and what lies above it goes with the remainder, so
    // half the field's size is added to the whole word: one step less than adding it to the field.
    pub fn cover(self) -> i8
        ensures { result ≡ cover_of cpu self.0 }
    {
        let n = consts::size(Layout::Cpu, BitField::Cover);
        let half = n / 2;
        (std::num::wrapping_add_u64(self.0, half) % n) as i8 - half as i8
    }

    // Order compares only tile y, tile x and layer id: the upper 44 bits.
    pub fn cmp(self, other: PixelSegment) -> Ordering
        ensures { rank result ≡ compare_of (order_key cpu self.0) (order_key cpu other.0) }
    {
        order::compare_words(Layout::Cpu, self.0, other.0)
    }
}
