// The packed pixel segment of tiles four pixels high (cpu/pixel_segment.rs at the GPU's layout): packing, fields,
// order, searches and parts, each the one of `pixel_segment` or `segment_rows` at that layout. The two lowest fields
// have the same bits at every height.
#![tactic(auto)]

pub mod order;
pub mod parts;
pub mod search;

ghost use Rattle.std.specs.Prelude.{◌≡◌, pos};
ghost use Rattle.pixel_segment.specs.Field.{gpu, layer_id_of, tile_x_of, tile_y_of, tile_of};
ghost use Rattle.pixel_segment.specs.Field.{local_x_of, local_y_of, multiplier_of, double_area_of, cover_of};
ghost use Rattle.pixel_segment.specs.Pack.{PacksTo};
ghost use Rattle.pixel_segment.specs.Order.{rank, order_key, compare_of};
ghost use Rattle.pixel_segment_gpu.specs.GpuPack.{gpu_packed_answer};

use pixel_segment::consts::{BitField, Layout};
use pixel_segment::{PixelSegment, consts};
use refusals::Refusal;
use std::cmp::Ordering;

// A packed word. Any 64 bits are a segment.
#[derive(Clone, Copy)]
pub struct GpuSegment(pub u64);

impl GpuSegment {
    // Packing of the numbers that every field holds, and of no others.
    pub fn new(
        layer_id: u32,
        tile_x: i16,
        tile_y: i16,
        local_x: u8,
        local_y: u8,
        double_area_multiplier: u8,
        cover: i8,
    ) -> Result<GpuSegment, Refusal>
        ensures { PacksTo gpu (pos layer_id) tile_x tile_y
            (pos local_x) (pos local_y) (pos double_area_multiplier) cover (gpu_packed_answer result) }
    {
        let segment = pixel_segment::new_in(
            Layout::Gpu,
            layer_id,
            tile_x,
            tile_y,
            local_x,
            local_y,
            double_area_multiplier,
            cover,
        )?;
        Ok(GpuSegment(segment.0))
    }

    pub fn layer_id(self) -> u32
        ensures { result ≡ layer_id_of gpu self.0 }
    {
        consts::extract(Layout::Gpu, self.0, BitField::LayerId) as u32
    }

    pub fn tile_x(self) -> i16
        ensures { result ≡ tile_of (tile_x_of gpu self.0) }
    {
        consts::tile(Layout::Gpu, self.0, BitField::TileX)
    }

    pub fn tile_y(self) -> i16
        ensures { result ≡ tile_of (tile_y_of gpu self.0) }
    {
        consts::tile(Layout::Gpu, self.0, BitField::TileY)
    }

    pub fn local_x(self) -> u8
        ensures { result ≡ local_x_of gpu self.0 }
    {
        consts::extract(Layout::Gpu, self.0, BitField::LocalX) as u8
    }

    pub fn local_y(self) -> u8
        ensures { result ≡ local_y_of gpu self.0 }
    {
        consts::extract(Layout::Gpu, self.0, BitField::LocalY) as u8
    }

    pub fn double_area_multiplier(self) -> u8
        ensures { result ≡ multiplier_of gpu self.0 }
    {
        PixelSegment(self.0).double_area_multiplier()
    }

    // Multiplier times cover.
    pub fn double_area(self) -> i16
        ensures { result ≡ double_area_of gpu self.0 }
    {
        PixelSegment(self.0).double_area()
    }

    // The lowest field is signed, -32 to 31.
    pub fn cover(self) -> i8
        ensures { result ≡ cover_of gpu self.0 }
    {
        PixelSegment(self.0).cover()
    }

    // Order compares only tile y, tile x and layer id: the upper 46 bits.
    pub fn cmp(self, other: GpuSegment) -> Ordering
        ensures { rank result ≡ compare_of (order_key gpu self.0) (order_key gpu other.0) }
    {
        pixel_segment::order::compare_words(Layout::Gpu, self.0, other.0)
    }
}
