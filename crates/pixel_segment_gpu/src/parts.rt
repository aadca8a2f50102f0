// The parts of a row of tiles four pixels high.
ghost use Rattle.std.specs.Prelude.{◌≡◌};
ghost use Rattle.pixel_segment.specs.Field.{gpu};
ghost use Rattle.segment_rows.specs.Search.{left_part_in, tile_part_in, layer_part_in};

use pixel_segment::consts::Layout;
use segment_rows::parts;

pub fn left_of_tile(row: &[u64], tile_x: i16) -> &[u64]
    ensures { result.now ≡ left_part_in gpu tile_x row.now }
{
    parts::left_of_tile_in(Layout::Gpu, row, tile_x)
}

pub fn in_tile(row: &[u64], tile_x: i16) -> &[u64]
    ensures { result.now ≡ tile_part_in gpu tile_x row.now }
{
    parts::in_tile_in(Layout::Gpu, row, tile_x)
}

pub fn of_layer(part: &[u64], layer_id: u32) -> &[u64]
    ensures { result.now ≡ layer_part_in gpu layer_id part.now }
{
    parts::of_layer_in(Layout::Gpu, part, layer_id)
}
