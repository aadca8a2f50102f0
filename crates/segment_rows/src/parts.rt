// The parts of a row that belong to a tile or a layer, found by search and handed on as slices of the row.
ghost use Rattle.std.specs.Prelude.{◌≡◌, ◌^◌, ◌≤◌, ◌<◌, length};
ghost use Rattle.pixel_segment.specs.Field.{widths_of};
ghost use Rattle.segment_rows.specs.Search.{place_in, after_of, between, left_part_in, tile_part_in, layer_part_in};
ghost use Rattle.segment_rows.specs.Search.{left_part, tile_part, up_to_tile, layer_part};

use crate::search;
use pixel_segment::consts::Layout;

// The place after the one that a search found, or where one would stand.
pub fn end_of(found: Result<usize, usize>) -> usize
    requires { after_of (place_in found) < 2 ^ 64 }
    ensures { result ≡ after_of (place_in found) }
{
    match found {
        Ok(i) => i + 1,
        Err(i) => i,
    }
}

// The segments from one place up to another; nothing where the second is before the first, as it may be in a row that
// is in no order.
pub fn slice_between(segments: &[u64], start: usize, end: usize) -> &[u64]
    requires { end ≤ length segments.now }
    ensures { result.now ≡ between start end segments.now }
{
    if start <= end {
        &segments[start..end]
    } else {
        &segments[0..0]
    }
}

// The segments left of a tile.
pub fn left_of_tile_in(layout: Layout, row: &[u64], tile_x: i16) -> &[u64]
    ensures { result.now ≡ left_part_in (widths_of layout) tile_x row.now }
{
    let end = end_of(search::search_last_by_tile_x_at_least_in(layout, row, tile_x, false));
    slice_between(row, 0, end)
}

// The segments of a tile.
pub fn in_tile_in(layout: Layout, row: &[u64], tile_x: i16) -> &[u64]
    ensures { result.now ≡ tile_part_in (widths_of layout) tile_x row.now }
{
    let start = end_of(search::search_last_by_tile_x_at_least_in(layout, row, tile_x, false));
    let end = end_of(search::search_last_by_tile_x_in(layout, row, tile_x));
    slice_between(row, start, end)
}

// The segments of a layer in a tile's part.
pub fn of_layer_in(layout: Layout, part: &[u64], layer_id: u32) -> &[u64]
    ensures { result.now ≡ layer_part_in (widths_of layout) layer_id part.now }
{
    let start = end_of(search::search_last_by_layer_id_at_least_in(layout, part, layer_id, false));
    let end = end_of(search::search_last_by_layer_id_in(layout, part, layer_id));
    slice_between(part, start, end)
}

// In tiles 16 pixels high.
pub fn left_of_tile(row: &[u64], tile_x: i16) -> &[u64]
    ensures { result.now ≡ left_part tile_x row.now }
{
    left_of_tile_in(Layout::Cpu, row, tile_x)
}

pub fn in_tile(row: &[u64], tile_x: i16) -> &[u64]
    ensures { result.now ≡ tile_part tile_x row.now }
{
    in_tile_in(Layout::Cpu, row, tile_x)
}

pub fn of_layer(part: &[u64], layer_id: u32) -> &[u64]
    ensures { result.now ≡ layer_part layer_id part.now }
{
    of_layer_in(Layout::Cpu, part, layer_id)
}

// What is left of a row, up to the last segment of a tile: where nothing of a lower tile is left, the tile's segments.
pub fn up_to_tile(rest: &[u64], tile_x: i16) -> &[u64]
    ensures { result.now ≡ up_to_tile tile_x rest.now }
{
    let end = end_of(search::search_last_by_tile_x(rest, tile_x));
    slice_between(rest, 0, end)
}
