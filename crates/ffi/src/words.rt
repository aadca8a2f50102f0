// Packing, fields, order and searches of packed words.
ghost use Rattle.std.specs.Prelude.{◌≡◌, pos};
ghost use Rattle.pixel_segment.specs.Field.{cpu, layer_id_of, tile_x_of, tile_y_of, tile_of};
ghost use Rattle.pixel_segment.specs.Field.{local_x_of, local_y_of, multiplier_of, double_area_of, cover_of};
ghost use Rattle.pixel_segment.specs.Pack.{pack_of};
ghost use Rattle.pixel_segment.specs.Order.{rank, order_key, compare_of};
ghost use Rattle.segment_rows.specs.Rows.{ascends, is_row};
ghost use Rattle.segment_rows.specs.Search.{search_of, order_at};
ghost use Rattle.segment_rows.specs.declared.search.Key.{Key};
ghost use Rattle.ffi_numbers.specs.Numbers.{refusal_number, value_or, is_found, place_number};

use ffi_numbers::words;
use pixel_segment::PixelSegment;
use segment_rows::{order, search};
use std::cmp::Ordering;

#[unsafe(no_mangle)]
pub extern "C" fn ffi_pack(
    layer_id: u32,
    tile_x: i16,
    tile_y: i16,
    local_x: u8,
    local_y: u8,
    double_area_multiplier: u8,
    cover: i8,
    word: &mut u64,
) -> u32
    ensures value { result ≡ refusal_number (pack_of cpu (pos layer_id) tile_x tile_y
        (pos local_x) (pos local_y) (pos double_area_multiplier) cover) }
    ensures word_after { word.new ≡ value_or (pack_of cpu (pos layer_id) tile_x tile_y
        (pos local_x) (pos local_y) (pos double_area_multiplier) cover) word.old }
{
    let packed = PixelSegment::new(
        layer_id,
        tile_x,
        tile_y,
        local_x,
        local_y,
        double_area_multiplier,
        cover,
    );
    words::put_packed(packed, word)
}

#[unsafe(no_mangle)]
pub extern "C" fn ffi_layer_id(word: u64) -> u32
    ensures { result ≡ layer_id_of cpu word }
{
    PixelSegment(word).layer_id()
}

#[unsafe(no_mangle)]
pub extern "C" fn ffi_tile_x(word: u64) -> i16
    ensures { result ≡ tile_of (tile_x_of cpu word) }
{
    PixelSegment(word).tile_x()
}

#[unsafe(no_mangle)]
pub extern "C" fn ffi_tile_y(word: u64) -> i16
    ensures { result ≡ tile_of (tile_y_of cpu word) }
{
    PixelSegment(word).tile_y()
}

#[unsafe(no_mangle)]
pub extern "C" fn ffi_local_x(word: u64) -> u8
    ensures { result ≡ local_x_of cpu word }
{
    PixelSegment(word).local_x()
}

#[unsafe(no_mangle)]
pub extern "C" fn ffi_local_y(word: u64) -> u8
    ensures { result ≡ local_y_of cpu word }
{
    PixelSegment(word).local_y()
}

#[unsafe(no_mangle)]
pub extern "C" fn ffi_double_area_multiplier(word: u64) -> u8
    ensures { result ≡ multiplier_of cpu word }
{
    PixelSegment(word).double_area_multiplier()
}

#[unsafe(no_mangle)]
pub extern "C" fn ffi_double_area(word: u64) -> i16
    ensures { result ≡ double_area_of cpu word }
{
    PixelSegment(word).double_area()
}

#[unsafe(no_mangle)]
pub extern "C" fn ffi_cover(word: u64) -> i8
    ensures { result ≡ cover_of cpu word }
{
    PixelSegment(word).cover()
}

// 0, 1 or 2: less, equal or greater.
pub fn rank_of(order: Ordering) -> u8
    ensures { result ≡ rank order }
{
    match order {
        Ordering::Less => 0,
        Ordering::Equal => 1,
        Ordering::Greater => 2,
    }
}

// How a segment compares with another: 0 less, 1 equal, 2 greater.
#[unsafe(no_mangle)]
pub extern "C" fn ffi_cmp(word: u64, other: u64) -> u8
    ensures { result ≡ compare_of (order_key cpu word) (order_key cpu other) }
{
    rank_of(PixelSegment(word).cmp(PixelSegment(other)))
}

#[unsafe(no_mangle)]
pub extern "C" fn ffi_does_ascend(row: &[u64]) -> bool
    ensures { result ≡ ascends (order_key cpu) row.now }
{
    order::does_ascend(row)
}

#[unsafe(no_mangle)]
pub extern "C" fn ffi_is_row(row: &[u64], stored_tile_y: u64) -> bool
    ensures { result ≡ is_row cpu stored_tile_y row.now }
{
    order::is_row(row, stored_tile_y)
}

#[unsafe(no_mangle)]
pub extern "C" fn ffi_search_last_by_tile_y(
    segments: &[u64],
    tile_y: i16,
    place: &mut usize,
) -> bool
    ensures value { result ≡ is_found (search_of (order_at (Key.TileY tile_y)) segments.now) }
    ensures place_after { place.new
        ≡ place_number (search_of (order_at (Key.TileY tile_y)) segments.now) }
{
    words::put_found(search::search_last_by_tile_y(segments, tile_y), place)
}

#[unsafe(no_mangle)]
pub extern "C" fn ffi_search_last_by_tile_x(
    segments: &[u64],
    tile_x: i16,
    place: &mut usize,
) -> bool
    ensures value { result ≡ is_found (search_of (order_at (Key.TileX tile_x)) segments.now) }
    ensures place_after { place.new
        ≡ place_number (search_of (order_at (Key.TileX tile_x)) segments.now) }
{
    words::put_found(search::search_last_by_tile_x(segments, tile_x), place)
}

#[unsafe(no_mangle)]
pub extern "C" fn ffi_search_last_by_layer_id(
    segments: &[u64],
    layer_id: u32,
    place: &mut usize,
) -> bool
    ensures value { result ≡ is_found (search_of (order_at (Key.LayerId layer_id)) segments.now) }
    ensures place_after { place.new
        ≡ place_number (search_of (order_at (Key.LayerId layer_id)) segments.now) }
{
    words::put_found(search::search_last_by_layer_id(segments, layer_id), place)
}

#[unsafe(no_mangle)]
pub extern "C" fn ffi_search_last_by_tile_x_at_least(
    segments: &[u64],
    start: i16,
    wanted: bool,
    place: &mut usize,
) -> bool
    ensures value { result ≡ is_found (search_of (order_at (Key.TileXAtLeast start wanted)) segments.now) }
    ensures place_after { place.new
        ≡ place_number (search_of (order_at (Key.TileXAtLeast start wanted)) segments.now) }
{
    words::put_found(
        search::search_last_by_tile_x_at_least(segments, start, wanted),
        place,
    )
}

#[unsafe(no_mangle)]
pub extern "C" fn ffi_search_last_by_tile_y_not_negative(
    segments: &[u64],
    wanted: bool,
    place: &mut usize,
) -> bool
    ensures value { result ≡ is_found (search_of (order_at (Key.TileYNotNegative wanted)) segments.now) }
    ensures place_after { place.new
        ≡ place_number (search_of (order_at (Key.TileYNotNegative wanted)) segments.now) }
{
    words::put_found(
        search::search_last_by_tile_y_not_negative(segments, wanted),
        place,
    )
}
