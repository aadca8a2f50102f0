// Tiles four pixels high: packing, fields, order, searches, carries and coverages.
ghost use Rattle.std.specs.Prelude.{◌≡◌, pos};
ghost use Rattle.pixel_segment.specs.Field.{gpu, layer_id_of, tile_x_of, tile_y_of, tile_of};
ghost use Rattle.pixel_segment.specs.Field.{local_x_of, local_y_of, multiplier_of, double_area_of, cover_of};
ghost use Rattle.pixel_segment.specs.Pack.{pack_of};
ghost use Rattle.pixel_segment.specs.Order.{order_key, compare_of};
ghost use Rattle.segment_rows.specs.Search.{search_of, order_at_in};
ghost use Rattle.segment_rows.specs.declared.search.Key.{Key};
ghost use Rattle.styling.specs.Codes.{rule_of};
ghost use Rattle.segment_rows.specs.Rows.{ascends, is_row};
ghost use Rattle.cover_statements.specs.Cover.{is_empty, is_full};
ghost use Rattle.cover_statements.specs.Carry.{add_of};
ghost use Rattle.cover_statements.specs.Paint.{painted_plane};
ghost use Rattle.cover.specs.Adding.{answer_of};
ghost use Rattle.pixel_segment_gpu.specs.GpuPack.{gpu_packed_answer};
ghost use Rattle.cover_gpu.specs.GpuPaint.{gpu_part_answer};
ghost use Rattle.ffi_numbers.specs.Numbers.{refusal_number, value_or, is_found, place_number};

use crate::words::rank_of;
use cover_gpu::carry::GpuCarried;
use cover_gpu::{GpuCover, carry};
use ffi_numbers::{four_high, words};
use pixel_segment_gpu::{GpuSegment, order, search};
use refusals::Refusal;
use styling::codes;

fn put_packed(packed: Result<GpuSegment, Refusal>, word: &mut u64) -> u32
    ensures value { result ≡ refusal_number (gpu_packed_answer packed) }
    ensures word_after { word.new ≡ value_or (gpu_packed_answer packed) word.old }
{
    match packed {
        Ok(s) => {
            *word = s.0;
            0
        },
        Err(refusal) => refusals::number_of(refusal),
    }
}

// 0 and the word in `word`, or 11.
#[unsafe(no_mangle)]
pub extern "C" fn ffi_gpu_pack(
    layer_id: u32,
    tile_x: i16,
    tile_y: i16,
    local_x: u8,
    local_y: u8,
    double_area_multiplier: u8,
    cover: i8,
    word: &mut u64,
) -> u32
    ensures value { result ≡ refusal_number (pack_of gpu (pos layer_id) tile_x tile_y
        (pos local_x) (pos local_y) (pos double_area_multiplier) cover) }
    ensures word_after { word.new ≡ value_or (pack_of gpu (pos layer_id) tile_x tile_y
        (pos local_x) (pos local_y) (pos double_area_multiplier) cover) word.old }
{
    let packed = GpuSegment::new(
        layer_id,
        tile_x,
        tile_y,
        local_x,
        local_y,
        double_area_multiplier,
        cover,
    );
    put_packed(packed, word)
}

#[unsafe(no_mangle)]
pub extern "C" fn ffi_gpu_layer_id(word: u64) -> u32
    ensures { result ≡ layer_id_of gpu word }
{
    GpuSegment(word).layer_id()
}

#[unsafe(no_mangle)]
pub extern "C" fn ffi_gpu_tile_x(word: u64) -> i16
    ensures { result ≡ tile_of (tile_x_of gpu word) }
{
    GpuSegment(word).tile_x()
}

#[unsafe(no_mangle)]
pub extern "C" fn ffi_gpu_tile_y(word: u64) -> i16
    ensures { result ≡ tile_of (tile_y_of gpu word) }
{
    GpuSegment(word).tile_y()
}

#[unsafe(no_mangle)]
pub extern "C" fn ffi_gpu_local_x(word: u64) -> u8
    ensures { result ≡ local_x_of gpu word }
{
    GpuSegment(word).local_x()
}

#[unsafe(no_mangle)]
pub extern "C" fn ffi_gpu_local_y(word: u64) -> u8
    ensures { result ≡ local_y_of gpu word }
{
    GpuSegment(word).local_y()
}

#[unsafe(no_mangle)]
pub extern "C" fn ffi_gpu_double_area_multiplier(word: u64) -> u8
    ensures { result ≡ multiplier_of gpu word }
{
    GpuSegment(word).double_area_multiplier()
}

#[unsafe(no_mangle)]
pub extern "C" fn ffi_gpu_double_area(word: u64) -> i16
    ensures { result ≡ double_area_of gpu word }
{
    GpuSegment(word).double_area()
}

#[unsafe(no_mangle)]
pub extern "C" fn ffi_gpu_cover(word: u64) -> i8
    ensures { result ≡ cover_of gpu word }
{
    GpuSegment(word).cover()
}

// All of them in one call.
#[unsafe(no_mangle)]
pub extern "C" fn ffi_gpu_fields(
    word: u64,
    layer_id: &mut u32,
    tile_x: &mut i16,
    tile_y: &mut i16,
    local_x: &mut u8,
    local_y: &mut u8,
    double_area_multiplier: &mut u8,
    double_area: &mut i16,
    cover: &mut i8,
)
    ensures layer_id_after { layer_id.new ≡ layer_id_of gpu word }
    ensures tile_x_after { tile_x.new ≡ tile_of (tile_x_of gpu word) }
    ensures tile_y_after { tile_y.new ≡ tile_of (tile_y_of gpu word) }
    ensures local_x_after { local_x.new ≡ local_x_of gpu word }
    ensures local_y_after { local_y.new ≡ local_y_of gpu word }
    ensures double_area_multiplier_after { double_area_multiplier.new ≡ multiplier_of gpu word }
    ensures double_area_after { double_area.new ≡ double_area_of gpu word }
    ensures cover_after { cover.new ≡ cover_of gpu word }
{
    let segment = GpuSegment(word);
    *layer_id = segment.layer_id();
    *tile_x = segment.tile_x();
    *tile_y = segment.tile_y();
    *local_x = segment.local_x();
    *local_y = segment.local_y();
    *double_area_multiplier = segment.double_area_multiplier();
    *double_area = segment.double_area();
    *cover = segment.cover();
}

// Whether the words do not descend by tile y, tile x and layer.
#[unsafe(no_mangle)]
pub extern "C" fn ffi_gpu_does_ascend(row: &[u64]) -> bool
    ensures { result ≡ ascends (order_key gpu) row.now }
{
    order::does_ascend(row)
}

// Whether they are a row: they ascend, and each has the stored tile y, which is its own plus 1.
#[unsafe(no_mangle)]
pub extern "C" fn ffi_gpu_is_row(row: &[u64], stored_tile_y: u64) -> bool
    ensures { result ≡ is_row gpu stored_tile_y row.now }
{
    order::is_row(row, stored_tile_y)
}

// How a segment compares with another: 0 less, 1 equal, 2 greater.
#[unsafe(no_mangle)]
pub extern "C" fn ffi_gpu_cmp(word: u64, other: u64) -> u8
    ensures { result ≡ compare_of (order_key gpu word) (order_key gpu other) }
{
    rank_of(GpuSegment(word).cmp(GpuSegment(other)))
}

#[unsafe(no_mangle)]
pub extern "C" fn ffi_gpu_search_last_by_tile_y(
    segments: &[u64],
    tile_y: i16,
    place: &mut usize,
) -> bool
    ensures value { result ≡ is_found (search_of (order_at_in gpu (Key.TileY tile_y)) segments.now) }
    ensures place_after { place.new
        ≡ place_number (search_of (order_at_in gpu (Key.TileY tile_y)) segments.now) }
{
    words::put_found(search::search_last_by_tile_y(segments, tile_y), place)
}

#[unsafe(no_mangle)]
pub extern "C" fn ffi_gpu_search_last_by_tile_x(
    segments: &[u64],
    tile_x: i16,
    place: &mut usize,
) -> bool
    ensures value { result ≡ is_found (search_of (order_at_in gpu (Key.TileX tile_x)) segments.now) }
    ensures place_after { place.new
        ≡ place_number (search_of (order_at_in gpu (Key.TileX tile_x)) segments.now) }
{
    words::put_found(search::search_last_by_tile_x(segments, tile_x), place)
}

#[unsafe(no_mangle)]
pub extern "C" fn ffi_gpu_search_last_by_layer_id(
    segments: &[u64],
    layer_id: u32,
    place: &mut usize,
) -> bool
    ensures value { result ≡ is_found (search_of (order_at_in gpu (Key.LayerId layer_id)) segments.now) }
    ensures place_after { place.new
        ≡ place_number (search_of (order_at_in gpu (Key.LayerId layer_id)) segments.now) }
{
    words::put_found(search::search_last_by_layer_id(segments, layer_id), place)
}

#[unsafe(no_mangle)]
pub extern "C" fn ffi_gpu_search_last_by_tile_x_at_least(
    segments: &[u64],
    start: i16,
    wanted: bool,
    place: &mut usize,
) -> bool
    ensures value { result
        ≡ is_found (search_of (order_at_in gpu (Key.TileXAtLeast start wanted)) segments.now) }
    ensures place_after { place.new
        ≡ place_number (search_of (order_at_in gpu (Key.TileXAtLeast start wanted)) segments.now) }
{
    words::put_found(
        search::search_last_by_tile_x_at_least(segments, start, wanted),
        place,
    )
}

#[unsafe(no_mangle)]
pub extern "C" fn ffi_gpu_search_last_by_layer_id_at_least(
    segments: &[u64],
    start: u32,
    wanted: bool,
    place: &mut usize,
) -> bool
    ensures value { result
        ≡ is_found (search_of (order_at_in gpu (Key.LayerIdAtLeast start wanted)) segments.now) }
    ensures place_after { place.new
        ≡ place_number (search_of (order_at_in gpu (Key.LayerIdAtLeast start wanted)) segments.now) }
{
    words::put_found(
        search::search_last_by_layer_id_at_least(segments, start, wanted),
        place,
    )
}

#[unsafe(no_mangle)]
pub extern "C" fn ffi_gpu_search_last_by_tile_y_not_negative(
    segments: &[u64],
    wanted: bool,
    place: &mut usize,
) -> bool
    ensures value { result
        ≡ is_found (search_of (order_at_in gpu (Key.TileYNotNegative wanted)) segments.now) }
    ensures place_after { place.new
        ≡ place_number (search_of (order_at_in gpu (Key.TileYNotNegative wanted)) segments.now) }
{
    words::put_found(
        search::search_last_by_tile_y_not_negative(segments, wanted),
        place,
    )
}

#[unsafe(no_mangle)]
pub extern "C" fn ffi_gpu_is_empty(covers: &[i8; 4], rule: u32) -> bool
    ensures { result ≡ is_empty (rule_of rule) covers.now }
{
    let bytes = *covers;
    GpuCover { covers: bytes }.is_empty(codes::fill_rule(rule))
}

#[unsafe(no_mangle)]
pub extern "C" fn ffi_gpu_is_full(covers: &[i8; 4], rule: u32) -> bool
    ensures { result ≡ is_full (rule_of rule) covers.now }
{
    let bytes = *covers;
    GpuCover { covers: bytes }.is_full(codes::fill_rule(rule))
}

// 0 and the covers of the part added to those in `covers`, or 9.
#[unsafe(no_mangle)]
pub extern "C" fn ffi_gpu_carry(part: &[u64], covers: &mut [i8; 4]) -> u32
    ensures value { result ≡ refusal_number (add_of gpu 4 covers.old part.now) }
    ensures covers_after { covers.new
        ≡ value_or (add_of gpu 4 covers.old part.now) covers.old }
{
    let bytes = *covers;
    put_carried(carry::carry(part, GpuCover { covers: bytes }), covers)
}

fn put_carried(carried: GpuCarried, covers: &mut [i8; 4]) -> u32
    ensures value { result ≡ refusal_number (answer_of carried.accepted carried.cover.covers) }
    ensures covers_after { covers.new
        ≡ value_or (answer_of carried.accepted carried.cover.covers) covers.old }
{
    if carried.accepted {
        let cover = carried.cover;
        let bytes = cover.covers;
        *covers = bytes;
        0
    } else {
        9
    }
}

// 0 and the coverages in `plane`, or the number of the refusal.
#[unsafe(no_mangle)]
pub extern "C" fn ffi_gpu_paint_part(
    part: &[u64],
    covers: &[i8; 4],
    rule: u32,
    plane: &mut [f32],
) -> u32
    ensures value { result
        ≡ refusal_number (gpu_part_answer covers.now part.now plane.old) }
    ensures plane_after { plane.new
        ≡ painted_plane gpu 4 (rule_of rule) covers.now part.now plane.old }
{
    let bytes = *covers;
    let painted = cover_gpu::painting::paint_part(
        part,
        GpuCover { covers: bytes },
        codes::fill_rule(rule),
        plane,
    );
    four_high::painted_number(painted)
}
