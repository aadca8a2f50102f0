// `search_last_by_key` (cpu/pixel_segment.rs): the last segment with a key, by halving. A key of the painter, with the
// value that is looked for, is a value of `Key`, since there are no closures; each key has a function of its own, which
// halves by the field as it is stored. A search answers the last place with the key, or as an `Err` where such an
// element would stand.
ghost use Rattle.std.specs.Prelude.{◌≡◌, cond, ◌+◌, ◌-◌, ◌/◌, ◌%◌, ◌^◌, ◌≤◌, ◌<◌, min, leb, pos, ◌+ℤ◌, length, get_or};
ghost use Rattle.laws.specs.Integer.{plus};
ghost use Rattle.pixel_segment.specs.Order.{compare_of, compare_bool};
ghost use Rattle.pixel_segment.specs.Field.{widths_of};
ghost use Rattle.pixel_segment.specs.Pack.{stored_of};
ghost use Rattle.segment_rows.specs.Search.{place_in, end_of, search_of, order_at_in, order_at};
ghost use Rattle.segment_rows.specs.InnerHalving.{HalfOf};

use pixel_segment::consts;
use pixel_segment::consts::{BitField, Layout};

#[derive(Clone, Copy)]
pub enum Key {
    TileY(i16),
    TileX(i16),
    LayerId(u32),
    // Whether tile x is at least the number.
    TileXAtLeast(i16, bool),
    // Whether the layer id is at least the number.
    LayerIdAtLeast(u32, bool),
    // Whether tile y is at least 0.
    TileYNotNegative(bool),
}

// A number that is not negative, as a natural one; 0 for one that is.
pub fn natural(z: i32) -> u32
    ensures { result ≡ plus z }
{
    z.max(0) as u32
}

// A tile number as it is stored: plus 1, and 0 for what is then negative.
pub fn stored(tile: i32) -> u32
    ensures { result ≡ stored_of tile }
{
    if tile < 0 { 0 } else { tile as u32 + 1 }
}

// The least stored number above a tile's: that of the next tile.
pub fn above_tile(tile: i16) -> u32
    ensures { result ≡ stored_of (tile +ℤ pos 1) }
{
    stored(tile as i32 + 1)
}

// The least number above a layer id, if there is one.
pub fn above_layer_id(layer_id: u32) -> u32
    ensures { result ≡ min (layer_id + 1) (2 ^ 32 - 1) }
{
    layer_id.saturating_add(1)
}

fn choose(is_first: bool, first: usize, second: usize) -> usize
    ensures { result ≡ cond is_first first second }
{
    if is_first { first } else { second }
}

// The field, of so many values from a bit on, of the word at a place.
pub fn field_at(segments: &[u64], offset: u32, size: u64, i: usize) -> u32
    requires { (offset < 64) × (0 < size) × (size ≤ 2 ^ 32) × (i < length segments.now) }
    ensures { result ≡ get_or segments.now i 0 / 2 ^ offset % size }
{
    ((segments[i] >> offset) % size) as u32
}

// What is left of a slice: so many words from a place on.
#[derive(Clone, Copy)]
struct Rest {
    start: usize,
    len: usize,
}

// The half to go on with: the one left of the middle where the field of the middle word is at least `above`, else the
// one from the middle on. Of one word the start stays.
fn half_of(segments: &[u64], offset: u32, size: u64, above: u32, start: usize, len: usize) -> Rest
    requires { (offset < 64) × (0 < size) × (size ≤ 2 ^ 32) × (0 < len) × (start + len ≤ length segments.now) }
    ensures { HalfOf (λ w. leb above (w / 2 ^ offset % size)) segments.now start len result }
{
    let half = len / 2;
    let mid = start + half;
    let is_above = above <= field_at(segments, offset, size, mid);
    Rest {
        start: choose(is_above, start, mid),
        len: choose(is_above, half, len - half),
    }
}

// Where the halving ends, by the field of so many values from a bit on. Two halves a turn, which needs fewer tests of
// what is left: a half of one word changes nothing. Short enough to be compiled once for each field, with its bits as
// constants.
pub fn halve(segments: &[u64], offset: u32, size: u64, above: u32) -> usize
    requires { (offset < 64) × (0 < size) × (size ≤ 2 ^ 32) }
    ensures { result ≡ end_of (λ w. leb above (w / 2 ^ offset % size)) segments.now }
{
    let mut start = 0;
    let mut len = segments.len();
    while 1 < len {
        let first = half_of(segments, offset, size, above, start, len);
        let second = half_of(segments, offset, size, above, first.start, first.len);
        start = second.start;
        len = second.len;
    }
    start
}

// The last word whose field is the number before `above`. Short enough to be compiled once for each field, too. By two
// tests and not by `cmp`, whose three cases the compiler tells apart by branches: a search took up to twice the time.
fn search_number(segments: &[u64], offset: u32, size: u64, above: u32) -> Result<usize, usize>
    requires { (offset < 64) × (0 < size) × (size < 2 ^ 32) }
    ensures { place_in result
        ≡ search_of (λ w. compare_of (w / 2 ^ offset % size + 1) above) segments.now }
{
    let count = segments.len();
    if count == 0 {
        return Err(0);
    }
    let end = halve(segments, offset, size, above);
    let next = field_at(segments, offset, size, end) + 1;
    if next == above {
        return Ok(end);
    }
    if next < above {
        return Err(end + 1);
    }
    Err(end)
}

// The last word whose field is, or is not, at least a start. Where that is wanted no word is above the key, so that the
// halving would end at the last word. Short enough to be compiled once for each field, too.
fn search_at_least(
    segments: &[u64],
    offset: u32,
    size: u64,
    start: u32,
    wanted: bool,
) -> Result<usize, usize>
    requires { (offset < 64) × (0 < size) × (size ≤ 2 ^ 32) }
    ensures { place_in result
        ≡ search_of (λ w. compare_bool (leb start (w / 2 ^ offset % size)) wanted) segments.now }
{
    if segments.is_empty() {
        return Err(0);
    }
    if wanted {
        let last = segments.len() - 1;
        if start <= field_at(segments, offset, size, last) {
            return Ok(last);
        }
        return Err(last + 1);
    }
    let end = halve(segments, offset, size, start);
    if field_at(segments, offset, size, end) < start {
        return Ok(end);
    }
    Err(end)
}

pub fn search_last_by_key_in(layout: Layout, segments: &[u64], key: Key) -> Result<usize, usize>
    ensures { place_in result
        ≡ search_of (order_at_in (widths_of layout) key) segments.now }
{
    match key {
        Key::TileY(tile_y) => search_last_by_tile_y_in(layout, segments, tile_y),
        Key::TileX(tile_x) => search_last_by_tile_x_in(layout, segments, tile_x),
        Key::LayerId(id) => search_last_by_layer_id_in(layout, segments, id),
        Key::TileXAtLeast(start, wanted) => search_last_by_tile_x_at_least_in(
            layout, segments, start, wanted,
        ),
        Key::LayerIdAtLeast(start, wanted) => search_last_by_layer_id_at_least_in(
            layout, segments, start, wanted,
        ),
        Key::TileYNotNegative(wanted) => search_last_by_tile_y_not_negative_in(
            layout, segments, wanted,
        ),
    }
}

pub fn search_last_by_tile_y_in(
    layout: Layout,
    segments: &[u64],
    tile_y: i16,
) -> Result<usize, usize>
    ensures { place_in result
        ≡ search_of (order_at_in (widths_of layout) (Key.TileY tile_y)) segments.now }
{
    let offset = consts::shift(layout, BitField::TileY);
    search_number(
        segments,
        offset,
        consts::size(layout, BitField::TileY),
        above_tile(tile_y),
    )
}

pub fn search_last_by_tile_x_in(
    layout: Layout,
    segments: &[u64],
    tile_x: i16,
) -> Result<usize, usize>
    ensures { place_in result
        ≡ search_of (order_at_in (widths_of layout) (Key.TileX tile_x)) segments.now }
{
    let offset = consts::shift(layout, BitField::TileX);
    search_number(
        segments,
        offset,
        consts::size(layout, BitField::TileX),
        above_tile(tile_x),
    )
}

pub fn search_last_by_layer_id_in(
    layout: Layout,
    segments: &[u64],
    layer_id: u32,
) -> Result<usize, usize>
    ensures { place_in result
        ≡ search_of (order_at_in (widths_of layout) (Key.LayerId layer_id)) segments.now }
{
    let offset = consts::shift(layout, BitField::LayerId);
    search_number(
        segments,
        offset,
        consts::size(layout, BitField::LayerId),
        above_layer_id(layer_id),
    )
}

// The last segment whose tile x is, or is not, at least a start.
pub fn search_last_by_tile_x_at_least_in(
    layout: Layout,
    segments: &[u64],
    start: i16,
    wanted: bool,
) -> Result<usize, usize>
    ensures { place_in result
        ≡ search_of (order_at_in (widths_of layout) (Key.TileXAtLeast start wanted)) segments.now }
{
    let offset = consts::shift(layout, BitField::TileX);
    let first = stored(start as i32);
    search_at_least(
        segments,
        offset,
        consts::size(layout, BitField::TileX),
        first,
        wanted,
    )
}

// The last segment whose layer id is, or is not, at least a start.
pub fn search_last_by_layer_id_at_least_in(
    layout: Layout,
    segments: &[u64],
    start: u32,
    wanted: bool,
) -> Result<usize, usize>
    ensures { place_in result
        ≡ search_of (order_at_in (widths_of layout) (Key.LayerIdAtLeast start wanted)) segments.now }
{
    let offset = consts::shift(layout, BitField::LayerId);
    search_at_least(
        segments,
        offset,
        consts::size(layout, BitField::LayerId),
        start,
        wanted,
    )
}

// The last segment whose tile y is, or is not, at least 0.
pub fn search_last_by_tile_y_not_negative_in(
    layout: Layout,
    segments: &[u64],
    wanted: bool,
) -> Result<usize, usize>
    ensures { place_in result
        ≡ search_of (order_at_in (widths_of layout) (Key.TileYNotNegative wanted)) segments.now }
{
    let offset = consts::shift(layout, BitField::TileY);
    search_at_least(
        segments,
        offset,
        consts::size(layout, BitField::TileY),
        stored(0),
        wanted,
    )
}

// In tiles 16 pixels high.
pub fn search_last_by_key(segments: &[u64], key: Key) -> Result<usize, usize>
    ensures { place_in result ≡ search_of (order_at key) segments.now }
{
    search_last_by_key_in(Layout::Cpu, segments, key)
}

pub fn search_last_by_tile_y(segments: &[u64], tile_y: i16) -> Result<usize, usize>
    ensures { place_in result ≡ search_of (order_at (Key.TileY tile_y)) segments.now }
{
    search_last_by_tile_y_in(Layout::Cpu, segments, tile_y)
}

pub fn search_last_by_tile_x(segments: &[u64], tile_x: i16) -> Result<usize, usize>
    ensures { place_in result ≡ search_of (order_at (Key.TileX tile_x)) segments.now }
{
    search_last_by_tile_x_in(Layout::Cpu, segments, tile_x)
}

pub fn search_last_by_layer_id(segments: &[u64], layer_id: u32) -> Result<usize, usize>
    ensures { place_in result ≡ search_of (order_at (Key.LayerId layer_id)) segments.now }
{
    search_last_by_layer_id_in(Layout::Cpu, segments, layer_id)
}

pub fn search_last_by_tile_x_at_least(
    segments: &[u64],
    start: i16,
    wanted: bool,
) -> Result<usize, usize>
    ensures { place_in result ≡ search_of (order_at (Key.TileXAtLeast start wanted)) segments.now }
{
    search_last_by_tile_x_at_least_in(Layout::Cpu, segments, start, wanted)
}

pub fn search_last_by_layer_id_at_least(
    segments: &[u64],
    start: u32,
    wanted: bool,
) -> Result<usize, usize>
    ensures { place_in result ≡ search_of (order_at (Key.LayerIdAtLeast start wanted)) segments.now }
{
    search_last_by_layer_id_at_least_in(Layout::Cpu, segments, start, wanted)
}

pub fn search_last_by_tile_y_not_negative(segments: &[u64], wanted: bool) -> Result<usize, usize>
    ensures { place_in result ≡ search_of (order_at (Key.TileYNotNegative wanted)) segments.now }
{
    search_last_by_tile_y_not_negative_in(Layout::Cpu, segments, wanted)
}
