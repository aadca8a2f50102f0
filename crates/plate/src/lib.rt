// Which part of all segments of a plate is a row, and which rows are printed (painter/mod.rs: `for_each_row`,
// `print_row`). None of these functions refuses anything.
#![tactic(auto)]

ghost use Rattle.std.specs.Prelude.{◌≡◌, ◌≤◌, length};
ghost use Rattle.segment_rows.specs.Search.{between};
ghost use Rattle.plate.specs.Rows.{cast_of, rows_start, not_negative, row_place, row_part};
ghost use Rattle.plate.specs.Crop.{is_in_crop};
ghost use Rattle.plate.specs.Print.{printing_in, print_row, printed_part};

use segment_rows::{parts, search};

// Where a part of the segments starts, and where it ends: one past its last segment.
#[derive(Clone, Copy)]
pub struct Part {
    pub start: usize,
    pub end: usize,
}

// A row number as the Rust casts it, `j as i16`: its low 16 bits, signed.
fn cast(j: usize) -> i16
    ensures { result ≡ cast_of j }
{
    (((j % 65536 + 32768) % 65536) as i32 - 32768) as i16
}

// Where the segments start whose tile y is not negative: past the last one that `for_each_row` finds with a negative
// tile y, or at 0.
pub fn find_not_negative(segments: &[u64]) -> usize
    ensures { result ≡ rows_start segments.now }
{
    match search::search_last_by_tile_y_not_negative(segments, false) {
        Ok(last) => last + 1,
        Err(_) => 0,
    }
}

// The segments without the content of negative tile y.
pub fn skip_negative(segments: &[u64]) -> &[u64]
    ensures { result.now ≡ not_negative segments.now }
{
    let start = find_not_negative(segments);
    &segments[start..]
}

// Where row j stands, as `print_row` finds it: its last segment, and before that the last one of the row above. Nothing
// where it has none.
pub fn find_row(segments: &[u64], j: usize) -> Part
    ensures { result ≡ row_place (cast_of j) segments.now }
{
    let tile_y = cast(j);
    match search::search_last_by_tile_y(segments, tile_y) {
        Ok(last) => {
            let start = parts::end_of(search::search_last_by_tile_y(&segments[..last], tile_y - 1));
            Part {
                start: start,
                end: last + 1,
            }
        },
        Err(_) => Part { start: 0, end: 0 },
    }
}

fn slice_of(segments: &[u64], part: Part) -> &[u64]
    requires { (part.start ≤ part.end) × (part.end ≤ length segments.now) }
    ensures { result.now ≡ between part.start part.end segments.now }
{
    let start = part.start;
    let end = part.end;
    &segments[start..end]
}

// The segments of row j.
pub fn in_row(segments: &[u64], j: usize) -> &[u64]
    ensures { result.now ≡ row_part j segments.now }
{
    slice_of(segments, find_row(segments, j))
}

// Whether row j is printed: `print_row` skips the rows outside a crop. A crop leaves the rows from its first number up
// to the second, which is not among them.
pub fn is_in_crop(crop: Option<(usize, usize)>, j: usize) -> bool
    ensures { result ≡ is_in_crop crop j }
{
    match crop {
        None => true,
        Some((start, end)) => (start <= j) & (j < end),
    }
}

// Row j of the segments that `for_each_row` goes over, where it stands: it is printed from there. None where it is
// outside the crop: it is skipped.
pub fn print_row(segments: &[u64], crop: Option<(usize, usize)>, j: usize) -> Option<Part>
    ensures { printing_in result ≡ print_row crop j segments.now }
{
    if is_in_crop(crop, j) {
        Some(find_row(segments, j))
    } else {
        None
    }
}

// The segments that `print_row` prints row j from: none where it is skipped.
pub fn to_print(segments: &[u64], crop: Option<(usize, usize)>, j: usize) -> &[u64]
    ensures { result.now ≡ printed_part crop j segments.now }
{
    match print_row(segments, crop, j) {
        Some(part) => slice_of(segments, part),
        None => &segments[0..0],
    }
}
