// The doubled areas of a tile's 256 pixels, at column × 16 + row: one pass over the segments and one over the pixels.
ghost use Rattle.std.specs.Prelude.{◌≡◌, true, ℕ, ◌+◌, ◌*◌, ◌≤◌, ◌<◌, nat_abs, ◌+ℤ◌};
ghost use Rattle.laws.specs.Lists.{tabulate};
ghost use Rattle.pixel_segment.specs.Field.{cpu, cover_of, double_area_of};
ghost use Rattle.cover_statements.specs.Cover.{cover_at};
ghost use Rattle.cover_statements.specs.InnerCell.{cell_of, no_cells, Judged, JudgedAreas};
ghost use Rattle.cover_statements.specs.InnerCell.{Shadable, Shaded, Summable, Summed};
ghost use Rattle.cover_statements.specs.InnerLoad.{all_light};

use cover::{Cover, carry};
use pixel_segment::{PixelSegment, consts};

// The cell of a segment: its pixel, at column × 16 + row.
pub fn cell(segment: PixelSegment) -> usize
    ensures { result ≡ cell_of cpu 16 segment.0 }
{
    segment.local_x() as usize * 16 + segment.local_y() as usize
}

// The cover of a segment, at 16 bits.
pub fn cover_of(segment: PixelSegment) -> i16
    ensures { result ≡ cover_of cpu segment.0 }
{
    consts::cover_of(segment.0)
}

// The double area of a segment with this cover.
pub fn area_of(segment: PixelSegment, cover: i16) -> i16
    requires { cover ≡ cover_of cpu segment.0 }
    ensures { result ≡ double_area_of cpu segment.0 }
{
    segment.double_area_multiplier() as i16 * cover
}

// The double areas and the covers of each cell, summed, as long as the absolute covers of each pixel row stay within
// 127; false where they do not. `incoming` has those that come in.
fn acc_segments(
    part: &[u64],
    incoming: [u16; 16],
    areas: &mut [i16; 256],
    covers: &mut [i8; 256],
) -> bool
    requires { (all_light incoming ≡ true) × (areas.old ≡ no_cells 16) × (covers.old ≡ no_cells 16) }
    ensures { Judged cpu 16 incoming part.now result areas.new covers.new }
{
    let mut loads = incoming;
    for word in part {
        let segment = PixelSegment(*word);
        let cover = cover_of(segment);
        let k = cell(segment);
        let y = k % 16;
        let before = loads[y];
        let load = before + weight::magnitude(cover);
        if 127 < load {
            return false;
        }
        loads[y] = load;
        areas[k] += area_of(segment, cover);
        covers[k] += cover as i8;
    }
    true
}

// The sums of the rows with a column's covers added.
fn add_covers(covers: &[i8; 256], column: usize, sums: [i8; 16]) -> [i8; 16]
    requires { (column < 16) × ((y : ℕ) → y < 16
        → nat_abs (cover_at sums y +ℤ cover_at covers.now (column * 16 + y)) ≤ 127) }
    ensures { result
        ≡ tabulate 16 (λ y. cover_at sums y +ℤ cover_at covers.now (column * 16 + y)) }
{
    let mut next = sums;
    for y in 0..16 {
        next[y] = sums[y] + covers[column * 16 + y];
    }
    next
}

// A column's own double areas become its doubled areas; the sums of the rows come back with the column's covers added,
// by a loop of its own: in one with the areas the covers would have to be read anew after each area that is written.
fn compute_doubled_areas(
    areas: &mut [i16; 256],
    covers: &[i8; 256],
    column: usize,
    sums: [i8; 16],
) -> [i8; 16]
    requires { Shadable 16 column areas.old covers.now sums }
    ensures { Shaded 16 column 16 areas.old covers.now sums areas.new result }
{
    for y in 0..16 {
        let k = column * 16 + y;
        areas[k] += 32 * (sums[y] as i16);
    }
    add_covers(covers, column, sums)
}

// The cells of a part become its doubled areas, a column after the other, from an incoming cover.
pub fn sum_columns(areas: &mut [i16; 256], covers: &[i8; 256], incoming: [i8; 16])
    requires { Summable cpu 16 incoming areas.old covers.now }
    ensures { Summed cpu 16 incoming areas.old covers.now areas.new }
{
    let mut sums = incoming;
    for column in 0..16 {
        let next = compute_doubled_areas(areas, covers, column, sums);
        sums = next;
    }
}

// The doubled areas of a part, from an incoming cover; false where number 9 refuses it.
pub fn judged_areas(part: &[u64], cover: Cover, areas: &mut [i16; 256]) -> bool
    requires { areas.old ≡ no_cells 16 }
    ensures { JudgedAreas cpu 16 cover.covers part.now result areas.new }
{
    let incoming = cover.covers;
    let loads = carry::magnitudes(incoming);
    if !carry::are_light(loads) {
        return false;
    }
    let mut covers = [0i8; 256];
    if !acc_segments(part, loads, areas, &mut covers) {
        return false;
    }
    sum_columns(areas, &covers, incoming);
    true
}
