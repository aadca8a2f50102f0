// The doubled areas of the 64 pixels of a tile four pixels high, at column × 4 + row: one pass over the segments, one
// over the pixels.
ghost use Rattle.std.specs.Prelude.{◌≡◌, true};
ghost use Rattle.pixel_segment.specs.Field.{gpu, cover_of, double_area_of};
ghost use Rattle.cover_statements.specs.InnerCell.{cell_of, no_cells, Judged, JudgedAreas, Summable, Summed};
ghost use Rattle.cover_statements.specs.InnerLoad.{all_light};
ghost use Rattle.cover_statements.specs.InnerRows.{RowReady, RowShaded};

use crate::{GpuCover, carry};
use pixel_segment::consts;
use pixel_segment_gpu::GpuSegment;

// The cell of a segment: its pixel, at column × 4 + row.
fn cell(segment: GpuSegment) -> usize
    ensures { result ≡ cell_of gpu 4 segment.0 }
{
    segment.local_x() as usize * 4 + segment.local_y() as usize
}

// The cover of a segment, at 16 bits.
fn cover_of(segment: GpuSegment) -> i16
    ensures { result ≡ cover_of gpu segment.0 }
{
    consts::cover_of(segment.0)
}

// The double area of a segment with this cover.
fn area_of(segment: GpuSegment, cover: i16) -> i16
    requires { cover ≡ cover_of gpu segment.0 }
    ensures { result ≡ double_area_of gpu segment.0 }
{
    segment.double_area_multiplier() as i16 * cover
}

// The double areas and the covers of each cell, summed, as long as the absolute covers of each pixel row stay within
// 127; false where they do not. `incoming` has those that come in.
fn acc_segments(
    part: &[u64],
    incoming: [u16; 4],
    areas: &mut [i16; 64],
    covers: &mut [i8; 64],
) -> bool
    requires { (all_light incoming ≡ true) × (areas.old ≡ no_cells 4) × (covers.old ≡ no_cells 4) }
    ensures { Judged gpu 4 incoming part.now result areas.new covers.new }
{
    let mut loads = incoming;
    for word in part {
        let segment = GpuSegment(*word);
        let cover = cover_of(segment);
        let y = segment.local_y() as usize;
        let before = loads[y];
        let load = before + weight::magnitude(cover);
        if 127 < load {
            return false;
        }
        loads[y] = load;
        let k = cell(segment);
        areas[k] += area_of(segment, cover);
        covers[k] += cover as i8;
    }
    true
}

// A pixel row's own double areas become its doubled areas, a column after the other. `cover` comes in. One number is
// carried along: four side by side would be put together and taken apart in each column.
fn shade_row(areas: &mut [i16; 64], covers: &[i8; 64], y: usize, cover: i8)
    requires { RowReady gpu 4 y cover areas.old covers.now }
    ensures { RowShaded gpu 4 y cover areas.old covers.now areas.new }
{
    let mut sum = cover;
    for x in 0..16 {
        let k = x * 4 + y;
        let next = sum + covers[k];
        areas[k] += 32 * (sum as i16);
        sum = next;
    }
}

// The cells of a part become its doubled areas, a pixel row after the other, from an incoming cover.
fn sum_rows(areas: &mut [i16; 64], covers: &[i8; 64], incoming: [i8; 4])
    requires { Summable gpu 4 incoming areas.old covers.now }
    ensures { Summed gpu 4 incoming areas.old covers.now areas.new }
{
    for y in 0..4 {
        shade_row(areas, covers, y, incoming[y]);
    }
}

// The doubled areas of a part, from an incoming cover; false where number 9 refuses it.
pub fn judged_areas(part: &[u64], cover: GpuCover, areas: &mut [i16; 64]) -> bool
    requires { areas.old ≡ no_cells 4 }
    ensures { JudgedAreas gpu 4 cover.covers part.now result areas.new }
{
    let incoming = cover.covers;
    let loads = carry::magnitudes(incoming);
    if !carry::are_light(loads) {
        return false;
    }
    let mut covers = [0i8; 64];
    if !acc_segments(part, loads, areas, &mut covers) {
        return false;
    }
    sum_rows(areas, &covers, incoming);
    true
}
