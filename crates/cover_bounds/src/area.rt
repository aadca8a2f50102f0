// d of a tile's 256 pixels at one side of the bounds, by columns: one pass over the segments and one over the columns.
ghost use Rattle.std.specs.Prelude.{◌≡◌, true, ◌+◌, ◌*◌, ◌<◌, pos, ◌*ℤ◌, length};
ghost use Rattle.pixel_segment.specs.Field.{cpu, multiplier_of};
ghost use Rattle.cover_statements.specs.Area.{areas_of};
ghost use Rattle.cover_statements.specs.InnerCell.{no_cells, Accumulated};
ghost use Rattle.cover_statements.specs.Carry.{is_light};
ghost use Rattle.cover_statements.specs.Cover.{cover_at};
ghost use Rattle.cover_bounds_statements.specs.Chosen.{chosen};
ghost use Rattle.cover_bounds_statements.specs.Within.{bound_at};
ghost use Rattle.cover_bounds_statements.specs.InnerPlanes.{AddableSide};

use cover::Cover;
use pixel_segment::PixelSegment;
use plane::area;

// Segment i's bound on a side, the lowest cover on side 0 and the highest on side 1.
pub fn bound_at(bounds: &[i8], side: usize, i: usize) -> i8
    requires { 2 * i + side < length bounds.now }
    ensures { result ≡ bound_at side bounds.now i }
{
    bounds[2 * i + side]
}

// The double area of a segment with another cover.
fn double_area(segment: PixelSegment, cover: i8) -> i16
    ensures { result ≡ pos (multiplier_of cpu segment.0) *ℤ cover }
{
    (segment.double_area_multiplier() as i16) * (cover as i16)
}

// The double areas and the covers of each cell, summed, with each segment's bound on a side for its cover.
fn add_bounds(
    part: &[u64],
    bounds: &[i8],
    side: usize,
    areas: &mut [i16; 256],
    covers: &mut [i8; 256],
)
    requires { AddableSide part.now side bounds.now × (areas.old ≡ no_cells 16) × (covers.old ≡ no_cells 16) }
    ensures { Accumulated cpu 16 (chosen cpu part.now (bound_at side bounds.now))
        areas.new covers.new }
{
    for (i, word) in part.iter().enumerate() {
        let segment = PixelSegment(*word);
        let cover = bound_at(bounds, side, i);
        let k = area::cell(segment);
        areas[k] += double_area(segment, cover);
        covers[k] += cover;
    }
}

// d of all pixels with every cover at the bound of a side, from the carry of that side.
pub fn sum_bounds(part: &[u64], bounds: &[i8], side: usize, cover: Cover, areas: &mut [i16; 256])
    requires { AddableSide part.now side bounds.now
        × (is_light cpu 16 cover.covers (chosen cpu part.now (bound_at side bounds.now)) ≡ true)
        × (areas.old ≡ no_cells 16) }
    ensures { areas.new ≡ areas_of cpu 16 (cover_at cover.covers)
        (chosen cpu part.now (bound_at side bounds.now)) }
{
    let incoming = cover.covers;
    let mut covers = [0i8; 256];
    add_bounds(part, bounds, side, areas, &mut covers);
    area::sum_columns(areas, &covers, incoming);
}
