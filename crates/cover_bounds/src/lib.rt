// Covers known within bounds: for one layer in one tile, the lowest and the highest d of each pixel, and the least and
// the greatest weight of the numbers between them, by both rules, in six lent planes.
#![tactic(auto)]

pub mod area;
pub mod interval;
pub mod judging;
pub mod planes;

ghost use Rattle.cover_bounds_statements.specs.Within.{bounds_call, bound_planes};
ghost use Rattle.cover_bounds_statements.specs.Part.{BoundsPart};

use cover::Cover;
use refusals::Refusal;

// The planes of a part whose covers lie within `bounds`, two bytes a segment, from a carry between `low` and `high`; or
// a refusal, which leaves them as they were.
pub fn bound_part(
    layer_id: u32,
    tile_x: i16,
    tile_y: i16,
    part: &[u64],
    bounds: &[i8],
    low: Cover,
    high: Cover,
    lowest: &mut [i16],
    highest: &mut [i16],
    least_non_zero: &mut [u16],
    greatest_non_zero: &mut [u16],
    least_even_odd: &mut [u16],
    greatest_even_odd: &mut [u16],
) -> Result<(), Refusal>
    ensures { BoundsPart
        (bounds_call layer_id tile_x tile_y part.now bounds.now low.covers high.covers)
        (bound_planes lowest.old highest.old
        least_non_zero.old greatest_non_zero.old
        least_even_odd.old greatest_even_odd.old)
        result
        (bound_planes lowest.new highest.new
        least_non_zero.new greatest_non_zero.new
        least_even_odd.new greatest_even_odd.new) }
{
    judging::judge_bounds(
        layer_id,
        tile_x,
        tile_y,
        part,
        bounds,
        low,
        high,
        lowest,
        highest,
        least_non_zero,
        greatest_non_zero,
        least_even_odd,
        greatest_even_odd,
    )?;
    let mut lows = [0i16; 256];
    let mut highs = [0i16; 256];
    area::sum_bounds(part, bounds, 0, low, &mut lows);
    area::sum_bounds(part, bounds, 1, high, &mut highs);
    planes::write_planes(
        &lows,
        &highs,
        lowest,
        highest,
        least_non_zero,
        greatest_non_zero,
        least_even_odd,
        greatest_even_odd,
    );
    Ok(())
}
