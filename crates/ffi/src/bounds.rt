// Covers known within bounds. The carry's bounds are lent as 16 signed bytes each.
ghost use Rattle.std.specs.Prelude.{◌≡◌};
ghost use Rattle.refusals.specs.Refusal.{judgement_in};
ghost use Rattle.cover_bounds_statements.specs.Within.{bounds_call, bound_planes};
ghost use Rattle.ffi.specs.Bounds.{bounds_number, BoundsTold};

use cover::Cover;
use refusals::Refusal;

fn tell_verdict(verdict: Result<(), Refusal>) -> u32
    ensures { result ≡ bounds_number (judgement_in verdict) }
{
    match verdict {
        Ok(()) => 0,
        Err(refusal) => refusals::number_of(refusal),
    }
}

// 0 and the six planes, or the number of the refusal. `bounds` has two bytes a segment, its lowest and its highest
// cover.
#[unsafe(no_mangle)]
pub extern "C" fn ffi_bound_part(
    layer_id: u32,
    tile_x: i16,
    tile_y: i16,
    part: &[u64],
    bounds: &[i8],
    low: &[i8; 16],
    high: &[i8; 16],
    lowest: &mut [i16],
    highest: &mut [i16],
    least_non_zero: &mut [u16],
    greatest_non_zero: &mut [u16],
    least_even_odd: &mut [u16],
    greatest_even_odd: &mut [u16],
) -> u32
    ensures { BoundsTold
        (bounds_call layer_id tile_x tile_y part.now bounds.now
        low.now high.now)
        (bound_planes lowest.old highest.old
        least_non_zero.old greatest_non_zero.old
        least_even_odd.old greatest_even_odd.old)
        result
        (bound_planes lowest.new highest.new
        least_non_zero.new greatest_non_zero.new
        least_even_odd.new greatest_even_odd.new) }
{
    let lows = *low;
    let highs = *high;
    let verdict = cover_bounds::bound_part(
        layer_id,
        tile_x,
        tile_y,
        part,
        bounds,
        Cover { covers: lows },
        Cover { covers: highs },
        lowest,
        highest,
        least_non_zero,
        greatest_non_zero,
        least_even_odd,
        greatest_even_odd,
    );
    tell_verdict(verdict)
}
