// The lowest refusal that applies to a call with bounds: 1, 3, 14, 9.
ghost use Rattle.std.specs.Prelude.{◌≡◌, true, List, ℕ, ◌/◌, ◌≤◌, ℤ, length};
ghost use Rattle.std.specs.Int.Signed.{le_z};
ghost use Rattle.laws.specs.Lists.{tabulate};
ghost use Rattle.refusals.specs.Refusal.{judgement_in};
ghost use Rattle.pixel_segment.specs.Field.{cpu};
ghost use Rattle.cover_statements.specs.Cover.{cover_at};
ghost use Rattle.cover_statements.specs.InnerLoad.{Capped, loads_of};
ghost use Rattle.cover_bounds_statements.specs.Chosen.{chosen, heavier, is_light_within};
ghost use Rattle.cover_bounds_statements.specs.Within.{bounds_call, bound_planes, bound_at, bounds_verdict};
ghost use Rattle.cover_bounds_statements.specs.Within.{lacks_room, is_cover, is_bounded, are_bounded, is_carry_bounded};

use crate::area;
use cover::{Cover, carry};
use pixel_segment::PixelSegment;
use refusals::Refusal;

// Number 1.
fn lacks_room(
    part: &[u64],
    bounds: &[i8],
    lowest: &[i16],
    highest: &[i16],
    least_non_zero: &[u16],
    greatest_non_zero: &[u16],
    least_even_odd: &[u16],
    greatest_even_odd: &[u16],
) -> bool
    ensures { (layer : ℕ) (tile_x tile_y : ℤ) (low high : List ℤ) → result ≡ lacks_room
        (bounds_call layer tile_x tile_y part.now bounds.now low high)
        (bound_planes lowest.now highest.now
        least_non_zero.now greatest_non_zero.now
        least_even_odd.now greatest_even_odd.now) }
{
    (bounds.len() / 2 < part.len())
        | (lowest.len() < 256)
        | (highest.len() < 256)
        | (least_non_zero.len() < 256)
        | (greatest_non_zero.len() < 256)
        | (least_even_odd.len() < 256)
        | (greatest_even_odd.len() < 256)
}

// Whether a word can hold a cover.
fn is_cover(v: i8) -> bool
    ensures { result ≡ is_cover v }
{
    (-32 <= v) & (v <= 31)
}

fn is_at_most(a: i8, b: i8) -> bool
    ensures { result ≡ le_z a b }
{
    a <= b
}

// Number 14 of a segment's bounds: whether it does not apply.
fn is_bounded(low: i8, high: i8) -> bool
    ensures { result ≡ is_bounded low high }
{
    is_cover(low) & is_cover(high) & is_at_most(low, high)
}

// Number 14 of the first bounds, `count` pairs.
fn are_bounded(bounds: &[i8], count: usize) -> bool
    requires { count ≤ length bounds.now / 2 }
    ensures { result ≡ are_bounded count bounds.now }
{
    let mut ok = true;
    for i in 0..count {
        ok &= is_bounded(area::bound_at(bounds, 0, i), area::bound_at(bounds, 1, i));
    }
    ok
}

// Number 14 of the carry's bounds.
fn is_carry_bounded(low: Cover, high: Cover) -> bool
    ensures { result ≡ is_carry_bounded low.covers high.covers }
{
    let lows = low.covers;
    let highs = high.covers;
    let mut ok = true;
    for y in 0..16 {
        ok &= is_at_most(lows[y], highs[y]);
    }
    ok
}

// The one of the greater absolute value.
fn heavier(a: i8, b: i8) -> i8
    ensures { result ≡ heavier a b }
{
    if weight::cover_magnitude(a) <= weight::cover_magnitude(b) {
        b
    } else {
        a
    }
}

// Of the carry's bounds, in each row.
fn heavier_carry(low: Cover, high: Cover) -> [i8; 16]
    ensures { result ≡ tabulate 16 (λ y. heavier (cover_at low.covers y) (cover_at high.covers y)) }
{
    let lows = low.covers;
    let highs = high.covers;
    let mut covers = [0i8; 16];
    for y in 0..16 {
        covers[y] = heavier(lows[y], highs[y]);
    }
    covers
}

// The absolute covers of each pixel row, in one pass over the segments, the heavier bound of each taken.
fn add_heavier(part: &[u64], bounds: &[i8], incoming: [u16; 16]) -> [u16; 16]
    requires { Capped incoming × (length part.now ≤ length bounds.now / 2)
        × (are_bounded (length part.now) bounds.now ≡ true) }
    ensures { result ≡ loads_of cpu 16 incoming (chosen cpu part.now
        (λ i. heavier (bound_at 0 bounds.now i) (bound_at 1 bounds.now i))) }
{
    let mut loads = incoming;
    for (i, word) in part.iter().enumerate() {
        let y = PixelSegment(*word).local_y() as usize;
        let cover = heavier(area::bound_at(bounds, 0, i), area::bound_at(bounds, 1, i));
        loads[y] = carry::raised(loads[y], cover);
    }
    loads
}

// Number 9: whether it applies at no pixel row.
fn is_light_within(part: &[u64], bounds: &[i8], low: Cover, high: Cover) -> bool
    requires { (length part.now ≤ length bounds.now / 2)
        × (are_bounded (length part.now) bounds.now ≡ true) }
    ensures { result ≡ is_light_within cpu 16 low.covers high.covers part.now
        (bound_at 0 bounds.now) (bound_at 1 bounds.now) }
{
    let loads = carry::magnitudes(heavier_carry(low, high));
    carry::are_light(add_heavier(part, bounds, loads))
}

pub fn judge_bounds(
    layer_id: u32,
    tile_x: i16,
    tile_y: i16,
    part: &[u64],
    bounds: &[i8],
    low: Cover,
    high: Cover,
    lowest: &[i16],
    highest: &[i16],
    least_non_zero: &[u16],
    greatest_non_zero: &[u16],
    least_even_odd: &[u16],
    greatest_even_odd: &[u16],
) -> Result<(), Refusal>
    ensures { judgement_in result ≡ bounds_verdict
        (bounds_call layer_id tile_x tile_y part.now bounds.now low.covers high.covers)
        (bound_planes lowest.now highest.now
        least_non_zero.now greatest_non_zero.now
        least_even_odd.now greatest_even_odd.now) }
{
    if lacks_room(
        part,
        bounds,
        lowest,
        highest,
        least_non_zero,
        greatest_non_zero,
        least_even_odd,
        greatest_even_odd,
    ) {
        return Err(Refusal::Room);
    }
    if !segment_judging::are_of(layer_id, tile_x, tile_y, part) {
        return Err(Refusal::Row);
    }
    if !(are_bounded(bounds, part.len()) & is_carry_bounded(low, high)) {
        return Err(Refusal::Bounds);
    }
    if !is_light_within(part, bounds, low, high) {
        return Err(Refusal::Covers);
    }
    Ok(())
}
