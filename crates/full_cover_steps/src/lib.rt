// The third pass, `skip_fully_covered_layers_pass`, at one layer, and what lies below the layers to mix by what it
// found. The pass itself is of passes.
#![tactic(auto)]

ghost use Rattle.std.specs.Prelude.{◌≡◌};
ghost use Rattle.pass_statements.specs.Covered.{first_of, opaque_of, is_partial, hides as hidesOf, tells as tellsOf};
ghost use Rattle.pass_statements.specs.Covered.{skip_to, look_at};
ghost use Rattle.pass_statements.specs.Decide.{bottom_of};

use pass_statements::Index;
use pass_statements::covered::{Covered, InterestingCover};
use pass_statements::decide::{Bottom, Decision};
use pass_statements::item::Item;
use styling::Color;

fn first_of(first: InterestingCover, next: InterestingCover) -> InterestingCover
    ensures { result ≡ first_of first next }
{
    match first {
        InterestingCover::Absent => next,
        InterestingCover::Opaque(color) => InterestingCover::Opaque(color),
        InterestingCover::Incomplete => InterestingCover::Incomplete,
    }
}

fn to_opaque(paint: Option<Color>) -> InterestingCover
    ensures { result ≡ opaque_of paint }
{
    match paint {
        Some(color) => InterestingCover::Opaque(color),
        None => InterestingCover::Incomplete,
    }
}

// Whether the layer leaves a part of the tile uncovered: it needs a clip, or is not full.
fn is_partial(x: Item, unclipped: bool) -> bool
    ensures { result ≡ is_partial x unclipped }
{
    let func = x.func;
    (func.is_clipped() & !unclipped) | !x.full
}

// Whether the layer hides all below it.
pub fn hides(x: Item, unclipped: bool) -> bool
    ensures { result ≡ hidesOf x unclipped }
{
    let func = x.func;
    !is_partial(x, unclipped) & func.is_opaque()
}

fn tells(x: Item, unclipped: bool) -> InterestingCover
    ensures { result ≡ tellsOf x unclipped }
{
    let func = x.func;
    if is_partial(x, unclipped) {
        return InterestingCover::Incomplete;
    }
    if func.is_opaque() {
        to_opaque(func.solid_color())
    } else {
        InterestingCover::Absent
    }
}

fn skip_to(skipped: Index, i: Index, hidden: bool) -> Index
    ensures { result ≡ skip_to skipped i hidden }
{
    if hidden { i } else { skipped }
}

// A look at the layer x in place i, which is not masked off.
pub fn look_at(x: Item, unclipped: bool, i: Index, found: Covered) -> Covered
    ensures { result ≡ look_at x unclipped i.0 found }
{
    let before = found.first;
    let so_far = found.skipped;
    let first = first_of(before, tells(x, unclipped));
    let skipped = skip_to(so_far, i, hides(x, unclipped));
    Covered {
        first: first,
        unchanged: found.unchanged & x.unchanged,
        skipped: skipped,
    }
}

// What lies below the layers to mix, by the first cover that tells.
pub fn bottom_of(first: InterestingCover, is_unchanged: bool, clear: Color) -> Bottom
    ensures { result ≡ bottom_of first is_unchanged clear }
{
    match first {
        // The first opaque layer is not mixed.
        InterestingCover::Opaque(color) => {
            if is_unchanged {
                Bottom::Settled(Decision::None)
            } else {
                Bottom::Under(color, 1)
            }
        }
        InterestingCover::Absent => Bottom::Under(clear, 0),
        InterestingCover::Incomplete => Bottom::Settled(Decision::Paint),
    }
}
