// The decision about a tile, from its list.
ghost use Rattle.std.specs.Prelude.{◌≡◌, ◌≤◌, length};
ghost use Rattle.layer_table.specs.Table.{Table, table_of};
ghost use Rattle.pass_statements.specs.Entry.{entries_of};
ghost use Rattle.pass_statements.specs.Item.{items_of, EntryColumns};
ghost use Rattle.pass_statements.specs.Covered.{covered_of};
ghost use Rattle.pass_statements.specs.Decision.{code_of, decision_in};
ghost use Rattle.pass_statements.specs.Decide.{has_color, shown_of, are_solid, mixed_of, DecidedBy, passed_of, outcome_of};
ghost use Rattle.pass_statements.specs.Decide.{Deciding};

use crate::{clips, covered};
use pass_statements::Index;
use pass_statements::decide::{Bottom, Decided, Decision};
use styling::Color;
use tile_unchanged::item;

pub fn code_of(decision: Decision) -> u32
    ensures { result ≡ code_of (decision_in decision) }
{
    match decision {
        Decision::None => 0,
        Decision::Solid(_, _) => 1,
        Decision::Paint => 2,
    }
}

// Whether the layers after the first `below` shown ones all have a colour of their own to mix.
fn are_solid(
    ids: &[u32],
    covers: &[i8],
    flags: &[bool],
    n: usize,
    layers: &[u32],
    colors: &[f32],
    count: usize,
    unmasked: &[bool],
    skipped: Index,
    below: usize,
) -> bool
    requires { EntryColumns n ids.now covers.now flags.now × Table layers.now colors.now count
        × (n ≤ length unmasked.now) }
    ensures { result ≡ are_solid below (shown_of skipped.0
        (items_of (table_of layers.now colors.now count)
        (entries_of n ids.now covers.now flags.now)) unmasked.now) }
{
    let mut ok = true;
    let mut left = below;
    for i in skipped.0..n {
        if unmasked[i] {
            if left == 0 {
                let x = item::item_at(ids, covers, flags, n, layers, colors, count, Index(i));
                let func = x.func;
                ok &= func.solid_color().is_some();
            } else {
                left -= 1;
            }
        }
    }
    ok
}

fn mix(
    bottom: Bottom,
    ids: &[u32],
    covers: &[i8],
    flags: &[bool],
    n: usize,
    layers: &[u32],
    colors: &[f32],
    count: usize,
    unmasked: &[bool],
    skipped: Index,
) -> Decision
    requires { EntryColumns n ids.now covers.now flags.now × Table layers.now colors.now count
        × (n ≤ length unmasked.now) }
    ensures { decision_in result ≡ mixed_of bottom (shown_of skipped.0
        (items_of (table_of layers.now colors.now count)
        (entries_of n ids.now covers.now flags.now)) unmasked.now) }
{
    match bottom {
        Bottom::Settled(decision) => decision,
        Bottom::Under(color, k) => {
            if are_solid(
                ids, covers, flags, n, layers, colors, count, unmasked, skipped, k,
            ) {
                Decision::Solid(color, k)
            } else {
                Decision::Paint
            }
        }
    }
}

// The third pass and the decision.
fn decide_unmasked(
    clear: Color,
    removed: bool,
    ids: &[u32],
    covers: &[i8],
    flags: &[bool],
    n: usize,
    layers: &[u32],
    colors: &[f32],
    count: usize,
    unmasked: &[bool],
    unclipped: &[bool],
) -> Decided
    requires { EntryColumns n ids.now covers.now flags.now × Table layers.now colors.now count
        × (n ≤ length unmasked.now) × (n ≤ length unclipped.now) }
    ensures { DecidedBy (covered_of (items_of (table_of layers.now colors.now count)
        (entries_of n ids.now covers.now flags.now)) unmasked.now
        unclipped.now removed) clear (items_of (table_of layers.now colors.now count)
        (entries_of n ids.now covers.now flags.now)) unmasked.now result }
{
    let found = covered::skip_fully_covered_layers_pass(
        ids, covers, flags, n, layers, colors, count, unmasked, unclipped, removed,
    );
    let first = found.first;
    let skipped = found.skipped;
    let bottom = full_cover_steps::bottom_of(first, found.unchanged, clear);
    let decision = mix(
        bottom, ids, covers, flags, n, layers, colors, count, unmasked, skipped,
    );
    Decided {
        decision: decision,
        skipped: skipped,
    }
}

// The second and the third pass, and the decision.
fn run_passes(
    clear: Color,
    removed: bool,
    ids: &[u32],
    covers: &[i8],
    flags: &[bool],
    n: usize,
    layers: &[u32],
    colors: &[f32],
    count: usize,
    unmasked: &mut [bool],
) -> Decided
    requires { EntryColumns n ids.now covers.now flags.now × Table layers.now colors.now count
        × (n ≤ length unmasked.old) }
    ensures { Deciding (passed_of clear removed (items_of
        (table_of layers.now colors.now count)
        (entries_of n ids.now covers.now flags.now))) unmasked.old result
        unmasked.new }
{
    let mut unclipped = [false; 256];
    clips::skip_trivial_clips_pass(
        ids,
        covers,
        flags,
        n,
        layers,
        colors,
        count,
        unmasked,
        &mut unclipped,
    );
    decide_unmasked(
        clear, removed, ids, covers, flags, n, layers, colors, count, unmasked, &unclipped,
    )
}

// All three passes: the decision about a tile, with the column of the layers that are not masked off.
pub fn decide(
    clear: Color,
    clear_unchanged: bool,
    previous: Option<u32>,
    ids: &[u32],
    covers: &[i8],
    flags: &[bool],
    n: usize,
    layers: &[u32],
    colors: &[f32],
    count: usize,
    unmasked: &mut [bool],
) -> Decided
    requires { EntryColumns n ids.now covers.now flags.now × Table layers.now colors.now count
        × (n ≤ length unmasked.old) }
    ensures { Deciding (outcome_of clear clear_unchanged previous
        (items_of (table_of layers.now colors.now count)
        (entries_of n ids.now covers.now flags.now))) unmasked.old result
        unmasked.new }
{
    if tile_unchanged::is_kept(
        clear_unchanged,
        previous,
        ids,
        covers,
        flags,
        n,
        layers,
        colors,
        count,
    ) {
        clips::fill(unmasked, n, true);
        return Decided {
            decision: Decision::None,
            skipped: Index(0),
        };
    }
    let removed = tile_unchanged::were_removed(previous, n);
    run_passes(
        clear, removed, ids, covers, flags, n, layers, colors, count, unmasked,
    )
}
