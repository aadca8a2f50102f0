// The third pass, `skip_fully_covered_layers_pass`, over the list.
ghost use Rattle.std.specs.Prelude.{◌≡◌, ◌≤◌, ◌<◌, length};
ghost use Rattle.layer_table.specs.Table.{Table, table_of};
ghost use Rattle.pass_statements.specs.Entry.{entry_at, entries_of};
ghost use Rattle.pass_statements.specs.Item.{item_of, items_of, EntryColumns};
ghost use Rattle.pass_statements.specs.Covered.{is_clip_unchanged, are_clips_unchanged, start_of, covered_of};

use pass_statements::Index;
use pass_statements::covered::{Covered, InterestingCover};
use tile_unchanged::item;

// Whether the listed layer in place i is a draw or unchanged. What is unchanged need not be looked up.
fn is_clip_unchanged(
    ids: &[u32],
    covers: &[i8],
    flags: &[bool],
    n: usize,
    layers: &[u32],
    colors: &[f32],
    count: usize,
    i: Index,
) -> bool
    requires { EntryColumns n ids.now covers.now flags.now × Table layers.now colors.now count
        × (i.0 < n) }
    ensures { result ≡ is_clip_unchanged (item_of (table_of layers.now colors.now count)
        (entry_at ids.now covers.now flags.now i.0)) }
{
    let at = i.0;
    if flags[256 + at] {
        let x = item::item_at(ids, covers, flags, n, layers, colors, count, i);
        let func = x.func;
        !trivial_clip_steps::is_clip(func)
    } else {
        true
    }
}

// Whether no listed clip is changed, masked off or not.
fn are_clips_unchanged(
    ids: &[u32],
    covers: &[i8],
    flags: &[bool],
    n: usize,
    layers: &[u32],
    colors: &[f32],
    count: usize,
) -> bool
    requires { EntryColumns n ids.now covers.now flags.now × Table layers.now colors.now count }
    ensures { result ≡ are_clips_unchanged (items_of (table_of layers.now colors.now count)
        (entries_of n ids.now covers.now flags.now)) }
{
    let mut ok = true;
    for i in 0..n {
        ok &= is_clip_unchanged(ids, covers, flags, n, layers, colors, count, Index(i));
    }
    ok
}

// What is known before the first look: where layers were removed, clips need not be asked for.
fn start(
    ids: &[u32],
    covers: &[i8],
    flags: &[bool],
    n: usize,
    layers: &[u32],
    colors: &[f32],
    count: usize,
    removed: bool,
) -> Covered
    requires { EntryColumns n ids.now covers.now flags.now × Table layers.now colors.now count }
    ensures { result ≡ start_of (items_of (table_of layers.now colors.now count)
        (entries_of n ids.now covers.now flags.now)) removed }
{
    if removed {
        Covered {
            first: InterestingCover::Absent,
            unchanged: false,
            skipped: Index(0),
        }
    } else {
        Covered {
            first: InterestingCover::Absent,
            unchanged: are_clips_unchanged(ids, covers, flags, n, layers, colors, count),
            skipped: Index(0),
        }
    }
}

// The pass, over the layers that the second one did not mask off.
pub fn skip_fully_covered_layers_pass(
    ids: &[u32],
    covers: &[i8],
    flags: &[bool],
    n: usize,
    layers: &[u32],
    colors: &[f32],
    count: usize,
    unmasked: &[bool],
    unclipped: &[bool],
    removed: bool,
) -> Covered
    requires { EntryColumns n ids.now covers.now flags.now × Table layers.now colors.now count
        × (n ≤ length unmasked.now) × (n ≤ length unclipped.now) }
    ensures { result ≡ covered_of (items_of (table_of layers.now colors.now count)
        (entries_of n ids.now covers.now flags.now)) unmasked.now
        unclipped.now removed }
{
    let mut found = start(ids, covers, flags, n, layers, colors, count, removed);
    for i in (0..n).rev() {
        if unmasked[i] {
            let at = Index(i);
            let x = item::item_at(ids, covers, flags, n, layers, colors, count, at);
            found = full_cover_steps::look_at(x, unclipped[i], at, found);
            if full_cover_steps::hides(x, unclipped[i]) {
                return found;
            }
        }
    }
    found
}
