// The second pass, `skip_trivial_clips_pass`, over the list.
ghost use Rattle.std.specs.Prelude.{◌≡◌, ◌≤◌, ◌<◌, length, set, replicate};
ghost use Rattle.laws.specs.Lists.{over};
ghost use Rattle.layer_table.specs.Table.{Table, table_of};
ghost use Rattle.pass_statements.specs.Entry.{entries_of};
ghost use Rattle.pass_statements.specs.Item.{items_of, EntryColumns};
ghost use Rattle.pass_statements.specs.Clips.{mask_off, unmasked_after, last_clip, Marking};

use pass_statements::Index;
use pass_statements::clips::{ActiveClip, Step};
use tile_unchanged::item;

// Masks off the entry i, if there is one, where `off` says so.
fn mask_off(unmasked: &mut [bool], i: Index, off: bool)
    ensures { unmasked.new ≡ mask_off unmasked.old i.0 off }
{
    let at = i.0;
    if off {
        if at < unmasked.len() {
            unmasked[at] = false;
        }
    }
}

// A clip that is still current when the list ends, and was not used, is masked off.
fn mask_last(unmasked: &mut [bool], cur: Option<ActiveClip>)
    ensures { unmasked.new ≡ last_clip cur unmasked.old }
{
    if let Some(clip) = cur {
        mask_off(unmasked, clip.at, !clip.used);
    }
}

// The marks of one turn: the layer in place i, and then a clip that ended unused.
fn mark(unmasked: &mut [bool], unclipped: &mut [bool], i: Index, s: Step)
    requires { i.0 < length unclipped.old }
    ensures { (unmasked.new ≡ unmasked_after unmasked.old i.0 s)
        × (unclipped.new ≡ set unclipped.old i.0 s.unclipped) }
{
    mask_off(unmasked, i, s.masked);
    let clip = s.at;
    mask_off(unmasked, clip, s.unused);
    let at = i.0;
    unclipped[at] = s.unclipped;
}

// The first n entries of a lent column set to one mark.
pub fn fill(column: &mut [bool], n: usize, mark: bool)
    requires { n ≤ length column.old }
    ensures { column.new ≡ over (replicate n mark) column.old }
{
    column[..n].fill(mark);
}

// The pass: which layers are not masked off, and which clipped draws are drawn unclipped.
pub fn skip_trivial_clips_pass(
    ids: &[u32],
    covers: &[i8],
    flags: &[bool],
    n: usize,
    layers: &[u32],
    colors: &[f32],
    count: usize,
    unmasked: &mut [bool],
    unclipped: &mut [bool],
)
    requires { EntryColumns n ids.now covers.now flags.now × Table layers.now colors.now count
        × (n ≤ length unmasked.old) × (n ≤ length unclipped.old) }
    ensures { Marking (items_of (table_of layers.now colors.now count)
        (entries_of n ids.now covers.now flags.now)) unmasked.old
        unclipped.old unmasked.new unclipped.new }
{
    fill(unmasked, n, true);
    fill(unclipped, n, false);
    let mut cur = None;
    for i in 0..n {
        let at = Index(i);
        let x = item::item_at(ids, covers, flags, n, layers, colors, count, at);
        let s = trivial_clip_steps::clip_step(x, cur, at);
        mark(unmasked, unclipped, at, s);
        cur = s.cur;
    }
    mask_last(unmasked, cur);
}
