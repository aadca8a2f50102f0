// The layers of a tile painted one after the other, in one walk over the queue that the tile took in and its part of
// the row in step: nothing that is passed is looked at again. A clipped draw's need of a clip is told by one number.
#![tactic(auto)]

ghost use Rattle.std.specs.Prelude.{◌≡◌, false, not, ◌&&◌, ◌+◌, ◌≤◌, ◌<◌, ltb, length};
ghost use Rattle.styling.specs.Style.{is_clipped_of};
ghost use Rattle.layer_table.specs.Table.{table_of};
ghost use Rattle.queue_statements.specs.Queue.{queue_of};
ghost use Rattle.pass_statements.specs.Item.{item_for};
ghost use Rattle.tile_layers.specs.Listing.{layers_in};
ghost use Rattle.listed_painting.specs.InnerFreeing.{free_after};
ghost use Rattle.listed_painting.specs.InnerWalk.{Painter, WalkHolds, WalkStarts, StartsAnywhere};
ghost use Rattle.listed_painting.specs.InnerWalk.{PassesOver, CanPaint, PaintsNext};

use cover::Cover;
use painter::painting;
use styling::{Func, Layer};
use tile_layers::walk;
use tile_layers::walk::Next;

// Where the walk stands, before the next layer: how many layers are passed, and with them how many carries and
// segments; the painter's clip; the id below which the latest clip that was met frees clipped draws; and where in the
// table the next layer's record may stand.
#[derive(Clone, Copy)]
pub struct PaintWalk {
    pub passed: usize,
    pub carries: usize,
    pub segments: usize,
    pub clip: Option<u32>,
    pub free_below: u64,
    pub hint: usize,
}

// What painting the next layer gives: where the walk stands after it, its id and its mark.
#[derive(Clone, Copy)]
pub struct PaintedNext {
    pub walk: PaintWalk,
    pub id: u32,
    pub mark: u32,
}

// Before the first layer of a tile.
pub fn start() -> PaintWalk
    ensures { StartsAnywhere result }
{
    PaintWalk {
        passed: 0,
        carries: 0,
        segments: 0,
        clip: None,
        free_below: 0,
        hint: 0,
    }
}

// Below which id clipped draws are freed once a layer is met: a clip that is full in the tile frees up to the last id
// that it reaches, any other clip frees none, and a draw leaves it.
fn free_after(layer: Layer, id: u32, cover: Cover, has_segments: bool, free_below: u64) -> u64
    ensures { result ≡ free_after (item_for layer (record {
      id = id;
      cover = cover.covers;
      segments =
          has_segments;
      changed = false;
    })) free_below }
{
    let props = layer.props;
    let rule = props.fill_rule;
    let func = props.func;
    match func {
        Func::Draw(_) => free_below,
        Func::Clip(span) => {
            if has_segments {
                return 0;
            }
            if cover.is_full(rule) {
                id as u64 + span as u64 + 1
            } else {
                0
            }
        }
    }
}

// Whether a draw needs a clip.
fn needs_clip(func: Func, id: u32, free_below: u64) -> bool
    ensures { result ≡ (is_clipped_of func && not (ltb id free_below)) }
{
    func.is_clipped() & !((id as u64) < free_below)
}

// The walk after the layer that was met.
fn step(passed: usize, next: Next, clip: Option<u32>, free_below: u64, hint: usize) -> PaintWalk
    requires { passed < 18446744073709551615 }
    ensures { result ≡ record {
      passed = passed + 1;
      carries = next.i;
      segments = next.end;
      clip = clip;
      free_below =
          free_below;
      hint = hint;
    } }
{
    PaintWalk {
        passed: passed + 1,
        carries: next.i,
        segments: next.end,
        clip: clip,
        free_below: free_below,
        hint: hint,
    }
}

// Passes over the next layer, one that is skipped or masked off: a clip among them may free draws, shown or not.
pub fn pass_over(
    ids: &[u32],
    covers: &[i8],
    n: usize,
    part: &[u64],
    layers: &[u32],
    colors: &[f32],
    count: usize,
    at: PaintWalk,
) -> PaintWalk
    requires { Painter n ids.now covers.now part.now layers.now colors.now count
        × WalkHolds (table_of layers.now colors.now count) n ids.now covers.now part.now at
        × (at.passed < length (layers_in (queue_of n ids.now covers.now) part.now)) }
    ensures { PassesOver (table_of layers.now colors.now count)
        n ids.now covers.now part.now at result }
{
    let clip = at.clip;
    let i = at.carries;
    let j = at.segments;
    let next = walk::next_layer(ids, n, part, i, j);
    let cover = walk::incoming_cover(covers, next.carried, i);
    match layer_table::find_from(layers, count, at.hint, next.id) {
        Some(p) => {
            let layer = layer_table::layer_at(layers, colors, p);
            let free_below = free_after(layer, next.id, cover, j < next.end, at.free_below);
            step(at.passed, next, clip, free_below, p + 1)
        }
        None => step(at.passed, next, clip, at.free_below, at.hint),
    }
}

// The walk past the first `skipped` layers of a tile, none of them painted.
pub fn start_past(
    ids: &[u32],
    covers: &[i8],
    n: usize,
    part: &[u64],
    layers: &[u32],
    colors: &[f32],
    count: usize,
    skipped: usize,
) -> PaintWalk
    requires { Painter n ids.now covers.now part.now layers.now colors.now count
        × (skipped ≤ length (layers_in (queue_of n ids.now covers.now) part.now)) }
    ensures { WalkStarts (table_of layers.now colors.now count)
        n ids.now covers.now part.now skipped result }
{
    let mut at = start();
    for _ in 0..skipped {
        at = pass_over(ids, covers, n, part, layers, colors, count, at);
    }
    at
}

// Paints the next layer: its coverages into the plane, its mark, and the clip after it.
pub fn paint_next(
    ids: &[u32],
    covers: &[i8],
    n: usize,
    part: &[u64],
    layers: &[u32],
    colors: &[f32],
    count: usize,
    at: PaintWalk,
    plane: &mut [f32],
) -> PaintedNext
    requires { Painter n ids.now covers.now part.now layers.now colors.now count
        × WalkHolds (table_of layers.now colors.now count) n ids.now covers.now part.now at
        × CanPaint (table_of layers.now colors.now count) (queue_of n ids.now covers.now) part.now at.passed
        × (256 ≤ length plane.old) }
    ensures { PaintsNext (table_of layers.now colors.now count)
        n ids.now covers.now part.now at plane.old result plane.new }
{
    let clip = at.clip;
    let i = at.carries;
    let j = at.segments;
    let next = walk::next_layer(ids, n, part, i, j);
    let end = next.end;
    let cover = walk::incoming_cover(covers, next.carried, i);
    match layer_table::find_from(layers, count, at.hint, next.id) {
        Some(p) => {
            let layer = layer_table::layer_at(layers, colors, p);
            let props = layer.props;
            let func = props.func;
            let needs = needs_clip(func, next.id, at.free_below);
            let own = &part[j..end];
            let painted = painting::paint_own(own, cover, next.id, layer, needs, clip, plane);
            let after = painted.clip;
            let free_below = free_after(layer, next.id, cover, j < end, at.free_below);
            PaintedNext {
                walk: step(at.passed, next, after, free_below, p + 1),
                id: next.id,
                mark: painted.mark,
            }
        }
        None => PaintedNext {
            walk: step(at.passed, next, clip, at.free_below, at.hint),
            id: next.id,
            mark: 0,
        },
    }
}
