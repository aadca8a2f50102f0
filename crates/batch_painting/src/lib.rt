// The shown layers of a tile, counted and, where the tile is painted, painted in one walk, each into the next of the
// lent planes.
#![tactic(auto)]

ghost use Rattle.std.specs.Prelude.{◌≡◌, true, ◌≤◌, take};
ghost use Rattle.std.specs.Prelude.{None};
ghost use Rattle.layer_table.specs.Table.{table_of};
ghost use Rattle.queue_statements.specs.Queue.{queue_of};
ghost use Rattle.listed_painting.specs.InnerWalk.{Painter, WalkHolds, CanPaint};
ghost use Rattle.row_lines.specs.Shown.{shown_in};
ghost use Rattle.shown_layers.specs.Counting.{ids_of};
ghost use Rattle.shown_layers.specs.InnerTally.{Walkable};
ghost use Rattle.batch_painting.specs.InnerShown.{walk_at, walk_from, PlaneRoom, EntryPainted, AllPainted};

use listed_painting::PaintWalk;
use row_statements::RowState;

// The state with the painter's clip, how many planes are used, and how many layers were shown.
#[derive(Clone, Copy)]
pub struct Planes {
    pub state: RowState,
    pub used: usize,
    pub shown: usize,
}

// Where the walk over the tile's layers stands, how many planes are used, and how many layers were shown so far.
#[derive(Clone, Copy)]
pub struct PlaneWalk {
    pub walk: PaintWalk,
    pub used: usize,
    pub shown: usize,
}

fn with_clip(state: RowState, clip: Option<u32>) -> RowState
    ensures { result ≡ record {
      tile_y = state.tile_y;
      from = state.from;
      to = state.to;
      next = state.next;
      left = state.left;
      taken = state.taken;
      clip = clip;
    } }
{
    RowState {
        tile_y: state.tile_y,
        from: state.from,
        to: state.to,
        next: state.next,
        left: state.left,
        taken: state.taken,
        clip: clip,
    }
}

// Paints the next layer into the next plane.
fn paint_layer(
    ids: &[u32],
    covers: &[i8],
    n: usize,
    part: &[u64],
    layers: &[u32],
    colors: &[f32],
    count: usize,
    at: PlaneWalk,
    planes: &mut [f32],
    painted: &mut [u32],
) -> PlaneWalk
    requires { Painter n ids.now covers.now part.now layers.now colors.now count
        × WalkHolds (table_of layers.now colors.now count) n ids.now covers.now part.now at.walk
        × CanPaint (table_of layers.now colors.now count) (queue_of n ids.now covers.now) part.now
        at.walk.passed
        × PlaneRoom at.used 1 planes.old painted.old × (at.shown ≤ 256) }
    ensures { EntryPainted true (table_of layers.now colors.now count)
        n ids.now covers.now part.now
        at planes.old painted.old result planes.new painted.new }
{
    let walk = at.walk;
    let used = at.used;
    let start = used * 256;
    let end = start + 256;
    let words = used * 2;
    let next = used + 1;
    let made = listed_painting::paint_next(
        ids,
        covers,
        n,
        part,
        layers,
        colors,
        count,
        walk,
        &mut planes[start..end],
    );
    batch_noting::put_words(painted, words, made.id, made.mark);
    let after = made.walk;
    PlaneWalk {
        walk: after,
        used: next,
        shown: at.shown + 1,
    }
}

// The next layer: one that is masked off is passed over, another is painted.
fn paint_entry(
    unmasked: bool,
    ids: &[u32],
    covers: &[i8],
    n: usize,
    part: &[u64],
    layers: &[u32],
    colors: &[f32],
    count: usize,
    at: PlaneWalk,
    planes: &mut [f32],
    painted: &mut [u32],
) -> PlaneWalk
    requires { Painter n ids.now covers.now part.now layers.now colors.now count
        × WalkHolds (table_of layers.now colors.now count) n ids.now covers.now part.now at.walk
        × CanPaint (table_of layers.now colors.now count) (queue_of n ids.now covers.now) part.now
        at.walk.passed
        × PlaneRoom at.used 1 planes.old painted.old × (at.shown ≤ 256) }
    ensures { EntryPainted unmasked (table_of layers.now colors.now count)
        n ids.now covers.now part.now
        at planes.old painted.old result planes.new painted.new }
{
    if unmasked {
        paint_layer(
            ids, covers, n, part, layers, colors, count, at, planes, painted,
        )
    } else {
        let walk = at.walk;
        let passed = listed_painting::pass_over(ids, covers, n, part, layers, colors, count, walk);
        PlaneWalk {
            walk: passed,
            used: at.used,
            shown: at.shown,
        }
    }
}

// The shown layers of a painted tile with `listed` layers, of which the first `skipped` are covered: each is painted.
fn paint_listed(
    ids: &[u32],
    covers: &[i8],
    n: usize,
    part: &[u64],
    layers: &[u32],
    colors: &[f32],
    count: usize,
    list_unmasked: &[bool],
    skipped: usize,
    listed: usize,
    used: usize,
    planes: &mut [f32],
    painted: &mut [u32],
) -> PlaneWalk
    requires { Painter n ids.now covers.now part.now layers.now colors.now count
        × Walkable (table_of layers.now colors.now count) (queue_of n ids.now covers.now) part.now
        list_unmasked.now skipped listed
        × PlaneRoom used listed planes.old painted.old }
    ensures { AllPainted (table_of layers.now colors.now count)
        (queue_of n ids.now covers.now) part.now
        (shown_in skipped (take listed list_unmasked.now)
        (ids_of (queue_of n ids.now covers.now) part.now))
        used planes.old painted.old result planes.new painted.new }
{
    let walk = listed_painting::start_past(ids, covers, n, part, layers, colors, count, skipped);
    let mut at = PlaneWalk {
        walk: walk,
        used: used,
        shown: 0,
    };
    for unmasked in &list_unmasked[skipped..listed] {
        at = paint_entry(
            *unmasked, ids, covers, n, part, layers, colors, count, at, planes, painted,
        );
    }
    at
}

// The shown layers of a tile: where it is painted they are painted, and else counted.
pub fn paint_shown(
    paints: bool,
    ids: &[u32],
    covers: &[i8],
    n: usize,
    part: &[u64],
    layers: &[u32],
    colors: &[f32],
    count: usize,
    list_unmasked: &[bool],
    skipped: usize,
    listed: usize,
    state: RowState,
    used: usize,
    planes: &mut [f32],
    painted: &mut [u32],
) -> Planes
    requires { Painter n ids.now covers.now part.now layers.now colors.now count
        × Walkable (table_of layers.now colors.now count) (queue_of n ids.now covers.now) part.now
        list_unmasked.now skipped listed
        × PlaneRoom used listed planes.old painted.old × (state.clip ≡ None) }
    ensures { walk_at result planes.new painted.new
        ≡ walk_from paints (table_of layers.now colors.now count)
        (queue_of n ids.now covers.now) part.now
        (walk_at (record { state = state; used = used; shown = 0 }) planes.old painted.old)
        (shown_in skipped (take listed list_unmasked.now)
        (ids_of (queue_of n ids.now covers.now) part.now)) }
{
    if paints {
        let made = paint_listed(
            ids,
            covers,
            n,
            part,
            layers,
            colors,
            count,
            list_unmasked,
            skipped,
            listed,
            used,
            planes,
            painted,
        );
        let walk = made.walk;
        let clip = walk.clip;
        Planes {
            state: with_clip(state, clip),
            used: made.used,
            shown: made.shown,
        }
    } else {
        let shown = shown_layers::count_shown(list_unmasked, skipped, listed);
        Planes {
            state: state,
            used: used,
            shown: shown as usize,
        }
    }
}
