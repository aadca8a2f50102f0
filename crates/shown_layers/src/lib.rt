// The shown layers of a tile, counted and, where the tile is painted, painted one after the other.
#![tactic(auto)]

ghost use Rattle.std.specs.Prelude.{◌≡◌, true, ◌+◌, ◌≤◌, length, take};
ghost use Rattle.std.specs.Int.Count.{ones};
ghost use Rattle.layer_table.specs.Table.{table_of};
ghost use Rattle.queue_statements.specs.Queue.{queue_of};
ghost use Rattle.listed_painting.specs.InnerWalk.{Painter, WalkHolds, CanPaint};
ghost use Rattle.row_lines.specs.Shown.{shown_in};
ghost use Rattle.shown_layers.specs.Counting.{sum_in, ids_of, at_start, tallied};
ghost use Rattle.shown_layers.specs.InnerTally.{EntryTallied, CountsShown, Walkable};

use listed_painting::PaintWalk;

// Where the walk over the tile's layers stands, how many layers were shown so far, and how many octets they used.
#[derive(Clone, Copy)]
pub struct Tally {
    pub walk: PaintWalk,
    pub shown: u32,
    pub octets: u32,
}

// How many octets a mark has, at most 32.
fn used_octets(mark: u32) -> u32
    ensures { (result ≡ ones mark) × (result ≤ 32) }
{
    mark::octets(mark)
}

// The next layer: one that is masked off leaves the tally, another is painted.
fn tally_entry(
    unmasked: bool,
    ids: &[u32],
    covers: &[i8],
    n: usize,
    part: &[u64],
    layers: &[u32],
    colors: &[f32],
    count: usize,
    tally: Tally,
    plane: &mut [f32],
) -> Tally
    requires { Painter n ids.now covers.now part.now layers.now colors.now count
        × WalkHolds (table_of layers.now colors.now count) n ids.now covers.now part.now tally.walk
        × CanPaint (table_of layers.now colors.now count) (queue_of n ids.now covers.now) part.now
        tally.walk.passed
        × (256 ≤ length plane.old) × (tally.shown ≤ 256) × (tally.octets ≤ 8192) }
    ensures { EntryTallied unmasked (table_of layers.now colors.now count)
        n ids.now covers.now part.now tally result }
{
    let at = tally.walk;
    if unmasked {
        let painted = listed_painting::paint_next(
            ids, covers, n, part, layers, colors, count, at, plane,
        );
        let after = painted.walk;
        let used = used_octets(painted.mark);
        Tally {
            walk: after,
            shown: tally.shown + 1,
            octets: tally.octets + used,
        }
    } else {
        let passed = listed_painting::pass_over(ids, covers, n, part, layers, colors, count, at);
        Tally {
            walk: passed,
            shown: tally.shown,
            octets: tally.octets,
        }
    }
}

// The shown layers of a painted tile with `listed` layers, of which the first `skipped` are covered: each is painted.
fn paint_shown(
    ids: &[u32],
    covers: &[i8],
    n: usize,
    part: &[u64],
    layers: &[u32],
    colors: &[f32],
    count: usize,
    list_unmasked: &[bool],
    skipped: usize,
    listed: usize,
) -> Tally
    requires { Painter n ids.now covers.now part.now layers.now colors.now count
        × Walkable (table_of layers.now colors.now count) (queue_of n ids.now covers.now) part.now
        list_unmasked.now skipped listed }
    ensures { sum_in result ≡ tallied true (table_of layers.now colors.now count)
        (queue_of n ids.now covers.now) part.now at_start
        (shown_in skipped (take listed list_unmasked.now)
        (ids_of (queue_of n ids.now covers.now) part.now)) }
{
    let mut plane = [0.0f32; 256];
    let walk = listed_painting::start_past(ids, covers, n, part, layers, colors, count, skipped);
    let mut tally = Tally {
        walk: walk,
        shown: 0,
        octets: 0,
    };
    for unmasked in &list_unmasked[skipped..listed] {
        tally = tally_entry(
            *unmasked, ids, covers, n, part, layers, colors, count, tally, &mut plane,
        );
    }
    tally
}

// How many of the listed layers from `skipped` on are not masked off.
pub fn count_shown(list_unmasked: &[bool], skipped: usize, listed: usize) -> u32
    requires { (listed ≤ 256) × (listed ≤ length list_unmasked.now) }
    ensures { CountsShown (take listed list_unmasked.now) skipped listed result }
{
    let mut shown: u32 = 0;
    for i in skipped..listed {
        shown += u32::from(list_unmasked[i]);
    }
    shown
}

// The shown layers of a tile: where it is painted they are painted, and else counted.
pub fn tally_shown(
    paints: bool,
    ids: &[u32],
    covers: &[i8],
    n: usize,
    part: &[u64],
    layers: &[u32],
    colors: &[f32],
    count: usize,
    list_unmasked: &[bool],
    skipped: usize,
    listed: usize,
) -> Tally
    requires { Painter n ids.now covers.now part.now layers.now colors.now count
        × Walkable (table_of layers.now colors.now count) (queue_of n ids.now covers.now) part.now
        list_unmasked.now skipped listed }
    ensures { sum_in result ≡ tallied paints (table_of layers.now colors.now count)
        (queue_of n ids.now covers.now) part.now at_start
        (shown_in skipped (take listed list_unmasked.now)
        (ids_of (queue_of n ids.now covers.now) part.now)) }
{
    if paints {
        paint_shown(
            ids,
            covers,
            n,
            part,
            layers,
            colors,
            count,
            list_unmasked,
            skipped,
            listed,
        )
    } else {
        let walk = listed_painting::start();
        let shown = count_shown(list_unmasked, skipped, listed);
        Tally {
            walk: walk,
            shown: shown,
            octets: 0,
        }
    }
}
