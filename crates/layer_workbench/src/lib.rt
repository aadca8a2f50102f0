// The work on one tile (`drive_tile_painting` of painter/layer_workbench/mod.rs, without painting): list, decide, keep,
// hand on.
#![tactic(auto)]

ghost use Rattle.std.specs.Prelude.{◌≡◌, ◌*◌, ◌≤◌, length};
ghost use Rattle.layer_table.specs.Table.{Table, table_of};
ghost use Rattle.queue_statements.specs.Queue.{queue_of};
ghost use Rattle.tile_layers.specs.Listing.{layers_in};
ghost use Rattle.tile_layers.specs.InnerWalk.{Walks};
ghost use Rattle.layer_carrying.specs.Carrying.{HoldsCarries};
ghost use Rattle.pass_statements.specs.Entry.{entries_of};
ghost use Rattle.pass_statements.specs.Decision.{decision_in};
ghost use Rattle.pass_statements.specs.Item.{EntryColumns};
ghost use Rattle.layer_workbench.specs.Work.{clear_unchanged, kept_by, outcome_by_entries, outcome_in};
ghost use Rattle.layer_workbench.specs.Work.{carries_after, Decides, Works, ListWritten, QueueWritten, Rooms};

use cached_tile::kept::Kept;
use pass_statements::Index;
use pass_statements::decide::Decision;
use passes::decide;
use styling::Color;

// What a tile's work gives: the decision, how many layers are listed and how many of them skipped, the cached tile, and
// how many carries are handed on.
#[derive(Clone, Copy)]
pub struct Worked {
    pub decision: Decision,
    pub listed: usize,
    pub skipped: Index,
    pub kept: Kept,
    pub left: usize,
}

// What deciding gives: the decision, how many layers are skipped, and the cached tile.
#[derive(Clone, Copy)]
pub struct DecidedTile {
    pub decision: Decision,
    pub skipped: Index,
    pub kept: Kept,
}

pub fn is_clear_unchanged(previous: Option<Color>, clear: Color) -> bool
    ensures { result ≡ clear_unchanged previous clear }
{
    match previous {
        None => false,
        Some(color) => color.eq(clear),
    }
}

// A painted tile keeps no solid colour.
fn kept_by(decision: Decision, kept: Kept) -> Kept
    ensures { result ≡ kept_by (decision_in decision) kept }
{
    match decision {
        Decision::None => kept,
        Decision::Solid(_, _) => kept,
        Decision::Paint => kept.clear_solid_color(),
    }
}

// The decision about a tile from its list of n entries, by what the list says, and the cached tile afterwards.
pub fn decide_tile(
    ids: &[u32],
    covers: &[i8],
    flags: &[bool],
    n: usize,
    layers: &[u32],
    colors: &[f32],
    count: usize,
    kept: Kept,
    clear: Color,
    previous: Option<Color>,
    unmasked: &mut [bool],
) -> DecidedTile
    requires { EntryColumns n ids.now covers.now flags.now × Table layers.now colors.now count
        × (n ≤ length unmasked.old) }
    ensures { Decides
        (outcome_by_entries (table_of layers.now colors.now count) kept clear previous
        (entries_of n ids.now covers.now flags.now)) kept n unmasked.old result
        unmasked.new }
{
    let counted = kept.update_layer_count(n as u32);
    let before = counted.previous;
    let updated = counted.kept;
    let decided = decide::decide(
        clear,
        is_clear_unchanged(previous, clear),
        before,
        ids,
        covers,
        flags,
        n,
        layers,
        colors,
        count,
        unmasked,
    );
    let decision = decided.decision;
    let skipped = decided.skipped;
    let after = kept_by(decision, updated);
    DecidedTile {
        decision: decision,
        skipped: skipped,
        kept: after,
    }
}

// The work on a tile that no refusal turns down, `listed` being the number of its layers and `sums` their carries.
pub fn work(
    ids: &[u32],
    covers: &[i8],
    n: usize,
    part: &[u64],
    listed: usize,
    sums: &[i8; 4096],
    layers: &[u32],
    colors: &[f32],
    count: usize,
    kept: Kept,
    clear: Color,
    previous: Option<Color>,
    next_ids: &mut [u32],
    next_covers: &mut [i8],
    list_ids: &mut [u32],
    list_covers: &mut [i8],
    list_flags: &mut [bool],
    list_unmasked: &mut [bool],
) -> Worked
    requires { Walks n ids.now part.now × (16 * n ≤ length covers.now) × Table layers.now colors.now count
        × Rooms list_ids.old list_covers.old list_flags.old list_unmasked.old next_ids.old
        next_covers.old × HoldsCarries (layers_in (queue_of n ids.now covers.now) part.now) sums.now
        × (listed ≡ length (layers_in (queue_of n ids.now covers.now) part.now)) × (listed ≤ 256) }
    ensures answer { Works (table_of layers.now colors.now count) kept clear previous
        (layers_in (queue_of n ids.now covers.now) part.now) result }
    ensures list { ListWritten (table_of layers.now colors.now count)
        (layers_in (queue_of n ids.now covers.now) part.now)
        (outcome_in (table_of layers.now colors.now count) kept clear previous
        (layers_in (queue_of n ids.now covers.now) part.now)) list_ids.old
        list_covers.old list_flags.old list_unmasked.old
        list_ids.new list_covers.new list_flags.new
        list_unmasked.new }
    ensures queue { QueueWritten (carries_after (table_of layers.now colors.now count)
        (outcome_in (table_of layers.now colors.now count) kept clear previous
        (layers_in (queue_of n ids.now covers.now) part.now))
        (layers_in (queue_of n ids.now covers.now) part.now)) next_ids.old
        next_covers.old next_ids.new next_covers.new }
{
    layer_listing::list_layers(
        ids,
        covers,
        n,
        part,
        listed,
        layers,
        colors,
        count,
        list_ids,
        list_covers,
        list_flags,
    );
    let decided = decide_tile(
        list_ids,
        list_covers,
        list_flags,
        listed,
        layers,
        colors,
        count,
        kept,
        clear,
        previous,
        list_unmasked,
    );
    let left = layer_carrying::hand_on(
        list_ids,
        sums,
        listed,
        layers,
        colors,
        count,
        next_ids,
        next_covers,
    );
    let decision = decided.decision;
    let skipped = decided.skipped;
    let after = decided.kept;
    Worked {
        decision: decision,
        listed: listed,
        skipped: skipped,
        kept: after,
        left: left,
    }
}
