// A kept set of segments of one layer in one tile: begun from a part and an incoming cover, a segment taken in, one
// equal segment let out. d, the carry and the loads change with it. A refusal changes nothing.
#![tactic(auto)]

pub mod editing;

ghost use Rattle.std.specs.Prelude.{◌≡◌};
ghost use Rattle.segment_set_statements.specs.Set.{state, nothing, beginning, Gives};
ghost use Rattle.segment_set_statements.specs.Set.{begin_verdict, begin_of, take_verdict, take_of, let_verdict, let_of};

use cover::Cover;
use segment_set_statements::{Edited, SegmentSet};

// A set of nothing: what a refused beginning gives.
fn empty_set() -> SegmentSet
    ensures { result ≡ nothing }
{
    let carry = Cover::default();
    let loads = [0u16; 16];
    SegmentSet {
        layer_id: 0,
        tile_x: 0,
        tile_y: 0,
        carry,
        loads,
        count: 0,
    }
}

// A set begun from a part, which may be empty, and an incoming cover: the words in the slots, d, the carry, the loads.
pub fn begin(
    layer_id: u32,
    tile_x: i16,
    tile_y: i16,
    cover: Cover,
    part: &[u64],
    slots: &mut [u64],
    areas: &mut [i16],
) -> Edited
    ensures { Gives
        (begin_verdict (beginning layer_id tile_x tile_y cover.covers part.now)
        slots.old areas.old)
        (begin_of (beginning layer_id tile_x tile_y cover.covers part.now)
        slots.old areas.old)
        result slots.new areas.new }
{
    match segment_judging::judge_beginning(layer_id, tile_x, tile_y, cover, part, slots, areas) {
        Err(refusal) => Edited {
            verdict: Err(refusal),
            set: empty_set(),
        },
        Ok(()) => Edited {
            verdict: Ok(()),
            set: editing::begin_with(layer_id, tile_x, tile_y, cover, part, slots, areas),
        },
    }
}

// A segment taken in.
pub fn take_in(set: SegmentSet, word: u64, slots: &mut [u64], areas: &mut [i16]) -> Edited
    ensures { Gives (take_verdict (state set slots.old areas.old) word)
        (take_of (state set slots.old areas.old) word)
        result slots.new areas.new }
{
    match segment_judging::judge_taking(set, word, slots, areas) {
        Err(refusal) => Edited {
            verdict: Err(refusal),
            set,
        },
        Ok(()) => Edited {
            verdict: Ok(()),
            set: editing::add(set, word, slots, areas),
        },
    }
}

// One equal segment let out.
pub fn let_out(set: SegmentSet, word: u64, slots: &mut [u64], areas: &mut [i16]) -> Edited
    ensures { Gives (let_verdict (state set slots.old areas.old) word)
        (let_of (state set slots.old areas.old) word)
        result slots.new areas.new }
{
    let held = editing::held_count(set.count, slots);
    let place = editing::find(slots, held, word);
    match segment_judging::judge_letting(set, word, place < held, areas) {
        Err(refusal) => Edited {
            verdict: Err(refusal),
            set,
        },
        Ok(()) => Edited {
            verdict: Ok(()),
            set: editing::remove(set, word, place, held, slots, areas),
        },
    }
}
