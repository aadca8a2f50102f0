// A set begun, and a word added to it or removed from it, where nothing refuses it.
ghost use Rattle.std.specs.Prelude.{◌≡◌, [], ◌≤◌, min, pos, ◌*ℤ◌, length, take};
ghost use Rattle.laws.specs.Lists.{over};
ghost use Rattle.refusals.specs.Refusal.{pass};
ghost use Rattle.pixel_segment.specs.Field.{cpu};
ghost use Rattle.cover_statements.specs.Area.{areas_of};
ghost use Rattle.cover_statements.specs.Cover.{cover_at};
ghost use Rattle.segment_set_statements.specs.Set.{state, beginning, begin_verdict, fresh_state};
ghost use Rattle.segment_set_statements.specs.Set.{taken_in, let_out, held_place};
ghost use Rattle.segment_set_statements.specs.InnerSpread.{Addable, Removable};

use cover::{Cover, carry};
use segment_set_statements::SegmentSet;

// A word added: in the next slot, in d, in the carry and in the loads.
pub fn add(set: SegmentSet, word: u64, slots: &mut [u64], areas: &mut [i16]) -> SegmentSet
    requires { Addable (state set slots.old areas.old) word }
    ensures { state result slots.new areas.new
        ≡ taken_in (state set slots.old areas.old) word }
{
    let count = set.count;
    slots[count] = word;
    segment_effect::add_areas(word, areas);
    segment_effect::added(set, word, count + 1)
}

// How many slots are held: no more than there are.
pub fn held_count(count: usize, slots: &[u64]) -> usize
    ensures { result ≡ min count (length slots.now) }
{
    count.min(slots.len())
}

// The place of the first of the held words that is `word`, and their number where none is.
pub fn find(slots: &[u64], held: usize, word: u64) -> usize
    requires { held ≤ length slots.now }
    ensures { result ≡ held_place word (take held slots.now) }
{
    slots[..held]
        .iter()
        .position(|slot| *slot == word)
        .unwrap_or(held)
}

// A word removed from its place: the last held word stands there, and d, the carry and the loads are without it.
pub fn remove(
    set: SegmentSet,
    word: u64,
    place: usize,
    held: usize,
    slots: &mut [u64],
    areas: &mut [i16],
) -> SegmentSet
    requires { Removable (state set slots.old areas.old) word place held }
    ensures { state result slots.new areas.new
        ≡ let_out (state set slots.old areas.old) word }
{
    let last = held - 1;
    slots[place] = slots[last];
    segment_effect::remove_areas(word, areas);
    segment_effect::removed(set, word, last)
}

// d of a pixel that only the incoming cover reaches.
fn area_of(cover: i8) -> i16
    ensures { result ≡ pos 32 *ℤ cover }
{
    32 * (cover as i16)
}

// d of a tile without segments.
fn start_areas(covers: [i8; 16], areas: &mut [i16])
    requires { 256 ≤ length areas.old }
    ensures { areas.new ≡ over (areas_of cpu 16 (cover_at covers) []) areas.old }
{
    for k in 0..256 {
        areas[k] = area_of(covers[k % 16]);
    }
}

// A set begun: with nothing, and then with each word of the part.
pub fn begin_with(
    layer_id: u32,
    tile_x: i16,
    tile_y: i16,
    cover: Cover,
    part: &[u64],
    slots: &mut [u64],
    areas: &mut [i16],
) -> SegmentSet
    requires { begin_verdict (beginning layer_id tile_x tile_y cover.covers part.now)
        slots.old areas.old ≡ pass }
    ensures { state result slots.new areas.new
        ≡ fresh_state (beginning layer_id tile_x tile_y cover.covers part.now)
        slots.old areas.old }
{
    let covers = cover.covers;
    start_areas(covers, areas);
    let loads = carry::magnitudes(covers);
    let mut set = SegmentSet {
        layer_id: layer_id,
        tile_x: tile_x,
        tile_y: tile_y,
        carry: cover,
        loads: loads,
        count: 0,
    };
    for word in part {
        set = add(set, *word, slots, areas);
    }
    set
}
