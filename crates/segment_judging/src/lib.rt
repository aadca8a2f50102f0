// The lowest refusal that applies to an edit of a kept set: to a beginning, a taking in and a letting out.
#![tactic(auto)]

ghost use Rattle.std.specs.Prelude.{◌≡◌, ◌+◌, get_or};
ghost use Rattle.laws.specs.Lists.{all};
ghost use Rattle.refusals.specs.Refusal.{pass, judgement_in, unless};
ghost use Rattle.pixel_segment.specs.Field.{cpu, local_y_of};
ghost use Rattle.cover_statements.specs.Carry.{abs_cover};
ghost use Rattle.segment_set_statements.specs.Set.{state, is_of, is_here, beginning};
ghost use Rattle.segment_set_statements.specs.Set.{begin_verdict, take_verdict};
ghost use Rattle.segment_set_statements.specs.InnerSpread.{let_verdict_by};

use cover::{Cover, carry};
use pixel_segment::PixelSegment;
use refusals::Refusal;
use segment_set_statements::SegmentSet;

// Whether a segment is of a layer and a tile.
fn is_of(layer_id: u32, tile_x: i16, tile_y: i16, word: u64) -> bool
    ensures { result ≡ is_of layer_id tile_x tile_y word }
{
    let segment = PixelSegment(word);
    (segment.layer_id() == layer_id) & (segment.tile_x() == tile_x) & (segment.tile_y() == tile_y)
}

// Whether all segments of a part are.
pub fn are_of(layer_id: u32, tile_x: i16, tile_y: i16, part: &[u64]) -> bool
    ensures { result ≡ all (is_of layer_id tile_x tile_y) part.now }
{
    let mut ok = true;
    for word in part {
        ok &= is_of(layer_id, tile_x, tile_y, *word);
    }
    ok
}

// Whether a segment is of the set's layer and tile.
fn is_here(set: SegmentSet, word: u64) -> bool
    ensures { result ≡ is_here set word }
{
    is_of(set.layer_id, set.tile_x, set.tile_y, word)
}

// The sum of two loads.
fn total(load: u16, more: u16) -> u32
    ensures { result ≡ load + more }
{
    load as u32 + more as u32
}

// The load of a segment's row with its own.
fn load_with(loads: [u16; 16], word: u64) -> u32
    ensures { result ≡ get_or loads (local_y_of cpu word) 0 + abs_cover cpu word }
{
    let segment = PixelSegment(word);
    let y = segment.local_y() as usize;
    total(loads[y], weight::cover_magnitude(segment.cover()))
}

// By whether the covers of a pixel row are too large, and whether the lent slots are too few.
fn judge_load(is_heavy: bool, is_full: bool) -> Result<(), Refusal>
    ensures { judgement_in result ≡ unless is_heavy 9 (unless is_full 13 pass) }
{
    if is_heavy {
        return Err(Refusal::Covers);
    }
    if is_full {
        return Err(Refusal::Slots);
    }
    Ok(())
}

pub fn judge_beginning(
    layer_id: u32,
    tile_x: i16,
    tile_y: i16,
    cover: Cover,
    part: &[u64],
    slots: &[u64],
    areas: &[i16],
) -> Result<(), Refusal>
    ensures { judgement_in result ≡ begin_verdict
        (beginning layer_id tile_x tile_y cover.covers part.now)
        slots.now areas.now }
{
    if areas.len() < 256 {
        return Err(Refusal::Room);
    }
    if !are_of(layer_id, tile_x, tile_y, part) {
        return Err(Refusal::Row);
    }
    judge_load(!carry::is_light(part, cover), slots.len() < part.len())
}

pub fn judge_taking(set: SegmentSet, word: u64, slots: &[u64], areas: &[i16]) -> Result<(), Refusal>
    ensures { judgement_in result ≡ take_verdict (state set slots.now areas.now) word }
{
    if areas.len() < 256 {
        return Err(Refusal::Room);
    }
    if !is_here(set, word) {
        return Err(Refusal::Row);
    }
    let loads = set.loads;
    judge_load(127 < load_with(loads, word), slots.len() <= set.count)
}

// Of a word that was looked for.
pub fn judge_letting(
    set: SegmentSet,
    word: u64,
    is_held: bool,
    areas: &[i16],
) -> Result<(), Refusal>
    ensures { judgement_in result ≡ let_verdict_by set word is_held areas.now }
{
    if areas.len() < 256 {
        return Err(Refusal::Room);
    }
    if !is_here(set, word) {
        return Err(Refusal::Row);
    }
    if !is_held {
        return Err(Refusal::NotHeld);
    }
    Ok(())
}
