// A kept set of segments as numbers in lent memory, read and written: the layer and the tile that it is of, which its
// beginning alone writes; its carry, its loads and how many slots are held.
#![tactic(auto)]

ghost use Rattle.std.specs.Prelude.{◌≡◌};
ghost use Rattle.refusals.specs.Refusal.{judgement_in};
ghost use Rattle.ffi_numbers.specs.Numbers.{judged_number};
ghost use Rattle.ffi_sets.specs.Sets.{set_place, placed_by, set_numbers, edited_numbers, set_from};

use cover::Cover;
use refusals::Refusal;
use segment_set_statements::SegmentSet;

// The set of such numbers.
pub fn to_set(
    layer: u32,
    tile: [i16; 2],
    carry: [i8; 16],
    loads: [u16; 16],
    count: usize,
) -> SegmentSet
    ensures { result ≡ set_from (set_place layer tile) (set_numbers carry loads count) }
{
    SegmentSet {
        layer_id: layer,
        tile_x: tile[0],
        tile_y: tile[1],
        carry: Cover { covers: carry },
        loads: loads,
        count: count,
    }
}

// The layer and the tile of a set that was begun; a refusal leaves them as they were.
pub fn put_place(
    verdict: Result<(), Refusal>,
    set: SegmentSet,
    layer: &mut u32,
    tile: &mut [i16; 2],
)
    ensures { set_place layer.new tile.new
        ≡ placed_by (judgement_in verdict) set (set_place layer.old tile.old) }
{
    match verdict {
        Err(_) => {},
        Ok(()) => {
            *layer = set.layer_id;
            *tile = [set.tile_x, set.tile_y];
        },
    }
}

// 0 and what an edit leaves, or the number of its refusal.
pub fn put_edited(
    verdict: Result<(), Refusal>,
    set: SegmentSet,
    carry: &mut [i8; 16],
    loads: &mut [u16; 16],
    count: &mut usize,
) -> u32
    ensures value { result ≡ judged_number (judgement_in verdict) }
    ensures count_after { set_numbers carry.new loads.new count.new
        ≡ edited_numbers (judgement_in verdict) set
        (set_numbers carry.old loads.old count.old) }
{
    match verdict {
        Err(refusal) => refusals::number_of(refusal),
        Ok(()) => {
            let cover = set.carry;
            let covers = cover.covers;
            let set_loads = set.loads;
            *carry = covers;
            *loads = set_loads;
            *count = set.count;
            0
        },
    }
}
