// A kept set of segments of one layer in one tile: what its operations take and answer. specs/ has what they promise,
// proofs/ the laws. The functions are of segment_effect and segment_set.
#![tactic(auto)]

use cover::Cover;
use refusals::Refusal;

// The set without its lent lists: whose segments it holds, the carry, each pixel row's absolute incoming cover with the
// absolute covers of its segments, and how many lent slots are held, the first ones.
#[derive(Clone, Copy)]
pub struct SegmentSet {
    pub layer_id: u32,
    pub tile_x: i16,
    pub tile_y: i16,
    pub carry: Cover,
    pub loads: [u16; 16],
    pub count: usize,
}

// What an operation on a set answers, and the set after it.
#[derive(Clone, Copy)]
pub struct Edited {
    pub verdict: Result<(), Refusal>,
    pub set: SegmentSet,
}
