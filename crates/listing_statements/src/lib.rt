// Listing and deciding, the two halves of the work on a tile, as operations that a caller makes by themselves: what
// they answer. specs/ has what they promise, proofs/ the law that a work is their succession. The functions are of
// tile_listing and tile_deciding; the theorem over any list of calls is of listing_runs.
#![tactic(auto)]

use cached_tile::kept::Kept;
use pass_statements::Index;
use pass_statements::decide::Decision;
use refusals::Refusal;
use row_statements::RowState;

// The state after a listing, which a refusal leaves equal, and its answer.
#[derive(Clone, Copy)]
pub struct TileListed {
    pub state: RowState,
    pub answer: Result<usize, Refusal>,
}

// The cached tile after a deciding, which a refusal leaves equal, and its answer.
#[derive(Clone, Copy)]
pub struct TileDecided {
    pub kept: Kept,
    pub answer: Result<(Decision, Index), Refusal>,
}
