// A row of tiles (`paint_tile_row` of painter/mod.rs), as operations that a caller makes one after the other: what they
// take and answer. specs/ has what they promise, proofs/ the laws and the theorem over any list of them. The functions
// are of row_state, row_opening, row_working and row_painting.
#![tactic(auto)]

use cached_tile::kept::Kept;
use pass_statements::Index;
use pass_statements::decide::Decision;
use refusals::Refusal;

// Where a caller stands in a row: the row and its tiles from..to, the next tile, how many carries are left in the queue
// and how many the last tile took in, and the painter's clip.
#[derive(Clone, Copy)]
pub struct RowState {
    pub tile_y: u32,
    pub from: u32,
    pub to: u32,
    pub next: u32,
    pub left: usize,
    pub taken: usize,
    pub clip: Option<u32>,
}

// What the judge of a tile's layers says, and how many they are.
#[derive(Clone, Copy)]
pub struct ListJudged {
    pub verdict: Result<(), Refusal>,
    pub listed: usize,
}

// What an accepted work says: the decision, how many layers are listed, and how many of them are skipped.
#[derive(Clone, Copy)]
pub struct TileDone {
    pub decision: Decision,
    pub listed: usize,
    pub skipped: Index,
}

// The state and the cached tile after a work, which a refusal leaves equal, and its answer.
#[derive(Clone, Copy)]
pub struct TileWorked {
    pub state: RowState,
    pub kept: Kept,
    pub answer: Result<TileDone, Refusal>,
}

#[derive(Clone, Copy)]
pub struct Painted {
    pub state: RowState,
    pub answer: Result<u32, Refusal>,
}
