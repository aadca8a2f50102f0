// What is said of a batch: several tiles of a row worked and painted in one call. No code stands here.
#![tactic(auto)]

use refusals::Refusal;
use row_statements::RowState;

// Why a batch ended: all tiles that were asked for are worked; the row has no more; there is no room for a further one;
// or the next one would be refused.
#[derive(Clone, Copy)]
pub enum End {
    Asked,
    RowEnd,
    NoRoom,
    NextRefused(Refusal),
}

// The state after a batch, how many tiles it worked, how many planes it used, whether the first of the two queues holds
// the carries, and what it answers.
#[derive(Clone, Copy)]
pub struct Batch {
    pub state: RowState,
    pub worked: usize,
    pub used: usize,
    pub first: bool,
    pub answer: Result<End, Refusal>,
}

// The room that is lent: for so many tiles and so many planes, of which so many must be free before each tile.
#[derive(Clone, Copy)]
pub struct Room {
    pub tiles: usize,
    pub planes: usize,
    pub needed: usize,
}
