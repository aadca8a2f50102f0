// Where a caller stands in a row, and refusal 2 of the tile that it asks for.
#![tactic(auto)]

ghost use Rattle.std.specs.Prelude.{◌≡◌};
ghost use Rattle.laws.specs.Integer.{plus};
ghost use Rattle.row_statements.specs.State.{state_in, is_stray, is_not_next, is_not_worked, is_wrong_next, is_wrong_worked};

use row_statements::RowState;
use segment_rows::search;

// A number that is not negative, as a natural one; 0 for one that is.
pub fn natural(z: i32) -> u32
    ensures { result ≡ plus z }
{
    search::natural(z)
}

// Whether no opening and no works lead to the state.
fn is_stray(state: RowState) -> bool
    ensures { result ≡ is_stray (state_in state) }
{
    (2046 < state.tile_y) | (4095 < state.to) | (state.next < state.from) | (state.to < state.next)
}

// Whether the tile is not the next one of the row, or none is left.
fn is_not_next(state: RowState, tile: i32) -> bool
    ensures { result ≡ is_not_next (state_in state) tile }
{
    (state.to <= state.next) | (tile < 0) | !(natural(tile) == state.next)
}

// Whether the tile is not the one just worked.
fn is_not_worked(state: RowState, tile: i32) -> bool
    ensures { result ≡ is_not_worked (state_in state) tile }
{
    (state.next <= state.from) | (tile < 0) | !(natural(tile) + 1 == state.next)
}

// Refusal 2 of a tile to work.
pub fn is_wrong_next(state: RowState, tile: i32) -> bool
    ensures { result ≡ is_wrong_next (state_in state) tile }
{
    is_stray(state) | is_not_next(state, tile)
}

// Refusal 2 of a tile to paint in.
pub fn is_wrong_worked(state: RowState, tile: i32) -> bool
    ensures { result ≡ is_wrong_worked (state_in state) tile }
{
    is_stray(state) | is_not_worked(state, tile)
}
