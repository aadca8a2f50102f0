// Opening a tile row: judged by 1 to 4, then by 7 and 9, and its queue of carries written.
#![tactic(auto)]

ghost use Rattle.std.specs.Prelude.{◌≡◌};
ghost use Rattle.refusals.specs.Refusal.{judgement_in, given_or_refused};
ghost use Rattle.row_statements.specs.Lent.{columns, lent_table};
ghost use Rattle.row_statements.specs.Opening.{open_call, has_bad_ends, open_verdict, state_by, open_of};
ghost use Rattle.row_statements.specs.Opening.{opened_answer, OpensRow};

use refusals::Refusal;
use row_statements::RowState;
use segment_rows::{order, parts};

// Refusal 2: the row's number or its tiles out of range.
fn has_bad_ends(tile_y: i32, from: i32, to: i32) -> bool
    ensures { result ≡ has_bad_ends tile_y from to }
{
    (tile_y < 0) | (2046 < tile_y) | (from < 0) | (to < from) | (4095 < to)
}

// Refusals 1 to 4, the lowest that applies.
pub fn judge_opening(
    tile_y: i32,
    from: i32,
    to: i32,
    row: &[u64],
    layers: &[u32],
    colors: &[f32],
    count: usize,
    ids: &[u32],
    covers: &[i8],
) -> Result<(), Refusal>
    ensures { judgement_in result ≡ open_verdict
        (open_call tile_y from to row.now (lent_table layers.now colors.now count))
        (columns ids.now covers.now) }
{
    if queue::is_short(ids, covers) | layer_table::is_short(layers, colors, count) {
        return Err(Refusal::Room);
    }
    if has_bad_ends(tile_y, from, to) {
        return Err(Refusal::Tile);
    }
    if !order::is_row(row, row_state::natural(tile_y) as u64 + 1) {
        return Err(Refusal::Row);
    }
    if !layer_table::is_table(layers, colors, count) {
        return Err(Refusal::Table);
    }
    Ok(())
}

// The answer of an opening whose queue is made.
fn opened(
    tile_y: i32,
    from: i32,
    to: i32,
    made: Result<usize, Refusal>,
) -> Result<RowState, Refusal>
    ensures { opened_answer result ≡ state_by tile_y from to (given_or_refused made) }
{
    let left = made?;
    Ok(RowState {
        tile_y: row_state::natural(tile_y),
        from: row_state::natural(from),
        to: row_state::natural(to),
        next: row_state::natural(from),
        left,
        taken: 0,
        clip: None,
    })
}

// Opens a tile row: its carries from the segments left of `from` in the lent queue, and the state before its
// first tile.
pub fn open_tile_row(
    tile_y: i32,
    from: i32,
    to: i32,
    row: &[u64],
    layers: &[u32],
    colors: &[f32],
    count: usize,
    ids: &mut [u32],
    covers: &mut [i8],
) -> Result<RowState, Refusal>
    ensures { OpensRow
        (open_of
        (open_call tile_y from to row.now (lent_table layers.now colors.now count))
        (columns ids.old covers.old))
        result
        (columns ids.new covers.new) }
{
    judge_opening(tile_y, from, to, row, layers, colors, count, ids, covers)?;
    let left = parts::left_of_tile(row, from as i16);
    opened(
        tile_y,
        from,
        to,
        queue_opening::open_queue(left, ids, covers),
    )
}
