// The work on a tile, from a queue of carry records.
ghost use Rattle.std.specs.Prelude.{◌≡◌};
ghost use Rattle.row_statements.specs.Lent as lent;
ghost use Rattle.row_statements.specs.Lent.{list_columns, lent_table};
ghost use Rattle.row_statements.specs.State.{state_in};
ghost use Rattle.row_statements.specs.TileWork.{work_call, work_lent, work_of, GivesWork};
ghost use Rattle.tile_row_columns.specs.Lent.{columns_for};

use cached_tile::kept::Kept;
use queue_records::CarryRecord;
use row_statements::{RowState, TileWorked};
use styling::Color;
use tile_row_columns::working;

// Works the next tile of a row, as `row_working::work_tile` does with the columns that the records stand for.
pub fn work_tile(
    state: RowState,
    tile: i32,
    row: &[u64],
    layers: &[u32],
    colors: &[f32],
    count: usize,
    kept: Kept,
    clear: Color,
    previous: Option<Color>,
    queue: &[CarryRecord],
    next_ids: &mut [u32],
    next_covers: &mut [i8],
    list_ids: &mut [u32],
    list_covers: &mut [i8],
    list_flags: &mut [bool],
    list_unmasked: &mut [bool],
) -> TileWorked
    ensures { GivesWork
        (work_of
        (work_call (state_in state) tile row.now
        (lent_table layers.now colors.now count) kept clear previous
        (columns_for queue.now))
        (work_lent (lent.columns next_ids.old next_covers.old)
        (list_columns list_ids.old list_covers.old
        list_flags.old list_unmasked.old)))
        result
        (work_lent (lent.columns next_ids.new next_covers.new)
        (list_columns list_ids.new list_covers.new
        list_flags.new list_unmasked.new)) }
{
    let columns = queue_records::read_columns(queue, state.left);
    working::work_columns(
        state,
        tile,
        row,
        layers,
        colors,
        count,
        kept,
        clear,
        previous,
        columns,
        next_ids,
        next_covers,
        list_ids,
        list_covers,
        list_flags,
        list_unmasked,
    )
}

// The work from an array of records, lent to `work_tile`: plain parameters, for callers that lend no struct.
pub fn work_array(
    state: RowState,
    tile: i32,
    row: &[u64],
    layers: &[u32],
    colors: &[f32],
    count: usize,
    kept: Kept,
    clear: Color,
    previous: Option<Color>,
    queue: [CarryRecord; 256],
    next_ids: &mut [u32],
    next_covers: &mut [i8],
    list_ids: &mut [u32],
    list_covers: &mut [i8],
    list_flags: &mut [bool],
    list_unmasked: &mut [bool],
) -> TileWorked
    ensures { GivesWork
        (work_of
        (work_call (state_in state) tile row.now
        (lent_table layers.now colors.now count) kept clear previous
        (columns_for queue))
        (work_lent (lent.columns next_ids.old next_covers.old)
        (list_columns list_ids.old list_covers.old
        list_flags.old list_unmasked.old)))
        result
        (work_lent (lent.columns next_ids.new next_covers.new)
        (list_columns list_ids.new list_covers.new
        list_flags.new list_unmasked.new)) }
{
    work_tile(
        state,
        tile,
        row,
        layers,
        colors,
        count,
        kept,
        clear,
        previous,
        &queue,
        next_ids,
        next_covers,
        list_ids,
        list_covers,
        list_flags,
        list_unmasked,
    )
}
