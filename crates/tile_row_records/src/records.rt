// The two operations with the columns of a queue as an array of carry records: a caller that holds columns has the
// records' form by these functions.
ghost use Rattle.std.specs.Prelude.{◌≡◌};
ghost use Rattle.row_statements.specs.Lent.{columns, list_columns, lent_table};
ghost use Rattle.row_statements.specs.State.{state_in};
ghost use Rattle.row_statements.specs.TileWork.{work_call, work_lent, work_of, GivesWork};
ghost use Rattle.row_statements.specs.Painting.{paint_call, paint_of, PaintsLayer};

use crate::working;
use cached_tile::kept::Kept;
use row_statements::{Painted, RowState, TileWorked};
use styling::Color;

// The work from the records of these columns.
pub fn work_records(
    state: RowState,
    tile: i32,
    row: &[u64],
    layers: &[u32],
    colors: &[f32],
    count: usize,
    kept: Kept,
    clear: Color,
    previous: Option<Color>,
    ids: [u32; 256],
    covers: [i8; 4096],
    next_ids: &mut [u32],
    next_covers: &mut [i8],
    list_ids: &mut [u32],
    list_covers: &mut [i8],
    list_flags: &mut [bool],
    list_unmasked: &mut [bool],
) -> TileWorked
    ensures { GivesWork
        (work_of
        (work_call (state_in state) tile row.now
        (lent_table layers.now colors.now count) kept clear previous (columns ids covers))
        (work_lent (columns next_ids.old next_covers.old)
        (list_columns list_ids.old list_covers.old
        list_flags.old list_unmasked.old)))
        result
        (work_lent (columns next_ids.new next_covers.new)
        (list_columns list_ids.new list_covers.new
        list_flags.new list_unmasked.new)) }
{
    let queue = records_from_columns::records_of(ids, covers);
    working::work_array(
        state,
        tile,
        row,
        layers,
        colors,
        count,
        kept,
        clear,
        previous,
        queue,
        next_ids,
        next_covers,
        list_ids,
        list_covers,
        list_flags,
        list_unmasked,
    )
}

// The painting from the records of these columns.
pub fn paint_records(
    state: RowState,
    tile: i32,
    layer: u32,
    row: &[u64],
    layers: &[u32],
    colors: &[f32],
    count: usize,
    ids: [u32; 256],
    covers: [i8; 4096],
    plane: &mut [f32],
) -> Painted
    ensures { PaintsLayer
        (paint_of
        (paint_call (state_in state) tile layer row.now
        (lent_table layers.now colors.now count) (columns ids covers))
        plane.old)
        result
        plane.new }
{
    let queue = records_from_columns::records_of(ids, covers);
    painting_records::paint_array(state, tile, layer, row, layers, colors, count, queue, plane)
}
