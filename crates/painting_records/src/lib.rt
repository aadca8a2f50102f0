// The painting of a layer with a queue that is lent as a slice of carry records. `paint_layer` reads the records and
// calls the function over columns.
#![tactic(auto)]

ghost use Rattle.std.specs.Prelude.{◌≡◌};
ghost use Rattle.row_statements.specs.Lent.{lent_table};
ghost use Rattle.row_statements.specs.State.{state_in};
ghost use Rattle.row_statements.specs.Painting.{paint_call, paint_of, PaintsLayer};
ghost use Rattle.tile_row_columns.specs.Lent.{columns_for};

use queue_records::CarryRecord;
use row_statements::{Painted, RowState};
use tile_row_columns::painting;

// Paints a layer of the tile just worked, as `row_painting::paint_layer` does with the columns that the records stand
// for.
pub fn paint_layer(
    state: RowState,
    tile: i32,
    layer: u32,
    row: &[u64],
    layers: &[u32],
    colors: &[f32],
    count: usize,
    queue: &[CarryRecord],
    plane: &mut [f32],
) -> Painted
    ensures { PaintsLayer
        (paint_of
        (paint_call (state_in state) tile layer row.now
        (lent_table layers.now colors.now count)
        (columns_for queue.now))
        plane.old)
        result
        plane.new }
{
    let columns = queue_records::read_columns(queue, state.taken);
    painting::paint_columns(
        state, tile, layer, row, layers, colors, count, columns, plane,
    )
}

// The painting from an array of records, lent to `paint_layer`: plain parameters, for callers that lend no struct.
pub fn paint_array(
    state: RowState,
    tile: i32,
    layer: u32,
    row: &[u64],
    layers: &[u32],
    colors: &[f32],
    count: usize,
    queue: [CarryRecord; 256],
    plane: &mut [f32],
) -> Painted
    ensures { PaintsLayer
        (paint_of
        (paint_call (state_in state) tile layer row.now
        (lent_table layers.now colors.now count)
        (columns_for queue))
        plane.old)
        result
        plane.new }
{
    paint_layer(
        state, tile, layer, row, layers, colors, count, &queue, plane,
    )
}
