// The painting of a layer, from columns that were read.
ghost use Rattle.std.specs.Prelude.{◌≡◌};
ghost use Rattle.row_statements.specs.Lent.{lent_table};
ghost use Rattle.row_statements.specs.State.{state_in};
ghost use Rattle.row_statements.specs.Painting.{paint_call, paint_of, PaintsLayer};
ghost use Rattle.tile_row_columns.specs.Lent.{lent_columns};

use queue_records::Columns;
use row_statements::{Painted, RowState};

pub fn paint_columns(
    state: RowState,
    tile: i32,
    layer: u32,
    row: &[u64],
    layers: &[u32],
    colors: &[f32],
    count: usize,
    columns: Columns,
    plane: &mut [f32],
) -> Painted
    ensures { PaintsLayer
        (paint_of
        (paint_call (state_in state) tile layer row.now
        (lent_table layers.now colors.now count)
        (lent_columns columns))
        plane.old)
        result
        plane.new }
{
    let n = queue_records::lesser(columns.entries, 256);
    let end = n * 16;
    let ids = columns.ids;
    let covers = columns.covers;
    row_painting::paint_layer(
        state,
        tile,
        layer,
        row,
        layers,
        colors,
        count,
        &ids[..n],
        &covers[..end],
        plane,
    )
}
