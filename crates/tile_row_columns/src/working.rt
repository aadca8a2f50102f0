// The work on a tile, from columns that were read.
ghost use Rattle.std.specs.Prelude.{◌≡◌};
ghost use Rattle.row_statements.specs.Lent as lent;
ghost use Rattle.row_statements.specs.Lent.{list_columns, lent_table};
ghost use Rattle.row_statements.specs.State.{state_in};
ghost use Rattle.row_statements.specs.TileWork.{work_call, work_lent, work_of, GivesWork};
ghost use Rattle.tile_row_columns.specs.Lent.{lent_columns};

use cached_tile::kept::Kept;
use queue_records::Columns;
use row_statements::{RowState, TileWorked};
use styling::Color;

pub fn work_columns(
    state: RowState,
    tile: i32,
    row: &[u64],
    layers: &[u32],
    colors: &[f32],
    count: usize,
    kept: Kept,
    clear: Color,
    previous: Option<Color>,
    columns: Columns,
    next_ids: &mut [u32],
    next_covers: &mut [i8],
    list_ids: &mut [u32],
    list_covers: &mut [i8],
    list_flags: &mut [bool],
    list_unmasked: &mut [bool],
) -> TileWorked
    ensures { GivesWork
        (work_of
        (work_call (state_in state) tile row.now
        (lent_table layers.now colors.now count) kept clear previous
        (lent_columns columns))
        (work_lent (lent.columns next_ids.old next_covers.old)
        (list_columns list_ids.old list_covers.old
        list_flags.old list_unmasked.old)))
        result
        (work_lent (lent.columns next_ids.new next_covers.new)
        (list_columns list_ids.new list_covers.new
        list_flags.new list_unmasked.new)) }
{
    let n = queue_records::lesser(columns.entries, 256);
    let end = n * 16;
    let ids = columns.ids;
    let covers = columns.covers;
    row_working::work_tile(
        state,
        tile,
        row,
        layers,
        colors,
        count,
        kept,
        clear,
        previous,
        &ids[..n],
        &covers[..end],
        next_ids,
        next_covers,
        list_ids,
        list_covers,
        list_flags,
        list_unmasked,
    )
}
