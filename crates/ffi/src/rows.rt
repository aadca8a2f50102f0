// The opening of a row of tiles. A state is lent as its numbers (ffi_numbers::rows).
ghost use Rattle.std.specs.Prelude.{◌≡◌};
ghost use Rattle.row_statements.specs.Lent.{columns, lent_table};
ghost use Rattle.row_statements.specs.Opening.{open_call, open_of};
ghost use Rattle.ffi_numbers.specs.Rows.{state_numbers, OpenTold};

use ffi_numbers::rows;

// 0, the carries in the lent queue and the state before the first tile in `words` and `counts`, or the number of the
// refusal.
#[unsafe(no_mangle)]
pub extern "C" fn ffi_open_tile_row(
    tile_y: i32,
    from: i32,
    to: i32,
    row: &[u64],
    layers: &[u32],
    colors: &[f32],
    count: usize,
    ids: &mut [u32],
    covers: &mut [i8],
    words: &mut [u32; 6],
    counts: &mut [usize; 2],
) -> u32
    ensures { OpenTold
        (open_of
        (open_call tile_y from to row.now (lent_table layers.now colors.now count))
        (columns ids.old covers.old))
        (state_numbers words.old counts.old)
        result
        (state_numbers words.new counts.new)
        (columns ids.new covers.new) }
{
    let opened = row_opening::open_tile_row(
        tile_y, from, to, row, layers, colors, count, ids, covers,
    );
    rows::put_opened(opened, words, counts)
}
