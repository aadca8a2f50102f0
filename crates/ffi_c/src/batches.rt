// A batch of tiles in one call, judged once. Two queues take turns: the first comes in.
ghost use Rattle.row_statements.specs.Lent.{columns, lent_table};
ghost use Rattle.batch_statements.specs.BatchLent.{batch_lent};
ghost use Rattle.batch_statements.specs.Batch.{batch_row, batch_call, batch_of};
ghost use Rattle.ffi_numbers.specs.Rows.{state_from};
ghost use Rattle.ffi_batch.specs.Batches.{batch_numbers, BatchTold};
ghost use Rattle.ffi.specs.Layers.{color_from, previous_of};

// 0 or the number of the refusal: that of the first tile, which leaves all lent memory as it was, `done` too. Else
// `words` and `counts` are the state after the tiles worked, and `done` tells how many these are (0 is possible), how
// many planes they used, which queue holds the carries (0 the first, 1 the second), why the batch ended (0 all tiles that
// were asked for are worked, 1 the row has no more, 2 no room for a further one, 3 the next one would be refused), and
// the number of that refusal or 0. Each tile has six numbers in `told` (the decision, of a solid tile how many shown
// layers lie before those to mix, how many layers are listed, skipped, shown, and how many carries are handed on), where
// it is solid its bottom colour in `bottoms`, and where `keeps` is set its cached tile in eight bytes of `kept`. Each
// painted layer has a plane, and its id and its mark in `painted`; each layer that a solid tile mixes has its id and mark
// 0 there, and its plane is left as it was. A tile is worked only where as many planes are free as it can list layers:
// 256, or the table's count where that is less.
#[unsafe(no_mangle)]
pub extern "C" fn ffi_work_tiles(
    words: &mut [u32; 6],
    counts: &mut [usize; 2],
    tile: i32,
    tiles: usize,
    row: &[u64],
    layers: &[u32],
    colors: &[f32],
    count: usize,
    keeps: bool,
    kept: &mut [u8],
    clear: &[f32; 4],
    is_previous: bool,
    previous: &[f32; 4],
    a_ids: &mut [u32],
    a_covers: &mut [i8],
    b_ids: &mut [u32],
    b_covers: &mut [i8],
    told: &mut [usize],
    bottoms: &mut [f32],
    planes: &mut [f32],
    painted: &mut [u32],
    done: &mut [usize; 5],
) -> u32
    ensures { BatchTold
        (batch_of
        (batch_call (state_from words.old counts.old) tile tiles
        (batch_row row.now (lent_table layers.now colors.now count)
        keeps (color_from clear.now) (previous_of is_previous previous.now)))
        (batch_lent (columns a_ids.old a_covers.old)
        (columns b_ids.old b_covers.old)
        kept.old told.old bottoms.old planes.old painted.old))
        (batch_numbers words.old counts.old done.old)
        result
        (batch_numbers words.new counts.new done.new)
        (batch_lent (columns a_ids.new a_covers.new)
        (columns b_ids.new b_covers.new)
        kept.new told.new bottoms.new planes.new painted.new) }
{
    ffi::batches::ffi_work_tiles(
        words,
        counts,
        tile,
        tiles,
        row,
        layers,
        colors,
        count,
        keeps,
        kept,
        clear,
        is_previous,
        previous,
        a_ids,
        a_covers,
        b_ids,
        b_covers,
        told,
        bottoms,
        planes,
        painted,
        done,
    )
}
