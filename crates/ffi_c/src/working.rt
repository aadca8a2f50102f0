// The work on a tile. Its answer is lent as numbers: the decision (0 none, 1 solid, 2 paint), of a solid tile how many
// shown layers lie before those to mix, how many layers are listed, how many are skipped; and of a solid tile the
// bottom colour.
ghost use Rattle.row_statements.specs.Lent.{columns, list_columns, lent_table};
ghost use Rattle.row_statements.specs.TileWork.{work_call, work_lent, work_of};
ghost use Rattle.ffi_numbers.specs.Cached.{kept_of};
ghost use Rattle.ffi.specs.Layers.{color_from, previous_of};
ghost use Rattle.ffi_numbers.specs.Rows.{state_from};
ghost use Rattle.ffi.specs.Work.{work_numbers, WorkTold};

// 0, the list, the carries handed on, the cached tile, the answer and the state past the tile, or the number of the
// refusal. The bytes of the cached tile are stored where the call is accepted and a tile is given. Of the flags, that
// at place i says whether entry i has segments in the tile, that at place 256 + i whether its layer is changed.
#[unsafe(no_mangle)]
pub extern "C" fn ffi_work_tile(
    words: &mut [u32; 6],
    counts: &mut [usize; 2],
    tile: i32,
    row: &[u64],
    layers: &[u32],
    colors: &[f32],
    count: usize,
    is_kept: bool,
    kept: &mut [u8; 8],
    clear: &[f32; 4],
    is_previous: bool,
    previous: &[f32; 4],
    ids: &[u32],
    covers: &[i8],
    next_ids: &mut [u32],
    next_covers: &mut [i8],
    list_ids: &mut [u32],
    list_covers: &mut [i8],
    list_flags: &mut [bool],
    list_unmasked: &mut [bool],
    told: &mut [usize; 4],
    bottom: &mut [f32; 4],
) -> u32
    ensures { WorkTold
        (work_of
        (work_call (state_from words.old counts.old) tile row.now
        (lent_table layers.now colors.now count)
        (kept_of is_kept kept.old) (color_from clear.now)
        (previous_of is_previous previous.now) (columns ids.now covers.now))
        (work_lent (columns next_ids.old next_covers.old)
        (list_columns list_ids.old list_covers.old
        list_flags.old list_unmasked.old)))
        (work_numbers words.old counts.old kept.old
        told.old bottom.old)
        result
        (work_numbers words.new counts.new kept.new
        told.new bottom.new)
        (work_lent (columns next_ids.new next_covers.new)
        (list_columns list_ids.new list_covers.new
        list_flags.new list_unmasked.new)) }
{
    ffi::working::ffi_work_tile(
        words,
        counts,
        tile,
        row,
        layers,
        colors,
        count,
        is_kept,
        kept,
        clear,
        is_previous,
        previous,
        ids,
        covers,
        next_ids,
        next_covers,
        list_ids,
        list_covers,
        list_flags,
        list_unmasked,
        told,
        bottom,
    )
}
