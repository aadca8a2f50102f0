// The work on a tile. Its answer is lent as numbers: the decision (0 none, 1 solid, 2 paint), of a solid tile how many
// shown layers lie before those to mix, how many layers are listed, how many are skipped; and of a solid tile the
// bottom colour.
ghost use Rattle.std.specs.Prelude.{◌≡◌};
ghost use Rattle.pass_statements.specs.Decision.{code_of, decision_in};
ghost use Rattle.row_statements.specs.Lent.{columns, list_columns, lent_table};
ghost use Rattle.row_statements.specs.State.{state_in};
ghost use Rattle.row_statements.specs.TileWork.{work_call, work_lent, work_of, tile_answer_in, work_answer};
ghost use Rattle.ffi_numbers.specs.Numbers.{refusal_number};
ghost use Rattle.ffi_numbers.specs.Cached.{kept_of};
ghost use Rattle.ffi.specs.Layers.{color_from, previous_of};
ghost use Rattle.ffi_numbers.specs.Rows.{state_from};
ghost use Rattle.batch_statements.specs.BatchLent.{before_of};
ghost use Rattle.ffi.specs.Work.{bottom_by, told_of, work_numbers, worked_numbers, WorkTold};

use crate::layers;
use cached_tile::kept::Kept;
use ffi_numbers::{cached, rows};
use pass_statements::decide::Decision;
use passes::decide;
use refusals::Refusal;
use row_statements::{RowState, TileDone};

pub fn code_of(decision: Decision) -> usize
    ensures { result ≡ code_of (decision_in decision) }
{
    decide::code_of(decision) as usize
}

pub fn before_of(decision: Decision) -> usize
    ensures { result ≡ before_of (decision_in decision) }
{
    match decision {
        Decision::None => 0,
        Decision::Solid(_, before) => before,
        Decision::Paint => 0,
    }
}

pub fn put_bottom(decision: Decision, bottom: &mut [f32; 4])
    ensures { bottom.new ≡ bottom_by (decision_in decision) bottom.old }
{
    match decision {
        Decision::None => {},
        Decision::Solid(color, _) => {
            *bottom = [color.r, color.g, color.b, color.a];
        },
        Decision::Paint => {},
    }
}

fn put_done(done: TileDone, told: &mut [usize; 4], bottom: &mut [f32; 4])
    ensures told_after { told.new ≡ told_of (tile_answer_in done) }
    ensures bottom_after { bottom.new ≡ bottom_by (decision_in done.decision) bottom.old }
{
    let decision = done.decision;
    let skipped = done.skipped;
    *told = [
        code_of(decision),
        before_of(decision),
        done.listed,
        skipped.0,
    ];
    put_bottom(decision, bottom);
}

fn put_worked(
    answer: Result<TileDone, Refusal>,
    state: RowState,
    after: Kept,
    words: &mut [u32; 6],
    counts: &mut [usize; 2],
    kept: &mut [u8; 8],
    told: &mut [usize; 4],
    bottom: &mut [f32; 4],
) -> u32
    ensures value { result ≡ refusal_number (work_answer answer) }
    ensures bottom_after { work_numbers words.new counts.new kept.new
        told.new bottom.new
        ≡ worked_numbers (work_answer answer) (state_in state) after
        (work_numbers words.old counts.old kept.old
        told.old bottom.old) }
{
    match answer {
        Err(refusal) => refusals::number_of(refusal),
        Ok(done) => {
            rows::put_state(state, words, counts);
            cached::put_kept(after, kept);
            put_done(done, told, bottom);
            0
        },
    }
}

// 0, the list, the carries handed on, the cached tile, the answer and the state past the tile, or the number of the
// refusal. The bytes of the cached tile are stored where the call is accepted and a tile is given. Of the flags, that
// at place i says whether entry i has segments in the tile, that at place 256 + i whether its layer is changed.
#[unsafe(no_mangle)]
pub extern "C" fn ffi_work_tile(
    words: &mut [u32; 6],
    counts: &mut [usize; 2],
    tile: i32,
    row: &[u64],
    layers: &[u32],
    colors: &[f32],
    count: usize,
    is_kept: bool,
    kept: &mut [u8; 8],
    clear: &[f32; 4],
    is_previous: bool,
    previous: &[f32; 4],
    ids: &[u32],
    covers: &[i8],
    next_ids: &mut [u32],
    next_covers: &mut [i8],
    list_ids: &mut [u32],
    list_covers: &mut [i8],
    list_flags: &mut [bool],
    list_unmasked: &mut [bool],
    told: &mut [usize; 4],
    bottom: &mut [f32; 4],
) -> u32
    ensures { WorkTold
        (work_of
        (work_call (state_from words.old counts.old) tile row.now
        (lent_table layers.now colors.now count)
        (kept_of is_kept kept.old) (color_from clear.now)
        (previous_of is_previous previous.now) (columns ids.now covers.now))
        (work_lent (columns next_ids.old next_covers.old)
        (list_columns list_ids.old list_covers.old
        list_flags.old list_unmasked.old)))
        (work_numbers words.old counts.old kept.old
        told.old bottom.old)
        result
        (work_numbers words.new counts.new kept.new
        told.new bottom.new)
        (work_lent (columns next_ids.new next_covers.new)
        (list_columns list_ids.new list_covers.new
        list_flags.new list_unmasked.new)) }
{
    let state_words = *words;
    let state_counts = *counts;
    let bytes = *kept;
    let clear_numbers = *clear;
    let previous_numbers = *previous;
    let held = Kept {
        given: is_kept,
        tile: cached::to_tile(bytes),
    };
    let worked = row_working::work_tile(
        rows::to_state(state_words, state_counts),
        tile,
        row,
        layers,
        colors,
        count,
        held,
        layers::to_color(clear_numbers),
        layers::to_previous(is_previous, previous_numbers),
        ids,
        covers,
        next_ids,
        next_covers,
        list_ids,
        list_covers,
        list_flags,
        list_unmasked,
    );
    let after = worked.kept;
    let state = worked.state;
    let answer = worked.answer;
    put_worked(answer, state, after, words, counts, kept, told, bottom)
}
