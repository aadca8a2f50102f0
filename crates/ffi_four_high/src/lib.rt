// One layer's row of tiles four pixels high as numbers in lent memory. A state is lent as its numbers: tile y, from, to,
// the next tile, the layer and its fill rule (0 NonZero, 1 EvenOdd); and beside them the four bytes of its cover.
#![tactic(auto)]

ghost use Rattle.std.specs.Prelude.{◌≡◌};
ghost use Rattle.refusals.specs.Refusal.{judgement_in};
ghost use Rattle.layer_row_gpu.specs.LayerState.{layer_state_in};
ghost use Rattle.layer_row_gpu.specs.WorkTiles.{tiles_end_in};
ghost use Rattle.ffi_numbers.specs.Numbers.{judged_number};
ghost use Rattle.ffi_four_high.specs.FourHighRows.{layer_numbers, layer_state_from, layer_numbers_by};
ghost use Rattle.ffi_four_high.specs.FourHighRows.{end_number, end_refusal, done_of, done_by};

use cover_gpu::GpuCover;
use ffi_numbers::four_high;
use layer_row_gpu::LayerRow;
use layer_row_gpu::tiles::{Ended, WorkedTiles};
use refusals::Refusal;
use styling::codes;

pub fn to_layer_row(words: [u32; 6], covers: [i8; 4]) -> LayerRow
    ensures { layer_state_in result ≡ layer_state_from words covers }
{
    let rule = codes::fill_rule(words[5]);
    LayerRow {
        tile_y: words[0],
        from: words[1],
        to: words[2],
        next: words[3],
        layer_id: words[4],
        rule: rule,
        cover: GpuCover { covers },
    }
}

pub fn put_layer_row(
    answer: Result<(), Refusal>,
    state: LayerRow,
    words: &mut [u32; 6],
    covers: &mut [i8; 4],
) -> u32
    ensures value { result ≡ judged_number (judgement_in answer) }
    ensures covers_after { layer_numbers words.new covers.new
        ≡ layer_numbers_by (judgement_in answer) (layer_state_in state)
        (layer_numbers words.old covers.old) }
{
    match answer {
        Err(refusal) => refusals::number_of(refusal),
        Ok(()) => {
            let cover = state.cover;
            let bytes = cover.covers;
            let rule = state.rule;
            *words = [
                state.tile_y,
                state.from,
                state.to,
                state.next,
                state.layer_id,
                four_high::rule_code(rule),
            ];
            *covers = bytes;
            0
        },
    }
}

// Why a range ended: 0 all that were asked for, 1 the row's end, 2 no plane is left, 3 the next would be refused.
fn end_number(ended: Ended) -> usize
    ensures { result ≡ end_number (tiles_end_in ended) }
{
    match ended {
        Ended::Asked => 0,
        Ended::RowEnd => 1,
        Ended::NoRoom => 2,
        Ended::Refused(_) => 3,
    }
}

// By which number; 0 where it would not be refused.
fn end_refusal(ended: Ended) -> usize
    ensures { result ≡ end_refusal (tiles_end_in ended) }
{
    match ended {
        Ended::Asked => 0,
        Ended::RowEnd => 0,
        Ended::NoRoom => 0,
        Ended::Refused(refusal) => refusals::number_of(refusal) as usize,
    }
}

fn put_done(answer: Result<(), Refusal>, worked: usize, ended: Ended, done: &mut [usize; 3])
    ensures { done.new ≡ done_by (judgement_in answer) worked (tiles_end_in ended) done.old }
{
    match answer {
        Err(_) => {}
        Ok(()) => {
            *done = [worked, end_number(ended), end_refusal(ended)];
        }
    }
}

// What a range answers: 0 and its numbers, or the number of the refusal, which leaves every lent number as it was.
pub fn put_tiles(
    tiles: WorkedTiles,
    words: &mut [u32; 6],
    covers: &mut [i8; 4],
    done: &mut [usize; 3],
) -> u32
    ensures value { result ≡ judged_number (judgement_in tiles.answer) }
    ensures covers_after { layer_numbers words.new covers.new
        ≡ layer_numbers_by (judgement_in tiles.answer) (layer_state_in tiles.state)
        (layer_numbers words.old covers.old) }
    ensures done_after { done.new
        ≡ done_by (judgement_in tiles.answer) tiles.worked (tiles_end_in tiles.ended) done.old }
{
    let answer = tiles.answer;
    let ended = tiles.ended;
    let state = tiles.state;
    put_done(answer, tiles.worked, ended, done);
    put_layer_row(answer, state, words, covers)
}
