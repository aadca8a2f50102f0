// Painting a layer of the tile just worked.
ghost use Rattle.std.specs.Prelude.{◌≡◌};
ghost use Rattle.refusals.specs.Refusal.{given_or_refused};
ghost use Rattle.row_statements.specs.Lent.{columns, lent_table};
ghost use Rattle.row_statements.specs.State.{state_in};
ghost use Rattle.row_statements.specs.Painting.{paint_call, paint_of};
ghost use Rattle.ffi_numbers.specs.Numbers.{refusal_number};
ghost use Rattle.ffi_numbers.specs.Rows.{state_from};
ghost use Rattle.ffi.specs.Painting.{paint_numbers, painted_numbers, PaintTold};

use ffi_numbers::rows;
use refusals::Refusal;
use row_statements::RowState;

fn put_painted(
    answer: Result<u32, Refusal>,
    state: RowState,
    words: &mut [u32; 6],
    counts: &mut [usize; 2],
    mark: &mut u32,
) -> u32
    ensures value { result ≡ refusal_number (given_or_refused answer) }
    ensures mark_after { paint_numbers words.new counts.new mark.new
        ≡ painted_numbers (given_or_refused answer) (state_in state)
        (paint_numbers words.old counts.old mark.old) }
{
    match answer {
        Err(refusal) => refusals::number_of(refusal),
        Ok(octets) => {
            rows::put_state(state, words, counts);
            *mark = octets;
            0
        },
    }
}

// 0, the coverages in `plane`, at row × 16 + column, their mark in `mark` and the state with the painter's clip, or
// the number of the refusal.
#[unsafe(no_mangle)]
pub extern "C" fn ffi_paint_layer(
    words: &mut [u32; 6],
    counts: &mut [usize; 2],
    tile: i32,
    layer: u32,
    row: &[u64],
    layers: &[u32],
    colors: &[f32],
    count: usize,
    ids: &[u32],
    covers: &[i8],
    plane: &mut [f32],
    mark: &mut u32,
) -> u32
    ensures { PaintTold
        (paint_of
        (paint_call (state_from words.old counts.old) tile layer row.now
        (lent_table layers.now colors.now count)
        (columns ids.now covers.now))
        plane.old)
        (paint_numbers words.old counts.old mark.old)
        result
        (paint_numbers words.new counts.new mark.new)
        plane.new }
{
    let state_words = *words;
    let state_counts = *counts;
    let painted = row_painting::paint_layer(
        rows::to_state(state_words, state_counts),
        tile,
        layer,
        row,
        layers,
        colors,
        count,
        ids,
        covers,
        plane,
    );
    let state = painted.state;
    let answer = painted.answer;
    put_painted(answer, state, words, counts, mark)
}
