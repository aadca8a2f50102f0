// A batch of tiles told by numbers: the refusal or 0, the state after the tiles worked, and five numbers.
#![tactic(auto)]

ghost use Rattle.std.specs.Prelude.{◌≡◌};
ghost use Rattle.row_statements.specs.State.{state_in};
ghost use Rattle.batch_statements.specs.Batch.{end_in, answer_in};
ghost use Rattle.ffi_numbers.specs.Numbers.{refusal_number};
ghost use Rattle.ffi_numbers.specs.Rows.{state_words, counts_of};
ghost use Rattle.ffi_batch.specs.Batches.{queue_number, why_number, next_number, done_of, batch_numbers, numbers_by};

use batch_statements::{Batch, End};
use ffi_numbers::rows;

fn queue_number(first: bool) -> usize
    ensures { result ≡ queue_number first }
{
    if first { 0 } else { 1 }
}

// Why it ended.
fn why_number(end: End) -> usize
    ensures { result ≡ why_number (end_in end) }
{
    match end {
        End::Asked => 0,
        End::RowEnd => 1,
        End::NoRoom => 2,
        End::NextRefused(_) => 3,
    }
}

// The number that the next tile would be refused by, 0 where that is not why it ended.
fn next_number(end: End) -> usize
    ensures { result ≡ next_number (end_in end) }
{
    match end {
        End::Asked => 0,
        End::RowEnd => 0,
        End::NoRoom => 0,
        End::NextRefused(refusal) => refusals::number_of(refusal) as usize,
    }
}

fn put_done(
    at: Batch,
    end: End,
    words: &mut [u32; 6],
    counts: &mut [usize; 2],
    done: &mut [usize; 5],
)
    ensures words_after { words.new ≡ state_words (state_in at.state) }
    ensures counts_after { counts.new ≡ counts_of (state_in at.state) }
    ensures done_after { done.new ≡ done_of at.worked at.used at.first (end_in end) }
{
    let state = at.state;
    rows::put_state(state, words, counts);
    *done = [
        at.worked,
        at.used,
        queue_number(at.first),
        why_number(end),
        next_number(end),
    ];
}

// 0 or the number of the refusal, which leaves every lent number as it was.
pub fn put_batch(
    at: Batch,
    words: &mut [u32; 6],
    counts: &mut [usize; 2],
    done: &mut [usize; 5],
) -> u32
    ensures value { result ≡ refusal_number (answer_in at.answer) }
    ensures done_after { batch_numbers words.new counts.new done.new
        ≡ numbers_by (answer_in at.answer) (state_in at.state) at.worked at.used at.first
        (batch_numbers words.old counts.old done.old) }
{
    let answer = at.answer;
    match answer {
        Err(refusal) => refusals::number_of(refusal),
        Ok(end) => {
            put_done(at, end, words, counts, done);
            0
        },
    }
}
