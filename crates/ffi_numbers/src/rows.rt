// A row of tiles. A state is lent as its numbers: tile y, from, to, the next tile, whether the painter has a clip (0 or
// 1) and the clip's last layer; and beside them how many carries the queue has that is left, and how many the one had
// that was taken in.
ghost use Rattle.std.specs.Prelude.{◌≡◌};
ghost use Rattle.row_statements.specs.State.{state_in};
ghost use Rattle.row_statements.specs.Opening.{opened_answer};
ghost use Rattle.ffi_numbers.specs.Numbers.{refusal_number};
ghost use Rattle.ffi_numbers.specs.Rows.{clip_flag, clip_last, clip_of, state_from, state_words, counts_of};
ghost use Rattle.ffi_numbers.specs.Rows.{state_numbers, open_numbers};

use refusals::Refusal;
use row_statements::RowState;

fn clip_flag(clip: Option<u32>) -> u32
    ensures { result ≡ clip_flag clip }
{
    match clip {
        None => 0,
        Some(_) => 1,
    }
}

fn clip_last(clip: Option<u32>) -> u32
    ensures { result ≡ clip_last clip }
{
    clip.unwrap_or(0)
}

fn to_clip(flag: u32, last: u32) -> Option<u32>
    ensures { result ≡ clip_of flag last }
{
    if flag == 0 { None } else { Some(last) }
}

pub fn to_state(words: [u32; 6], counts: [usize; 2]) -> RowState
    ensures { state_in result ≡ state_from words counts }
{
    RowState {
        tile_y: words[0],
        from: words[1],
        to: words[2],
        next: words[3],
        left: counts[0],
        taken: counts[1],
        clip: to_clip(words[4], words[5]),
    }
}

pub fn put_state(from: RowState, words: &mut [u32; 6], counts: &mut [usize; 2])
    ensures words_after { words.new ≡ state_words (state_in from) }
    ensures counts_after { counts.new ≡ counts_of (state_in from) }
{
    let clip = from.clip;
    *words = [
        from.tile_y,
        from.from,
        from.to,
        from.next,
        clip_flag(clip),
        clip_last(clip),
    ];
    *counts = [from.left, from.taken];
}

pub fn put_opened(
    opened: Result<RowState, Refusal>,
    words: &mut [u32; 6],
    counts: &mut [usize; 2],
) -> u32
    ensures value { result ≡ refusal_number (opened_answer opened) }
    ensures counts_after { state_numbers words.new counts.new
        ≡ open_numbers (opened_answer opened) (state_numbers words.old counts.old) }
{
    match opened {
        Ok(state) => {
            put_state(state, words, counts);
            0
        },
        Err(refusal) => refusals::number_of(refusal),
    }
}
