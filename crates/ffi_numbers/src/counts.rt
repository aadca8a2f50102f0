// Whether a count may stay.
ghost use Rattle.std.specs.Prelude.{◌≡◌};
ghost use Rattle.kept_count.specs.Keeping.{count_answer};
ghost use Rattle.ffi_numbers.specs.Numbers.{refusal_number};
ghost use Rattle.ffi_numbers.specs.Counts.{count_numbers, counted_numbers};

use crate::cached;
use cached_tile::kept::Kept;
use kept_count::CountAnswer;

// 0, the bytes of a tile that is given and whether the count may stay, or the number of the refusal.
pub fn put_counted(answer: CountAnswer, after: Kept, kept: &mut [u8; 8], stays: &mut bool) -> u32
    ensures value { result ≡ refusal_number (count_answer answer) }
    ensures stays_after { count_numbers kept.new stays.new
        ≡ counted_numbers (count_answer answer) after (count_numbers kept.old stays.old) }
{
    match answer {
        CountAnswer::Refused(refusal) => refusals::number_of(refusal),
        CountAnswer::Stays => {
            cached::put_kept(after, kept);
            *stays = true;
            0
        },
        CountAnswer::Dropped => {
            cached::put_kept(after, kept);
            *stays = false;
            0
        },
    }
}
