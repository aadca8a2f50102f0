// Packed words, and the places that searches find.
ghost use Rattle.std.specs.Prelude.{◌≡◌};
ghost use Rattle.pixel_segment.specs.Pack.{packed_answer};
ghost use Rattle.segment_rows.specs.Search.{place_in};
ghost use Rattle.ffi_numbers.specs.Numbers.{refusal_number, value_or, is_found, place_number};

use pixel_segment::PixelSegment;
use refusals::Refusal;

// 0 and the word in `word`, or the number of the refusal.
pub fn put_packed(packed: Result<PixelSegment, Refusal>, word: &mut u64) -> u32
    ensures value { result ≡ refusal_number (packed_answer packed) }
    ensures word_after { word.new ≡ value_or (packed_answer packed) word.old }
{
    match packed {
        Ok(s) => {
            *word = s.0;
            0
        },
        Err(refusal) => refusals::number_of(refusal),
    }
}

// Whether a search found the key; its place, or where it would stand, in `place`.
pub fn put_found(found: Result<usize, usize>, place: &mut usize) -> bool
    ensures value { result ≡ is_found (place_in found) }
    ensures place_after { place.new ≡ place_number (place_in found) }
{
    match found {
        Ok(i) => {
            *place = i;
            true
        },
        Err(i) => {
            *place = i;
            false
        },
    }
}
