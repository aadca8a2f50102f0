// Entries of lent columns: read from the text, or counted on.
use crate::stored::text::Number;
use crate::stored::{numbers, text};

// The place after n numbers, which `out` then holds from the front on; fewer where it is shorter.
pub fn fill_covers(text: &[u8], at: usize, out: &mut [i8], n: usize) -> usize {
    let mut place = at;
    for slot in out.iter_mut().take(n) {
        let number = text::next(text, place);
        *slot = numbers::signed_8(number.value);
        place = number.at;
    }
    place
}

// A number of the text, or 0 where none stands.
fn next_if(text: &[u8], at: usize, stands: bool) -> Number {
    if stands {
        return text::next(text, at);
    }
    Number { value: 0, at: at }
}

// The place after the first n flags of each 256; the others are false.
pub fn fill_flags(text: &[u8], at: usize, out: &mut [bool], n: usize) -> usize {
    let mut place = at;
    for (i, flag) in out.iter_mut().enumerate() {
        let number = next_if(text, place, i % 256 < n);
        *flag = numbers::flag(number.value);
        place = number.at;
    }
    place
}

// Each number from place n on is `first` and its place.
pub fn count_on(out: &mut [u32], n: usize, first: u64) {
    for (i, number) in out.iter_mut().enumerate().skip(n) {
        *number = numbers::word(first.wrapping_add(i as u64));
    }
}
