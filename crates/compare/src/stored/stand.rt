// Where a replay stands in a row: its place in the text, whether all was the same so far, and the state's six words and
// two counts.
ghost use Rattle.std.specs.Prelude.{◌≤◌};

use crate::stored::text::Cursor;
use crate::stored::{numbers, text};

#[derive(Clone, Copy)]
pub struct Stand {
    pub at: usize,
    pub same: bool,
    pub words: [u32; 6],
    pub counts: [usize; 2],
}

// How many entries a call wrote: none where it is refused.
pub fn carried(number: u32, left: usize) -> usize
    ensures { result ≤ 4096 }
{
    if number == 0 {
        numbers::length(left as u64)
    } else {
        0
    }
}

pub fn expect_state(text: &[u8], cursor: Cursor, words: [u32; 6], counts: [usize; 2]) -> Cursor {
    let c1 = text::expect_word(text, cursor, words[0]);
    let c2 = text::expect_word(text, c1, words[1]);
    let c3 = text::expect_word(text, c2, words[2]);
    let c4 = text::expect_word(text, c3, words[3]);
    let c5 = text::expect_word(text, c4, words[4]);
    let c6 = text::expect_word(text, c5, words[5]);
    let c7 = text::expect(text, c6, counts[0] as u64);
    text::expect(text, c7, counts[1] as u64)
}
