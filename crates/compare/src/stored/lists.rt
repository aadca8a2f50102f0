// Lists of the text: read into lent memory, or held to what was found in it.
use crate::stored::text::Cursor;
use crate::stored::{numbers, text};

// The place after n numbers, which `out` then holds from the front on; fewer where it is shorter.
pub fn fill(text: &[u8], at: usize, out: &mut [u64], n: usize) -> usize {
    let mut place = at;
    for slot in out.iter_mut().take(n) {
        let number = text::next(text, place);
        *slot = number.value;
        place = number.at;
    }
    place
}

pub fn fill_words(text: &[u8], at: usize, out: &mut [u32], n: usize) -> usize {
    let mut place = at;
    for slot in out.iter_mut().take(n) {
        let number = text::next(text, place);
        *slot = numbers::word(number.value);
        place = number.at;
    }
    place
}

pub fn fill_floats(text: &[u8], at: usize, out: &mut [f32], n: usize) -> usize {
    let mut place = at;
    for slot in out.iter_mut().take(n) {
        let number = text::next(text, place);
        *slot = numbers::float(number.value);
        place = number.at;
    }
    place
}

// The first n of a list; all where it is shorter.
pub fn front(list: &[u64], n: usize) -> &[u64] {
    &list[..n.min(list.len())]
}

pub fn front_words(list: &[u32], n: usize) -> &[u32] {
    &list[..n.min(list.len())]
}

pub fn front_floats(list: &[f32], n: usize) -> &[f32] {
    &list[..n.min(list.len())]
}

// The place after as many numbers as `out` has, which it then holds.
pub fn fill_covers(text: &[u8], at: usize, out: &mut [i8]) -> usize {
    let mut place = at;
    for slot in out {
        let number = text::next(text, place);
        *slot = numbers::signed_8(number.value);
        place = number.at;
    }
    place
}

pub fn fill_bytes(text: &[u8], at: usize, out: &mut [u8]) -> usize {
    let mut place = at;
    for slot in out {
        let number = text::next(text, place);
        *slot = numbers::byte(number.value);
        place = number.at;
    }
    place
}

// The place after n numbers, which `out` then holds from the front on; fewer where it is shorter.
pub fn fill_some_bytes(text: &[u8], at: usize, out: &mut [u8], n: usize) -> usize {
    let mut place = at;
    for slot in out.iter_mut().take(n) {
        let number = text::next(text, place);
        *slot = numbers::byte(number.value);
        place = number.at;
    }
    place
}

// Whether a number that was found is the stored one, or, where none is stored, `rest`.
fn hold_word(text: &[u8], cursor: Cursor, found: u32, stored: bool, rest: u32) -> Cursor {
    if stored {
        return text::expect(text, cursor, found as u64);
    }
    Cursor {
        at: cursor.at,
        same: cursor.same & (found == rest),
    }
}

// Whether the first n are the stored ones, and each after them is `rest`.
pub fn expect_words(text: &[u8], cursor: Cursor, found: &[u32], n: usize, rest: u32) -> Cursor {
    let mut held = cursor;
    for (i, word) in found.iter().enumerate() {
        held = hold_word(text, held, *word, i < n, rest);
    }
    held
}

fn hold_cover(text: &[u8], cursor: Cursor, found: i8, stored: bool, rest: i8) -> Cursor {
    if stored {
        return text::expect_signed_8(text, cursor, found);
    }
    Cursor {
        at: cursor.at,
        same: cursor.same & (found == rest),
    }
}

// Whether the first n are the stored ones, and each after them is `rest`.
pub fn expect_covers(text: &[u8], cursor: Cursor, found: &[i8], n: usize, rest: i8) -> Cursor {
    let mut held = cursor;
    for (i, cover) in found.iter().enumerate() {
        held = hold_cover(text, held, *cover, i < n, rest);
    }
    held
}

// Whether all bytes are the stored ones.
fn expect_bytes(text: &[u8], cursor: Cursor, found: &[u8]) -> Cursor {
    found
        .iter()
        .fold(cursor, |held, byte| text::expect_byte(text, held, *byte))
}

// Whether a cover, a cached tile or a colour is the stored one.
pub fn expect_cover(text: &[u8], cursor: Cursor, found: [i8; 16]) -> Cursor {
    expect_covers(text, cursor, &found, 16, 0)
}

pub fn expect_tile(text: &[u8], cursor: Cursor, found: [u8; 8]) -> Cursor {
    expect_bytes(text, cursor, &found)
}

pub fn expect_color(text: &[u8], cursor: Cursor, found: [u8; 4]) -> Cursor {
    expect_bytes(text, cursor, &found)
}

pub fn expect_floats(text: &[u8], cursor: Cursor, found: &[f32]) -> Cursor {
    found.iter().fold(cursor, |held, float| text::expect_float(text, held, *float))
}

fn hold_flag(text: &[u8], cursor: Cursor, found: bool, stored: bool) -> Cursor {
    if stored {
        return text::expect_flag(text, cursor, found);
    }
    Cursor {
        at: cursor.at,
        same: cursor.same & !found,
    }
}

// Whether in each 256 of them the first n are the stored ones, and the others are false.
pub fn expect_flags(text: &[u8], cursor: Cursor, found: &[bool], n: usize) -> Cursor {
    let mut held = cursor;
    for (i, flag) in found.iter().enumerate() {
        held = hold_flag(text, held, *flag, i % 256 < n);
    }
    held
}

// The first n of one list into another.
pub fn copy_words(from: &[u32], to: &mut [u32], n: usize) {
    let many = n.min(from.len()).min(to.len());
    to[..many].copy_from_slice(&from[..many]);
}

pub fn copy_covers(from: &[i8], to: &mut [i8], n: usize) {
    let many = n.min(from.len()).min(to.len());
    to[..many].copy_from_slice(&from[..many]);
}
