// Covers, carries and painted parts.
use crate::stored::text::Cursor;
use crate::stored::{lists, numbers, rooms, text};
use ffi::covers;

// COVER of 16 bytes: whether it is empty by each rule, and full.
pub fn cover(text: &[u8], at: usize) -> Cursor {
    let mut bytes = [0i8; 16];
    let end = lists::fill_covers(text, at, &mut bytes);
    let c1 = text::expect_flag(
        text,
        Cursor {
            at: end,
            same: true,
        },
        covers::ffi_is_empty(&bytes, 0),
    );
    let c2 = text::expect_flag(text, c1, covers::ffi_is_empty(&bytes, 1));
    let c3 = text::expect_flag(text, c2, covers::ffi_is_full(&bytes, 0));
    text::expect_flag(text, c3, covers::ffi_is_full(&bytes, 1))
}

// CARRY of 16 bytes, how many words, the words: the refusal, and the 16 bytes then.
pub fn carry(text: &[u8], at: usize, row: &mut [u64]) -> Cursor {
    let mut bytes = [0i8; 16];
    let start = lists::fill_covers(text, at, &mut bytes);
    let count = text::next(text, start);
    let n = numbers::length(count.value);
    let end = lists::fill(text, count.at, row, n);
    let number = covers::ffi_carry(lists::front(row, n), &mut bytes);
    let told = text::expect(
        text,
        Cursor {
            at: end,
            same: true,
        },
        number as u64,
    );
    lists::expect_cover(text, told, bytes)
}

// PAINT by a rule, 16 bytes, how many words, the words: the refusal, the mark, the octets, and the 256 coverages. The
// mark was 5 and the plane 2 each.
pub fn paint(text: &[u8], at: usize, row: &mut [u64]) -> Cursor {
    let rule = text::next(text, at);
    let mut bytes = [0i8; 16];
    let start = lists::fill_covers(text, rule.at, &mut bytes);
    let count = text::next(text, start);
    let n = numbers::length(count.value);
    let end = lists::fill(text, count.at, row, n);
    let mut plane = rooms::plane();
    paint_in(
        text,
        end,
        lists::front(row, n),
        bytes,
        numbers::word(rule.value),
        &mut plane,
    )
}

fn paint_in(
    text: &[u8],
    at: usize,
    part: &[u64],
    cover: [i8; 16],
    rule: u32,
    plane: &mut [f32],
) -> Cursor {
    let mut mark: u32 = 5;
    let bytes = cover;
    let number = covers::ffi_paint_part(part, &bytes, rule, plane, &mut mark);
    let c1 = text::expect(text, Cursor { at: at, same: true }, number as u64);
    let c2 = text::expect(text, c1, mark as u64);
    let c3 = text::expect(text, c2, covers::ffi_octets(mark) as u64);
    lists::expect_floats(text, c3, plane)
}
