// Packed words: packing, fields, order, rows in order, searches.
use crate::stored::text::Cursor;
use crate::stored::{lists, numbers, text};
use ffi::words;

// PACK layer, tile x, tile y, local x, local y, multiplier, cover: the refusal, and what the lent word then is, which
// was 5.
pub fn pack(text: &[u8], at: usize) -> Cursor {
    let mut w = [0u64; 7];
    let end = lists::fill(text, at, &mut w, 7);
    let mut word: u64 = 5;
    let number = words::ffi_pack(
        numbers::word(w[0]),
        numbers::signed_16(w[1]),
        numbers::signed_16(w[2]),
        numbers::byte(w[3]),
        numbers::byte(w[4]),
        numbers::byte(w[5]),
        numbers::signed_8(w[6]),
        &mut word,
    );
    let told = text::expect(
        text,
        Cursor {
            at: end,
            same: true,
        },
        number as u64,
    );
    text::expect(text, told, word)
}

// FIELDS of a word: layer, tile x, tile y, local x, local y, multiplier, double area, cover.
pub fn fields(text: &[u8], at: usize) -> Cursor {
    let number = text::next(text, at);
    let word = number.value;
    let c0 = Cursor {
        at: number.at,
        same: true,
    };
    let c1 = text::expect(text, c0, words::ffi_layer_id(word) as u64);
    let c2 = text::expect_signed_16(text, c1, words::ffi_tile_x(word));
    let c3 = text::expect_signed_16(text, c2, words::ffi_tile_y(word));
    let c4 = text::expect_byte(text, c3, words::ffi_local_x(word));
    let c5 = text::expect_byte(text, c4, words::ffi_local_y(word));
    let c6 = text::expect_byte(text, c5, words::ffi_double_area_multiplier(word));
    let c7 = text::expect_signed_16(text, c6, words::ffi_double_area(word));
    text::expect_signed_8(text, c7, words::ffi_cover(word))
}

// ORDER of two words: 0, 1 or 2.
pub fn order(text: &[u8], at: usize) -> Cursor {
    let mut w = [0u64; 2];
    let end = lists::fill(text, at, &mut w, 2);
    text::expect_byte(
        text,
        Cursor {
            at: end,
            same: true,
        },
        words::ffi_cmp(w[0], w[1]),
    )
}

// ASCENT of a tile y as it is stored, how many words, the words: whether they ascend, and whether they are such a row.
pub fn ascent(text: &[u8], at: usize, row: &mut [u64]) -> Cursor {
    let mut w = [0u64; 2];
    let start = lists::fill(text, at, &mut w, 2);
    let n = numbers::length(w[1]);
    let end = lists::fill(text, start, row, n);
    let words = lists::front(row, n);
    let told = text::expect_flag(
        text,
        Cursor {
            at: end,
            same: true,
        },
        words::ffi_does_ascend(words),
    );
    text::expect_flag(text, told, words::ffi_is_row(words, w[0]))
}

fn search_in(row: &[u64], key: u64, value: u64, wanted: bool, place: &mut usize) -> bool {
    match key {
        0 => words::ffi_search_last_by_tile_y(row, numbers::signed_16(value), place),
        1 => words::ffi_search_last_by_tile_x(row, numbers::signed_16(value), place),
        2 => words::ffi_search_last_by_layer_id(row, numbers::word(value), place),
        3 => words::ffi_search_last_by_tile_x_at_least(
            row,
            numbers::signed_16(value),
            wanted,
            place,
        ),
        _ => words::ffi_search_last_by_tile_y_not_negative(row, wanted, place),
    }
}

// SEARCH by a key, its value, the answer that is looked for, how many words, the words: whether it is found, and the
// place.
pub fn search(text: &[u8], at: usize, row: &mut [u64]) -> Cursor {
    let mut w = [0u64; 4];
    let start = lists::fill(text, at, &mut w, 4);
    let n = numbers::length(w[3]);
    let end = lists::fill(text, start, row, n);
    let mut place: usize = 0;
    let found = search_in(
        lists::front(row, n),
        w[0],
        w[1],
        numbers::flag(w[2]),
        &mut place,
    );
    let told = text::expect_flag(
        text,
        Cursor {
            at: end,
            same: true,
        },
        found,
    );
    text::expect(text, told, place as u64)
}
