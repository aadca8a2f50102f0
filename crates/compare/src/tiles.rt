// Cached tiles, as eight bytes: the tag, the count's three, the colour's four.
use crate::stored::text::Cursor;
use crate::stored::{lists, numbers, text};
use ffi::cached;

// COUNT of a tile's 8 bytes, whether one is given, the count: whether one was kept, which (5 where none), and the bytes
// then.
pub fn count(text: &[u8], at: usize) -> Cursor {
    let mut tile = [0u8; 8];
    let start = lists::fill_bytes(text, at, &mut tile);
    let mut w = [0u64; 2];
    let end = lists::fill(text, start, &mut w, 2);
    let mut previous: u32 = 5;
    let given = cached::ffi_update_layer_count(
        &mut tile,
        numbers::flag(w[0]),
        numbers::word(w[1]),
        &mut previous,
    );
    let c1 = text::expect_flag(
        text,
        Cursor {
            at: end,
            same: true,
        },
        given,
    );
    let c2 = text::expect(text, c1, previous as u64);
    lists::expect_tile(text, c2, tile)
}

// COLOR of a tile's 8 bytes, whether one is given, its 4 bytes: whether one was kept, which (5 each where none), and
// the bytes then.
pub fn color(text: &[u8], at: usize) -> Cursor {
    let mut tile = [0u8; 8];
    let start = lists::fill_bytes(text, at, &mut tile);
    let flag = text::next(text, start);
    let mut bytes = [0u8; 4];
    let end = lists::fill_bytes(text, flag.at, &mut bytes);
    let mut previous = [5u8; 4];
    let given = cached::ffi_update_solid_color(
        &mut tile,
        numbers::flag(flag.value),
        &bytes,
        &mut previous,
    );
    let c1 = text::expect_flag(
        text,
        Cursor {
            at: end,
            same: true,
        },
        given,
    );
    let c2 = lists::expect_color(text, c1, previous);
    lists::expect_tile(text, c2, tile)
}

// SETTLE whether a tile is given, its 8 bytes, 4 display bytes: the refusal, whether they are written (no after a
// refusal), and the bytes then.
pub fn settle(text: &[u8], at: usize) -> Cursor {
    let flag = text::next(text, at);
    let mut tile = [0u8; 8];
    let start = lists::fill_bytes(text, flag.at, &mut tile);
    let mut bytes = [0u8; 4];
    let end = lists::fill_bytes(text, start, &mut bytes);
    let mut is_written = false;
    let number = cached::ffi_settle(
        numbers::flag(flag.value),
        &mut tile,
        &bytes,
        &mut is_written,
    );
    let c1 = text::expect(
        text,
        Cursor {
            at: end,
            same: true,
        },
        number as u64,
    );
    let c2 = text::expect_flag(text, c1, is_written);
    lists::expect_tile(text, c2, tile)
}
