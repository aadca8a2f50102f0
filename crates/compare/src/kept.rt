// Tiles kept from frame to frame: whether a count may stay, and the histories in which the Rust keeps a tile.
use crate::stored::text::Cursor;
use crate::stored::{lists, numbers, rooms, text};
use crate::{rows, tiles};
use ffi::counts;

// STAYS of how many layers were listed at the last work, how many are listed today, whether a tile is given, its 8
// bytes; ids and kinds of the last list, ids and kinds of today's: the refusal, whether the count may stay (no after a
// refusal), and the bytes then.
pub fn stays(text: &[u8], at: usize) -> Cursor {
    let mut head = [0u64; 3];
    let a1 = lists::fill(text, at, &mut head, 3);
    let last = numbers::length(head[0]);
    let n = numbers::length(head[1]);
    let mut tile = [0u8; 8];
    let a2 = lists::fill_bytes(text, a1, &mut tile);
    let mut last_ids = rooms::ids();
    let a3 = lists::fill_words(text, a2, &mut last_ids, last);
    let mut last_kinds = rooms::kinds();
    let a4 = lists::fill_some_bytes(text, a3, &mut last_kinds, last);
    let mut ids = rooms::ids();
    let a5 = lists::fill_words(text, a4, &mut ids, n);
    let mut kinds = rooms::kinds();
    let a6 = lists::fill_some_bytes(text, a5, &mut kinds, n);
    let mut may_stay = false;
    let number = counts::ffi_keep_count(
        &last_ids,
        &last_kinds,
        last,
        &ids,
        &kinds,
        n,
        numbers::flag(head[2]),
        &mut tile,
        &mut may_stay,
    );
    let c1 = text::expect(text, Cursor { at: a6, same: true }, number as u64);
    let c2 = text::expect_flag(text, c1, may_stay);
    lists::expect_tile(text, c2, tile)
}

// How many askings or settlings, and each.
fn all_of(text: &[u8], start: Cursor, is_asking: bool) -> Cursor {
    let count = text::next(text, start.at);
    let mut at = count.at;
    let mut same = start.same;
    for _ in 0..count.value {
        let held = if is_asking {
            stays(text, at)
        } else {
            tiles::settle(text, at)
        };
        at = held.at;
        same &= held.same;
    }
    Cursor { at: at, same: same }
}

// The askings, the row, and the settlings.
fn frame(
    text: &[u8],
    start: Cursor,
    row: &mut [u64],
    layers: &mut [u32],
    colors: &mut [f32],
) -> Cursor {
    let asked = all_of(text, start, true);
    let worked = rows::row(text, asked.at, row, layers, colors);
    all_of(
        text,
        Cursor {
            at: worked.at,
            same: asked.same & worked.same,
        },
        false,
    )
}

// HISTORY of how many frames, and each: how many of its tiles are asked about, and each (STAYS); the row (ROW), whose
// tiles are given the bytes that the last frame left; how many of them are settled, and each (SETTLE).
pub fn history(
    text: &[u8],
    at: usize,
    row: &mut [u64],
    layers: &mut [u32],
    colors: &mut [f32],
) -> Cursor {
    let frames = text::next(text, at);
    let mut held = Cursor {
        at: frames.at,
        same: true,
    };
    for _ in 0..frames.value {
        held = frame(text, held, row, layers, colors);
    }
    held
}
