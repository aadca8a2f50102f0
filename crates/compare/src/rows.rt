// Rows of tiles.
use crate::stored::stand::Stand;
use crate::stored::text::Cursor;
use crate::stored::{lists, numbers, rooms, stand, text};
use crate::works;
use ffi::rows;

// OPEN or ROW of tile y, from, to, how many layers, how many words; the layers' words, the layers' colours, the row:
// the refusal, the state's 6 words and 2 counts, which were 5 each, and the carries: ids, then covers; then how many
// tiles, and each tile. The lent queue was 7 each, and still is past the carries.
pub fn row(
    text: &[u8],
    at: usize,
    row: &mut [u64],
    layers: &mut [u32],
    colors: &mut [f32],
) -> Cursor {
    let mut w = [0u64; 5];
    let start = lists::fill(text, at, &mut w, 5);
    let count = numbers::length(w[3]);
    let n = numbers::length(w[4]);
    let a1 = lists::fill_words(text, start, layers, 8 * count);
    let a2 = lists::fill_floats(text, a1, colors, 4 * count);
    let end = lists::fill(text, a2, row, n);
    let mut ids = rooms::ids();
    let mut covers = rooms::covers();
    row_in(
        text,
        end,
        w,
        lists::front(row, n),
        lists::front_words(layers, 8 * count),
        lists::front_floats(colors, 4 * count),
        count,
        &mut ids,
        &mut covers,
    )
}

fn open_in(
    text: &[u8],
    at: usize,
    ends: [u64; 5],
    row: &[u64],
    layers: &[u32],
    colors: &[f32],
    count: usize,
    ids: &mut [u32],
    covers: &mut [i8],
) -> Stand {
    let mut words = [5u32; 6];
    let mut counts = [5usize; 2];
    let number = rows::ffi_open_tile_row(
        numbers::signed_32(ends[0]),
        numbers::signed_32(ends[1]),
        numbers::signed_32(ends[2]),
        row,
        layers,
        colors,
        count,
        ids,
        covers,
        &mut words,
        &mut counts,
    );
    let left = stand::carried(number, counts[0]);
    let c1 = text::expect(text, Cursor { at: at, same: true }, number as u64);
    let c2 = stand::expect_state(text, c1, words, counts);
    let c3 = lists::expect_words(text, c2, ids, left, 7);
    let c4 = lists::expect_covers(text, c3, covers, 16 * left, 7);
    Stand {
        at: c4.at,
        same: c4.same,
        words: words,
        counts: counts,
    }
}

fn row_in(
    text: &[u8],
    at: usize,
    ends: [u64; 5],
    row: &[u64],
    layers: &[u32],
    colors: &[f32],
    count: usize,
    ids: &mut [u32],
    covers: &mut [i8],
) -> Cursor {
    let opened = open_in(text, at, ends, row, layers, colors, count, ids, covers);
    tiles_in(text, opened, row, layers, colors, count, ids, covers)
}

// The tiles of a row, one after the other, each from the queue and the state that the last one left.
fn tiles_in(
    text: &[u8],
    start: Stand,
    row: &[u64],
    layers: &[u32],
    colors: &[f32],
    count: usize,
    ids: &mut [u32],
    covers: &mut [i8],
) -> Cursor {
    let tiles = text::next(text, start.at);
    let mut stand = Stand {
        at: tiles.at,
        ..start
    };
    for _ in 0..tiles.value {
        stand = works::tile(text, stand, row, layers, colors, count, ids, covers);
    }
    Cursor {
        at: stand.at,
        same: stand.same,
    }
}
