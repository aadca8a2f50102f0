// Painting layers of the tile just worked.
use crate::stored::stand::Stand;
use crate::stored::text::Cursor;
use crate::stored::{lists, numbers, rooms, stand, text};
use ffi::painting;

// How many paintings, and each: the layer; then the refusal, the state, the mark, which was 5, and the 256 coverages,
// which were 2.
pub fn layers(
    text: &[u8],
    start: Stand,
    tile: i32,
    row: &[u64],
    table: &[u32],
    colors: &[f32],
    count: usize,
    ids: &[u32],
    covers: &[i8],
) -> Stand {
    let paintings = text::next(text, start.at);
    let mut stand = Stand {
        at: paintings.at,
        ..start
    };
    for _ in 0..paintings.value {
        stand = layer(text, stand, tile, row, table, colors, count, ids, covers);
    }
    stand
}

fn layer(
    text: &[u8],
    stand: Stand,
    tile: i32,
    row: &[u64],
    table: &[u32],
    colors: &[f32],
    count: usize,
    ids: &[u32],
    covers: &[i8],
) -> Stand {
    let mut plane = rooms::plane();
    layer_in(
        text, stand, tile, row, table, colors, count, ids, covers, &mut plane,
    )
}

fn layer_in(
    text: &[u8],
    stand: Stand,
    tile: i32,
    row: &[u64],
    table: &[u32],
    colors: &[f32],
    count: usize,
    ids: &[u32],
    covers: &[i8],
    plane: &mut [f32],
) -> Stand {
    let id = text::next(text, stand.at);
    let mut words = stand.words;
    let mut counts = stand.counts;
    let mut mark: u32 = 5;
    let number = painting::ffi_paint_layer(
        &mut words,
        &mut counts,
        tile,
        numbers::word(id.value),
        row,
        table,
        colors,
        count,
        ids,
        covers,
        plane,
        &mut mark,
    );
    let c1 = text::expect(
        text,
        Cursor {
            at: id.at,
            same: stand.same,
        },
        number as u64,
    );
    let c2 = stand::expect_state(text, c1, words, counts);
    let c3 = text::expect_word(text, c2, mark);
    let c4 = lists::expect_floats(text, c3, plane);
    Stand {
        at: c4.at,
        same: c4.same,
        words: words,
        counts: counts,
    }
}
