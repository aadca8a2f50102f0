// Deciding about a tile from a lent list.
use crate::stored::text::Cursor;
use crate::stored::{entries, lists, numbers, rooms, stand, text};
use crate::works;
use crate::works::Given;
use ffi::deciding;

// DECIDE of how many layers, how many entries stand here, n, how many ids the column has, by how much those after them
// exceed their places, whether the flags are too few, whether the masks are; what a tile is given, whose number plays
// no part; the layers' words, the layers' colours, the list's ids, covers and flags: the refusal, the cached tile, the
// answer's three numbers and the bottom colour, which were 5 each, and the masks, which were false.
pub fn decide(text: &[u8], at: usize, layers: &mut [u32], colors: &mut [f32]) -> Cursor {
    let mut w = [0u64; 7];
    let start = lists::fill(text, at, &mut w, 7);
    let given = works::read_given(text, start);
    let count = numbers::length(w[0]);
    let a1 = lists::fill_words(text, given.at, layers, 8 * count);
    let end = lists::fill_floats(text, a1, colors, 4 * count);
    decide_listed(
        text,
        end,
        w,
        given,
        lists::front_words(layers, 8 * count),
        lists::front_floats(colors, 4 * count),
    )
}

fn decide_listed(
    text: &[u8],
    at: usize,
    w: [u64; 7],
    given: Given,
    layers: &[u32],
    colors: &[f32],
) -> Cursor {
    let held = numbers::length(w[1]);
    let mut ids = rooms::ids();
    let mut covers = rooms::covers();
    let start = lists::fill_words(text, at, &mut ids, held);
    entries::count_on(&mut ids, held, w[4]);
    let end = entries::fill_covers(text, start, &mut covers, 16 * held);
    decide_flagged(
        text,
        end,
        w,
        given,
        layers,
        colors,
        lists::front_words(&ids, numbers::length(w[3])),
        &covers,
    )
}

fn decide_flagged(
    text: &[u8],
    at: usize,
    w: [u64; 7],
    given: Given,
    layers: &[u32],
    colors: &[f32],
    ids: &[u32],
    covers: &[i8],
) -> Cursor {
    let held = numbers::length(w[1]);
    if numbers::flag(w[5]) {
        let mut few = rooms::flags();
        let few_end = entries::fill_flags(text, at, &mut few, held);
        return decide_masked(text, few_end, w, given, layers, colors, ids, covers, &few);
    }
    let mut flags = rooms::flag_pairs();
    let end = entries::fill_flags(text, at, &mut flags, held);
    decide_masked(text, end, w, given, layers, colors, ids, covers, &flags)
}

fn decide_masked(
    text: &[u8],
    at: usize,
    w: [u64; 7],
    given: Given,
    layers: &[u32],
    colors: &[f32],
    ids: &[u32],
    covers: &[i8],
    flags: &[bool],
) -> Cursor {
    let count = numbers::length(w[0]);
    let n = numbers::length(w[2]);
    if numbers::flag(w[6]) {
        let mut few = rooms::few_flags();
        return decide_in(
            text, at, n, given, layers, colors, count, ids, covers, flags, &mut few,
        );
    }
    let mut unmasked = rooms::flags();
    decide_in(
        text,
        at,
        n,
        given,
        layers,
        colors,
        count,
        ids,
        covers,
        flags,
        &mut unmasked,
    )
}

fn decide_in(
    text: &[u8],
    at: usize,
    n: usize,
    given: Given,
    layers: &[u32],
    colors: &[f32],
    count: usize,
    ids: &[u32],
    covers: &[i8],
    flags: &[bool],
    unmasked: &mut [bool],
) -> Cursor {
    let mut kept = given.kept;
    let clear = given.clear;
    let previous = given.previous;
    let mut told = [5usize; 3];
    let mut bottom = [5.0f32; 4];
    let number = deciding::ffi_decide_tile(
        ids,
        covers,
        flags,
        n,
        layers,
        colors,
        count,
        given.is_kept,
        &mut kept,
        &clear,
        given.is_previous,
        &previous,
        unmasked,
        &mut told,
        &mut bottom,
    );
    let start = Cursor { at: at, same: true };
    let cursor = expect_decided(text, start, number, kept, told, bottom);
    lists::expect_flags(text, cursor, unmasked, stand::carried(number, n))
}

fn expect_decided(
    text: &[u8],
    cursor: Cursor,
    number: u32,
    kept: [u8; 8],
    told: [usize; 3],
    bottom: [f32; 4],
) -> Cursor {
    let c1 = text::expect_word(text, cursor, number);
    let c2 = lists::expect_tile(text, c1, kept);
    let c3 = text::expect(text, c2, told[0] as u64);
    let c4 = text::expect(text, c3, told[1] as u64);
    let c5 = text::expect(text, c4, told[2] as u64);
    let c6 = text::expect_float(text, c5, bottom[0]);
    let c7 = text::expect_float(text, c6, bottom[1]);
    let c8 = text::expect_float(text, c7, bottom[2]);
    text::expect_float(text, c8, bottom[3])
}
