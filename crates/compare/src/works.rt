// The work on a tile, and its paintings.
ghost use Rattle.std.specs.Prelude.{◌≤◌};

use crate::paints;
use crate::stored::stand::Stand;
use crate::stored::text::Cursor;
use crate::stored::{lists, numbers, rooms, stand, text};
use ffi::working;

// What a tile is given: its number, whether a cached tile is given and its 8 bytes, the clear colour, whether one of
// the frame before is given and it.
#[derive(Clone, Copy)]
pub struct Given {
    pub at: usize,
    pub tile: i32,
    pub is_kept: bool,
    pub kept: [u8; 8],
    pub clear: [f32; 4],
    pub is_previous: bool,
    pub previous: [f32; 4],
}

pub fn read_given(text: &[u8], at: usize) -> Given {
    let mut head = [0u64; 2];
    let a1 = lists::fill(text, at, &mut head, 2);
    let mut kept = [0u8; 8];
    let a2 = lists::fill_bytes(text, a1, &mut kept);
    let mut clear = [0f32; 4];
    let a3 = lists::fill_floats(text, a2, &mut clear, 4);
    let flag = text::next(text, a3);
    let mut previous = [0f32; 4];
    let end = lists::fill_floats(text, flag.at, &mut previous, 4);
    Given {
        at: end,
        tile: numbers::signed_32(head[0]),
        is_kept: numbers::flag(head[1]),
        kept: kept,
        clear: clear,
        is_previous: numbers::flag(flag.value),
        previous: previous,
    }
}

// The answer's four numbers and the bottom colour, which were 5 each.
fn expect_told(text: &[u8], cursor: Cursor, told: [usize; 4], bottom: [f32; 4]) -> Cursor {
    let c1 = text::expect(text, cursor, told[0] as u64);
    let c2 = text::expect(text, c1, told[1] as u64);
    let c3 = text::expect(text, c2, told[2] as u64);
    let c4 = text::expect(text, c3, told[3] as u64);
    let c5 = text::expect_float(text, c4, bottom[0]);
    let c6 = text::expect_float(text, c5, bottom[1]);
    let c7 = text::expect_float(text, c6, bottom[2]);
    text::expect_float(text, c7, bottom[3])
}

// What a tile is given; then the refusal, the state, the cached tile, the answer, the list's four columns (of the flags
// those that say whether there are segments, then the marks), the carries handed on; then the paintings. Lent columns
// were 7 each or false, and still are past what is written.
pub fn tile(
    text: &[u8],
    stand: Stand,
    row: &[u64],
    layers: &[u32],
    colors: &[f32],
    count: usize,
    ids: &mut [u32],
    covers: &mut [i8],
) -> Stand {
    let mut next_ids = rooms::ids();
    let mut next_covers = rooms::covers();
    let mut list_ids = rooms::ids();
    let mut list_covers = rooms::covers();
    let mut flags = rooms::flag_pairs();
    let mut unmasked = rooms::flags();
    tile_in(
        text,
        stand,
        row,
        layers,
        colors,
        count,
        ids,
        covers,
        &mut next_ids,
        &mut next_covers,
        &mut list_ids,
        &mut list_covers,
        &mut flags,
        &mut unmasked,
    )
}

fn tile_in(
    text: &[u8],
    stand: Stand,
    row: &[u64],
    layers: &[u32],
    colors: &[f32],
    count: usize,
    ids: &mut [u32],
    covers: &mut [i8],
    next_ids: &mut [u32],
    next_covers: &mut [i8],
    list_ids: &mut [u32],
    list_covers: &mut [i8],
    flags: &mut [bool],
    unmasked: &mut [bool],
) -> Stand {
    let given = read_given(text, stand.at);
    let mut words = stand.words;
    let mut counts = stand.counts;
    let mut kept = given.kept;
    let clear = given.clear;
    let previous = given.previous;
    let mut told = [5usize; 4];
    let mut bottom = [5.0f32; 4];
    let number = working::ffi_work_tile(
        &mut words,
        &mut counts,
        given.tile,
        row,
        layers,
        colors,
        count,
        given.is_kept,
        &mut kept,
        &clear,
        given.is_previous,
        &previous,
        ids,
        covers,
        next_ids,
        next_covers,
        list_ids,
        list_covers,
        flags,
        unmasked,
        &mut told,
        &mut bottom,
    );
    let c1 = text::expect(
        text,
        Cursor {
            at: given.at,
            same: stand.same,
        },
        number as u64,
    );
    let c2 = stand::expect_state(text, c1, words, counts);
    let c3 = lists::expect_tile(text, c2, kept);
    let c4 = expect_told(text, c3, told, bottom);
    let listed = stand::carried(number, told[2]);
    let c5 = expect_list(text, c4, listed, list_ids, list_covers, flags, unmasked);
    let left = stand::carried(number, counts[0]);
    let c6 = lists::expect_words(text, c5, next_ids, left, 7);
    let c7 = lists::expect_covers(text, c6, next_covers, 16 * left, 7);
    let worked = Stand {
        at: c7.at,
        same: c7.same,
        words: words,
        counts: counts,
    };
    let painted = paints::layers(
        text, worked, given.tile, row, layers, colors, count, ids, covers,
    );
    lists::copy_words(next_ids, ids, left);
    lists::copy_covers(next_covers, covers, 16 * left);
    painted
}

fn expect_list(
    text: &[u8],
    cursor: Cursor,
    listed: usize,
    ids: &[u32],
    covers: &[i8],
    flags: &[bool],
    unmasked: &[bool],
) -> Cursor
    requires { listed ≤ 4096 }
{
    let c1 = lists::expect_words(text, cursor, ids, listed, 7);
    let c2 = lists::expect_covers(text, c1, covers, 16 * listed, 7);
    let c3 = lists::expect_flags(text, c2, flags, listed);
    lists::expect_flags(text, c3, unmasked, listed)
}
