// Listing a tile, without a decision.
ghost use Rattle.std.specs.Prelude.{◌≤◌};

use crate::stored::stand::Stand;
use crate::stored::text::Cursor;
use crate::stored::{entries, lists, numbers, rooms, stand, text};
use ffi::listing;

// LIST of the state's 6 words and 2 counts, the tile, how many layers, how many words, how many carries, how many ids
// the queue's column has, whether the flags are too few; the layers' words, the layers' colours, the row, the carries'
// ids, their covers: the refusal, the state, how many are listed, which was 5, the list's ids, covers and flags, and
// the carries handed on. Lent columns were 7 each or false, and still are past what is written.
pub fn list(
    text: &[u8],
    at: usize,
    row: &mut [u64],
    layers: &mut [u32],
    colors: &mut [f32],
) -> Cursor {
    let mut w = [0u64; 14];
    let start = lists::fill(text, at, &mut w, 14);
    let count = numbers::length(w[9]);
    let n = numbers::length(w[10]);
    let a1 = lists::fill_words(text, start, layers, 8 * count);
    let a2 = lists::fill_floats(text, a1, colors, 4 * count);
    let end = lists::fill(text, a2, row, n);
    list_carried(
        text,
        end,
        w,
        lists::front(row, n),
        lists::front_words(layers, 8 * count),
        lists::front_floats(colors, 4 * count),
        count,
    )
}

fn list_carried(
    text: &[u8],
    at: usize,
    w: [u64; 14],
    row: &[u64],
    layers: &[u32],
    colors: &[f32],
    count: usize,
) -> Cursor {
    let held = numbers::length(w[11]);
    let mut ids = rooms::ids();
    let mut covers = rooms::covers();
    let start = lists::fill_words(text, at, &mut ids, held);
    let end = entries::fill_covers(text, start, &mut covers, 16 * held);
    list_flagged(
        text,
        end,
        w,
        row,
        layers,
        colors,
        count,
        lists::front_words(&ids, numbers::length(w[12])),
        &covers,
    )
}

fn list_flagged(
    text: &[u8],
    at: usize,
    w: [u64; 14],
    row: &[u64],
    layers: &[u32],
    colors: &[f32],
    count: usize,
    ids: &[u32],
    covers: &[i8],
) -> Cursor {
    let stand = to_stand(at, w);
    let tile = numbers::signed_32(w[8]);
    if numbers::flag(w[13]) {
        let mut few = rooms::flags();
        return list_from(
            text, stand, tile, row, layers, colors, count, ids, covers, &mut few,
        );
    }
    let mut flags = rooms::flag_pairs();
    list_from(
        text, stand, tile, row, layers, colors, count, ids, covers, &mut flags,
    )
}

fn to_stand(at: usize, w: [u64; 14]) -> Stand {
    Stand {
        at: at,
        same: true,
        words: [
            numbers::word(w[0]),
            numbers::word(w[1]),
            numbers::word(w[2]),
            numbers::word(w[3]),
            numbers::word(w[4]),
            numbers::word(w[5]),
        ],
        counts: [numbers::length(w[6]), numbers::length(w[7])],
    }
}

fn list_from(
    text: &[u8],
    stand: Stand,
    tile: i32,
    row: &[u64],
    layers: &[u32],
    colors: &[f32],
    count: usize,
    ids: &[u32],
    covers: &[i8],
    flags: &mut [bool],
) -> Cursor {
    let mut next_ids = rooms::ids();
    let mut next_covers = rooms::covers();
    let mut list_ids = rooms::ids();
    let mut list_covers = rooms::covers();
    list_in(
        text,
        stand,
        tile,
        row,
        layers,
        colors,
        count,
        ids,
        covers,
        &mut next_ids,
        &mut next_covers,
        &mut list_ids,
        &mut list_covers,
        flags,
    )
}

fn list_in(
    text: &[u8],
    stand: Stand,
    tile: i32,
    row: &[u64],
    layers: &[u32],
    colors: &[f32],
    count: usize,
    ids: &[u32],
    covers: &[i8],
    next_ids: &mut [u32],
    next_covers: &mut [i8],
    list_ids: &mut [u32],
    list_covers: &mut [i8],
    flags: &mut [bool],
) -> Cursor {
    let mut words = stand.words;
    let mut counts = stand.counts;
    let mut listed: usize = 5;
    let number = listing::ffi_list_tile(
        &mut words,
        &mut counts,
        tile,
        row,
        layers,
        colors,
        count,
        ids,
        covers,
        next_ids,
        next_covers,
        list_ids,
        list_covers,
        flags,
        &mut listed,
    );
    let left = stand::carried(number, counts[0]);
    let after = Stand {
        at: stand.at,
        same: true,
        words: words,
        counts: counts,
    };
    let cursor = expect_listed(text, after, number, listed, list_ids, list_covers, flags);
    expect_carries(text, cursor, left, next_ids, next_covers)
}

fn expect_listed(
    text: &[u8],
    stand: Stand,
    number: u32,
    listed: usize,
    ids: &[u32],
    covers: &[i8],
    flags: &[bool],
) -> Cursor {
    let many = stand::carried(number, listed);
    let start = Cursor {
        at: stand.at,
        same: stand.same,
    };
    let words = stand.words;
    let counts = stand.counts;
    let c1 = text::expect_word(text, start, number);
    let c2 = stand::expect_state(text, c1, words, counts);
    let c3 = text::expect(text, c2, listed as u64);
    let c4 = lists::expect_words(text, c3, ids, many, 7);
    let c5 = lists::expect_covers(text, c4, covers, 16 * many, 7);
    lists::expect_flags(text, c5, flags, many)
}

fn expect_carries(text: &[u8], cursor: Cursor, left: usize, ids: &[u32], covers: &[i8]) -> Cursor
    requires { left ≤ 4096 }
{
    let c1 = lists::expect_words(text, cursor, ids, left, 7);
    lists::expect_covers(text, c1, covers, 16 * left, 7)
}
