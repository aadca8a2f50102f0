// W-207, segments that come and go: each example's name, and whether the answer and what the set then holds are its
// own. The sets are of layer 5 in tile 2 of row 0 where nothing else is said, and two slots are lent.
use crate::printing::{number_in, print};
use cover::Cover;
use segment_set_statements::SegmentSet;
use std::io;

// The last answer's number, and what it left.
#[derive(Clone, Copy)]
struct Held {
    number: u32,
    set: SegmentSet,
    slots: [u64; 2],
    areas: [i16; 256],
}

// Row 0, column 3, cover -16: multiplier 32, and 8.
const A: u64 = 0x0020060000530830;

const B: u64 = 0x0020060000530230;

// Row 0, column 0, multiplier 63, cover -31.
const C: u64 = 0x0020060000500FE1;

// Row 9, column 15, multiplier 1, cover 1.
const D: u64 = 0x00200600005F9041;

// A in layer 6, in tile 3, and in row 1 of tiles.
const OTHER: u64 = 0x0020060000630830;

const RIGHT: u64 = 0x0020080000530830;

const BELOW: u64 = 0x0040060000530830;

// Row 0, column 3, no area: covers -8, 1 and 0.
const EIGHT: u64 = 0x0020060000530038;

const ONE: u64 = 0x0020060000530001;

const NONE: u64 = 0x0020060000530000;

// A set of a layer and a tile begun with a part; each row of the incoming cover is the same.
fn begun_at(layer_id: u32, tile_x: i16, tile_y: i16, incoming: i8, part: &[u64]) -> Held {
    let covers = [incoming; 16];
    let mut slots = [7u64; 2];
    let mut areas = [7i16; 256];
    let edited = segment_set::begin(
        layer_id,
        tile_x,
        tile_y,
        Cover { covers },
        part,
        &mut slots,
        &mut areas,
    );
    let verdict = edited.verdict;
    let set = edited.set;
    Held {
        number: number_in(verdict),
        set: set,
        slots: slots,
        areas: areas,
    }
}

fn begun_with(incoming: i8, part: &[u64]) -> Held {
    begun_at(5, 2, 0, incoming, part)
}

fn begun(incoming: i8) -> Held {
    let words = [7u64; 1];
    begun_with(incoming, &words[..0])
}

fn with(held: Held, word: u64) -> Held {
    let before = held.set;
    let mut slots = held.slots;
    let mut areas = held.areas;
    let edited = segment_set::take_in(before, word, &mut slots, &mut areas);
    let verdict = edited.verdict;
    let set = edited.set;
    Held {
        number: number_in(verdict),
        set: set,
        slots: slots,
        areas: areas,
    }
}

fn without(held: Held, word: u64) -> Held {
    let before = held.set;
    let mut slots = held.slots;
    let mut areas = held.areas;
    let edited = segment_set::let_out(before, word, &mut slots, &mut areas);
    let verdict = edited.verdict;
    let set = edited.set;
    Held {
        number: number_in(verdict),
        set: set,
        slots: slots,
        areas: areas,
    }
}

// What one pixel row holds, from column x on; before it, and in all other rows, d is 512 and the carry 16.
#[derive(Clone, Copy)]
struct Row {
    y: usize,
    x: usize,
    own: i16,
    past: i16,
    carry: i8,
    load: u16,
}

fn area_due(k: usize, row: Row) -> i16 {
    let column = k / 16;
    if (k % 16 != row.y) | (column < row.x) {
        512
    } else if column == row.x {
        row.own
    } else {
        row.past
    }
}

fn are_areas(areas: [i16; 256], row: Row) -> bool {
    areas
        .iter()
        .enumerate()
        .all(|(k, area)| *area == area_due(k, row))
}

fn cover_due(y: usize, row: Row) -> i8 {
    if y == row.y { row.carry } else { 16 }
}

fn is_carry(carry: Cover, row: Row) -> bool {
    let covers = carry.covers;
    covers
        .iter()
        .enumerate()
        .all(|(y, cover)| *cover == cover_due(y, row))
}

fn load_at(loads: [u16; 16], y: usize) -> u16 {
    if y < 16 { loads[y] } else { 0 }
}

fn holds(held: Held, number: u32, count: usize, row: Row) -> bool {
    let set = held.set;
    let areas = held.areas;
    let carry = set.carry;
    let loads = set.loads;
    let y = row.y;
    (held.number == number)
        & (set.count == count)
        & are_areas(areas, row)
        & is_carry(carry, row)
        & (load_at(loads, y) == row.load)
}

fn row_of(y: usize, x: usize, own: i16, past: i16, carry: i8, load: u16) -> Row {
    Row {
        y: y,
        x: x,
        own: own,
        past: past,
        carry: carry,
        load: load,
    }
}

// No segment in row 0.
fn nothing() -> Row {
    row_of(0, 16, 512, 512, 16, 16)
}

fn both() -> Row {
    row_of(0, 3, -128, -512, -16, 48)
}

// d, the carry and the loads after each edit.
fn print_edits(rt: &impl Print) -> io::Result<()> {
    let none = begun(16);
    let a = with(none, A);
    let two = with(a, B);
    print(rt, b"begun with nothing", holds(none, 0, 0, nothing()))?;
    print(rt, b"A taken in", holds(a, 0, 1, row_of(0, 3, 0, 0, 0, 32)))?;
    print(rt, b"A let out", holds(without(a, A), 0, 0, nothing()))?;
    print(
        rt,
        b"B taken in",
        holds(with(none, B), 0, 1, row_of(0, 3, 384, 0, 0, 32)),
    )?;
    print(rt, b"A and B taken in", holds(two, 0, 2, both()))?;
    print(
        rt,
        b"B let out of both",
        holds(without(two, B), 0, 1, row_of(0, 3, 0, 0, 0, 32)),
    )?;
    print(
        rt,
        b"A let out of both",
        holds(without(two, A), 0, 1, row_of(0, 3, 384, 0, 0, 32)),
    )?;
    print(
        rt,
        b"begun with both",
        holds(begun_with(16, &[A, B]), 0, 2, both()),
    )?;
    print(
        rt,
        b"C taken in",
        holds(with(none, C), 0, 1, row_of(0, 0, -1441, -480, -15, 47)),
    )?;
    print(
        rt,
        b"D taken in",
        holds(with(none, D), 0, 1, row_of(9, 15, 513, 513, 17, 17)),
    )
}

// The word that stands in the second slot.
fn second(held: Held) -> u64 {
    let slots = held.slots;
    slots[1]
}

// Slots that are all held, and segments that are not.
fn print_slots(rt: &impl Print) -> io::Result<()> {
    let one = with(begun(16), A);
    let two = with(one, B);
    let other = with(without(two, B), D);
    print(
        rt,
        b"a third in two slots, 13",
        holds(with(two, D), 13, 2, both()),
    )?;
    print(
        rt,
        b"B let out, and D in its slot",
        (other.number == 0) & (second(other) == D),
    )?;
    print(
        rt,
        b"a part of three in two slots, 13",
        begun_with(16, &[A, B, D]).number == 13,
    )?;
    print(
        rt,
        b"A twice, let out once",
        holds(without(with(one, A), A), 0, 1, row_of(0, 3, 0, 0, 0, 32)),
    )?;
    print(
        rt,
        b"A let out twice, 12",
        holds(without(without(one, A), A), 12, 0, nothing()),
    )?;
    print(
        rt,
        b"nothing held, 12",
        holds(without(begun(16), B), 12, 0, nothing()),
    )
}

// Segments of another layer, covers that are too large, and which number comes first.
fn print_refusals(rt: &impl Print) -> io::Result<()> {
    let light = with(begun(119), EIGHT);
    let full = with(with(begun(120), NONE), NONE);
    print(
        rt,
        b"layer 6 taken in, 3",
        with(begun(16), OTHER).number == 3,
    )?;
    print(
        rt,
        b"layer 6 let out, 3",
        without(begun(16), OTHER).number == 3,
    )?;
    print(
        rt,
        b"a part with layer 6, 3",
        begun_with(16, &[A, OTHER, A]).number == 3,
    )?;
    print(rt, b"119 and -8", light.number == 0)?;
    print(rt, b"119, -8 and 1, 9", with(light, ONE).number == 9)?;
    print(rt, b"119, -8 and 0", with(light, NONE).number == 0)?;
    print(rt, b"120 and -8, 9", with(begun(120), EIGHT).number == 9)?;
    print(
        rt,
        b"120 and -8 in full slots, 9",
        with(full, EIGHT).number == 9,
    )?;
    print(
        rt,
        b"120 and 0 in full slots, 13",
        with(full, NONE).number == 13,
    )?;
    print(rt, b"127 and nothing", begun(-127).number == 0)?;
    print(rt, b"128 and nothing, 9", begun(-128).number == 9)
}

// Segments of another tile.
fn print_tiles(rt: &impl Print) -> io::Result<()> {
    let none = begun(16);
    let right = begun_at(5, 3, 0, 16, &[RIGHT]);
    let below = begun_at(5, 2, 1, 16, &[BELOW]);
    print(
        rt,
        b"tile 3 taken in, 3",
        holds(with(none, RIGHT), 3, 0, nothing()),
    )?;
    print(rt, b"tile 3 let out, 3", without(none, RIGHT).number == 3)?;
    print(
        rt,
        b"a part with tile 3, 3",
        begun_with(16, &[RIGHT, A]).number == 3,
    )?;
    print(
        rt,
        b"row 1 taken in, 3",
        holds(with(none, BELOW), 3, 0, nothing()),
    )?;
    print(rt, b"row 1 let out, 3", without(none, BELOW).number == 3)?;
    print(
        rt,
        b"a part with row 1, 3",
        begun_with(16, &[A, BELOW]).number == 3,
    )?;
    print(
        rt,
        b"begun in tile 3",
        holds(right, 0, 1, row_of(0, 3, 0, 0, 0, 32)),
    )?;
    print(
        rt,
        b"begun in tile 3, tile 2 taken in, 3",
        with(right, A).number == 3,
    )?;
    print(
        rt,
        b"begun in row 1",
        holds(below, 0, 1, row_of(0, 3, 0, 0, 0, 32)),
    )?;
    print(
        rt,
        b"begun in row 1, row 0 taken in, 3",
        with(below, A).number == 3,
    )
}

// Beginnings: what they leave, and which number comes first.
fn print_beginnings(rt: &impl Print) -> io::Result<()> {
    print(
        rt,
        b"begun with A",
        holds(begun_with(16, &[A]), 0, 1, row_of(0, 3, 0, 0, 0, 32)),
    )?;
    print(
        rt,
        b"begun with D",
        holds(begun_with(16, &[D]), 0, 1, row_of(9, 15, 513, 513, 17, 17)),
    )?;
    print(
        rt,
        b"begun with 119 and -8",
        begun_with(119, &[EIGHT]).number == 0,
    )?;
    print(
        rt,
        b"begun with 120 and -8, 9",
        begun_with(120, &[EIGHT]).number == 9,
    )?;
    print(
        rt,
        b"begun with 120, -8 and two more, 9",
        begun_with(120, &[NONE, NONE, EIGHT]).number == 9,
    )?;
    print(
        rt,
        b"begun with 120, -8 and tile 3, 3",
        begun_with(120, &[EIGHT, RIGHT]).number == 3,
    )
}

pub fn print_cases(rt: &impl Print) -> io::Result<()> {
    print_edits(rt)?;
    print_slots(rt)?;
    print_refusals(rt)?;
    print_tiles(rt)?;
    print_beginnings(rt)
}
