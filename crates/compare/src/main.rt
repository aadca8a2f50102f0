// Replays the stored answers of the Rust (the file stdin, whose form is told at each kind): the same input to the
// exported operations, and every number of the answer held to the stored one. Says how many cases of each kind were
// compared and how many differ.
#![tactic(auto)]

mod covers;
mod decidings;
mod kept;
mod listings;
mod paints;
mod rows;
mod stored;
mod tiles;
mod words;
mod works;

use crate::stored::text::Cursor;
use crate::stored::{rooms, text};
use std::io;

// One case of a kind.
fn replay(
    text: &[u8],
    kind: u64,
    at: usize,
    row: &mut [u64],
    layers: &mut [u32],
    colors: &mut [f32],
) -> Cursor {
    match kind {
        1 => words::pack(text, at),
        2 => words::fields(text, at),
        3 => words::order(text, at),
        4 => words::ascent(text, at, row),
        5 => words::search(text, at, row),
        6 => covers::cover(text, at),
        7 => covers::carry(text, at, row),
        8 => covers::paint(text, at, row),
        9 => tiles::count(text, at),
        10 => tiles::color(text, at),
        11 => tiles::settle(text, at),
        12 | 13 => rows::row(text, at, row, layers, colors),
        14 => listings::list(text, at, row, layers, colors),
        15 => decidings::decide(text, at, layers, colors),
        16 => kept::stays(text, at),
        17 => kept::history(text, at, row, layers, colors),
        _ => Cursor {
            at: at,
            same: false,
        },
    }
}

// How many cases of a kind agree, and the place after them.
#[derive(Clone, Copy)]
struct Agreed {
    at: usize,
    same: u64,
}

// A case in memory of its own.
fn replay_alone(text: &[u8], kind: u64, at: usize) -> Cursor {
    let mut row = rooms::row();
    let mut layers = rooms::layers();
    let mut colors = rooms::colors();
    replay(text, kind, at, &mut row, &mut layers, &mut colors)
}

// The cases of a kind, one after the other.
fn replay_all(text: &[u8], kind: u64, count: u64, at: usize) -> Agreed {
    let mut place = at;
    let mut same: u64 = 0;
    for _ in 0..count {
        let case = replay_alone(text, kind, place);
        place = case.at;
        same = same.wrapping_add(case.same as u64);
    }
    Agreed {
        at: place,
        same: same,
    }
}

fn say(rt: &impl Print, name: &str, compared: u64, same: u64) -> io::Result<()> {
    let differing = compared.wrapping_sub(same);
    println!(rt; "{name}: {compared} compared, {differing} differ")
}

// A block of the text: how many cases of a kind, and the cases.
fn section(rt: &impl Print, text: &[u8], kind: u64, name: &str, at: usize) -> io::Result<usize> {
    let count = text::next(text, at);
    let agreed = replay_all(text, kind, count.value, count.at);
    say(rt, name, count.value, agreed.same)?;
    Ok(agreed.at)
}

fn main(rt: HostRuntime) -> io::Result<()> {
    let mut space = rooms::text();
    let n = input_front::read_front(&mut rt.reader(), &mut space)?;
    let text: &[u8] = &space[..n];
    let a1 = section(&rt, text, 1, "packing", 0)?;
    let a2 = section(&rt, text, 2, "fields", a1)?;
    let a3 = section(&rt, text, 3, "order", a2)?;
    let a4 = section(&rt, text, 4, "rows in order", a3)?;
    let a5 = section(&rt, text, 5, "searches", a4)?;
    let a6 = section(&rt, text, 6, "covers", a5)?;
    let a7 = section(&rt, text, 7, "carries", a6)?;
    let a8 = section(&rt, text, 8, "painted parts", a7)?;
    let a9 = section(&rt, text, 9, "cached counts", a8)?;
    let a10 = section(&rt, text, 10, "cached colours", a9)?;
    let a11 = section(&rt, text, 11, "settling", a10)?;
    let a12 = section(&rt, text, 12, "openings", a11)?;
    let a13 = section(&rt, text, 13, "rows of tiles", a12)?;
    let a14 = section(&rt, text, 14, "listings", a13)?;
    let a15 = section(&rt, text, 15, "decidings", a14)?;
    let a16 = section(&rt, text, 16, "kept counts", a15)?;
    section(&rt, text, 17, "kept histories", a16)?;
    Ok(())
}
