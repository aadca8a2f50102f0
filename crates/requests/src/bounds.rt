// W-211, covers known within bounds: each example's name, and whether the answer and the planes are its own. The parts
// are of layer 5 in tile 2 of row 0; the carry's bounds are the same in every pixel row.
use crate::printing::{number_in, print};
use cover::Cover;
use std::io;

// Row 0: column 3, multiplier 32; column 10, multiplier 40.
const A: u64 = 0x0020060000530800;

const B: u64 = 0x00200600005A0A00;

// Row 2, column 4, multiplier 40.
const C: u64 = 0x0020060000542A00;

// Row 15: column 0, multiplier 63; column 8, multiplier 0.
const D: u64 = 0x002006000050FFC0;

const E: u64 = 0x002006000058F000;

// A in layer 6.
const OTHER: u64 = 0x0020060000630800;

// The answer's number, and what the planes hold. 7 stands where nothing is written.
#[derive(Clone, Copy)]
struct Planes {
    number: u32,
    lowest: [i16; 256],
    highest: [i16; 256],
    least_non_zero: [u16; 256],
    greatest_non_zero: [u16; 256],
    least_even_odd: [u16; 256],
    greatest_even_odd: [u16; 256],
}

fn bounded(part: &[u64], bounds: &[i8], low: i8, high: i8) -> Planes {
    let lows = [low; 16];
    let highs = [high; 16];
    let mut lowest = [7i16; 256];
    let mut highest = [7i16; 256];
    let mut least_non_zero = [7u16; 256];
    let mut greatest_non_zero = [7u16; 256];
    let mut least_even_odd = [7u16; 256];
    let mut greatest_even_odd = [7u16; 256];
    let verdict = cover_bounds::bound_part(
        5,
        2,
        0,
        part,
        bounds,
        Cover { covers: lows },
        Cover { covers: highs },
        &mut lowest,
        &mut highest,
        &mut least_non_zero,
        &mut greatest_non_zero,
        &mut least_even_odd,
        &mut greatest_even_odd,
    );
    Planes {
        number: number_in(verdict),
        lowest: lowest,
        highest: highest,
        least_non_zero: least_non_zero,
        greatest_non_zero: greatest_non_zero,
        least_even_odd: least_even_odd,
        greatest_even_odd: greatest_even_odd,
    }
}

// Whether the pixel at a place has d from `low` to `high`.
fn has_areas(b: Planes, place: usize, low: i16, high: i16) -> bool {
    let lowest = b.lowest;
    let highest = b.highest;
    if place < 256 {
        (lowest[place] == low) & (highest[place] == high)
    } else {
        false
    }
}

// Whether it has these weights, least and greatest by NonZero and by EvenOdd.
fn has_weights(b: Planes, place: usize, n: u16, m: u16, k: u16, l: u16) -> bool {
    let least_n = b.least_non_zero;
    let greatest_n = b.greatest_non_zero;
    let least_e = b.least_even_odd;
    let greatest_e = b.greatest_even_odd;
    if place < 256 {
        (least_n[place] == n)
            & (greatest_n[place] == m)
            & (least_e[place] == k)
            & (greatest_e[place] == l)
    } else {
        false
    }
}

// Whether a call is refused by a number, with the planes as they were at the first place and the last.
fn is_refused(b: Planes, number: u32) -> bool {
    (b.number == number)
        & has_areas(b, 0, 7, 7)
        & has_areas(b, 255, 7, 7)
        & has_weights(b, 0, 7, 7, 7, 7)
        & has_weights(b, 255, 7, 7, 7, 7)
}

fn print_two_segments(rt: &impl Print) -> io::Result<()> {
    let b = bounded(&[A, B], &[-16i8, -8, -1, 0], 16, 16);
    print(rt, b"two segments pass", b.number == 0)?;
    print(
        rt,
        b"row 0: 512 to column 2",
        has_areas(b, 0, 512, 512)
            & has_areas(b, 2, 512, 512)
            & has_weights(b, 2, 512, 512, 512, 512),
    )?;
    print(
        rt,
        b"row 0: 0 to 256 to column 9",
        has_areas(b, 3, 0, 256) & has_areas(b, 9, 0, 256) & has_weights(b, 3, 0, 256, 0, 256),
    )?;
    print(
        rt,
        b"row 0: -40 to 256 in column 10",
        has_areas(b, 10, -40, 256) & has_weights(b, 10, 0, 256, 0, 256),
    )?;
    print(
        rt,
        b"row 0: -32 to 256 from 11 on",
        has_areas(b, 11, -32, 256)
            & has_areas(b, 15, -32, 256)
            & has_weights(b, 15, 0, 256, 0, 256),
    )?;
    print(rt, b"row 1: 512", has_areas(b, 16, 512, 512))
}

// Interval and weights at a place in the middle where there is no segment.
fn has_between(low: i8, high: i8, least: i16, most: i16, k: u16, l: u16) -> bool {
    let b = bounded(&[], &[], low, high);
    has_areas(b, 77, least, most) & has_weights(b, 77, 512, 512, k, l)
}

fn print_multiples(rt: &impl Print) -> io::Result<()> {
    print(
        rt,
        b"1056 to 1088: no part, and no multiple of 1024",
        has_between(33, 34, 1056, 1088, 32, 64),
    )?;
    print(
        rt,
        b"992 to 1056: 1024 lies between",
        has_between(31, 33, 992, 1056, 0, 32),
    )?;
    print(
        rt,
        b"-1568 to -1504: -1536 lies between",
        has_between(-49, -47, -1568, -1504, 480, 512),
    )
}

fn print_intervals(rt: &impl Print) -> io::Result<()> {
    let b = bounded(&[C], &[-1i8, 0], 1, 1);
    print(
        rt,
        b"0 lies between -8 and 32, though no choice meets it",
        has_areas(b, 36, -8, 32) & has_weights(b, 36, 0, 32, 0, 32),
    )?;
    let c = bounded(&[D, E], &[-32i8, 31, -5, -5], -10, 20);
    print(
        rt,
        b"row 15: -2336 to 2593 in column 0",
        has_areas(c, 240, -2336, 2593) & has_weights(c, 240, 0, 512, 0, 512),
    )?;
    print(
        rt,
        b"row 15: -1344 to 1632 to column 8",
        has_areas(c, 241, -1344, 1632) & has_areas(c, 248, -1344, 1632),
    )?;
    print(
        rt,
        b"row 15: -1504 to 1472 from 9 on",
        has_areas(c, 249, -1504, 1472) & has_areas(c, 255, -1504, 1472),
    )
}

// One segment with a cover from `least` to `most`, and a carry from `low` to `high`: whether it passes, or is refused
// by a number.
fn passes(least: i8, most: i8, low: i8, high: i8) -> bool {
    bounded(&[A], &[least, most], low, high).number == 0
}

fn refuses(word: u64, least: i8, most: i8, low: i8, high: i8, number: u32) -> bool {
    is_refused(bounded(&[word], &[least, most], low, high), number)
}

// The edges of each number, and 14 before 9.
fn print_edges(rt: &impl Print) -> io::Result<()> {
    print(rt, b"a crossed pair, 14", refuses(A, 5, 4, 0, 0, 14))?;
    print(rt, b"an equal pair passes", passes(5, 5, 0, 0))?;
    print(rt, b"-33, 14", refuses(A, -33, 4, 0, 0, 14))?;
    print(rt, b"32, 14", refuses(A, 0, 32, 0, 0, 14))?;
    print(rt, b"-32 and 31 pass", passes(-32, 31, 0, 0))?;
    print(rt, b"a crossed carry, 14", refuses(A, 0, 0, 1, 0, 14))?;
    print(rt, b"119 and -8 to 8 pass", passes(-8, 8, 119, 119))?;
    print(
        rt,
        b"-120 to 119 and -8 to 7, 9",
        refuses(A, -8, 7, -120, 119, 9),
    )
}

fn print_order(rt: &impl Print) -> io::Result<()> {
    print(
        rt,
        b"-128 never passes, 9",
        is_refused(bounded(&[], &[], -128, 0), 9),
    )?;
    print(rt, b"14 before 9", refuses(A, 5, 4, 127, 127, 14))?;
    print(rt, b"3 before 14", refuses(OTHER, 5, 4, 0, 0, 3))?;
    print(
        rt,
        b"3 bytes for 2 segments, 1",
        is_refused(bounded(&[A, OTHER], &[5i8, 4, 0], 0, 0), 1),
    )
}

pub fn print_cases(rt: &impl Print) -> io::Result<()> {
    print_two_segments(rt)?;
    print_intervals(rt)?;
    print_multiples(rt)?;
    print_edges(rt)?;
    print_order(rt)
}
