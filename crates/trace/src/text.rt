// The pieces of a trace as text, written to standard output one after the other: numbers in columns, words, queues,
// lists, doubled areas and planes. Every function takes any memory: what lies past a slice's end reads as 0.
pub mod lists;
pub mod planes;
pub mod queues;
pub mod segments;

use std::io;

pub fn print(rt: &impl Print, text: &[u8]) -> io::Result<()> {
    rt.write_all(text)
}

pub fn print_number(rt: &impl Print, n: u64) -> io::Result<()> {
    rt.print(n)
}

pub fn print_hex(rt: &impl Print, n: u64, digits: usize) -> io::Result<()> {
    print!(rt; "0x{n:0digits$x}")
}

// At most 16 spaces.
fn print_spaces(rt: &impl Print, n: usize) -> io::Result<()> {
    let spaces = [b' '; 16];
    if n <= 16 {
        print(rt, &spaces[..n])
    } else {
        Ok(())
    }
}

// A number with so many spaces before it that the two take a column of that width, where it is wide enough.
pub fn print_right(rt: &impl Print, n: u64, width: usize) -> io::Result<()> {
    print!(rt; "{n:>width$}")
}

// The same of a number with its sign.
pub fn print_signed(rt: &impl Print, v: i16, width: usize) -> io::Result<()> {
    print!(rt; "{v:>width$}")
}

pub fn wide(cover: i8) -> i16 {
    cover as i16
}

// A word and spaces up to a column's end.
pub fn print_left(rt: &impl Print, word: &[u8], width: usize) -> io::Result<()> {
    print(rt, word)?;
    print_spaces(rt, width.saturating_sub(word.len()))
}

pub fn print_answer(rt: &impl Print, yes: bool, width: usize) -> io::Result<()> {
    if yes {
        print_left(rt, b"yes", width)
    } else {
        print_left(rt, b"no", width)
    }
}

pub fn id_at(ids: &[u32], i: usize) -> u32 {
    ids.get(i).copied().unwrap_or(0)
}

pub fn cover_at(covers: &[i8], i: usize) -> i8 {
    covers.get(i).copied().unwrap_or(0)
}

pub fn flag_at(flags: &[bool], i: usize) -> bool {
    flags.get(i).copied().unwrap_or(false)
}

pub fn byte_at(bytes: &[u8], i: usize) -> u8 {
    bytes.get(i).copied().unwrap_or(0)
}
