// The list of a tile's layers, with what its record in the layer table says and what the passes made of it.
use cover::{Cover, entry};
use std::io;
use styling::{FillRule, codes};

// What a table's record says of a listed layer, as far as the trace tells it.
#[derive(Clone, Copy)]
pub struct Record {
    pub rule: FillRule,
    pub func: u32,
    pub clipped: u32,
}

// A word of the record at a place of the table, which has at most 64.
fn word_at(layers: &[u32], place: usize, k: usize) -> u32 {
    if 64 <= place {
        return 0;
    }
    if 8 <= k {
        return 0;
    }
    crate::text::id_at(layers, place * 8 + k)
}

// The place of a layer's record, or the number of records where it has none.
fn place_of(layers: &[u32], count: usize, id: u32) -> usize {
    (0..count)
        .find(|place| word_at(layers, *place, 0) == id)
        .unwrap_or(count)
}

pub fn record_of(layers: &[u32], count: usize, id: u32) -> Record {
    let place = place_of(layers, count, id);
    Record {
        rule: codes::fill_rule(word_at(layers, place, 1)),
        func: word_at(layers, place, 2),
        clipped: word_at(layers, place, 4),
    }
}

// The cover of an entry.
pub fn entry_cover(covers: &[i8], place: usize) -> Cover {
    if place < covers.len() / 16 {
        entry::read_cover(covers, place)
    } else {
        Cover::default()
    }
}

fn print_kind(rt: &impl Print, func: u32, clipped: u32) -> io::Result<()> {
    if func == 1 {
        crate::text::print_left(rt, b"clip", 9)
    } else if clipped == 1 {
        crate::text::print_left(rt, b"clipped", 9)
    } else {
        crate::text::print_left(rt, b"draw", 9)
    }
}

// One line: a layer is full where its cover is by its rule and no segment of it lies in the tile.
pub fn print_entry(
    rt: &impl Print,
    id: u32,
    record: Record,
    cover: Cover,
    segments: bool,
    changed: bool,
    unmasked: bool,
    covered: bool,
) -> io::Result<()> {
    let rule = record.rule;
    crate::text::print(rt, b"    ")?;
    crate::text::print_right(rt, id as u64, 7)?;
    crate::text::print(rt, b"  ")?;
    print_kind(rt, record.func, record.clipped)?;
    crate::text::print_answer(rt, segments, 10)?;
    crate::text::print_answer(rt, !segments & cover.is_full(rule), 6)?;
    crate::text::print_answer(rt, changed, 9)?;
    crate::text::print_answer(rt, !unmasked, 12)?;
    crate::text::print_answer(rt, covered, 13)?;
    crate::text::print_answer(rt, unmasked & !covered, 0)?;
    crate::text::print(rt, b"\n")
}

pub fn print_names(rt: &impl Print, listed: usize) -> io::Result<()> {
    crate::text::print(rt, b"  list: ")?;
    crate::text::print_number(rt, listed as u64)?;
    crate::text::print(rt, b"\n")?;
    if 0 < listed {
        crate::text::print(
            rt,
            b"      layer  kind     segments  full  changed  masked_off  passed_over  shown\n",
        )?;
    }
    Ok(())
}
