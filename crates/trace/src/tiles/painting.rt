// The shown layers of a tile, counted and, where the tile is painted, painted and told one after the other.
use crate::text::planes;
use crate::tiles::chosen::Chosen;
use crate::tiles::lent::{List, Queue, Table};
use crate::tiles::{chosen, lent};
use cover::Cover;
use refusals::Refusal;
use row_statements::{Painted, RowState};
use segment_rows::parts;
use std::io;
use styling::FillRule;

// The state after the paintings of a tile, how many layers were shown, and how many octets they used.
#[derive(Clone, Copy)]
pub struct Tally {
    pub state: RowState,
    pub shown: u32,
    pub octets: u32,
}

// A tile or row number as words hold it.
pub fn small(n: u32) -> i16 {
    if n < 4096 { n as i16 } else { 0 }
}

// A tile number as the operations of a row take it.
pub fn signed(n: u32) -> i32 {
    if n < 4096 { n as i32 } else { 0 }
}

// The fill rule of a layer.
fn rule_of(table: Table, id: u32) -> FillRule {
    let layers = table.layers;
    let record = lent::record_in(&layers, table.count, id);
    record.rule
}

// The doubled areas of a layer in a tile, of a kept set of its segments that is begun from the cover that comes in.
fn print_areas(
    rt: &impl Print,
    id: u32,
    tile: u32,
    tile_y: u32,
    cover: Cover,
    row: &[u64],
    rule: FillRule,
) -> io::Result<()> {
    let part = parts::of_layer(parts::in_tile(row, small(tile)), id);
    let mut slots = [0u64; 2048];
    let mut areas = [0i16; 256];
    segment_set::begin(
        id,
        small(tile),
        small(tile_y),
        cover,
        part,
        &mut slots,
        &mut areas,
    );
    planes::print_rows(rt, &areas, rule)
}

fn print_clip(rt: &impl Print, clip: Option<u32>) -> io::Result<()> {
    match clip {
        None => crate::text::print(rt, b", the painter has no clip after it\n"),
        Some(last) => {
            crate::text::print(rt, b", the painter has a clip after it, up to layer ")?;
            crate::text::print_number(rt, last as u64)?;
            crate::text::print(rt, b"\n")
        }
    }
}

fn print_mark(rt: &impl Print, id: u32, mark: u32, clip: Option<u32>) -> io::Result<()> {
    crate::text::print(rt, b"  painted layer ")?;
    crate::text::print_number(rt, id as u64)?;
    crate::text::print(rt, b": mark ")?;
    crate::text::print_hex(rt, mark as u64, 8)?;
    crate::text::print(rt, b", octets ")?;
    crate::text::print_number(rt, mark::octets(mark) as u64)?;
    print_clip(rt, clip)
}

pub fn print_refusal(rt: &impl Print, number: u32) -> io::Result<()> {
    crate::text::print(rt, b"refused ")?;
    crate::text::print_number(rt, number as u64)?;
    crate::text::print(rt, b"\n")
}

// The octets of an answer; a refusal is told in any case.
fn tell_answer(
    rt: &impl Print,
    chosen: Chosen,
    id: u32,
    answer: Result<u32, Refusal>,
    clip: Option<u32>,
) -> io::Result<u32> {
    match answer {
        Ok(mark) => {
            if chosen::has_painting(chosen, id) {
                print_mark(rt, id, mark, clip)?;
            }
            Ok(mark::octets(mark))
        }
        Err(refusal) => {
            print_refusal(rt, refusals::number_of(refusal))?;
            Ok(0)
        }
    }
}

// The pixels of a painting, below its line: doubled areas and weights, coverages.
fn tell_pixels(
    rt: &impl Print,
    chosen: Chosen,
    id: u32,
    tile: u32,
    tile_y: u32,
    cover: Cover,
    row: &[u64],
    rule: FillRule,
    plane: &[f32; 256],
) -> io::Result<()> {
    let told = chosen::has_painting(chosen, id);
    if told & chosen::has(chosen, chosen::AREAS) {
        print_areas(rt, id, tile, tile_y, cover, row, rule)?;
    }
    if told & chosen::has(chosen, chosen::PLANES) {
        planes::print_plane(rt, plane)?;
    }
    Ok(())
}

// Paints a layer by lent arrays.
fn paint_lent(
    state: RowState,
    tile: u32,
    id: u32,
    row: &[u64],
    table: Table,
    queue: Queue,
    plane: &mut [f32; 256],
) -> Painted {
    let layers = table.layers;
    let colors = table.colors;
    let ids = queue.ids;
    let covers = queue.covers;
    row_painting::paint_layer(
        state,
        signed(tile),
        id,
        row,
        &layers,
        &colors,
        table.count,
        &ids,
        &covers,
        plane,
    )
}

// Paints a layer, and tells it: mark, clip, doubled areas and weights, coverages.
fn paint_layer(
    rt: &impl Print,
    chosen: Chosen,
    tally: Tally,
    tile: u32,
    id: u32,
    cover: Cover,
    row: &[u64],
    table: Table,
    queue: Queue,
) -> io::Result<Tally> {
    let state = tally.state;
    let mut plane = [0.0f32; 256];
    let painted = paint_lent(state, tile, id, row, table, queue, &mut plane);
    let answer = painted.answer;
    let after = painted.state;
    let clip = after.clip;
    let octets = tell_answer(rt, chosen, id, answer, clip)?;
    let rule = rule_of(table, id);
    tell_pixels(rt, chosen, id, tile, after.tile_y, cover, row, rule, &plane)?;
    Ok(Tally {
        state: after,
        shown: tally.shown.wrapping_add(1),
        octets: tally.octets.wrapping_add(octets),
    })
}

// A shown layer of a tile that is not painted.
fn count_layer(tally: Tally) -> Tally {
    let state = tally.state;
    Tally {
        state: state,
        shown: tally.shown.wrapping_add(1),
        octets: tally.octets,
    }
}

// An entry of the list: one that is not shown leaves the tally.
fn tally_entry(
    rt: &impl Print,
    chosen: Chosen,
    shown: bool,
    paints: bool,
    tally: Tally,
    tile: u32,
    id: u32,
    cover: Cover,
    row: &[u64],
    table: Table,
    queue: Queue,
) -> io::Result<Tally> {
    if !shown {
        return Ok(tally);
    }
    if !paints {
        return Ok(count_layer(tally));
    }
    paint_layer(rt, chosen, tally, tile, id, cover, row, table, queue)
}

// The shown layers of a list of `listed` layers, of which the first `skipped` are passed over.
pub fn tally_shown(
    rt: &impl Print,
    chosen: Chosen,
    state: RowState,
    paints: bool,
    tile: u32,
    row: &[u64],
    table: Table,
    queue: Queue,
    list: List,
    skipped: usize,
    listed: usize,
) -> io::Result<Tally> {
    let ids = list.ids;
    let covers = list.covers;
    let unmasked = list.unmasked;
    let mut tally = Tally {
        state: state,
        shown: 0,
        octets: 0,
    };
    for i in skipped..listed {
        tally = tally_entry(
            rt,
            chosen,
            lent::is_unmasked(&unmasked, i),
            paints,
            tally,
            tile,
            lent::id_in(&ids, i),
            lent::cover_in(&covers, i),
            row,
            table,
            queue,
        )?;
    }
    Ok(tally)
}
