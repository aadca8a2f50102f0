// One tile traced: its part and the queue that it takes in, its list and the decision, its cached tile, each layer that
// is painted, the queue that it hands on, and last the line of the row program.
pub mod chosen;
pub mod deciding;
pub mod lent;
pub mod painting;

use crate::text::{lists, queues, segments};
use cached_tile::kept::Kept;
use chosen::Chosen;
use lent::{LIST_FLAGS, List, Queue, Table};
use row_statements::{RowState, TileDone, TileWorked};
use segment_rows::parts;
use std::io;
use styling::Color;

// The state after a tile, its cached tile, the queue that it hands on, and whether it was worked.
#[derive(Clone, Copy)]
pub struct Step {
    pub state: RowState,
    pub kept: Kept,
    pub queue: Queue,
    pub worked: bool,
}

// A job's clear colour.
fn clear_color() -> Color {
    Color {
        r: 0.0,
        g: 0.0,
        b: 0.0,
        a: 1.0,
    }
}

// That of the frame before, where there was one.
fn previous_clear(later: bool) -> Option<Color> {
    if later { Some(clear_color()) } else { None }
}

// The list, a line for each layer.
fn print_list(
    rt: &impl Print,
    table: Table,
    list: List,
    skipped: usize,
    listed: usize,
) -> io::Result<()> {
    let layers = table.layers;
    let ids = list.ids;
    let covers = list.covers;
    let flags = list.flags;
    let unmasked = list.unmasked;
    lists::print_names(rt, listed)?;
    for i in 0..listed {
        let id = lent::id_in(&ids, i);
        lists::print_entry(
            rt,
            id,
            lent::record_in(&layers, table.count, id),
            lent::cover_in(&covers, i),
            lent::has_segments(&flags, i),
            lent::is_changed(&flags, i),
            lent::is_unmasked(&unmasked, i),
            i < skipped,
        )?;
    }
    Ok(())
}

// A queue of n carries, under a name.
fn print_queue(rt: &impl Print, name: &[u8], queue: Queue, n: usize) -> io::Result<()> {
    let ids = queue.ids;
    let covers = queue.covers;
    queues::print_queue(rt, name, &ids, &covers, n)
}

fn print_tile(rt: &impl Print, tile: u32) -> io::Result<()> {
    crate::text::print(rt, b"tile ")?;
    crate::text::print_number(rt, tile as u64)?;
    crate::text::print(rt, b"\n")
}

// What the tile has and what comes to it.
fn print_before(
    rt: &impl Print,
    chosen: Chosen,
    state: RowState,
    row: &[u64],
    queue: Queue,
) -> io::Result<()> {
    if chosen.parts != 0 {
        print_tile(rt, state.next)?;
    }
    if chosen::has(chosen, chosen::SEGMENTS) {
        segments::print_part(rt, parts::in_tile(row, painting::small(state.next)))?;
    }
    if chosen::has(chosen, chosen::TAKEN_IN) {
        print_queue(rt, b"  taken in: ", queue, state.left)?;
    }
    Ok(())
}

// A tile that is turned down is told whether it is chosen or not: the row ends there.
fn print_refused(rt: &impl Print, chosen: Chosen, tile: u32, number: u32) -> io::Result<()> {
    if chosen.parts == 0 {
        print_tile(rt, tile)?;
    }
    painting::print_refusal(rt, number)
}

// The line of the row program.
fn print_line(
    rt: &impl Print,
    tile: u32,
    done: TileDone,
    tally: painting::Tally,
    carried: usize,
) -> io::Result<()> {
    let decision = done.decision;
    crate::text::print(rt, b"  line: ")?;
    crate::text::print_number(rt, tile as u64)?;
    deciding::print_word(rt, decision)?;
    crate::text::print_number(rt, done.listed as u64)?;
    crate::text::print(rt, b" ")?;
    crate::text::print_number(rt, tally.shown as u64)?;
    crate::text::print(rt, b" ")?;
    crate::text::print_number(rt, tally.octets as u64)?;
    crate::text::print(rt, b" ")?;
    crate::text::print_number(rt, carried as u64)?;
    crate::text::print(rt, b"\n")
}

// Decision and cached tile; the cached tile after settling.
fn tell_decision(
    rt: &impl Print,
    chosen: Chosen,
    done: TileDone,
    before: Kept,
    after: Kept,
) -> io::Result<Kept> {
    let decision = done.decision;
    let cached = chosen::has(chosen, chosen::CACHED);
    if chosen::has(chosen, chosen::DECISION) {
        deciding::print_decision(rt, decision)?;
    }
    if cached {
        deciding::print_cached(rt, b"  cached before:", before)?;
    }
    let kept = deciding::settle(rt, decision, after, cached)?;
    if cached {
        deciding::print_cached(rt, b"  cached after: ", kept)?;
    }
    Ok(kept)
}

// The end of a tile: what it hands on, and the line of the row program.
fn tell_after(
    rt: &impl Print,
    chosen: Chosen,
    tile: u32,
    done: TileDone,
    tally: painting::Tally,
    next: Queue,
    carried: usize,
) -> io::Result<()> {
    if chosen::has(chosen, chosen::HANDED_ON) {
        print_queue(rt, b"  handed on: ", next, carried)?;
    }
    if chosen::has(chosen, chosen::LINE) {
        print_line(rt, tile, done, tally, carried)?;
    }
    Ok(())
}

// What a work gives and leaves: its answer, the queue handed on and the list.
#[derive(Clone, Copy)]
struct TileLeft {
    worked: TileWorked,
    queue: Queue,
    list: List,
}

fn list_of(
    ids: [u32; 256],
    covers: [i8; 4096],
    flags: [bool; LIST_FLAGS],
    unmasked: [bool; 256],
) -> List {
    List {
        ids: ids,
        covers: covers,
        flags: flags,
        unmasked: unmasked,
    }
}

// Works the next tile by lent arrays.
fn work_lent(
    state: RowState,
    later: bool,
    row: &[u64],
    layers: &[u32; 512],
    colors: &[f32; 256],
    count: usize,
    kept: Kept,
    ids: &[u32; 256],
    covers: &[i8; 4096],
) -> TileLeft {
    let mut next_ids = [0u32; 256];
    let mut next_covers = [0i8; 4096];
    let mut list_ids = [0u32; 256];
    let mut list_covers = [0i8; 4096];
    let mut list_flags = [false; LIST_FLAGS];
    let mut list_unmasked = [false; 256];
    let worked = row_working::work_tile(
        state,
        painting::signed(state.next),
        row,
        layers,
        colors,
        count,
        kept,
        clear_color(),
        previous_clear(later),
        ids,
        covers,
        &mut next_ids,
        &mut next_covers,
        &mut list_ids,
        &mut list_covers,
        &mut list_flags,
        &mut list_unmasked,
    );
    let next = Queue {
        ids: next_ids,
        covers: next_covers,
    };
    TileLeft {
        worked: worked,
        queue: next,
        list: list_of(list_ids, list_covers, list_flags, list_unmasked),
    }
}

// Works the next tile from the queue that is left.
fn work_next(
    state: RowState,
    later: bool,
    row: &[u64],
    table: Table,
    kept: Kept,
    queue: Queue,
) -> TileLeft {
    let layers = table.layers;
    let colors = table.colors;
    let ids = queue.ids;
    let covers = queue.covers;
    work_lent(
        state,
        later,
        row,
        &layers,
        &colors,
        table.count,
        kept,
        &ids,
        &covers,
    )
}

// An accepted work told: list, decision, cached tile, paintings, the queue handed on, line.
fn tell_done(
    rt: &impl Print,
    chosen: Chosen,
    tile: u32,
    after: RowState,
    done: TileDone,
    before: Kept,
    kept: Kept,
    row: &[u64],
    table: Table,
    queue: Queue,
    list: List,
    next: Queue,
) -> io::Result<Step> {
    let decision = done.decision;
    let skipped = done.skipped;
    let listed = done.listed;
    if chosen::has(chosen, chosen::LIST) {
        print_list(rt, table, list, skipped.0, listed)?;
    }
    let settled = tell_decision(rt, chosen, done, before, kept)?;
    let tally = painting::tally_shown(
        rt,
        chosen,
        after,
        deciding::is_paint(decision),
        tile,
        row,
        table,
        queue,
        list,
        skipped.0,
        listed,
    )?;
    tell_after(rt, chosen, tile, done, tally, next, after.left)?;
    let left = tally.state;
    Ok(Step {
        state: left,
        kept: settled,
        queue: next,
        worked: true,
    })
}

// Works the next tile of a row from the queue that is left, and tells it.
pub fn trace_tile(
    rt: &impl Print,
    chosen: Chosen,
    state: RowState,
    later: bool,
    row: &[u64],
    table: Table,
    kept: Kept,
    queue: Queue,
) -> io::Result<Step> {
    print_before(rt, chosen, state, row, queue)?;
    let done = work_next(state, later, row, table, kept, queue);
    let worked = done.worked;
    let list = done.list;
    let next = done.queue;
    let after = worked.state;
    let kept_after = worked.kept;
    let answer = worked.answer;
    match answer {
        Err(refusal) => {
            print_refused(rt, chosen, state.next, refusals::number_of(refusal))?;
            Ok(Step {
                state: after,
                kept: kept_after,
                queue: next,
                worked: false,
            })
        }
        Ok(told) => tell_done(
            rt, chosen, state.next, after, told, kept, kept_after, row, table, queue, list, next,
        ),
    }
}
