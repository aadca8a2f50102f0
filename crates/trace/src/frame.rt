// A frame traced: a job read, and its row opened and worked tile by tile, with the cached tiles that the frame before
// left.
use crate::changes::{cached, changes};
use crate::choice;
use crate::choice::Choice;
use crate::tiles::lent::{Queue, Table};
use crate::tiles::painting;
use job_statements::JobError;
use job_text_statements::Head;
use row_statements::RowState;
use std::io;

// What a frame leaves for the next: its layer table and its row, and the cached tiles, eight bytes each.
#[derive(Clone, Copy)]
pub struct Frame {
    pub given: bool,
    pub layers: [u32; 512],
    pub colors: [f32; 256],
    pub row: [u64; 2048],
    pub count: usize,
    pub segments: usize,
    pub cached: [u8; 32760],
}

// No frame before: nothing is cached.
pub fn none_before() -> Frame {
    Frame {
        given: false,
        layers: [0u32; 512],
        colors: [0.0f32; 256],
        row: [0u64; 2048],
        count: 0,
        segments: 0,
        cached: [0u8; 32760],
    }
}

// The first n words of a row.
fn front(row: &[u64], n: usize) -> &[u64] {
    &row[..n.min(row.len())]
}

// How many tiles of from..to a row of so many tiles has.
fn due_tiles(first: u32, to: u32, tiles: i32) -> u32 {
    to.min(row_state::natural(tiles)).saturating_sub(first)
}

// Works the tiles of an open row, up to the first that is refused.
fn trace_tiles(
    rt: &impl Print,
    choice: Choice,
    state: RowState,
    n: u32,
    later: bool,
    row: &[u64],
    table: Table,
    opened: Queue,
    kept: &mut [u8; 32760],
) -> io::Result<()> {
    let mut queue = opened;
    let mut at = state;
    for _ in 0..n {
        let step = crate::tiles::trace_tile(
            rt,
            choice::chosen_of(choice, at.next),
            at,
            later,
            row,
            table,
            cached::tile_at(kept, at.next),
            queue,
        )?;
        if !step.worked {
            return Ok(());
        }
        cached::store(kept, at.next, step.kept);
        queue = step.queue;
        at = step.state;
    }
    Ok(())
}

// Opens the row of a job and works its tiles.
fn trace_row(
    rt: &impl Print,
    choice: Choice,
    head: Head,
    later: bool,
    row: &[u64],
    table: Table,
    kept: &mut [u8; 32760],
) -> io::Result<()> {
    let layers = table.layers;
    let colors = table.colors;
    let mut ids = [0u32; 256];
    let mut covers = [0i8; 4096];
    match row_opening::open_tile_row(
        head.row,
        head.from,
        head.to,
        row,
        &layers,
        &colors,
        table.count,
        &mut ids,
        &mut covers,
    ) {
        Err(refusal) => painting::print_refusal(rt, refusals::number_of(refusal)),
        Ok(state) => {
            let n = due_tiles(state.from, state.to, head.tiles);
            let queue = Queue {
                ids: ids,
                covers: covers,
            };
            trace_tiles(rt, choice, state, n, later, row, table, queue, kept)
        }
    }
}

// Traces a job that was read as the frame after `before`. A layer whose record and segments are those of the frame
// before counts as unchanged.
fn trace_job(
    rt: &impl Print,
    choice: Choice,
    head: Head,
    read: [u32; 512],
    colors: [f32; 256],
    count: usize,
    row: [u64; 2048],
    segments: usize,
    before: Frame,
) -> io::Result<Frame> {
    let old_layers = before.layers;
    let old_colors = before.colors;
    let old_row = before.row;
    let mut layers = read;
    let mut kept = before.cached;
    if before.given {
        changes::mark_unchanged(
            &old_layers,
            &old_colors,
            before.count,
            front(&old_row, before.segments),
            &mut layers,
            &colors,
            count,
            front(&row, segments),
        );
    }
    let table = Table {
        layers: layers,
        colors: colors,
        count: count,
    };
    trace_row(
        rt,
        choice,
        head,
        before.given,
        front(&row, segments),
        table,
        &mut kept,
    )?;
    Ok(Frame {
        given: true,
        layers: layers,
        colors: colors,
        row: row,
        count: count,
        segments: segments,
        cached: kept,
    })
}

// Reads a job from the front of an input, of which n bytes were read, and traces it as the frame after `before`.
pub fn trace_frame(
    rt: &impl Print,
    choice: Choice,
    text: &[u8; 65537],
    n: usize,
    before: Frame,
) -> io::Result<Frame> {
    let mut layers = [0u32; 512];
    let mut colors = [0.0f32; 256];
    let mut row = [0u64; 2048];
    match job_front::read_front(text, n, &mut layers, &mut colors, &mut row) {
        Ok(numbers) => trace_job(
            rt,
            choice,
            numbers.head,
            layers,
            colors,
            numbers.layers,
            row,
            numbers.segments,
            before,
        ),
        Err(JobError::NoRoom) => Ok(before),
        Err(JobError::Malformed) => {
            painting::print_refusal(rt, 10)?;
            Ok(before)
        }
    }
}
