// A whole tile row driven: opened, each of its tiles worked, the shown layers of a painted tile painted, and a line
// written for each tile. The row and the table are judged once, at the opening; the tiles are worked by the inner
// functions, and two queues take turns.
#![tactic(auto)]

pub mod tile;

ghost use Rattle.std.specs.Prelude.{◌≡◌, ◌+◌, ◌≤◌, length};
ghost use Rattle.std.proofs.lemmas.List.Edits.{sets};
ghost use Rattle.row_statements.specs.Lent.{columns, list_columns, lent_table};
ghost use Rattle.row_statements.specs.Opening.{open_call};
ghost use Rattle.row_lines.specs.Lines.{lines_from, line_words};
ghost use Rattle.row_lines.specs.Driven.{due_tiles, driving_of, row_driving, Drives};
ghost use Rattle.row_driver.specs.InnerSteps as steps;

use refusals::Refusal;
use row_lines::Line;
use row_statements::RowState;
use segment_rows::parts;

// How many tiles of from..to the row has.
fn due_tiles(from: i32, to: i32, tiles: i32) -> usize
    ensures { result ≡ due_tiles from to tiles }
{
    let end = row_state::natural(to)
        .min(row_state::natural(tiles))
        .min(4095);
    end.saturating_sub(row_state::natural(from)) as usize
}

fn write_line(lines: &mut [u32], at: usize, line: Line)
    requires { at + 5 ≤ length lines.old }
    ensures { lines.new ≡ sets lines.old at (line_words line) }
{
    let words = [
        line.decision,
        line.listed,
        line.shown,
        line.octets,
        line.carried,
    ];
    lines[at..at + 5].copy_from_slice(&words);
}

// Drives the first n tiles of an open row. Each tile's last segment is searched in what is left of the row, from where
// the tile before ended.
fn drive_tiles(
    state: RowState,
    n: usize,
    row: &[u64],
    layers: &[u32],
    colors: &[f32],
    count: usize,
    a_ids: &mut [u32],
    a_covers: &mut [i8],
    b_ids: &mut [u32],
    b_covers: &mut [i8],
    list_ids: &mut [u32],
    list_covers: &mut [i8],
    list_flags: &mut [bool],
    list_unmasked: &mut [bool],
    sums: &mut [i8; 4096],
    lines: &mut [u32],
) -> Result<usize, (Refusal, usize)>
    requires { steps.Drivable (steps.row_by state row.now layers.now colors.now count) state n
        (columns a_ids.old a_covers.old) (columns b_ids.old b_covers.old)
        (list_columns list_ids.old list_covers.old list_flags.old
        list_unmasked.old)
        lines.old }
    ensures { Drives
        (driving_of
        (lines_from (steps.row_by state row.now layers.now colors.now count) n 0))
        lines.old result lines.new }
{
    let mut at = state;
    let mut in_a = true;
    let mut start = parts::left_of_tile(row, state.next as i16).len();
    for i in 0..n {
        let part = parts::up_to_tile(&row[start..], at.next as i16);
        start += part.len();
        let step = tile::turn(
            in_a,
            at,
            part,
            layers,
            colors,
            count,
            a_ids,
            a_covers,
            b_ids,
            b_covers,
            list_ids,
            list_covers,
            list_flags,
            list_unmasked,
            sums,
        );
        let worked = step.worked;
        let line = step.line;
        let answer = worked.answer;
        match answer {
            Err(refusal) => {
                return Err((refusal, i));
            }
            Ok(_) => {
                write_line(lines, i * 5, line);
                at = worked.state;
                in_a = !in_a;
            }
        }
    }
    Ok(n)
}

// Drives an open row with a second queue, a list and room for carries of its own.
fn drive_open(
    state: RowState,
    n: usize,
    row: &[u64],
    layers: &[u32],
    colors: &[f32],
    count: usize,
    ids: &mut [u32],
    covers: &mut [i8],
    lines: &mut [u32],
) -> Result<usize, (Refusal, usize)>
    requires { steps.Opened (steps.row_by state row.now layers.now colors.now count) state n
        (columns ids.old covers.old) lines.old }
    ensures { Drives
        (driving_of
        (lines_from (steps.row_by state row.now layers.now colors.now count) n 0))
        lines.old result lines.new }
{
    let mut next_ids = [0u32; 256];
    let mut next_covers = [0i8; 4096];
    let mut list_ids = [0u32; 256];
    let mut list_covers = [0i8; 4096];
    let mut list_flags = [false; 512];
    let mut list_unmasked = [false; 256];
    let mut sums = [0i8; 4096];
    drive_tiles(
        state,
        n,
        row,
        layers,
        colors,
        count,
        ids,
        covers,
        &mut next_ids,
        &mut next_covers,
        &mut list_ids,
        &mut list_covers,
        &mut list_flags,
        &mut list_unmasked,
        &mut sums,
        lines,
    )
}

// Drives the tiles of from..to that a row of so many tiles has. Five words of `lines` are written for each tile, up to
// the first that is refused; there are words for 4,095 tiles, as many as a row can have.
pub fn drive_row(
    tile_y: i32,
    from: i32,
    to: i32,
    tiles: i32,
    row: &[u64],
    layers: &[u32],
    colors: &[f32],
    count: usize,
    lines: &mut [u32; 20475],
) -> Result<usize, (Refusal, usize)>
    ensures { Drives
        (row_driving
        (open_call tile_y from to row.now (lent_table layers.now colors.now count))
        tiles)
        lines.old result lines.new }
{
    let n = due_tiles(from, to, tiles);
    let mut ids = [0u32; 256];
    let mut covers = [0i8; 4096];
    match row_opening::open_tile_row(
        tile_y,
        from,
        to,
        row,
        layers,
        colors,
        count,
        &mut ids,
        &mut covers,
    ) {
        Err(refusal) => Err((refusal, 0)),
        Ok(state) => drive_open(
            state,
            n,
            row,
            layers,
            colors,
            count,
            &mut ids,
            &mut covers,
            lines,
        ),
    }
}
