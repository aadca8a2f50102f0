// One tile of a driven row: its work, its shown layers, and its line.
ghost use Rattle.std.specs.Prelude.{◌≡◌, not, ◌≤◌};
ghost use Rattle.pass_statements.specs.Decision.{code_of, decision_in};
ghost use Rattle.row_statements.specs.Lent.{columns, list_columns};
ghost use Rattle.row_statements.specs.TileWork.{work_lent};
ghost use Rattle.row_lines.specs.Lines.{clear_color, is_paint};
ghost use Rattle.row_driver.specs.InnerSteps.{side, PartWorkable, WorksPartLine, Turns};

use cached_tile::kept::Kept;
use pass_statements::decide::Decision;
use passes::decide;
use row_lines::Line;
use row_statements::{RowState, TileDone, TileWorked};
use shown_layers::Tally;
use styling::Color;

// The work on a tile, and its line; the line of a refused tile says nothing.
#[derive(Clone, Copy)]
pub struct TileLine {
    pub worked: TileWorked,
    pub line: Line,
}

fn clear_color() -> Color
    ensures { result ≡ clear_color }
{
    Color {
        r: 0.0,
        g: 0.0,
        b: 0.0,
        a: 1.0,
    }
}

pub fn is_paint(decision: Decision) -> bool
    ensures { result ≡ is_paint (decision_in decision) }
{
    match decision {
        Decision::None => false,
        Decision::Solid(_, _) => false,
        Decision::Paint => true,
    }
}

fn blank() -> Line {
    Line {
        decision: 0,
        listed: 0,
        shown: 0,
        octets: 0,
        carried: 0,
    }
}

fn line_of(done: TileDone, tally: Tally, left: usize) -> Line
    requires { (done.listed ≤ 256) × (left ≤ 256) }
    ensures { result ≡ record {
      decision = code_of (decision_in done.decision);
      listed = done.listed;
      shown = tally.shown;
      octets = tally.octets;
      carried = left;
    } }
{
    let decision = done.decision;
    Line {
        decision: decide::code_of(decision),
        listed: done.listed as u32,
        shown: tally.shown,
        octets: tally.octets,
        carried: left as u32,
    }
}

// Works the state's next tile, whose segments are lent, and paints its shown layers where it is to be painted.
fn work_line(
    state: RowState,
    part: &[u64],
    layers: &[u32],
    colors: &[f32],
    count: usize,
    ids: &[u32],
    covers: &[i8],
    next_ids: &mut [u32],
    next_covers: &mut [i8],
    list_ids: &mut [u32],
    list_covers: &mut [i8],
    list_flags: &mut [bool],
    list_unmasked: &mut [bool],
    sums: &mut [i8; 4096],
) -> TileLine
    requires { PartWorkable state part.now layers.now colors.now count (columns ids.now covers.now)
        (work_lent (columns next_ids.old next_covers.old)
        (list_columns list_ids.old list_covers.old list_flags.old
        list_unmasked.old)) }
    ensures { WorksPartLine state
        part.now layers.now colors.now count
        (columns ids.now covers.now)
        (work_lent (columns next_ids.old next_covers.old)
        (list_columns list_ids.old list_covers.old list_flags.old
        list_unmasked.old))
        result
        (work_lent (columns next_ids.new next_covers.new)
        (list_columns list_ids.new list_covers.new list_flags.new
        list_unmasked.new)) }
{
    let worked = row_working::work_part(
        state,
        part,
        layers,
        colors,
        count,
        Kept::absent(),
        clear_color(),
        None,
        ids,
        covers,
        next_ids,
        next_covers,
        list_ids,
        list_covers,
        list_flags,
        list_unmasked,
        sums,
    );
    let answer = worked.answer;
    match answer {
        Err(_) => TileLine {
            worked: worked,
            line: blank(),
        },
        Ok(done) => {
            let after = worked.state;
            let decision = done.decision;
            let skipped = done.skipped;
            let tally = shown_layers::tally_shown(
                is_paint(decision),
                ids,
                covers,
                state.left,
                part,
                layers,
                colors,
                count,
                list_unmasked,
                skipped.0,
                done.listed,
            );
            TileLine {
                worked: worked,
                line: line_of(done, tally, after.left),
            }
        }
    }
}

// Works a tile from the queue whose turn it is, and writes the other.
pub fn turn(
    in_a: bool,
    state: RowState,
    part: &[u64],
    layers: &[u32],
    colors: &[f32],
    count: usize,
    a_ids: &mut [u32],
    a_covers: &mut [i8],
    b_ids: &mut [u32],
    b_covers: &mut [i8],
    list_ids: &mut [u32],
    list_covers: &mut [i8],
    list_flags: &mut [bool],
    list_unmasked: &mut [bool],
    sums: &mut [i8; 4096],
) -> TileLine
    requires { PartWorkable state part.now layers.now colors.now count
        (side in_a (columns a_ids.old a_covers.old) (columns b_ids.old b_covers.old))
        (work_lent
        (side (not in_a) (columns a_ids.old a_covers.old) (columns b_ids.old b_covers.old))
        (list_columns list_ids.old list_covers.old list_flags.old
        list_unmasked.old)) }
    ensures { Turns in_a state
        part.now layers.now colors.now count
        (columns a_ids.old a_covers.old)
        (columns b_ids.old b_covers.old)
        (list_columns list_ids.old list_covers.old list_flags.old
        list_unmasked.old)
        result
        (columns a_ids.new a_covers.new)
        (columns b_ids.new b_covers.new)
        (list_columns list_ids.new list_covers.new list_flags.new
        list_unmasked.new) }
{
    if in_a {
        work_line(
            state,
            part,
            layers,
            colors,
            count,
            a_ids,
            a_covers,
            b_ids,
            b_covers,
            list_ids,
            list_covers,
            list_flags,
            list_unmasked,
            sums,
        )
    } else {
        work_line(
            state,
            part,
            layers,
            colors,
            count,
            b_ids,
            b_covers,
            a_ids,
            a_covers,
            list_ids,
            list_covers,
            list_flags,
            list_unmasked,
            sums,
        )
    }
}
