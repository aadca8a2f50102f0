// The work on the next tile of a row as a public operation, and settling: judged first, then done; a refusal leaves
// everything as it was.
#![tactic(auto)]

pub mod judging;

ghost use Rattle.std.specs.Prelude.{◌≡◌, ◌≤◌};
ghost use Rattle.cached_tile.specs.Kept.{KeptSettled};
ghost use Rattle.row_statements.specs.Lent.{columns, list_columns, lent_table};
ghost use Rattle.row_statements.specs.State.{state_in};
ghost use Rattle.row_statements.specs.TileWork.{work_call, work_lent, layers_verdict, says_for, work_out, work_of, GivesWork};
ghost use Rattle.row_statements.specs.InnerWork.{refused_work, done_work, WorkJudged, worked_by};
ghost use Rattle.row_working.specs.InnerPart.{PartJudged, WorksPart};

use cached_tile::kept::{Kept, Settled};
use layer_workbench::Worked;
use refusals::Refusal;
use row_statements::{RowState, TileDone, TileWorked};
use segment_rows::parts;
use styling::Color;

fn refuse(state: RowState, kept: Kept, refusal: Refusal) -> TileWorked
    ensures { result ≡ refused_work state kept refusal }
{
    TileWorked {
        state: state,
        kept: kept,
        answer: Err(refusal),
    }
}

// The state after an accepted work, and what it says.
fn done(state: RowState, worked: Worked) -> TileWorked
    requires { state.next ≤ 4094 }
    ensures { result ≡ done_work state worked }
{
    let left = worked.left;
    let kept = worked.kept;
    let decision = worked.decision;
    let listed = worked.listed;
    let skipped = worked.skipped;
    let next = RowState {
        tile_y: state.tile_y,
        from: state.from,
        to: state.to,
        next: state.next + 1,
        left: left,
        taken: state.left,
        clip: None,
    };
    let told = TileDone {
        decision: decision,
        listed: listed,
        skipped: skipped,
    };
    TileWorked {
        state: next,
        kept: kept,
        answer: Ok(told),
    }
}

// The work on a tile's part: judged by 7 to 9, and then done. `sums` is room for the carries; what it holds is of no
// account before and after.
pub fn work_part(
    state: RowState,
    part: &[u64],
    layers: &[u32],
    colors: &[f32],
    count: usize,
    kept: Kept,
    clear: Color,
    previous: Option<Color>,
    ids: &[u32],
    covers: &[i8],
    next_ids: &mut [u32],
    next_covers: &mut [i8],
    list_ids: &mut [u32],
    list_covers: &mut [i8],
    list_flags: &mut [bool],
    list_unmasked: &mut [bool],
    sums: &mut [i8; 4096],
) -> TileWorked
    requires { PartJudged state part.now (lent_table layers.now colors.now count)
        (columns ids.now covers.now)
        (work_lent (columns next_ids.old next_covers.old)
        (list_columns list_ids.old list_covers.old
        list_flags.old list_unmasked.old)) }
    ensures { WorksPart state part.now (lent_table layers.now colors.now count)
        kept clear previous (columns ids.now covers.now)
        (work_lent (columns next_ids.old next_covers.old)
        (list_columns list_ids.old list_covers.old
        list_flags.old list_unmasked.old))
        result
        (work_lent (columns next_ids.new next_covers.new)
        (list_columns list_ids.new list_covers.new
        list_flags.new list_unmasked.new)) }
{
    let judged = judging::judge_list(ids, covers, state.left, part, layers, colors, count, sums);
    let verdict = judged.verdict;
    match verdict {
        Err(refusal) => refuse(state, kept, refusal),
        Ok(()) => done(
            state,
            layer_workbench::work(
                ids,
                covers,
                state.left,
                part,
                judged.listed,
                sums,
                layers,
                colors,
                count,
                kept,
                clear,
                previous,
                next_ids,
                next_covers,
                list_ids,
                list_covers,
                list_flags,
                list_unmasked,
            ),
        ),
    }
}

// The work on a tile that 1 to 6 don't refuse.
pub fn work_judged(
    state: RowState,
    tile: i32,
    row: &[u64],
    layers: &[u32],
    colors: &[f32],
    count: usize,
    kept: Kept,
    clear: Color,
    previous: Option<Color>,
    ids: &[u32],
    covers: &[i8],
    next_ids: &mut [u32],
    next_covers: &mut [i8],
    list_ids: &mut [u32],
    list_covers: &mut [i8],
    list_flags: &mut [bool],
    list_unmasked: &mut [bool],
) -> TileWorked
    requires { WorkJudged
        (work_call (state_in state) tile row.now (lent_table layers.now colors.now count)
        kept clear previous (columns ids.now covers.now))
        (work_lent (columns next_ids.old next_covers.old)
        (list_columns list_ids.old list_covers.old
        list_flags.old list_unmasked.old)) }
    ensures { GivesWork
        (worked_by
        (work_call (state_in state) tile row.now
        (lent_table layers.now colors.now count)
        kept clear previous (columns ids.now covers.now))
        (work_lent (columns next_ids.old next_covers.old)
        (list_columns list_ids.old list_covers.old
        list_flags.old list_unmasked.old)))
        result
        (work_lent (columns next_ids.new next_covers.new)
        (list_columns list_ids.new list_covers.new
        list_flags.new list_unmasked.new)) }
{
    let part = parts::in_tile(row, tile as i16);
    let mut sums = [0i8; 4096];
    work_part(
        state,
        part,
        layers,
        colors,
        count,
        kept,
        clear,
        previous,
        ids,
        covers,
        next_ids,
        next_covers,
        list_ids,
        list_covers,
        list_flags,
        list_unmasked,
        &mut sums,
    )
}

// Works the next tile of a row.
pub fn work_tile(
    state: RowState,
    tile: i32,
    row: &[u64],
    layers: &[u32],
    colors: &[f32],
    count: usize,
    kept: Kept,
    clear: Color,
    previous: Option<Color>,
    ids: &[u32],
    covers: &[i8],
    next_ids: &mut [u32],
    next_covers: &mut [i8],
    list_ids: &mut [u32],
    list_covers: &mut [i8],
    list_flags: &mut [bool],
    list_unmasked: &mut [bool],
) -> TileWorked
    ensures { GivesWork
        (work_of
        (work_call (state_in state) tile row.now
        (lent_table layers.now colors.now count)
        kept clear previous (columns ids.now covers.now))
        (work_lent (columns next_ids.old next_covers.old)
        (list_columns list_ids.old list_covers.old
        list_flags.old list_unmasked.old)))
        result
        (work_lent (columns next_ids.new next_covers.new)
        (list_columns list_ids.new list_covers.new
        list_flags.new list_unmasked.new)) }
{
    let short = queue::is_short(ids, covers)
        | queue::is_short(next_ids, next_covers)
        | layer_table::is_short(layers, colors, count)
        | judging::is_list_short(list_ids, list_covers, list_flags, list_unmasked);
    match judging::judge_work(short, state, tile, row, layers, colors, count, kept, ids) {
        Err(refusal) => refuse(state, kept, refusal),
        Ok(()) => work_judged(
            state,
            tile,
            row,
            layers,
            colors,
            count,
            kept,
            clear,
            previous,
            ids,
            covers,
            next_ids,
            next_covers,
            list_ids,
            list_covers,
            list_flags,
            list_unmasked,
        ),
    }
}

// Settles a solid tile with its four display bytes: write or keep.
pub fn settle(kept: Kept, color: [u8; 4]) -> Settled
    ensures { KeptSettled kept color result }
{
    cached_tile::kept::settle(kept, color)
}
