// Several tiles of a row worked and painted in one call, judged once. The tiles are worked by the inner functions, and
// two queues take turns.
#![tactic(auto)]

pub mod tile;

ghost use Rattle.std.specs.Prelude.{◌≡◌, cond};
ghost use Rattle.refusals.specs.Refusal.{judgement_in, pass};
ghost use Rattle.row_statements.specs.Lent.{columns, lent_table};
ghost use Rattle.row_statements.specs.State.{state_in};
ghost use Rattle.row_statements.specs.InnerWork.{judged_by};
ghost use Rattle.batch_statements.specs.BatchLent.{batch_lent};
ghost use Rattle.batch_statements.specs.Batch.{batch_row, batch_call, batch_of, tiles_from, GivesBatch};
ghost use Rattle.batch_steps.specs.InnerStanding.{starting};
ghost use Rattle.tile_batch.specs.InnerTurns.{is_batch_short, batch_in, Startable};

use batch_statements::{Batch, Room};
use refusals::Refusal;
use row_statements::RowState;
use row_working::judging;
use segment_rows::parts;
use styling::Color;

// Refusal 1 of the first tile: a queue below 256 entries, or a table shorter than its count.
fn is_short(
    layers: &[u32],
    colors: &[f32],
    count: usize,
    a_ids: &[u32],
    a_covers: &[i8],
    b_ids: &[u32],
    b_covers: &[i8],
) -> bool
    ensures { result ≡ is_batch_short (lent_table layers.now colors.now count)
        (columns a_ids.now a_covers.now)
        (columns b_ids.now b_covers.now) }
{
    queue::is_short(a_ids, a_covers)
        | queue::is_short(b_ids, b_covers)
        | layer_table::is_short(layers, colors, count)
}

// Refusals 1 to 5 of the first tile, where one is to be worked: what is common to all tiles is judged once.
fn judge_first(
    goes: bool,
    state: RowState,
    tile: i32,
    row: &[u64],
    layers: &[u32],
    colors: &[f32],
    count: usize,
    a_ids: &[u32],
    a_covers: &[i8],
    b_ids: &[u32],
    b_covers: &[i8],
) -> Result<(), Refusal>
    ensures { judgement_in result ≡ cond goes
        (judged_by (is_batch_short (lent_table layers.now colors.now count)
        (columns a_ids.now a_covers.now)
        (columns b_ids.now b_covers.now))
        (state_in state) tile row.now
        (lent_table layers.now colors.now count) a_ids.now)
        pass }
{
    if goes {
        let short = is_short(layers, colors, count, a_ids, a_covers, b_ids, b_covers);
        judging::judge_row(short, state, tile, row, layers, colors, count, a_ids)
    } else {
        Ok(())
    }
}

// Works tile after tile with a list and room for carries of its own. Each tile's last segment is searched in what is
// left of the row, from where the tile before ended.
fn work_many(
    state: RowState,
    tiles: usize,
    room: Room,
    row: &[u64],
    layers: &[u32],
    colors: &[f32],
    count: usize,
    keeps: bool,
    clear: Color,
    previous: Option<Color>,
    a_ids: &mut [u32],
    a_covers: &mut [i8],
    b_ids: &mut [u32],
    b_covers: &mut [i8],
    kept: &mut [u8],
    told: &mut [usize],
    bottoms: &mut [f32],
    planes: &mut [f32],
    painted: &mut [u32],
) -> Batch
    requires { Startable (batch_row row.now (lent_table layers.now colors.now count)
        keeps clear previous) state room
        (batch_lent (columns a_ids.old a_covers.old)
        (columns b_ids.old b_covers.old)
        kept.old told.old bottoms.old planes.old painted.old) }
    ensures { GivesBatch
        (tiles_from (batch_row row.now (lent_table layers.now colors.now count)
        keeps clear previous) room tiles
        (batch_in (starting state)
        (batch_lent (columns a_ids.old a_covers.old)
        (columns b_ids.old b_covers.old)
        kept.old told.old bottoms.old planes.old painted.old)))
        result
        (batch_lent (columns a_ids.new a_covers.new)
        (columns b_ids.new b_covers.new)
        kept.new told.new bottoms.new planes.new painted.new) }
{
    let mut list_ids = [0u32; 256];
    let mut list_covers = [0i8; 4096];
    let mut list_flags = [false; 512];
    let mut list_unmasked = [false; 256];
    let mut sums = [0i8; 4096];
    let mut at = batch_steps::started(state, Ok(()));
    let mut start = parts::left_of_tile(row, state.next as i16).len();
    while batch_steps::goes_on(at, tiles, room) {
        let stood = at.state;
        let part = parts::up_to_tile(&row[start..], stood.next as i16);
        start += part.len();
        at = tile::turn(
            at,
            part,
            layers,
            colors,
            count,
            keeps,
            clear,
            previous,
            a_ids,
            a_covers,
            b_ids,
            b_covers,
            &mut list_ids,
            &mut list_covers,
            &mut list_flags,
            &mut list_unmasked,
            kept,
            told,
            bottoms,
            planes,
            painted,
            &mut sums,
        );
    }
    batch_steps::ended(at, tiles)
}

// Works and paints up to `tiles` tiles from the tile `tile` on, as the calls on one tile after the other would, while
// the row has tiles and there is room for a further one. It is refused where its first tile is, and leaves everything
// as it was then. The first queue comes in; where `keeps` is set, each tile's cached tile is its eight bytes of `kept`.
// Six numbers of `told` are written for each tile, and four of `bottoms` where it is solid; for each shown layer of a
// painted tile a plane and two words of `painted`, and for each layer that a solid tile mixes the two words.
pub fn work_tiles(
    state: RowState,
    tile: i32,
    tiles: usize,
    row: &[u64],
    layers: &[u32],
    colors: &[f32],
    count: usize,
    keeps: bool,
    clear: Color,
    previous: Option<Color>,
    a_ids: &mut [u32],
    a_covers: &mut [i8],
    b_ids: &mut [u32],
    b_covers: &mut [i8],
    kept: &mut [u8],
    told: &mut [usize],
    bottoms: &mut [f32],
    planes: &mut [f32],
    painted: &mut [u32],
) -> Batch
    ensures { GivesBatch
        (batch_of
        (batch_call (state_in state) tile tiles
        (batch_row row.now (lent_table layers.now colors.now count)
        keeps clear previous))
        (batch_lent (columns a_ids.old a_covers.old)
        (columns b_ids.old b_covers.old)
        kept.old told.old bottoms.old planes.old painted.old))
        result
        (batch_lent (columns a_ids.new a_covers.new)
        (columns b_ids.new b_covers.new)
        kept.new told.new bottoms.new planes.new painted.new) }
{
    let room = batch_steps::room_in(count, keeps, kept, told, bottoms, planes, painted);
    let begun = batch_steps::started(state, Ok(()));
    let goes = batch_steps::goes_on(begun, tiles, room);
    let verdict = judge_first(
        goes, state, tile, row, layers, colors, count, a_ids, a_covers, b_ids, b_covers,
    );
    let at = batch_steps::started(state, verdict);
    if batch_steps::goes_on(at, tiles, room) {
        work_many(
            state, tiles, room, row, layers, colors, count, keeps, clear, previous, a_ids,
            a_covers, b_ids, b_covers, kept, told, bottoms, planes, painted,
        )
    } else {
        batch_steps::ended(at, tiles)
    }
}
