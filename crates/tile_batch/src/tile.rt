// One tile of a batch: judged by what the tile itself can be refused for, worked, noted, and its shown layers painted.
ghost use Rattle.std.specs.Prelude.{◌≡◌, ◌≤◌, length};
ghost use Rattle.std.specs.Prelude.{None};
ghost use Rattle.layer_table.specs.Table.{table_of};
ghost use Rattle.queue_statements.specs.Queue.{queue_of};
ghost use Rattle.listed_painting.specs.InnerWalk.{Painter};
ghost use Rattle.shown_layers.specs.InnerTally.{Walkable};
ghost use Rattle.row_statements.specs.Lent.{columns, list_columns, lent_table};
ghost use Rattle.batch_statements.specs.BatchLent.{batch_lent, sided};
ghost use Rattle.batch_statements.specs.Batch.{batch_row};
ghost use Rattle.batch_noting.specs.InnerNoting.{NoteRoom};
ghost use Rattle.batch_painting.specs.InnerShown.{PlaneRoom};
ghost use Rattle.tile_batch.specs.InnerTurns.{batch_in, walk_past, mix_past, NotesTile};
ghost use Rattle.tile_batch.specs.InnerTurns.{Turnable, GivesPartTurn, GivesPartStanding};

use batch_steps::Standing;
use refusals::Refusal;
use row_driver::tile::is_paint;
use row_statements::{TileDone, TileWorked};
use styling::Color;

// Paints the shown layers of a tile that is accepted, and notes the tile.
fn note_tile(
    at: Standing,
    worked: TileWorked,
    done: TileDone,
    n: usize,
    part: &[u64],
    layers: &[u32],
    colors: &[f32],
    count: usize,
    keeps: bool,
    ids: &[u32],
    covers: &[i8],
    list_ids: &[u32],
    list_unmasked: &[bool],
    kept: &mut [u8],
    told: &mut [usize],
    bottoms: &mut [f32],
    planes: &mut [f32],
    painted: &mut [u32],
) -> Standing
    requires { Painter n ids.now covers.now part.now layers.now colors.now count
        × Walkable (table_of layers.now colors.now count) (queue_of n ids.now covers.now) part.now
        list_unmasked.now done.skipped.0 done.listed
        × (done.listed ≤ length list_ids.now)
        × NoteRoom keeps at.worked kept.old told.old bottoms.old
        × PlaneRoom at.used done.listed planes.old painted.old × (worked.state.clip ≡ None) }
    ensures { let walked = walk_past at worked done (table_of layers.now colors.now count)
        (queue_of n ids.now covers.now) part.now
        list_unmasked.now planes.old painted.old in
        NotesTile keeps at worked done walked
        (mix_past walked done list_ids.now list_unmasked.now)
        kept.old told.old bottoms.old
        result kept.new told.new bottoms.new planes.new painted.new }
{
    let after = worked.state;
    let tile = worked.kept;
    let decision = done.decision;
    let skipped = done.skipped;
    let made = batch_painting::paint_shown(
        is_paint(decision),
        ids,
        covers,
        n,
        part,
        layers,
        colors,
        count,
        list_unmasked,
        skipped.0,
        done.listed,
        after,
        at.used,
        planes,
        painted,
    );
    let used = batch_mixing::put_mixed(
        decision,
        list_ids,
        list_unmasked,
        skipped.0,
        done.listed,
        made.used,
        painted,
    );
    batch_noting::put_tile(
        keeps, at.worked, done, tile, made.shown, after.left, kept, told, bottoms,
    );
    let state = made.state;
    batch_steps::past(at, state, used)
}

// Works the next tile, whose segments are lent: judged by 6 to 9, and then noted. Its carries come in by the first of
// the two queues and go out by the second.
fn work_here(
    at: Standing,
    part: &[u64],
    layers: &[u32],
    colors: &[f32],
    count: usize,
    keeps: bool,
    clear: Color,
    previous: Option<Color>,
    ids: &[u32],
    covers: &[i8],
    next_ids: &mut [u32],
    next_covers: &mut [i8],
    list_ids: &mut [u32],
    list_covers: &mut [i8],
    list_flags: &mut [bool],
    list_unmasked: &mut [bool],
    kept: &mut [u8],
    told: &mut [usize],
    bottoms: &mut [f32],
    planes: &mut [f32],
    painted: &mut [u32],
    sums: &mut [i8; 4096],
) -> Standing
    requires { Turnable (batch_row part.now (lent_table layers.now colors.now count) keeps clear previous)
        (batch_in at (batch_lent (columns ids.now covers.now) (columns next_ids.old next_covers.old)
        kept.old told.old bottoms.old planes.old painted.old))
        (list_columns list_ids.old list_covers.old list_flags.old list_unmasked.old) }
    ensures { GivesPartTurn at.first
        (batch_row part.now (lent_table layers.now colors.now count)
        keeps clear previous)
        (batch_in at (batch_lent (columns ids.now covers.now)
        (columns next_ids.old next_covers.old)
        kept.old told.old bottoms.old planes.old
        painted.old))
        result
        (batch_lent (columns ids.now covers.now)
        (columns next_ids.new next_covers.new)
        kept.new told.new bottoms.new planes.new painted.new) }
{
    let state = at.state;
    let held = batch_noting::kept_at(keeps, kept, at.worked);
    if held.is_tag_out_of_range() {
        return batch_steps::refused(at, Refusal::Tag);
    }
    let worked = row_working::work_part(
        state,
        part,
        layers,
        colors,
        count,
        held,
        clear,
        previous,
        ids,
        covers,
        next_ids,
        next_covers,
        list_ids,
        list_covers,
        list_flags,
        list_unmasked,
        sums,
    );
    let answer = worked.answer;
    match answer {
        Err(refusal) => batch_steps::refused(at, refusal),
        Ok(done) => note_tile(
            at,
            worked,
            done,
            state.left,
            part,
            layers,
            colors,
            count,
            keeps,
            ids,
            covers,
            list_ids,
            list_unmasked,
            kept,
            told,
            bottoms,
            planes,
            painted,
        ),
    }
}

// Works the next tile from the queue that holds the carries, and writes the other.
pub fn turn(
    at: Standing,
    part: &[u64],
    layers: &[u32],
    colors: &[f32],
    count: usize,
    keeps: bool,
    clear: Color,
    previous: Option<Color>,
    a_ids: &mut [u32],
    a_covers: &mut [i8],
    b_ids: &mut [u32],
    b_covers: &mut [i8],
    list_ids: &mut [u32],
    list_covers: &mut [i8],
    list_flags: &mut [bool],
    list_unmasked: &mut [bool],
    kept: &mut [u8],
    told: &mut [usize],
    bottoms: &mut [f32],
    planes: &mut [f32],
    painted: &mut [u32],
    sums: &mut [i8; 4096],
) -> Standing
    requires { Turnable (batch_row part.now (lent_table layers.now colors.now count) keeps clear previous)
        (batch_in at (sided at.first
        (batch_lent (columns a_ids.old a_covers.old) (columns b_ids.old b_covers.old)
        kept.old told.old bottoms.old planes.old painted.old)))
        (list_columns list_ids.old list_covers.old list_flags.old list_unmasked.old) }
    ensures { GivesPartStanding
        (batch_row part.now (lent_table layers.now colors.now count)
        keeps clear previous)
        (batch_in at (sided at.first
        (batch_lent (columns a_ids.old a_covers.old)
        (columns b_ids.old b_covers.old)
        kept.old told.old bottoms.old planes.old
        painted.old)))
        result
        (batch_lent (columns a_ids.new a_covers.new)
        (columns b_ids.new b_covers.new)
        kept.new told.new bottoms.new planes.new painted.new) }
{
    if at.first {
        work_here(
            at,
            part,
            layers,
            colors,
            count,
            keeps,
            clear,
            previous,
            a_ids,
            a_covers,
            b_ids,
            b_covers,
            list_ids,
            list_covers,
            list_flags,
            list_unmasked,
            kept,
            told,
            bottoms,
            planes,
            painted,
            sums,
        )
    } else {
        work_here(
            at,
            part,
            layers,
            colors,
            count,
            keeps,
            clear,
            previous,
            b_ids,
            b_covers,
            a_ids,
            a_covers,
            list_ids,
            list_covers,
            list_flags,
            list_unmasked,
            kept,
            told,
            bottoms,
            planes,
            painted,
            sums,
        )
    }
}
