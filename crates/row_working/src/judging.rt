// The judges of tile work: refusals 1 to 6 by the arguments, and 7 to 9 by the tile's layers. A listing is judged by
// the same functions, without 6.
ghost use Rattle.std.specs.Prelude.{◌≡◌, Bool, ◌*◌, ◌≤◌, length};
ghost use Rattle.refusals.specs.Refusal.{judgement_in, pass, unless};
ghost use Rattle.layer_table.specs.Table.{Table, table_of};
ghost use Rattle.queue_statements.specs.Queue.{queue_of};
ghost use Rattle.cached_tile.specs.Kept.{tag_out_of_range};
ghost use Rattle.tile_layers.specs.Listing.{layers_in};
ghost use Rattle.tile_layers.specs.InnerWalk.{Walks};
ghost use Rattle.layer_carrying.specs.Carrying.{HoldsCarries};
ghost use Rattle.row_statements.specs.Lent.{lent_table, list_columns, are_entries_short, is_list_short};
ghost use Rattle.row_statements.specs.State.{state_in};
ghost use Rattle.row_statements.specs.InnerWork.{judged_by, judged_with, JudgesList};

use cached_tile::kept::Kept;
use refusals::Refusal;
use row_statements::{ListJudged, RowState};
use segment_rows::order;

// Refusal 1: whether the three columns that say what is listed have fewer than 256 entries, of two flags each.
pub fn are_entries_short(ids: &[u32], covers: &[i8], flags: &[bool]) -> bool
    ensures { result ≡ are_entries_short ids.now covers.now flags.now }
{
    (ids.len() < 256) | (covers.len() / 16 < 256) | (flags.len() < 512)
}

// Refusal 1: whether a lent list has fewer than 256 entries.
pub fn is_list_short(ids: &[u32], covers: &[i8], flags: &[bool], unmasked: &[bool]) -> bool
    ensures { result ≡ is_list_short
        (list_columns ids.now covers.now flags.now unmasked.now) }
{
    are_entries_short(ids, covers, flags) | (unmasked.len() < 256)
}

// Refusals 1 to 5, the lowest that applies. `short` says whether 1 does.
pub fn judge_row(
    short: bool,
    state: RowState,
    tile: i32,
    row: &[u64],
    layers: &[u32],
    colors: &[f32],
    count: usize,
    ids: &[u32],
) -> Result<(), Refusal>
    ensures { judgement_in result ≡ judged_by short (state_in state) tile row.now
        (lent_table layers.now colors.now count) ids.now }
{
    if short {
        return Err(Refusal::Room);
    }
    if row_state::is_wrong_next(state, tile) {
        return Err(Refusal::Tile);
    }
    if !order::is_row(row, state.tile_y as u64 + 1) {
        return Err(Refusal::Row);
    }
    if !layer_table::is_table(layers, colors, count) {
        return Err(Refusal::Table);
    }
    if !queue::is_queue(ids, state.left) {
        return Err(Refusal::Queue);
    }
    Ok(())
}

// Refusal 6.
fn judge_tag(kept: Kept) -> Result<(), Refusal>
    ensures { judgement_in result ≡ unless (tag_out_of_range kept) 6 pass }
{
    if kept.is_tag_out_of_range() {
        return Err(Refusal::Tag);
    }
    Ok(())
}

// Refusals 1 to 6, the lowest that applies. `short` says whether 1 does.
pub fn judge_work(
    short: bool,
    state: RowState,
    tile: i32,
    row: &[u64],
    layers: &[u32],
    colors: &[f32],
    count: usize,
    kept: Kept,
    ids: &[u32],
) -> Result<(), Refusal>
    ensures { judgement_in result ≡ judged_with short (state_in state) tile row.now
        (lent_table layers.now colors.now count) kept ids.now }
{
    judge_row(short, state, tile, row, layers, colors, count, ids)?;
    judge_tag(kept)
}

// Refusals 7 to 9, the lowest that applies to the layers of a tile. Where none does, `sums` holds their carries.
pub fn judge_list(
    ids: &[u32],
    covers: &[i8],
    n: usize,
    part: &[u64],
    layers: &[u32],
    colors: &[f32],
    count: usize,
    sums: &mut [i8; 4096],
) -> ListJudged
    requires { Walks n ids.now part.now × (16 * n ≤ length covers.now)
        × Table layers.now colors.now count }
    ensures judged { JudgesList (table_of layers.now colors.now count)
        (layers_in (queue_of n ids.now covers.now) part.now) result }
    ensures carries { judgement_in result.verdict ≡ pass → HoldsCarries
        (layers_in (queue_of n ids.now covers.now) part.now) sums.new }
{
    let found = layer_listing::survey_layers(ids, covers, n, part, layers, colors, count, sums);
    let listed = found.count;
    if 256 < listed {
        return ListJudged {
            verdict: Err(Refusal::Layers),
            listed: listed,
        };
    }
    if !found.known {
        return ListJudged {
            verdict: Err(Refusal::Missing),
            listed: listed,
        };
    }
    if !found.light {
        return ListJudged {
            verdict: Err(Refusal::Covers),
            listed: listed,
        };
    }
    ListJudged {
        verdict: Ok(()),
        listed: listed,
    }
}
