// A range of tiles of one layer's row in one call: judged once, then worked tile after tile, each into the next of the
// lent planes.
ghost use Rattle.std.specs.Prelude.{◌≡◌, suc, ◌*◌, ◌+◌, ◌≤◌, ◌<◌, leb, length, Ok};
ghost use Rattle.std.proofs.lemmas.List.Edits.{sets};
ghost use Rattle.laws.specs.Lists.{over};
ghost use Rattle.pixel_segment.specs.Field.{gpu};
ghost use Rattle.cover_statements.specs.Cover.{cover_at};
ghost use Rattle.cover_statements.specs.Plane.{plane_of};
ghost use Rattle.layer_row_gpu.specs.LayerState.{layer_state_in, past_tile};
ghost use Rattle.layer_row_gpu.specs.WorkTiles.{plane_at, tiles_from, tiles_choice, work_tiles_of, WorksTiles};
ghost use Rattle.layer_row_gpu.specs.InnerTiles.{next_in, next_judged, Ready, ReadyTile};
ghost use Rattle.layer_row_gpu.specs.InnerWorks.{due_tile};

use crate::{LayerRow, judging, work};
use cover_gpu::carry;
use refusals::Refusal;

// Why a range ended: all tiles that were asked for are worked, the row has no further tile, no plane is left, or the
// next tile's own call would be refused.
#[derive(Clone, Copy)]
pub enum Ended {
    Asked,
    RowEnd,
    NoRoom,
    Refused(Refusal),
}

// What a range answers, how many tiles it worked and why it ended, and the state after it.
#[derive(Clone, Copy)]
pub struct WorkedTiles {
    pub answer: Result<(), Refusal>,
    pub worked: usize,
    pub ended: Ended,
    pub state: LayerRow,
}

// Why the range ends before the next tile, where neither 2 nor 3 refuses a tile of the row: its end, no plane, or
// number 9. None where the tile is worked.
fn judge_next(state: LayerRow, row: &[u64], is_full: bool) -> Option<Ended>
    requires { Ready (layer_state_in state) row.now }
    ensures { next_in result ≡ next_judged (layer_state_in state) row.now is_full }
{
    if state.to <= state.next {
        return Some(Ended::RowEnd);
    }
    if is_full {
        return Some(Ended::NoRoom);
    }
    let part = judging::layer_part(row, state.next, state.layer_id);
    let cover = state.cover;
    if !carry::is_light(part, cover) {
        return Some(Ended::Refused(Refusal::Covers));
    }
    None
}

// Works the next tile into the k-th plane.
fn work_plane(state: LayerRow, row: &[u64], k: usize, planes: &mut [f32]) -> LayerRow
    requires { ReadyTile (layer_state_in state) row.now × (k * 64 + 64 ≤ length planes.old) }
    ensures { (layer_state_in result ≡ past_tile (layer_state_in state) (due_tile (layer_state_in state) row.now))
        × (planes.new ≡ sets planes.old (k * 64)
        (over (plane_of gpu 4 state.rule (cover_at state.cover.covers)
        (due_tile (layer_state_in state) row.now)) (plane_at k planes.old))) }
{
    let start = k * 64;
    let end = start + 64;
    work(state, row, &mut planes[start..end])
}

fn ended_so(state: LayerRow, worked: usize, ended: Ended) -> WorkedTiles
    ensures { result ≡ record { answer = Ok tt; worked = worked; ended = ended; state = state } }
{
    WorkedTiles {
        answer: Ok(()),
        worked,
        ended,
        state,
    }
}

// Tile after tile.
fn work_on(first: LayerRow, tiles: usize, row: &[u64], planes: &mut [f32]) -> WorkedTiles
    requires { Ready (layer_state_in first) row.now }
    ensures { WorksTiles
        (tiles_from row.now tiles 0 (layer_state_in first) planes.old) result planes.new }
{
    let room = planes.len() / 64;
    let mut state = first;
    for k in 0..tiles {
        if let Some(ended) = judge_next(state, row, room <= k) {
            return ended_so(state, k, ended);
        }
        state = work_plane(state, row, k, planes);
    }
    ended_so(state, tiles, Ended::Asked)
}

// Works up to `tiles` tiles from the tile `tile` on, the coverages of each in the next 64 numbers of the lent planes.
pub fn work_tiles(
    state: LayerRow,
    tile: i32,
    tiles: usize,
    row: &[u64],
    planes: &mut [f32],
) -> WorkedTiles
    ensures { WorksTiles
        (work_tiles_of (layer_state_in state) (tiles_choice tile tiles row.now planes.old))
        result planes.new }
{
    if tiles == 0 {
        return ended_so(state, 0, Ended::Asked);
    }
    match judging::judge_work(state, tile, row, planes) {
        Err(refusal) => WorkedTiles {
            answer: Err(refusal),
            worked: 0,
            ended: Ended::Refused(refusal),
            state,
        },
        Ok(()) => work_on(state, tiles, row, planes),
    }
}
