// One layer's row of tiles four pixels high, opened once and worked tile by tile: each work writes the tile's coverages
// and hands on the layer's carry. Every call is judged first; a refusal leaves everything as it was.
#![tactic(auto)]

pub mod covers;
pub mod judging;
pub mod tiles;

ghost use Rattle.std.specs.Prelude.{◌≡◌, ◌<◌};
ghost use Rattle.laws.specs.Lists.{over};
ghost use Rattle.pixel_segment.specs.Field.{gpu};
ghost use Rattle.styling.specs.Codes.{rule_of};
ghost use Rattle.cover_statements.specs.Cover.{cover_at};
ghost use Rattle.cover_statements.specs.Plane.{plane_of};
ghost use Rattle.layer_row_gpu.specs.LayerState.{layer_state_in, dropped, handed_layer, past_tile};
ghost use Rattle.layer_row_gpu.specs.OpenLayer.{layer_call, first_state, no_tiles, OpensLayer};
ghost use Rattle.layer_row_gpu.specs.WorkLayer.{layer_choice, work_layer_of, WorksLayer};
ghost use Rattle.layer_row_gpu.specs.InnerWorks.{Openable, WorkableLayer, due_tile};

use cover_gpu::{GpuCover, carry, painting};
use pixel_segment_gpu::parts;
use refusals::Refusal;
use segment_rows::search;
use styling::{FillRule, codes};

// Where a caller stands in a layer's row: the cover is what the next tile takes in.
#[derive(Clone, Copy)]
pub struct LayerRow {
    pub tile_y: u32,
    pub from: u32,
    pub to: u32,
    pub next: u32,
    pub layer_id: u32,
    pub rule: FillRule,
    pub cover: GpuCover,
}

// What an opening answers: whether it passes, or its refusal, and the state before the first tile; an enum can't hold
// the array of a cover. A refused opening's state has no tiles.
#[derive(Clone, Copy)]
pub struct OpenedLayer {
    pub answer: Result<(), Refusal>,
    pub state: LayerRow,
}

// What a work answers, and the state after it.
#[derive(Clone, Copy)]
pub struct WorkedLayer {
    pub answer: Result<(), Refusal>,
    pub state: LayerRow,
}

// The state of an opening that nothing refuses.
fn open(tile_y: i32, from: i32, to: i32, layer_id: u32, rule: u32, row: &[u64]) -> LayerRow
    requires { Openable (layer_call tile_y from to layer_id rule row.now) }
    ensures { layer_state_in result ≡ first_state (layer_call tile_y from to layer_id rule row.now) }
{
    let first = search::natural(from);
    let cover = covers::sum(parts::left_of_tile(row, from as i16), layer_id);
    LayerRow {
        tile_y: search::natural(tile_y),
        from: first,
        to: search::natural(to),
        next: first,
        layer_id: layer_id,
        rule: codes::fill_rule(rule),
        cover: cover,
    }
}

// A state without tiles.
fn closed(layer_id: u32, rule: u32) -> LayerRow
    ensures { layer_state_in result ≡ no_tiles layer_id (rule_of rule) }
{
    let cover = GpuCover::default();
    LayerRow {
        tile_y: 0,
        from: 0,
        to: 0,
        next: 0,
        layer_id: layer_id,
        rule: codes::fill_rule(rule),
        cover: cover,
    }
}

// Opens a layer's row: the state before its first tile, with the exact sum of the layer's covers left of it. The rule
// is its number in a layer record.
pub fn open_layer_row(
    tile_y: i32,
    from: i32,
    to: i32,
    layer_id: u32,
    rule: u32,
    row: &[u64],
) -> OpenedLayer
    ensures { OpensLayer (layer_call tile_y from to layer_id rule row.now) result }
{
    match judging::judge_opening(tile_y, from, to, layer_id, rule, row) {
        Err(refusal) => {
            let state = closed(layer_id, rule);
            OpenedLayer {
                answer: Err(refusal),
                state,
            }
        }
        Ok(()) => {
            let state = open(tile_y, from, to, layer_id, rule, row);
            OpenedLayer {
                answer: Ok(()),
                state,
            }
        }
    }
}

// A carry that is empty by the rule counts as zeros.
fn drop_empty(carried: GpuCover, rule: FillRule) -> GpuCover
    ensures { result.covers ≡ dropped rule carried.covers }
{
    if carried.is_empty(rule) {
        GpuCover::default()
    } else {
        carried
    }
}

// The state past a tile.
fn hand_on(state: LayerRow, carried: GpuCover) -> LayerRow
    requires { state.next < 4096 }
    ensures { layer_state_in result ≡ handed_layer (layer_state_in state) carried.covers }
{
    let rule = state.rule;
    let cover = drop_empty(carried, rule);
    LayerRow {
        tile_y: state.tile_y,
        from: state.from,
        to: state.to,
        next: state.next + 1,
        layer_id: state.layer_id,
        rule: rule,
        cover: cover,
    }
}

// The work on the next tile, where nothing refuses it.
fn work(state: LayerRow, row: &[u64], plane: &mut [f32]) -> LayerRow
    requires { WorkableLayer (layer_state_in state) row.now plane.old }
    ensures { (layer_state_in result ≡ past_tile (layer_state_in state) (due_tile (layer_state_in state) row.now))
        × (plane.new ≡ over (plane_of gpu 4 state.rule (cover_at state.cover.covers)
        (due_tile (layer_state_in state) row.now)) plane.old) }
{
    let part = judging::layer_part(row, state.next, state.layer_id);
    let cover = state.cover;
    let rule = state.rule;
    painting::paint(part, cover, rule, plane);
    hand_on(state, carry::add_segments(part, cover))
}

// Works the next tile: its coverages in the lent plane, and the carry in the state.
pub fn work_tile(state: LayerRow, tile: i32, row: &[u64], plane: &mut [f32]) -> WorkedLayer
    ensures { WorksLayer
        (work_layer_of (layer_state_in state) (layer_choice tile row.now plane.old))
        result plane.new }
{
    match judging::judge_work(state, tile, row, plane) {
        Err(refusal) => WorkedLayer {
            answer: Err(refusal),
            state,
        },
        Ok(()) => {
            let next = work(state, row, plane);
            WorkedLayer {
                answer: Ok(()),
                state: next,
            }
        }
    }
}
