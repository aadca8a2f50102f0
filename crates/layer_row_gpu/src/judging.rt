// What openings and works of a layer's row are judged by: the lowest refusal that applies.
ghost use Rattle.std.specs.Prelude.{◌≡◌, ◌<◌, pos};
ghost use Rattle.refusals.specs.Refusal.{judgement_in};
ghost use Rattle.pixel_segment.specs.Field.{gpu};
ghost use Rattle.segment_rows.specs.Search.{tile_part_in, layer_part_in};
ghost use Rattle.layer_row_gpu.specs.LayerState.{layer_state_in, has_bad_span, is_astray, is_other_tile};
ghost use Rattle.layer_row_gpu.specs.OpenLayer.{is_bad_record, open_layer_verdict};
ghost use Rattle.layer_row_gpu.specs.WorkLayer.{work_layer_verdict};

use crate::{LayerRow, covers};
use cover_gpu::carry;
use pixel_segment_gpu::{order, parts};
use refusals::Refusal;
use segment_rows::search;

// Refusal 2 of an opening: the row's number or its tiles out of range.
// Beside `row_opening`'s: one of both would take the last row's number too, and a definition below; no plainer.
fn has_bad_span(tile_y: i32, from: i32, to: i32) -> bool
    ensures { result ≡ has_bad_span tile_y from to }
{
    (tile_y < 0) | (8190 < tile_y) | (from < 0) | (to < from) | (4095 < to)
}

// Refusal 4: the layer, or the number of its rule, out of range.
fn is_bad_record(layer_id: u32, rule: u32) -> bool
    ensures { result ≡ is_bad_record layer_id rule }
{
    (2097151 < layer_id) | (1 < rule)
}

// Refusals 2, 3, 4 and 9 of an opening.
pub fn judge_opening(
    tile_y: i32,
    from: i32,
    to: i32,
    layer_id: u32,
    rule: u32,
    row: &[u64],
) -> Result<(), Refusal>
    ensures { judgement_in result ≡ open_layer_verdict tile_y from to layer_id rule row.now }
{
    if has_bad_span(tile_y, from, to) {
        return Err(Refusal::Tile);
    }
    if !order::is_row(row, search::natural(tile_y) as u64 + 1) {
        return Err(Refusal::Row);
    }
    if is_bad_record(layer_id, rule) {
        return Err(Refusal::Table);
    }
    if !covers::is_light(parts::left_of_tile(row, from as i16), layer_id) {
        return Err(Refusal::Covers);
    }
    Ok(())
}

// Whether no opening and no works lead to the state.
// Beside `row_state`'s: the two states are two types, and one of both would take four numbers and the last row's.
fn is_astray(state: LayerRow) -> bool
    ensures { result ≡ is_astray (layer_state_in state) }
{
    (8190 < state.tile_y) | (4095 < state.to) | (state.next < state.from) | (state.to < state.next)
}

// Whether the tile is not the next one of the row, or none is left.
fn is_other_tile(state: LayerRow, tile: i32) -> bool
    ensures { result ≡ is_other_tile (layer_state_in state) tile }
{
    (state.to <= state.next) | (tile < 0) | !(search::natural(tile) == state.next)
}

// A layer's segments in a tile, found by search.
pub fn layer_part(row: &[u64], tile: u32, layer_id: u32) -> &[u64]
    requires { tile < 4096 }
    ensures { result.now ≡ layer_part_in gpu layer_id (tile_part_in gpu (pos tile) row.now) }
{
    parts::of_layer(parts::in_tile(row, tile as i16), layer_id)
}

// Refusals 1, 2, 3 and 9 of a work.
pub fn judge_work(state: LayerRow, tile: i32, row: &[u64], plane: &[f32]) -> Result<(), Refusal>
    ensures { judgement_in result
        ≡ work_layer_verdict (layer_state_in state) tile row.now plane.now }
{
    if plane.len() < 64 {
        return Err(Refusal::Room);
    }
    if is_astray(state) | is_other_tile(state, tile) {
        return Err(Refusal::Tile);
    }
    if !order::is_row(row, state.tile_y as u64 + 1) {
        return Err(Refusal::Row);
    }
    let part = layer_part(row, state.next, state.layer_id);
    let cover = state.cover;
    if !carry::is_light(part, cover) {
        return Err(Refusal::Covers);
    }
    Ok(())
}
