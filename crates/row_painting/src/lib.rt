// Painting a layer of the tile just worked: judged by 1 to 5, then by 8 and 9 for the layer, and painted from the queue
// that the tile took in.
#![tactic(auto)]

ghost use Rattle.std.specs.Prelude.{◌≡◌};
ghost use Rattle.refusals.specs.Refusal.{judgement_in};
ghost use Rattle.layer_table.specs.Table.{Table, table_of};
ghost use Rattle.queue_statements.specs.Queue.{queue_of, Queued};
ghost use Rattle.row_statements.specs.Lent.{columns, lent_table};
ghost use Rattle.row_statements.specs.State.{state_in};
ghost use Rattle.row_statements.specs.Painting.{paint_call, is_paint_short, call_verdict, layer_verdict, paint_verdict};
ghost use Rattle.row_statements.specs.Painting.{layer_in, paint_of, PaintsLayer};
ghost use Rattle.row_statements.specs.InnerPaint.{is_short_with, painted_layer};

use cover::carry;
use painter::painting;
use painter::painting::Painting;
use refusals::Refusal;
use row_statements::{Painted, RowState};
use segment_rows::{order, parts};
use styling::{FillRule, Func, Layer, Props};

// Refusal 1: a queue or a plane below 256 entries, or a table shorter than its count.
fn is_paint_short(
    layers: &[u32],
    colors: &[f32],
    count: usize,
    ids: &[u32],
    covers: &[i8],
    plane: &[f32],
) -> bool
    ensures { result ≡ is_short_with (lent_table layers.now colors.now count)
        (columns ids.now covers.now) plane.now }
{
    queue::is_short(ids, covers)
        | layer_table::is_short(layers, colors, count)
        | (plane.len() < 256)
}

// Refusals 1 to 5, the lowest that applies.
fn judge_call(
    state: RowState,
    tile: i32,
    row: &[u64],
    layers: &[u32],
    colors: &[f32],
    count: usize,
    ids: &[u32],
    covers: &[i8],
    plane: &[f32],
) -> Result<(), Refusal>
    ensures { judgement_in result ≡ call_verdict
        (paint_call (state_in state) tile 0 row.now
        (lent_table layers.now colors.now count)
        (columns ids.now covers.now))
        plane.now }
{
    if is_paint_short(layers, colors, count, ids, covers, plane) {
        return Err(Refusal::Room);
    }
    if row_state::is_wrong_worked(state, tile) {
        return Err(Refusal::Tile);
    }
    if !order::is_row(row, state.tile_y as u64 + 1) {
        return Err(Refusal::Row);
    }
    if !layer_table::is_table(layers, colors, count) {
        return Err(Refusal::Table);
    }
    if !queue::is_queue(ids, state.taken) {
        return Err(Refusal::Queue);
    }
    Ok(())
}

// Refusals 8 and 9 of the painted layer.
fn judge_layer(
    part: &[u64],
    layers: &[u32],
    colors: &[f32],
    count: usize,
    ids: &[u32],
    covers: &[i8],
    n: usize,
    layer: u32,
) -> Result<(), Refusal>
    requires { Table layers.now colors.now count × Queued n ids.now covers.now }
    ensures { judgement_in result ≡ layer_verdict (table_of layers.now colors.now count)
        (queue_of n ids.now covers.now) part.now layer }
{
    match layer_table::find(layers, count, layer) {
        None => Err(Refusal::Missing),
        Some(_) => {
            let own = parts::of_layer(part, layer);
            if carry::is_light(own, queue::incoming(ids, covers, n, layer)) {
                Ok(())
            } else {
                Err(Refusal::Covers)
            }
        }
    }
}

// The lowest refusal that applies to a painting.
fn judge_painting(
    state: RowState,
    tile: i32,
    layer: u32,
    row: &[u64],
    layers: &[u32],
    colors: &[f32],
    count: usize,
    ids: &[u32],
    covers: &[i8],
    plane: &[f32],
) -> Result<(), Refusal>
    ensures { judgement_in result ≡ paint_verdict
        (paint_call (state_in state) tile layer row.now
        (lent_table layers.now colors.now count)
        (columns ids.now covers.now))
        plane.now }
{
    judge_call(state, tile, row, layers, colors, count, ids, covers, plane)?;
    let part = parts::in_tile(row, tile as i16);
    judge_layer(part, layers, colors, count, ids, covers, state.taken, layer)
}

// The record of a layer. Refusal 8 keeps out one that the table lacks.
pub fn record_of(layers: &[u32], colors: &[f32], count: usize, id: u32) -> Layer
    requires { Table layers.now colors.now count }
    ensures { result ≡ layer_in (table_of layers.now colors.now count) id }
{
    match layer_table::find(layers, count, id) {
        Some(p) => layer_table::layer_at(layers, colors, p),
        None => {
            let props = Props {
                fill_rule: FillRule::NonZero,
                func: Func::Clip(0),
            };
            Layer {
                id: id,
                props: props,
                is_unchanged: false,
            }
        }
    }
}

// The state with the clip that painting left, and the mark.
fn answered(state: RowState, painting: Painting) -> Painted
    ensures { result ≡ painted_layer state painting.clip painting.mark }
{
    let clip = painting.clip;
    let after = RowState {
        tile_y: state.tile_y,
        from: state.from,
        to: state.to,
        next: state.next,
        left: state.left,
        taken: state.taken,
        clip: clip,
    };
    Painted {
        state: after,
        answer: Ok(painting.mark),
    }
}

// Paints a layer of the table in the tile just worked: its 256 coverages into the lent plane, its mark, and the state
// with the painter's clip after it.
pub fn paint_layer(
    state: RowState,
    tile: i32,
    layer: u32,
    row: &[u64],
    layers: &[u32],
    colors: &[f32],
    count: usize,
    ids: &[u32],
    covers: &[i8],
    plane: &mut [f32],
) -> Painted
    ensures { PaintsLayer
        (paint_of
        (paint_call (state_in state) tile layer row.now
        (lent_table layers.now colors.now count)
        (columns ids.now covers.now))
        plane.old)
        result
        plane.new }
{
    match judge_painting(
        state, tile, layer, row, layers, colors, count, ids, covers, plane,
    ) {
        Err(refusal) => Painted {
            state: state,
            answer: Err(refusal),
        },
        Ok(()) => {
            let part = parts::in_tile(row, tile as i16);
            let found = record_of(layers, colors, count, layer);
            let clip = state.clip;
            answered(
                state,
                painting::paint(
                    ids,
                    covers,
                    state.taken,
                    part,
                    layers,
                    colors,
                    count,
                    layer,
                    found,
                    clip,
                    plane,
                ),
            )
        }
    }
}
