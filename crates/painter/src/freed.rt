// Whether a draw needs a clip, by the layers of its tile.
ghost use Rattle.std.specs.Prelude.{◌≡◌, false, ◌*◌, ◌≤◌, length};
ghost use Rattle.std.specs.Prelude.{None};
ghost use Rattle.layer_table.specs.Lookup.{lookup};
ghost use Rattle.layer_table.specs.Table.{Table, table_of};
ghost use Rattle.queue_statements.specs.Queue.{queue_of};
ghost use Rattle.tile_layers.specs.Listing.{layers_in};
ghost use Rattle.tile_layers.specs.InnerWalk.{Walks};
ghost use Rattle.pass_statements.specs.Item.{item_for};
ghost use Rattle.pass_statements.specs.Rules.{latest_clip, is_freed, needs_clip};
ghost use Rattle.painter.specs.Painting.{items_in};
ghost use Rattle.painter.specs.InnerFreed.{freed_after, freed_by};

use cover::Cover;
use styling::{Func, Layer};
use tile_layers::walk;

// Whether a draw of layer `id` is freed once the layer `at` is met: a clip below it decides anew, and all else leaves
// it.
fn freed_after(
    layer: Layer,
    at: u32,
    cover: Cover,
    has_segments: bool,
    id: u32,
    freed: bool,
) -> bool
    ensures { result ≡ freed_after (item_for layer (record {
      id = at;
      cover = cover.covers;
      segments =
          has_segments;
      changed = false;
    })) id freed }
{
    let props = layer.props;
    let rule = props.fill_rule;
    let func = props.func;
    match func {
        Func::Draw(_) => freed,
        Func::Clip(span) => {
            if at < id {
                (id as u64 <= at as u64 + span as u64) & (!has_segments & cover.is_full(rule))
            } else {
                freed
            }
        }
    }
}

// The same, where the table has the layer; a layer that it lacks is no clip.
fn freed_by(
    layers: &[u32],
    colors: &[f32],
    count: usize,
    at: u32,
    cover: Cover,
    has_segments: bool,
    id: u32,
    freed: bool,
) -> bool
    requires { Table layers.now colors.now count }
    ensures { result ≡ freed_by (lookup (table_of layers.now colors.now count) at)
        (record { id = at; cover = cover.covers; segments = has_segments; changed = false }) id freed }
{
    match layer_table::find(layers, count, at) {
        Some(p) => {
            let layer = layer_table::layer_at(layers, colors, p);
            freed_after(layer, at, cover, has_segments, id, freed)
        }
        None => freed,
    }
}

// Whether the latest listed clip below a layer frees its draw: the layer lies within its span, and it is full in the
// tile.
pub fn is_freed(
    ids: &[u32],
    covers: &[i8],
    n: usize,
    part: &[u64],
    layers: &[u32],
    colors: &[f32],
    count: usize,
    id: u32,
) -> bool
    requires { Walks n ids.now part.now × (16 * n ≤ length covers.now)
        × Table layers.now colors.now count }
    ensures { result ≡ is_freed (latest_clip (items_in (table_of layers.now colors.now count)
        (layers_in (queue_of n ids.now covers.now) part.now)) id None) id }
{
    let mut freed = false;
    let mut i: usize = 0;
    let mut j: usize = 0;
    while i + j < n + part.len() {
        let next = walk::next_layer(ids, n, part, i, j);
        let end = next.end;
        let cover = walk::incoming_cover(covers, next.carried, i);
        freed = freed_by(layers, colors, count, next.id, cover, j < end, id, freed);
        i = next.i;
        j = end;
    }
    freed
}

// Whether a draw needs a clip. The list is walked for clipped draws alone.
pub fn needs_clip(
    ids: &[u32],
    covers: &[i8],
    n: usize,
    part: &[u64],
    layers: &[u32],
    colors: &[f32],
    count: usize,
    func: Func,
    id: u32,
) -> bool
    requires { Walks n ids.now part.now × (16 * n ≤ length covers.now)
        × Table layers.now colors.now count }
    ensures { result ≡ needs_clip (items_in (table_of layers.now colors.now count)
        (layers_in (queue_of n ids.now covers.now) part.now)) func id }
{
    func.is_clipped() && !is_freed(ids, covers, n, part, layers, colors, count, id)
}
