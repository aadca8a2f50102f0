// One layer of a tile painted, from the queue that the tile took in.
ghost use Rattle.std.specs.Prelude.{◌≡◌, true, ◌≤◌, length};
ghost use Rattle.laws.specs.Answer.{given};
ghost use Rattle.pixel_segment.specs.Field.{cpu};
ghost use Rattle.cover_statements.specs.Carry.{is_light};
ghost use Rattle.pass_statements.specs.Rules.{last_reached};
ghost use Rattle.layer_table.specs.Lookup.{lookup};
ghost use Rattle.layer_table.specs.Table.{table_of};
ghost use Rattle.queue_statements.specs.Queue.{queue_of};
ghost use Rattle.painter.specs.InnerOwn.{PaintsOwn};
ghost use Rattle.painter.specs.Painting.{MarkGiven, is_light_in, Paints};
ghost use Rattle.painter.specs.InnerReady.{Ready};

use crate::{clips, freed};
use cover::Cover;
use segment_rows::parts;
use styling::{Func, Layer};

// What painting gives: the painter's clip after it, and the mark.
#[derive(Clone, Copy)]
pub struct Painting {
    pub clip: Option<u32>,
    pub mark: u32,
}

// The mark of a layer, by the mark of its coverages.
fn mark_for(func: Func, needs: bool, alive: Option<u32>, used: u32) -> u32
    ensures { MarkGiven func needs alive used result }
{
    match func {
        Func::Clip(_) => 0,
        Func::Draw(_) => {
            if clips::lacks_clip(needs, alive) {
                0
            } else {
                used
            }
        }
    }
}

// Paints a layer from its own segments and the cover that comes in for it; `needs` says whether it needs a clip.
pub fn paint_own(
    own: &[u64],
    cover: Cover,
    id: u32,
    layer: Layer,
    needs: bool,
    clip: Option<u32>,
    plane: &mut [f32],
) -> Painting
    requires { (is_light cpu 16 cover.covers own.now ≡ true) × (256 ≤ length plane.old)
        × (last_reached id layer.props.func ≤ 4294967295) }
    ensures { PaintsOwn own.now cover.covers id layer needs clip
        plane.old result plane.new }
{
    let props = layer.props;
    let rule = props.fill_rule;
    let func = props.func;
    let used = plane::paint(own, cover, rule, plane);
    let alive = clips::alive_at(clip, id);
    let after = clips::clip_after(func, id, clip);
    let mark = mark_for(func, needs, alive, used);
    Painting {
        clip: after,
        mark: mark,
    }
}

// Paints the layer `id` of the table, whose record is `layer`: its coverages into the plane, its mark, and the clip
// after it.
pub fn paint(
    ids: &[u32],
    covers: &[i8],
    n: usize,
    part: &[u64],
    layers: &[u32],
    colors: &[f32],
    count: usize,
    id: u32,
    layer: Layer,
    clip: Option<u32>,
    plane: &mut [f32],
) -> Painting
    requires { Ready n ids.now covers.now part.now layers.now colors.now count plane.old
        × (lookup (table_of layers.now colors.now count) id ≡ given layer)
        × (is_light_in (queue_of n ids.now covers.now) part.now id ≡ true) }
    ensures { Paints (table_of layers.now colors.now count)
        (queue_of n ids.now covers.now) part.now id layer clip
        plane.old result plane.new }
{
    let props = layer.props;
    let func = props.func;
    let own = parts::of_layer(part, id);
    let cover = queue::incoming(ids, covers, n, id);
    let needs = freed::needs_clip(ids, covers, n, part, layers, colors, count, func, id);
    paint_own(own, cover, id, layer, needs, clip, plane)
}
