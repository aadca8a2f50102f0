// What the passes read of a listed layer: its entry and its record in one value. A list is lent as three columns, the
// first n entries of which count: layer ids, incoming covers (16 bytes an entry), and flags. That at place i says
// whether entry i has segments in the tile, that at place 256 + i whether its layer is changed.
ghost use Rattle.std.specs.Prelude.{◌≡◌, ◌<◌};
ghost use Rattle.layer_table.specs.Table.{Table, table_of};
ghost use Rattle.pass_statements.specs.Entry.{entry_at};
ghost use Rattle.pass_statements.specs.Item.{item_for, item_of, EntryColumns};

use cover::{Cover, entry};
use pass_statements::Index;
use pass_statements::item::Item;
use styling::{Func, Layer};

// Whether the layer is unchanged is told by its entry, never by the record.
fn item_for(layer: Layer, id: u32, cover: Cover, has_segments: bool, changed: bool) -> Item
    ensures { result ≡ item_for layer (record {
      id = id;
      cover = cover.covers;
      segments = has_segments;
      changed = changed;
    }) }
{
    let props = layer.props;
    let fill_rule = props.fill_rule;
    let func = props.func;
    Item {
        id: id,
        full: !has_segments & cover.is_full(fill_rule),
        func: func,
        unchanged: !changed,
    }
}

// The listed layer in place i. A layer that the table lacks, which no caller lists, is a clip of nothing.
pub fn item_at(
    ids: &[u32],
    covers: &[i8],
    flags: &[bool],
    n: usize,
    layers: &[u32],
    colors: &[f32],
    count: usize,
    i: Index,
) -> Item
    requires { EntryColumns n ids.now covers.now flags.now × Table layers.now colors.now count
        × (i.0 < n) }
    ensures { result ≡ item_of (table_of layers.now colors.now count)
        (entry_at ids.now covers.now flags.now i.0) }
{
    let at = i.0;
    let id = ids[at];
    let changed = flags[256 + at];
    match layer_table::find_from(layers, count, at, id) {
        Some(p) => {
            let layer = layer_table::layer_at(layers, colors, p);
            item_for(layer, id, entry::read_cover(covers, at), flags[at], changed)
        }
        None => Item {
            id: id,
            full: false,
            func: Func::Clip(0),
            unchanged: !changed,
        },
    }
}
