// Whether each listed layer is changed, as the table says: the second flag of an entry, 256 places behind the first.
ghost use Rattle.std.specs.Prelude.{◌≡◌, ◌+◌, ◌≤◌, length};
ghost use Rattle.layer_table.specs.Table.{Table, table_of};
ghost use Rattle.tile_layers.specs.Listing.{is_changed, over_from};
ghost use Rattle.layer_listing.specs.InnerWriting.{marks_for};

fn is_changed(layers: &[u32], colors: &[f32], count: usize, hint: usize, id: u32) -> bool
    requires { Table layers.now colors.now count }
    ensures { result ≡ is_changed (table_of layers.now colors.now count) id }
{
    match layer_table::find_from(layers, count, hint, id) {
        Some(p) => {
            let layer = layer_table::layer_at(layers, colors, p);
            !layer.is_unchanged
        }
        None => true,
    }
}

// The marks of the first n layers of a list.
pub fn mark_changed(
    ids: &[u32],
    n: usize,
    layers: &[u32],
    colors: &[f32],
    count: usize,
    flags: &mut [bool],
)
    requires { Table layers.now colors.now count × (n ≤ length ids.now) × (256 + n ≤ length flags.old) }
    ensures { flags.new ≡ over_from 256 (marks_for
        (table_of layers.now colors.now count) n ids.now) flags.old }
{
    for i in 0..n {
        flags[256 + i] = is_changed(layers, colors, count, i, ids[i]);
    }
}
