// The first pass, `tile_unchanged_pass`; and what all passes read of a listed layer.
#![tactic(auto)]

pub mod item;

ghost use Rattle.std.specs.Prelude.{◌≡◌, ◌≤◌};
ghost use Rattle.laws.specs.Lists.{all};
ghost use Rattle.layer_table.specs.Table.{Table, table_of};
ghost use Rattle.pass_statements.specs.Entry.{entries_of};
ghost use Rattle.pass_statements.specs.Item.{items_of, EntryColumns};
ghost use Rattle.pass_statements.specs.Unchanged.{all_unchanged, is_kept, were_removed};

use pass_statements::Index;

// Whether every listed layer is unchanged.
pub fn are_unchanged(
    ids: &[u32],
    covers: &[i8],
    flags: &[bool],
    n: usize,
    layers: &[u32],
    colors: &[f32],
    count: usize,
) -> bool
    requires { EntryColumns n ids.now covers.now flags.now × Table layers.now colors.now count }
    ensures { result ≡ all_unchanged (items_of (table_of layers.now colors.now count)
        (entries_of n ids.now covers.now flags.now)) }
{
    let mut ok = true;
    for i in 0..n {
        let x = item::item_at(ids, covers, flags, n, layers, colors, count, Index(i));
        ok &= x.unchanged;
    }
    ok
}

// Whether the tile is kept as it is.
pub fn is_kept(
    clear_unchanged: bool,
    previous: Option<u32>,
    ids: &[u32],
    covers: &[i8],
    flags: &[bool],
    n: usize,
    layers: &[u32],
    colors: &[f32],
    count: usize,
) -> bool
    requires { EntryColumns n ids.now covers.now flags.now × Table layers.now colors.now count }
    ensures { result ≡ is_kept clear_unchanged previous (items_of
        (table_of layers.now colors.now count)
        (entries_of n ids.now covers.now flags.now)) }
{
    match previous {
        None => false,
        Some(k) => {
            let kept = k as usize;
            if clear_unchanged & (kept == n) {
                are_unchanged(ids, covers, flags, n, layers, colors, count)
            } else {
                false
            }
        }
    }
}

// Whether a layer may have been removed since the last accepted work on the tile.
pub fn were_removed(previous: Option<u32>, n: usize) -> bool
    ensures { result ≡ were_removed previous n }
{
    match previous {
        None => true,
        Some(k) => n < k as usize,
    }
}
