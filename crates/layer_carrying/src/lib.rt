// The carries that a tile hands on.
#![tactic(auto)]

ghost use Rattle.std.specs.Prelude.{◌≡◌, ◌*◌, ◌+◌, ◌≤◌, ◌<◌, length};
ghost use Rattle.laws.specs.Lists.{filter};
ghost use Rattle.layer_table.specs.Table.{Table, table_of};
ghost use Rattle.queue_statements.specs.Queue.{queue_of};
ghost use Rattle.layer_carrying.specs.Carrying.{rule_in, is_carried, Hands, Puts, EntryRoom};

use cover::{Cover, entry};
use styling::FillRule;

// The fill rule of a layer.
pub fn rule_of(layers: &[u32], colors: &[f32], count: usize, hint: usize, id: u32) -> FillRule
    requires { Table layers.now colors.now count }
    ensures { result ≡ rule_in (table_of layers.now colors.now count) id }
{
    match layer_table::find_from(layers, count, hint, id) {
        Some(p) => {
            let layer = layer_table::layer_at(layers, colors, p);
            let props = layer.props;
            props.fill_rule
        }
        None => FillRule::NonZero,
    }
}

// A carry written at place m, where it is kept; the place after it.
fn put_carry(
    ids: &mut [u32],
    covers: &mut [i8],
    m: usize,
    id: u32,
    cover: Cover,
    keep: bool,
) -> usize
    requires { (m < length ids.old) × (m * 16 + 16 ≤ length covers.old) }
    ensures { Puts m id cover.covers keep ids.old covers.old result ids.new
        covers.new }
{
    if keep {
        ids[m] = id;
        entry::write_cover(covers, m, cover);
        m + 1
    } else {
        m
    }
}

// Of the first n carries of two columns those that are not empty, one after the other; how many there are.
pub fn hand_on(
    ids: &[u32],
    sums: &[i8],
    n: usize,
    layers: &[u32],
    colors: &[f32],
    count: usize,
    next_ids: &mut [u32],
    next_covers: &mut [i8],
) -> usize
    requires { EntryRoom n ids.now sums.now × Table layers.now colors.now count
        × EntryRoom n next_ids.old next_covers.old }
    ensures { Hands (filter (is_carried (table_of layers.now colors.now count))
        (queue_of n ids.now sums.now)) next_ids.old next_covers.old result
        next_ids.new next_covers.new }
{
    let mut m: usize = 0;
    for i in 0..n {
        let id = ids[i];
        let sum = entry::read_cover(sums, i);
        let keep = !sum.is_empty(rule_of(layers, colors, count, i, id));
        m = put_carry(next_ids, next_covers, m, id, sum, keep);
    }
    m
}
