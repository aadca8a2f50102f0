// The judge of a deciding: refusals 1 and 4 to 8, by the lent list, the table and the cached tile.
ghost use Rattle.std.specs.Prelude.{◌≡◌, true, false, cond, ◌&&◌, ◌+◌, ◌≤◌, eqb, ltb, length, get_or, take};
ghost use Rattle.refusals.specs.Refusal.{judgement_in};
ghost use Rattle.styling.specs.Ascending.{strictly_ascends};
ghost use Rattle.layer_table.specs.Table.{Table, table_of};
ghost use Rattle.row_statements.specs.Lent.{lent_table};
ghost use Rattle.listing_statements.specs.Deciding.{are_in_table, lines_for};

use cached_tile::kept::Kept;
use refusals::Refusal;

// Whether the first `n` ids, as many of them as there are, strictly ascend. `low` is the least id that may follow. No
// early exit: a list is in order more often than not.
fn do_ascend(ids: &[u32], n: usize) -> bool
    ensures { result ≡ strictly_ascends (take n ids.now) }
{
    let mut ok = true;
    let mut low: u64 = 0;
    for id in &ids[..n.min(ids.len())] {
        let id = u64::from(*id);
        ok &= low <= id;
        low = id + 1;
    }
    ok
}

// One more than `i` where the next id, number `i` of `n`, is the record's; else `i`.
fn past_met(ids: &[u32], n: usize, i: usize, id: u32) -> usize
    requires { (i ≤ n) × (n ≤ length ids.now) }
    ensures { result ≡ cond (ltb i n && eqb (get_or ids.now i 0) id) (i + 1) i }
{
    if i < n {
        if ids[i] == id {
            return i + 1;
        }
    }
    i
}

// Whether the table has the layers of the first `n` ids, which ascend as its records do: one pass over the records.
fn are_known(ids: &[u32], n: usize, layers: &[u32], colors: &[f32], count: usize) -> bool
    requires { Table layers.now colors.now count × (strictly_ascends (take n ids.now) ≡ true)
        × (n ≤ length ids.now) }
    ensures { result ≡ are_in_table (table_of layers.now colors.now count)
        (take n ids.now) }
{
    let mut i: usize = 0;
    for p in 0..count {
        i = past_met(ids, n, i, layer_table::id_at(layers, p));
    }
    i == n
}

// Refusals 1 and 4 to 8, the lowest that applies. `short` says whether 1 does.
pub fn judge_deciding(
    short: bool,
    ids: &[u32],
    n: usize,
    layers: &[u32],
    colors: &[f32],
    count: usize,
    kept: Kept,
) -> Result<(), Refusal>
    requires { short ≡ false → 256 ≤ length ids.now }
    ensures { judgement_in result ≡ lines_for short ids.now n
        (lent_table layers.now colors.now count) kept }
{
    if short {
        return Err(Refusal::Room);
    }
    if !layer_table::is_table(layers, colors, count) {
        return Err(Refusal::Table);
    }
    if !do_ascend(ids, n) {
        return Err(Refusal::Queue);
    }
    if kept.is_tag_out_of_range() {
        return Err(Refusal::Tag);
    }
    if 256 < n {
        return Err(Refusal::Layers);
    }
    if !are_known(ids, n, layers, colors, count) {
        return Err(Refusal::Missing);
    }
    Ok(())
}
