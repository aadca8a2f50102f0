// The layers of a tile, surveyed for refusals 7, 8 and 9, and written into the columns of a lent list.
#![tactic(auto)]

pub mod marks;

ghost use Rattle.std.specs.Prelude.{◌≡◌, true, cond, ◌*◌, ◌+◌, ◌≤◌, ◌<◌, ltb, length};
ghost use Rattle.laws.specs.Answer.{is_given};
ghost use Rattle.cover_statements.specs.Entry.{put_entry};
ghost use Rattle.layer_table.specs.Lookup.{lookup};
ghost use Rattle.layer_table.specs.Table.{Table, table_of};
ghost use Rattle.queue_statements.specs.Queue.{queue_of};
ghost use Rattle.tile_layers.specs.Listing.{layers_in, Lists, ListRoom};
ghost use Rattle.tile_layers.specs.InnerWalk.{Walks};
ghost use Rattle.layer_listing.specs.Survey.{Surveyed};
ghost use Rattle.layer_listing.specs.InnerWriting.{Writes};

use cover::{Cover, carry, entry};
use tile_layers::walk;

// How many layers a tile has, and whether each is in the table and none's covers grow too large.
#[derive(Clone, Copy)]
pub struct Survey {
    pub count: usize,
    pub known: bool,
    pub light: bool,
}

fn is_known(layers: &[u32], colors: &[f32], count: usize, hint: usize, id: u32) -> bool
    requires { Table layers.now colors.now count }
    ensures { result ≡ is_given (lookup (table_of layers.now colors.now count) id) }
{
    layer_table::find_from(layers, count, hint, id).is_some()
}

// A carry kept at a place of a column that has 256.
fn keep_carry(sums: &mut [i8], place: usize, sum: Cover)
    requires { 4096 ≤ length sums.old }
    ensures { sums.new
        ≡ cond (ltb place 256) (put_entry 16 place sum.covers sums.old) sums.old }
{
    if place < 256 {
        entry::write_cover(sums, place, sum);
    }
}

// The layers of a tile, counted and judged in one walk. Their carries, which judging adds up, are kept for handing on.
pub fn survey_layers(
    ids: &[u32],
    covers: &[i8],
    n: usize,
    part: &[u64],
    layers: &[u32],
    colors: &[f32],
    count: usize,
    sums: &mut [i8],
) -> Survey
    requires { Walks n ids.now part.now × (16 * n ≤ length covers.now) × Table layers.now colors.now count
        × (4096 ≤ length sums.old) }
    ensures { Surveyed (table_of layers.now colors.now count)
        (layers_in (queue_of n ids.now covers.now) part.now) result sums.new }
{
    let mut total: usize = 0;
    let mut known = true;
    let mut light = true;
    let mut i: usize = 0;
    let mut j: usize = 0;
    while i + j < n + part.len() {
        let next = walk::next_layer(ids, n, part, i, j);
        let end = next.end;
        let cover = walk::incoming_cover(covers, next.carried, i);
        known &= is_known(layers, colors, count, total, next.id);
        let carried = carry::carry(&part[j..end], cover);
        let sum = carried.cover;
        light &= carried.accepted;
        keep_carry(sums, total, sum);
        i = next.i;
        j = end;
        total += 1;
    }
    Survey {
        count: total,
        known: known,
        light: light,
    }
}

// The list of a tile's layers without marks, at the front of three lent columns.
fn write_layers(
    ids: &[u32],
    covers: &[i8],
    n: usize,
    part: &[u64],
    list_ids: &mut [u32],
    list_covers: &mut [i8],
    list_flags: &mut [bool],
)
    requires { Walks n ids.now part.now × (16 * n ≤ length covers.now)
        × ListRoom (layers_in (queue_of n ids.now covers.now) part.now) list_ids.old list_covers.old
        list_flags.old }
    ensures { Writes (layers_in (queue_of n ids.now covers.now) part.now)
        list_ids.old list_covers.old list_flags.old list_ids.new
        list_covers.new list_flags.new }
{
    let mut k: usize = 0;
    let mut i: usize = 0;
    let mut j: usize = 0;
    while i + j < n + part.len() {
        let next = walk::next_layer(ids, n, part, i, j);
        let end = next.end;
        list_ids[k] = next.id;
        entry::write_cover(
            list_covers,
            k,
            walk::incoming_cover(covers, next.carried, i),
        );
        list_flags[k] = j < end;
        i = next.i;
        j = end;
        k += 1;
    }
}

// The list of a tile's layers, `listed` being their number: ids and incoming covers, whether each has segments, and,
// from place 256 on, whether each is changed.
pub fn list_layers(
    ids: &[u32],
    covers: &[i8],
    n: usize,
    part: &[u64],
    listed: usize,
    layers: &[u32],
    colors: &[f32],
    count: usize,
    list_ids: &mut [u32],
    list_covers: &mut [i8],
    list_flags: &mut [bool],
)
    requires { Walks n ids.now part.now × (16 * n ≤ length covers.now) × Table layers.now colors.now count
        × ListRoom (layers_in (queue_of n ids.now covers.now) part.now) list_ids.old list_covers.old
        list_flags.old × (listed ≡ length (layers_in (queue_of n ids.now covers.now) part.now)) }
    ensures { Lists (table_of layers.now colors.now count)
        (layers_in (queue_of n ids.now covers.now) part.now)
        list_ids.old list_covers.old list_flags.old list_ids.new
        list_covers.new list_flags.new }
{
    write_layers(ids, covers, n, part, list_ids, list_covers, list_flags);
    marks::mark_changed(list_ids, listed, layers, colors, count, list_flags);
}
