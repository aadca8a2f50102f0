// Listing the next tile of a row as a public operation: judged first, then done; a refusal leaves everything as it was.
// It is the half of a work that the row and the queue have to do with. The layer inspector calls it by itself.
#![tactic(auto)]

ghost use Rattle.std.specs.Prelude.{◌≡◌, ◌*◌, ◌≤◌, length};
ghost use Rattle.layer_table.specs.Table.{Table, table_of};
ghost use Rattle.queue_statements.specs.Queue.{queue_of};
ghost use Rattle.tile_layers.specs.Listing.{layers_in, Lists};
ghost use Rattle.tile_layers.specs.InnerWalk.{Walks};
ghost use Rattle.layer_carrying.specs.Carrying.{handed_on, HoldsCarries, Hands};
ghost use Rattle.row_statements.specs.Lent.{columns, lent_table};
ghost use Rattle.row_statements.specs.State.{state_in};
ghost use Rattle.listing_statements.specs.Listing.{tile_list, list_call, list_lent, listing_of, ListsTile};
ghost use Rattle.listing_statements.specs.InnerListing.{refused_listing, done_listing, listed_with};
ghost use Rattle.listing_statements.specs.InnerListing.{ListingRooms, ListingJudged};

use listing_statements::TileListed;
use refusals::Refusal;
use row_statements::RowState;
use row_working::judging;
use segment_rows::parts;

fn refuse(state: RowState, refusal: Refusal) -> TileListed
    ensures { result ≡ refused_listing state refusal }
{
    TileListed {
        state: state,
        answer: Err(refusal),
    }
}

// The state after an accepted listing of `n` layers that handed on `left` carries.
fn done(state: RowState, n: usize, left: usize) -> TileListed
    requires { state.next ≤ 4094 }
    ensures { result ≡ done_listing state n left }
{
    let next = RowState {
        tile_y: state.tile_y,
        from: state.from,
        to: state.to,
        next: state.next + 1,
        left: left,
        taken: state.left,
        clip: None,
    };
    TileListed {
        state: next,
        answer: Ok(n),
    }
}

// Writes a tile's list, `listed` being the number of its layers, and hands on the carries that `sums` holds: how many.
fn write_tile(
    ids: &[u32],
    covers: &[i8],
    n: usize,
    part: &[u64],
    listed: usize,
    sums: &[i8; 4096],
    layers: &[u32],
    colors: &[f32],
    count: usize,
    next_ids: &mut [u32],
    next_covers: &mut [i8],
    list_ids: &mut [u32],
    list_covers: &mut [i8],
    list_flags: &mut [bool],
) -> usize
    requires { Walks n ids.now part.now × (16 * n ≤ length covers.now) × Table layers.now colors.now count
        × ListingRooms list_ids.old list_covers.old list_flags.old next_ids.old next_covers.old
        × HoldsCarries (layers_in (queue_of n ids.now covers.now) part.now) sums.now
        × (length (layers_in (queue_of n ids.now covers.now) part.now) ≤ 256)
        × (listed ≡ length (layers_in (queue_of n ids.now covers.now) part.now)) }
    ensures list { Lists (table_of layers.now colors.now count)
        (layers_in (queue_of n ids.now covers.now) part.now)
        list_ids.old list_covers.old list_flags.old list_ids.new
        list_covers.new list_flags.new }
    ensures queue { Hands (handed_on (table_of layers.now colors.now count)
        (layers_in (queue_of n ids.now covers.now) part.now)) next_ids.old
        next_covers.old result next_ids.new next_covers.new }
{
    layer_listing::list_layers(
        ids,
        covers,
        n,
        part,
        listed,
        layers,
        colors,
        count,
        list_ids,
        list_covers,
        list_flags,
    );
    layer_carrying::hand_on(
        list_ids,
        sums,
        listed,
        layers,
        colors,
        count,
        next_ids,
        next_covers,
    )
}

// The listing of a tile that 1 to 5 don't refuse: judged by 7 to 9, and then done.
fn list_judged(
    state: RowState,
    tile: i32,
    row: &[u64],
    layers: &[u32],
    colors: &[f32],
    count: usize,
    ids: &[u32],
    covers: &[i8],
    next_ids: &mut [u32],
    next_covers: &mut [i8],
    list_ids: &mut [u32],
    list_covers: &mut [i8],
    list_flags: &mut [bool],
) -> TileListed
    requires { ListingJudged
        (list_call (state_in state) tile row.now (lent_table layers.now colors.now count)
        (columns ids.now covers.now))
        (list_lent (columns next_ids.old next_covers.old)
        (tile_list list_ids.old list_covers.old list_flags.old)) }
    ensures { ListsTile
        (listed_with
        (list_call (state_in state) tile row.now
        (lent_table layers.now colors.now count)
        (columns ids.now covers.now))
        (list_lent (columns next_ids.old next_covers.old)
        (tile_list list_ids.old list_covers.old list_flags.old)))
        result
        (list_lent (columns next_ids.new next_covers.new)
        (tile_list list_ids.new list_covers.new list_flags.new)) }
{
    let part = parts::in_tile(row, tile as i16);
    let mut sums = [0i8; 4096];
    let judged = judging::judge_list(
        ids, covers, state.left, part, layers, colors, count, &mut sums,
    );
    let verdict = judged.verdict;
    match verdict {
        Err(refusal) => refuse(state, refusal),
        Ok(()) => done(
            state,
            judged.listed,
            write_tile(
                ids,
                covers,
                state.left,
                part,
                judged.listed,
                &sums,
                layers,
                colors,
                count,
                next_ids,
                next_covers,
                list_ids,
                list_covers,
                list_flags,
            ),
        ),
    }
}

// Lists the next tile of a row.
pub fn list_tile(
    state: RowState,
    tile: i32,
    row: &[u64],
    layers: &[u32],
    colors: &[f32],
    count: usize,
    ids: &[u32],
    covers: &[i8],
    next_ids: &mut [u32],
    next_covers: &mut [i8],
    list_ids: &mut [u32],
    list_covers: &mut [i8],
    list_flags: &mut [bool],
) -> TileListed
    ensures { ListsTile
        (listing_of
        (list_call (state_in state) tile row.now
        (lent_table layers.now colors.now count)
        (columns ids.now covers.now))
        (list_lent (columns next_ids.old next_covers.old)
        (tile_list list_ids.old list_covers.old list_flags.old)))
        result
        (list_lent (columns next_ids.new next_covers.new)
        (tile_list list_ids.new list_covers.new list_flags.new)) }
{
    let short = queue::is_short(ids, covers)
        | queue::is_short(next_ids, next_covers)
        | layer_table::is_short(layers, colors, count)
        | judging::are_entries_short(list_ids, list_covers, list_flags);
    match judging::judge_row(short, state, tile, row, layers, colors, count, ids) {
        Err(refusal) => refuse(state, refusal),
        Ok(()) => list_judged(
            state,
            tile,
            row,
            layers,
            colors,
            count,
            ids,
            covers,
            next_ids,
            next_covers,
            list_ids,
            list_covers,
            list_flags,
        ),
    }
}
