// Listing the next tile, without a decision: the layer inspector's call. Its answer is lent as a number, how many
// layers are listed.
ghost use Rattle.std.specs.Prelude.{◌≡◌};
ghost use Rattle.refusals.specs.Refusal.{given_or_refused};
ghost use Rattle.row_statements.specs.Lent.{columns, lent_table};
ghost use Rattle.row_statements.specs.State.{state_in};
ghost use Rattle.listing_statements.specs.Listing.{tile_list, list_call, list_lent, listing_of};
ghost use Rattle.ffi_numbers.specs.Numbers.{refusal_number};
ghost use Rattle.ffi_numbers.specs.Rows.{state_from};
ghost use Rattle.ffi.specs.Listing.{list_numbers, listed_numbers, ListTold};

use ffi_numbers::rows;
use refusals::Refusal;
use row_statements::RowState;

fn put_listed(
    answer: Result<usize, Refusal>,
    state: RowState,
    words: &mut [u32; 6],
    counts: &mut [usize; 2],
    listed: &mut usize,
) -> u32
    ensures value { result ≡ refusal_number (given_or_refused answer) }
    ensures listed_after { list_numbers words.new counts.new listed.new
        ≡ listed_numbers (given_or_refused answer) (state_in state)
        (list_numbers words.old counts.old listed.old) }
{
    match answer {
        Err(refusal) => refusals::number_of(refusal),
        Ok(n) => {
            rows::put_state(state, words, counts);
            *listed = n;
            0
        },
    }
}

// 0, the list, the carries handed on, how many layers are listed and the state past the tile, or the number of the
// refusal. Of the flags, that at place i says whether entry i has segments in the tile, that at place 256 + i whether
// its layer is changed.
#[unsafe(no_mangle)]
pub extern "C" fn ffi_list_tile(
    words: &mut [u32; 6],
    counts: &mut [usize; 2],
    tile: i32,
    row: &[u64],
    layers: &[u32],
    colors: &[f32],
    count: usize,
    ids: &[u32],
    covers: &[i8],
    next_ids: &mut [u32],
    next_covers: &mut [i8],
    list_ids: &mut [u32],
    list_covers: &mut [i8],
    list_flags: &mut [bool],
    listed: &mut usize,
) -> u32
    ensures { ListTold
        (listing_of
        (list_call (state_from words.old counts.old) tile row.now
        (lent_table layers.now colors.now count)
        (columns ids.now covers.now))
        (list_lent (columns next_ids.old next_covers.old)
        (tile_list list_ids.old list_covers.old list_flags.old)))
        (list_numbers words.old counts.old listed.old)
        result
        (list_numbers words.new counts.new listed.new)
        (list_lent (columns next_ids.new next_covers.new)
        (tile_list list_ids.new list_covers.new list_flags.new)) }
{
    let state_words = *words;
    let state_counts = *counts;
    let done = tile_listing::list_tile(
        rows::to_state(state_words, state_counts),
        tile,
        row,
        layers,
        colors,
        count,
        ids,
        covers,
        next_ids,
        next_covers,
        list_ids,
        list_covers,
        list_flags,
    );
    let state = done.state;
    let answer = done.answer;
    put_listed(answer, state, words, counts, listed)
}
