// Deciding about a tile from a lent list. Its answer is lent as numbers: the decision (0 none, 1 solid, 2 paint), of a
// solid tile how many shown layers lie before those to mix, how many layers are skipped; and of a solid tile the bottom
// colour.
ghost use Rattle.std.specs.Prelude.{◌≡◌};
ghost use Rattle.row_statements.specs.Lent.{lent_table};
ghost use Rattle.listing_statements.specs.Listing.{tile_list};
ghost use Rattle.listing_statements.specs.Deciding.{decide_call, deciding_of, decide_answer};
ghost use Rattle.ffi_numbers.specs.Numbers.{refusal_number};
ghost use Rattle.ffi_numbers.specs.Cached.{kept_of};
ghost use Rattle.ffi.specs.Layers.{color_from, previous_of};
ghost use Rattle.ffi.specs.Deciding.{decide_numbers, decided_numbers, DecideTold};

use crate::{layers, working};
use cached_tile::kept::Kept;
use ffi_numbers::cached;
use pass_statements::Index;
use pass_statements::decide::Decision;
use refusals::Refusal;

fn put_decided(
    answer: Result<(Decision, Index), Refusal>,
    after: Kept,
    kept: &mut [u8; 8],
    told: &mut [usize; 3],
    bottom: &mut [f32; 4],
) -> u32
    ensures value { result ≡ refusal_number (decide_answer answer) }
    ensures bottom_after { decide_numbers kept.new told.new bottom.new
        ≡ decided_numbers (decide_answer answer) after
        (decide_numbers kept.old told.old bottom.old) }
{
    match answer {
        Err(refusal) => refusals::number_of(refusal),
        Ok((decision, skipped)) => {
            cached::put_kept(after, kept);
            *told = [
                working::code_of(decision),
                working::before_of(decision),
                skipped.0,
            ];
            working::put_bottom(decision, bottom);
            0
        },
    }
}

// 0, the mask column, the cached tile and the answer, or the number of the refusal. The bytes of the cached tile are
// stored where the call is accepted and a tile is given. Whether a layer is changed is told by the list's flags, from
// place 256 on, and not by the table.
#[unsafe(no_mangle)]
pub extern "C" fn ffi_decide_tile(
    list_ids: &[u32],
    list_covers: &[i8],
    list_flags: &[bool],
    n: usize,
    layers: &[u32],
    colors: &[f32],
    count: usize,
    is_kept: bool,
    kept: &mut [u8; 8],
    clear: &[f32; 4],
    is_previous: bool,
    previous: &[f32; 4],
    unmasked: &mut [bool],
    told: &mut [usize; 3],
    bottom: &mut [f32; 4],
) -> u32
    ensures { DecideTold
        (deciding_of
        (decide_call
        (tile_list list_ids.now list_covers.now list_flags.now) n
        (lent_table layers.now colors.now count)
        (kept_of is_kept kept.old) (color_from clear.now)
        (previous_of is_previous previous.now))
        unmasked.old)
        (decide_numbers kept.old told.old bottom.old)
        result
        (decide_numbers kept.new told.new bottom.new)
        unmasked.new }
{
    let bytes = *kept;
    let clear_numbers = *clear;
    let previous_numbers = *previous;
    let held = Kept {
        given: is_kept,
        tile: cached::to_tile(bytes),
    };
    let decided = tile_deciding::decide_tile(
        list_ids,
        list_covers,
        list_flags,
        n,
        layers,
        colors,
        count,
        held,
        layers::to_color(clear_numbers),
        layers::to_previous(is_previous, previous_numbers),
        unmasked,
    );
    let after = decided.kept;
    let answer = decided.answer;
    put_decided(answer, after, kept, told, bottom)
}
