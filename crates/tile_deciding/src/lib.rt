// Deciding about a tile from a lent list as a public operation: judged first, then done; a refusal leaves everything as
// it was. It goes by what the list says: there is no state, no row and no queue.
#![tactic(auto)]

pub mod judging;

ghost use Rattle.std.specs.Prelude.{◌≡◌};
ghost use Rattle.row_statements.specs.Lent.{lent_table};
ghost use Rattle.listing_statements.specs.Listing.{tile_list};
ghost use Rattle.listing_statements.specs.Deciding.{decide_call, deciding_of, DecidesTile};
ghost use Rattle.listing_statements.specs.InnerDeciding.{refused_deciding, done_deciding};

use cached_tile::kept::Kept;
use layer_workbench::DecidedTile;
use listing_statements::TileDecided;
use refusals::Refusal;
use styling::Color;

fn refuse(kept: Kept, refusal: Refusal) -> TileDecided
    ensures { result ≡ refused_deciding kept refusal }
{
    TileDecided {
        kept: kept,
        answer: Err(refusal),
    }
}

fn done(decided: DecidedTile) -> TileDecided
    ensures { result ≡ done_deciding decided }
{
    let kept = decided.kept;
    let decision = decided.decision;
    let skipped = decided.skipped;
    TileDecided {
        kept: kept,
        answer: Ok((decision, skipped)),
    }
}

// Decides about a tile from the first `n` entries of a lent list.
pub fn decide_tile(
    list_ids: &[u32],
    list_covers: &[i8],
    list_flags: &[bool],
    n: usize,
    layers: &[u32],
    colors: &[f32],
    count: usize,
    kept: Kept,
    clear: Color,
    previous: Option<Color>,
    unmasked: &mut [bool],
) -> TileDecided
    ensures { DecidesTile
        (deciding_of
        (decide_call
        (tile_list list_ids.now list_covers.now list_flags.now) n
        (lent_table layers.now colors.now count) kept clear previous)
        unmasked.old)
        result
        unmasked.new }
{
    let short = row_working::judging::is_list_short(list_ids, list_covers, list_flags, unmasked)
        | layer_table::is_short(layers, colors, count);
    match judging::judge_deciding(short, list_ids, n, layers, colors, count, kept) {
        Err(refusal) => refuse(kept, refusal),
        Ok(()) => done(layer_workbench::decide_tile(
            list_ids,
            list_covers,
            list_flags,
            n,
            layers,
            colors,
            count,
            kept,
            clear,
            previous,
            unmasked,
        )),
    }
}
