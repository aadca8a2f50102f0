// Whether a tile may keep its count, as a public operation: judged first, then answered; where it may not, the count's
// tag is dropped. A caller makes it twice before a work, of the shown layers and each time the other way, so that no
// tile is kept with a wrong picture.
#![tactic(auto)]

pub mod judging;
pub mod walking;

ghost use Rattle.std.specs.Prelude.{◌≡◌};
ghost use Rattle.kept_count.specs.Keeping.{lent_members, uncounted, keep_of, KeepsCount};
ghost use Rattle.kept_count.specs.InnerKeeping.{answered_by};

use cached_tile::kept::Kept;
use refusals::Refusal;

// What is answered: why the call is turned down, that the count may stay, or that it was dropped.
#[derive(Clone, Copy)]
pub enum CountAnswer {
    Refused(Refusal),
    Stays,
    Dropped,
}

#[derive(Clone, Copy)]
pub struct CountKept {
    pub kept: Kept,
    pub answer: CountAnswer,
}

fn drop_count(kept: Kept) -> Kept
    ensures { result ≡ uncounted kept }
{
    let tile = kept.tile;
    if kept.given {
        let updated = tile.update_layer_count(None);
        let tile = updated.tile;
        Kept {
            given: true,
            tile: tile,
        }
    } else {
        kept
    }
}

fn keep_or_drop(may: bool, kept: Kept) -> CountKept
    ensures { result ≡ answered_by may kept }
{
    if may {
        CountKept {
            kept: kept,
            answer: CountAnswer::Stays,
        }
    } else {
        let dropped = drop_count(kept);
        CountKept {
            kept: dropped,
            answer: CountAnswer::Dropped,
        }
    }
}

// Whether each of the `last` layers is still among the `n`, as the same kind (0, 1 or 2). For the keep rule: the shown
// layers of the tile's last accepted work and of today, of kind 2 where a layer needs a clip and 0 where not; and then
// the other way.
pub fn keep_count(
    last_ids: &[u32],
    last_kinds: &[u8],
    last: usize,
    ids: &[u32],
    kinds: &[u8],
    n: usize,
    kept: Kept,
) -> CountKept
    ensures { KeepsCount
        (keep_of
        (lent_members last_ids.now last_kinds.now last)
        (lent_members ids.now kinds.now n)
        kept)
        result }
{
    match judging::judge_keeping(last_ids, last_kinds, last, ids, kinds, n, kept) {
        Err(refusal) => CountKept {
            kept: kept,
            answer: CountAnswer::Refused(refusal),
        },
        Ok(()) => keep_or_drop(
            walking::stay(last_ids, last_kinds, last, ids, kinds, n),
            kept,
        ),
    }
}
