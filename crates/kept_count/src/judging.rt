// The judge of the operation: refusals 1 and 4 to 7, by the two lent lists and the cached tile.
ghost use Rattle.std.specs.Prelude.{◌≡◌, ◌≤◌, length};
ghost use Rattle.refusals.specs.Refusal.{judgement_in};
ghost use Rattle.kept_count.specs.Keeping.{lent_members, are_members_short, judged_count, are_kinds, keep_verdict};

use cached_tile::kept::Kept;
use refusals::Refusal;

// The most layers that a list has.
const LIMIT: usize = 256;

fn is_short(ids: &[u32], kinds: &[u8]) -> bool
    ensures { result ≡ are_members_short ids.now kinds.now }
{
    (ids.len() < LIMIT) | (kinds.len() < LIMIT)
}

fn judged_count(n: usize) -> usize
    ensures { result ≡ judged_count n }
{
    n.min(LIMIT)
}

// Whether the first `n` kinds are in range.
fn are_kinds(kinds: &[u8], n: usize) -> bool
    requires { n ≤ length kinds.now }
    ensures { result ≡ are_kinds kinds.now n }
{
    let mut ok = true;
    for kind in &kinds[..n] {
        ok &= *kind <= 2;
    }
    ok
}

// Refusals 1 and 4 to 7, the lowest that applies.
pub fn judge_keeping(
    last_ids: &[u32],
    last_kinds: &[u8],
    last: usize,
    ids: &[u32],
    kinds: &[u8],
    n: usize,
    kept: Kept,
) -> Result<(), Refusal>
    ensures { judgement_in result ≡ keep_verdict
        (lent_members last_ids.now last_kinds.now last)
        (lent_members ids.now kinds.now n)
        kept }
{
    if is_short(last_ids, last_kinds) | is_short(ids, kinds) {
        return Err(Refusal::Room);
    }
    let old = judged_count(last);
    let new = judged_count(n);
    if !(are_kinds(last_kinds, old) & are_kinds(kinds, new)) {
        return Err(Refusal::Table);
    }
    if !(queue::is_queue(last_ids, old) & queue::is_queue(ids, new)) {
        return Err(Refusal::Queue);
    }
    if kept.is_tag_out_of_range() {
        return Err(Refusal::Tag);
    }
    if (LIMIT < last) | (LIMIT < n) {
        return Err(Refusal::Layers);
    }
    Ok(())
}
