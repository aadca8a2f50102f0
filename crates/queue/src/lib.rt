// The queue of carries (`CoverCarry` and `queue` of the Rust), lent as two columns: layer ids, and 16 signed bytes of
// cover for each.
#![tactic(auto)]

pub mod search;

ghost use Rattle.std.specs.Prelude.{◌≡◌};
ghost use Rattle.queue_statements.specs.Queue.{are_columns_short, is_queue, queue_of, held_in, Queued};

use cover::{Cover, entry};

// The most carries that a queue has.
const LIMIT: usize = 256;

// Refusal 1: whether a lent queue has fewer than 256 entries.
pub fn is_short(ids: &[u32], covers: &[i8]) -> bool
    ensures { result ≡ are_columns_short ids.now covers.now }
{
    (ids.len() < LIMIT) | (covers.len() / 16 < LIMIT)
}

// Whether refusal 5 does not apply to a queue of `n` entries. `low` is the least id that may follow. No early exit: a
// queue is in order more often than not.
pub fn is_queue(ids: &[u32], n: usize) -> bool
    ensures { result ≡ is_queue n ids.now }
{
    if LIMIT < n {
        return false;
    }
    let mut ok = true;
    let mut low: u64 = 0;
    for id in &ids[..n.min(ids.len())] {
        let id = *id as u64;
        ok &= low <= id;
        low = id + 1;
    }
    ok
}

// The cover that a queue of `n` entries holds for a layer, zeros where it holds none.
pub fn incoming(ids: &[u32], covers: &[i8], n: usize, id: u32) -> Cover
    requires { Queued n ids.now covers.now }
    ensures { result.covers ≡ held_in (queue_of n ids.now covers.now) id }
{
    let place = search::rank(ids, n, id);
    if search::is_at(ids, n, place, id) {
        entry::read_cover(covers, place)
    } else {
        Cover { covers: [0i8; 16] }
    }
}
