// Whether whoever was listed is listed still. Both lists ascend, so one pass over today's meets the layers of the other
// in their order, each at most once.
ghost use Rattle.std.specs.Prelude.{◌≡◌, ◌≤◌, length};
ghost use Rattle.kept_frames.specs.Stays.{stays};
ghost use Rattle.kept_count.specs.Keeping.{members_of};
ghost use Rattle.kept_count.specs.InnerKeeping.{met_by, MembersLent};

// How many are met, once a layer of today's list is looked at.
fn meet(ids: &[u32], kinds: &[u8], n: usize, met: usize, id: u32, kind: u8) -> usize
    requires { (n ≤ 256) × (n ≤ length ids.now) × (n ≤ length kinds.now) }
    ensures { result ≡ met_by (members_of ids.now kinds.now n) met
        (record { id = id; kind = kind }) }
{
    if met < n {
        if (ids[met] == id) & (kinds[met] == kind) {
            return met + 1;
        }
    }
    met
}

pub fn stay(
    last_ids: &[u32],
    last_kinds: &[u8],
    last: usize,
    ids: &[u32],
    kinds: &[u8],
    n: usize,
) -> bool
    requires { MembersLent last_ids.now last_kinds.now last × MembersLent ids.now kinds.now n }
    ensures { result ≡ stays
        (members_of last_ids.now last_kinds.now last)
        (members_of ids.now kinds.now n) }
{
    let mut met: usize = 0;
    for i in 0..n {
        met = meet(last_ids, last_kinds, last, met, ids[i], kinds[i]);
    }
    met == last
}
