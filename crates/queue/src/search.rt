// Looking an id up among the first `n` of an ascending column, by halving.
ghost use Rattle.std.specs.Prelude.{◌≡◌, true, ◌≤◌, length, take};
ghost use Rattle.styling.specs.Ascending.{strictly_ascends};
ghost use Rattle.queue_statements.specs.Rank.{rank_of, holds_at};

// How many ids are below `id`: its place, or where it would stand.
pub fn rank(ids: &[u32], n: usize, id: u32) -> usize
    requires { (n ≤ length ids.now) × (strictly_ascends (take n ids.now) ≡ true) }
    ensures { result ≡ rank_of id (take n ids.now) }
{
    let mut low = 0;
    let mut high = n;
    while low < high {
        let middle = low + (high - low) / 2;
        if ids[middle] < id {
            low = middle + 1;
        } else {
            high = middle;
        }
    }
    low
}

// The same place as by `rank`, with any hint where it may be: that place and the next are looked at first, since ids
// mostly come in their order.
pub fn rank_from(ids: &[u32], n: usize, hint: usize, id: u32) -> usize
    requires { (n ≤ length ids.now) × (strictly_ascends (take n ids.now) ≡ true) }
    ensures { result ≡ rank_of id (take n ids.now) }
{
    if hint < n {
        let there = ids[hint];
        if there == id {
            return hint;
        }
        if there < id {
            let next = hint + 1;
            if next == n {
                return next;
            }
            if id <= ids[next] {
                return next;
            }
        }
    }
    rank(ids, n, id)
}

// Whether `id` stands at a place.
pub fn is_at(ids: &[u32], n: usize, place: usize, id: u32) -> bool
    requires { n ≤ length ids.now }
    ensures { result ≡ holds_at id place (take n ids.now) }
{
    place < n && ids[place] == id
}
