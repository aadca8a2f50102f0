// A walk over the incoming queue and a tile's part of the row in step: both ascend by layer id, so each layer of either
// is met once.
ghost use Rattle.std.specs.Prelude.{◌≡◌, true, cond, ◌&&◌, ◌+◌, ◌*◌, ◌≤◌, ◌<◌, ltb, leb, ℤ, List, length, get_or};
ghost use Rattle.pixel_segment.specs.Field.{cpu, layer_id_of};
ghost use Rattle.segment_rows.specs.Rows.{Ordered};
ghost use Rattle.cover_statements.specs.Entry.{cover_entry};
ghost use Rattle.queue_statements.specs.Queue.{zeros};
ghost use Rattle.tile_layers.specs.InnerWalk.{Walks, GroupEnds, Stepped, Moved};

use cover::{Cover, entry};
use pixel_segment::PixelSegment;
use segment_rows::search;

// The next layer: its id, whether it has a carry, and the places after it in the queue and in the part.
#[derive(Clone, Copy)]
pub struct Next {
    pub id: u32,
    pub carried: bool,
    pub i: usize,
    pub end: usize,
}

fn layer_at(part: &[u64], j: usize) -> u32
    requires { j < length part.now }
    ensures { result ≡ layer_id_of cpu (get_or part.now j 0) }
{
    PixelSegment(part[j]).layer_id()
}

// The place after the last segment of the layer whose first segment stands at j.
fn group_end(part: &[u64], j: usize) -> usize
    requires { Ordered (layer_id_of cpu) part.now × (j < length part.now) }
    ensures { GroupEnds part.now j result }
{
    let id = layer_at(part, j);
    let rest = &part[j..];
    match search::search_last_by_layer_id(rest, id) {
        Ok(d) => j + d + 1,
        Err(_) => j + 1,
    }
}

// Whether a carry is left, and is of a layer or of one below it.
fn is_carry_due(ids: &[u32], n: usize, i: usize, layer: u32) -> bool
    requires { n ≤ length ids.now }
    ensures { result ≡ (ltb i n && leb (get_or ids.now i 0) layer) }
{
    if i < n { ids[i] <= layer } else { false }
}

// The end of a group is looked for in one place, so that the whole is short enough to be compiled into the walks.
pub fn next_layer(ids: &[u32], n: usize, part: &[u64], i: usize, j: usize) -> Next
    requires { Walks n ids.now part.now × (i ≤ n) × (j ≤ length part.now) × (i + j < n + length part.now) }
    ensures stepped { (covers : List ℤ) → Stepped n ids.now covers part.now i j result }
    ensures moved { Moved n part.now i j result }
{
    if j == part.len() {
        return Next {
            id: ids[i],
            carried: true,
            i: i + 1,
            end: j,
        };
    }
    let layer = layer_at(part, j);
    let carried = is_carry_due(ids, n, i, layer);
    if carried {
        let id = ids[i];
        if id < layer {
            return Next {
                id: id,
                carried: true,
                i: i + 1,
                end: j,
            };
        }
    }
    Next {
        id: layer,
        carried: carried,
        i: i + carried as usize,
        end: group_end(part, j),
    }
}

// The cover that comes in for a layer: that of the carry at i, or zeros.
pub fn incoming_cover(covers: &[i8], carried: bool, i: usize) -> Cover
    requires { carried ≡ true → i * 16 + 16 ≤ length covers.now }
    ensures { result.covers ≡ cond carried (cover_entry 16 i covers.now) zeros }
{
    if carried {
        entry::read_cover(covers, i)
    } else {
        Cover { covers: [0i8; 16] }
    }
}
