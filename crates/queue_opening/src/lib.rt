// The opening of a row (`paint_tile_row`, `covers_left_of_row`): one carry for each layer with segments left of the
// first tile.
#![tactic(auto)]

ghost use Rattle.std.specs.Prelude.{◌≡◌, length};
ghost use Rattle.refusals.specs.Refusal.{given_or_refused};
ghost use Rattle.queue_statements.specs.Queue.{LentQueueRoom};
ghost use Rattle.queue_statements.specs.Opening.{Opens};
ghost use Rattle.queue_statements.specs.InnerGather.{written_count, Clear, Gathered};

use opening_columns::{collect, sums};
use refusals::Refusal;

// How many carries an opening writes: none where it is refused.
fn count_of(opening: Result<usize, Refusal>) -> usize
    ensures { result ≡ written_count (given_or_refused opening) }
{
    opening.unwrap_or(0)
}

// The queue in columns of our own. Layers are counted before covers are judged, so that 7 comes before 9.
fn gather(left: &[u64], ids: &mut [u32], covers: &mut [i8]) -> Result<usize, Refusal>
    requires { (length ids.old ≡ 256) × (length covers.old ≡ 4096) × Clear covers.old }
    ensures { Gathered left.now (given_or_refused result) ids.new covers.new }
{
    let count = collect::collect_ids(left, ids);
    if 256 < count {
        return Err(Refusal::Layers);
    }
    if sums::add_segments(left, ids, count, covers) {
        Ok(count)
    } else {
        Err(Refusal::Covers)
    }
}

// The queue that a row opens with, of its segments left of the first tile. A refusal leaves the lent columns as they
// were.
pub fn open_queue(left: &[u64], ids: &mut [u32], covers: &mut [i8]) -> Result<usize, Refusal>
    requires { LentQueueRoom ids.old covers.old }
    ensures { Opens left.now ids.old covers.old (given_or_refused result)
        ids.new covers.new }
{
    let mut own_ids = [0u32; 256];
    let mut own_covers = [0i8; 4096];
    let opening = gather(left, &mut own_ids, &mut own_covers);
    let count = count_of(opening);
    ids[..count].copy_from_slice(&own_ids[..count]);
    covers[..count * 16].copy_from_slice(&own_covers[..count * 16]);
    opening
}
