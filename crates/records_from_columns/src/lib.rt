// The columns of a queue as an array of carry records.
#![tactic(auto)]

ghost use Rattle.std.specs.Prelude.{◌≡◌, ◌<◌, get_or};
ghost use Rattle.cover_statements.specs.Entry.{cover_entry};
ghost use Rattle.queue_records.specs.Records.{record_ids, record_covers};

use cover::entry;
use queue_records::CarryRecord;

// Entry `i` of the columns.
fn record_from(ids: &[u32; 256], covers: &[i8; 4096], i: usize) -> CarryRecord
    requires { i < 256 }
    ensures { (result.id ≡ get_or ids.now i 0) × (result.covers ≡ cover_entry 16 i covers.now) }
{
    let cover = entry::read_cover(covers, i);
    let bytes = cover.covers;
    CarryRecord {
        id: ids[i],
        covers: bytes,
    }
}

// The records that have these columns.
pub fn records_of(ids: [u32; 256], covers: [i8; 4096]) -> [CarryRecord; 256]
    ensures { (record_ids result ≡ ids) × (record_covers result ≡ covers) }
{
    let none = CarryRecord {
        id: 0,
        covers: [0; 16],
    };
    let mut queue = [none; 256];
    for (i, carry) in queue.iter_mut().enumerate() {
        *carry = record_from(&ids, &covers, i);
    }
    queue
}
