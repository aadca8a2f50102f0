// A queue that is lent as a slice of carry records, read into the columns that the rest of the painter works on.
#![tactic(auto)]

ghost use Rattle.std.specs.Prelude.{◌≡◌, ◌+◌, ◌*◌, ◌<◌, ◌≤◌, min, pos, length, get_or, set, take, replicate};
ghost use Rattle.laws.specs.Lists.{over};
ghost use Rattle.cover_statements.specs.Entry.{put_entry};
ghost use Rattle.queue_records.specs.Records.{no_record, record_ids, record_covers, readable, columns_of};

use cover::{Cover, entry};

#[derive(Clone, Copy)]
pub struct CarryRecord {
    pub id: u32,
    pub covers: [i8; 16],
}

// The columns of a queue's records, as many as count, and of how many records the lent slice has room, 256 at most.
#[derive(Clone, Copy)]
pub struct Columns {
    pub entries: usize,
    pub ids: [u32; 256],
    pub covers: [i8; 4096],
}

pub fn lesser(a: usize, b: usize) -> usize
    ensures { result ≡ min a b }
{
    a.min(b)
}

// How many records are counted, there, and have room in the columns.
fn count_readable(count: usize, queue: usize, ids: usize, covers: usize) -> usize
    ensures { result ≡ readable count queue ids covers }
{
    count.min(queue).min(ids.min(covers / 16))
}

// A record becomes entry `i` of the columns.
fn put_record(carry: CarryRecord, i: usize, ids: &mut [u32], covers: &mut [i8])
    requires { (i < length ids.old) × (i * 16 + 16 ≤ length covers.old) }
    ensures { (ids.new ≡ set ids.old i carry.id)
        × (covers.new ≡ put_entry 16 i carry.covers covers.old) }
{
    ids[i] = carry.id;
    let bytes = carry.covers;
    let cover = Cover { covers: bytes };
    entry::write_cover(covers, i, cover);
}

// One record of a lent queue, by value.
pub fn record_at(queue: &[CarryRecord], i: usize) -> CarryRecord
    requires { i < length queue.now }
    ensures { result ≡ get_or queue.now i no_record }
{
    queue[i]
}

// The first `count` records over the front of the columns, as many as are there and have room.
pub fn read_queue(queue: &[CarryRecord], count: usize, ids: &mut [u32], covers: &mut [i8]) -> usize
    ensures { (result ≡ readable count (length queue.now) (length ids.old)
        (length covers.old))
        × (ids.new ≡ over (record_ids (take result queue.now)) ids.old)
        × (covers.new ≡ over (record_covers (take result queue.now)) covers.old) }
{
    let n = count_readable(count, queue.len(), ids.len(), covers.len());
    for i in 0..n {
        put_record(record_at(queue, i), i, ids, covers);
    }
    n
}

// Columns with nothing in them.
fn no_ids() -> [u32; 256]
    ensures { result ≡ replicate 256 0 }
{
    [0; 256]
}

fn no_covers() -> [i8; 4096]
    ensures { result ≡ replicate 4096 (pos 0) }
{
    [0; 4096]
}

fn columns_with(records: usize, ids: [u32; 256], covers: [i8; 4096]) -> Columns
    ensures { result ≡ record { entries = min records 256; ids = ids; covers = covers } }
{
    let entries = records.min(256);
    Columns {
        entries: entries,
        ids: ids,
        covers: covers,
    }
}

// The first `count` records in columns of their own.
pub fn read_columns(queue: &[CarryRecord], count: usize) -> Columns
    ensures { result ≡ columns_of queue.now count }
{
    let mut ids = no_ids();
    let mut covers = no_covers();
    read_queue(queue, count, &mut ids, &mut covers);
    columns_with(queue.len(), ids, covers)
}
