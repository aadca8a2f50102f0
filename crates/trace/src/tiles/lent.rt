// The memory that the operations of a row are lent, by value: the trace's functions hand it to each other as it is.
// Functions that read of it take the arrays themselves, whose lengths are known.
use crate::text::lists;
use crate::text::lists::Record;
use cover::Cover;

// How many flags a list lends: whether an entry has segments, at its place, and whether its layer is changed, 256 on.
pub const LIST_FLAGS: usize = 512;

// A layer table and how many records it has.
#[derive(Clone, Copy)]
pub struct Table {
    pub layers: [u32; 512],
    pub colors: [f32; 256],
    pub count: usize,
}

// The two columns of a queue.
#[derive(Clone, Copy)]
pub struct Queue {
    pub ids: [u32; 256],
    pub covers: [i8; 4096],
}

// The four columns of a list.
#[derive(Clone, Copy)]
pub struct List {
    pub ids: [u32; 256],
    pub covers: [i8; 4096],
    pub flags: [bool; LIST_FLAGS],
    pub unmasked: [bool; 256],
}

pub fn id_in(ids: &[u32; 256], i: usize) -> u32 {
    crate::text::id_at(ids, i)
}

pub fn is_unmasked(unmasked: &[bool; 256], i: usize) -> bool {
    crate::text::flag_at(unmasked, i)
}

pub fn has_segments(flags: &[bool; LIST_FLAGS], i: usize) -> bool {
    crate::text::flag_at(flags, i)
}

pub fn is_changed(flags: &[bool; LIST_FLAGS], i: usize) -> bool {
    if i < 256 {
        crate::text::flag_at(flags, 256 + i)
    } else {
        false
    }
}

pub fn cover_in(covers: &[i8; 4096], i: usize) -> Cover {
    lists::entry_cover(covers, i)
}

pub fn record_in(layers: &[u32; 512], count: usize, id: u32) -> Record {
    lists::record_of(layers, count, id)
}
