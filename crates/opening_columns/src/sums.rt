// The covers of an opening, once its layers are known: sums and loads (absolute covers), 16 numbers a layer.
ghost use Rattle.std.specs.Prelude.{◌≡◌, true, ◌+◌, ◌≤◌, nat_abs, length, take};
ghost use Rattle.styling.specs.Ascending.{strictly_ascends};
ghost use Rattle.queue_statements.specs.InnerSums.{key_in, Placing, Placed, Summing, OpeningSummed};

use pixel_segment::PixelSegment;
use queue::search;

// The place of a segment's sum: its layer's entry, looked for at a hint, and its pixel row.
fn place_of(word: u64, ids: &[u32], n: usize, hint: usize) -> usize
    requires { (n ≤ 256) × (n ≤ length ids.now) × (strictly_ascends (take n ids.now) ≡ true) }
    ensures { result ≡ key_in (take n ids.now) word }
{
    let segment = PixelSegment(word);
    search::rank_from(ids, n, hint, segment.layer_id()) * 16 + segment.local_y() as usize
}

// A load with one cover more.
fn load_with(load: u8, cover: i8) -> u16
    ensures { result ≡ load + nat_abs cover }
{
    load as u16 + weight::cover_magnitude(cover)
}

// A segment's cover and load added at their place; neither, where the load would exceed 127.
fn add_segment(word: u64, place: usize, sums: &mut [i8], loads: &mut [u8]) -> bool
    requires { Placing place sums.old loads.old }
    ensures { Placed place word sums.old loads.old result sums.new
        loads.new }
{
    let cover = PixelSegment(word).cover();
    let load = load_with(loads[place], cover);
    if 127 < load {
        return false;
    }
    loads[place] = load as u8;
    sums[place] += cover;
    true
}

// The covers of all segments added; false where number 9 applies to a layer.
pub fn add_segments(left: &[u64], ids: &[u32], n: usize, sums: &mut [i8]) -> bool
    requires { Summing left.now n ids.now sums.old }
    ensures { OpeningSummed left.now n result sums.new }
{
    let mut loads = [0u8; 4096];
    let mut hint = 0;
    for word in left {
        let place = place_of(*word, ids, n, hint);
        if !add_segment(*word, place, sums, &mut loads) {
            return false;
        }
        hint = place / 16;
    }
    true
}
