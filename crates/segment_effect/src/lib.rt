// What one segment changes in a kept set: d of the pixels of its row, from its column rightward, and its row's carry
// and load. Where a segment is let out, the amounts are the opposites.
#![tactic(auto)]

ghost use Rattle.std.specs.Prelude.{◌≡◌, ◌+◌, ◌-◌, ◌≤◌, ◌<◌, pos, ◌+ℤ◌, ◌-ℤ◌, ◌*ℤ◌, length, get_or, set};
ghost use Rattle.pixel_segment.specs.Field.{cpu, local_y_of, cover_of};
ghost use Rattle.cover_statements.specs.Carry.{abs_cover};
ghost use Rattle.cover_statements.specs.Cover.{cover_at};
ghost use Rattle.segment_set_statements.specs.Effect.{wrap, areas_after};
ghost use Rattle.segment_set_statements.specs.Set.{set_changed};
ghost use Rattle.segment_set_statements.specs.InnerSpread.{spread_by};

use cover::Cover;
use pixel_segment::PixelSegment;
use segment_set_statements::SegmentSet;

// The sum of two numbers, brought back into 16 bits.
fn add_area(a: i16, b: i16) -> i16
    ensures { result ≡ wrap 16 (a +ℤ b) }
{
    a.wrapping_add(b)
}

// The same in 8 bits.
fn add_cover(a: i8, b: i8) -> i8
    ensures { result ≡ wrap 8 (a +ℤ b) }
{
    a.wrapping_add(b)
}

// One amount added to d in column x of row y, another right of it.
fn spread(areas: &mut [i16], x: usize, y: usize, own: i16, past: i16)
    requires { (x < 16) × (y < 16) × (256 ≤ length areas.old) }
    ensures { areas.new ≡ spread_by 16 x y own past areas.old }
{
    let mut amount = own;
    for column in x..16 {
        let k = column * 16 + y;
        areas[k] = add_area(areas[k], amount);
        amount = past;
    }
}

// A carry with a cover added in row y.
fn carry_with(carry: Cover, y: usize, cover: i8) -> Cover
    requires { y < 16 }
    ensures { result.covers ≡ set carry.covers y (wrap 8 (cover_at carry.covers y +ℤ cover)) }
{
    let mut covers = carry.covers;
    covers[y] = add_cover(covers[y], cover);
    Cover { covers }
}

// Loads with more in row y.
fn raise(loads: [u16; 16], y: usize, by: u16) -> [u16; 16]
    requires { (y < 16) × (get_or loads y 0 + by ≤ 127) }
    ensures { result ≡ set loads y (get_or loads y 0 + by) }
{
    let mut raised = loads;
    raised[y] += by;
    raised
}

// Loads with less in row y, and no less than 0.
fn lower(loads: [u16; 16], y: usize, by: u16) -> [u16; 16]
    requires { y < 16 }
    ensures { result ≡ set loads y (get_or loads y 0 - by) }
{
    let mut lowered = loads;
    lowered[y] = lowered[y].saturating_sub(by);
    lowered
}

// What a segment adds to d of each pixel right of its own.
fn past_cover(segment: PixelSegment) -> i16
    ensures { result ≡ pos 32 *ℤ cover_of cpu segment.0 }
{
    32 * (segment.cover() as i16)
}

// d with a segment's effect added.
pub fn add_areas(word: u64, areas: &mut [i16])
    requires { 256 ≤ length areas.old }
    ensures { areas.new ≡ areas_after ◌+ℤ◌ cpu 16 word areas.old }
{
    let segment = PixelSegment(word);
    let x = segment.local_x() as usize;
    let y = segment.local_y() as usize;
    spread(areas, x, y, segment.double_area(), past_cover(segment));
}

// d with a segment's effect taken off.
pub fn remove_areas(word: u64, areas: &mut [i16])
    requires { 256 ≤ length areas.old }
    ensures { areas.new ≡ areas_after ◌-ℤ◌ cpu 16 word areas.old }
{
    let segment = PixelSegment(word);
    let x = segment.local_x() as usize;
    let y = segment.local_y() as usize;
    spread(areas, x, y, -segment.double_area(), -past_cover(segment));
}

// A set with a segment's cover and load added, and another count.
pub fn added(mut set: SegmentSet, word: u64, count: usize) -> SegmentSet
    requires { get_or set.loads (local_y_of cpu word) 0 + abs_cover cpu word ≤ 127 }
    ensures { result ≡ set_changed ◌+ℤ◌ ◌+◌ word count set }
{
    let segment = PixelSegment(word);
    let cover = segment.cover();
    let y = segment.local_y() as usize;
    let old_carry = set.carry;
    let old_loads = set.loads;
    let carry = carry_with(old_carry, y, cover);
    let loads = raise(old_loads, y, weight::cover_magnitude(cover));
    set.carry = carry;
    set.loads = loads;
    set.count = count;
    set
}

// A set with a segment's cover and load taken off, and another count.
pub fn removed(mut set: SegmentSet, word: u64, count: usize) -> SegmentSet
    ensures { result ≡ set_changed ◌-ℤ◌ ◌-◌ word count set }
{
    let segment = PixelSegment(word);
    let cover = segment.cover();
    let y = segment.local_y() as usize;
    let old_carry = set.carry;
    let old_loads = set.loads;
    let carry = carry_with(old_carry, y, -cover);
    let loads = lower(old_loads, y, weight::cover_magnitude(cover));
    set.carry = carry;
    set.loads = loads;
    set.count = count;
    set
}
