// The row of a job: the packed words of each line of block 3, repeated downward.
#![tactic(auto)]

ghost use Rattle.std.specs.Prelude.{◌≡◌, true, ◌+◌, ◌*◌, ◌≤◌, length};
ghost use Rattle.laws.specs.Integer.{plus};
ghost use Rattle.laws.specs.Lists.{over, all};
ghost use Rattle.job_lines.specs.Rules.{segment_rule, segment_count};
ghost use Rattle.job_text_statements.specs.Numbers.{segments_in};
ghost use Rattle.job_statements.specs.Row.{is_tile_y, row_tile, row_words};
ghost use Rattle.job_statements.specs.Entries.{fields_of, packed, is_packable_at, SegmentWritten};

use job_lines::segment::SegmentLine;
use job_statements::row::Fields;
use pixel_segment::PixelSegment;

fn to_fields(s: SegmentLine) -> Fields
    requires { segment_rule s ≡ true }
    ensures { result ≡ fields_of s }
{
    Fields {
        tile_x: s.tile_x as i16,
        layer: s.layer as u32,
        x: s.x as u8,
        y: s.y as u8,
        rows: s.rows as u8,
        mult: s.mult as u8,
        cover: s.cover as i8,
    }
}

// The tile y of the row's words: the row number where packing takes it, else -1.
fn to_tile_y(row: i32) -> i16
    ensures { result ≡ row_tile row }
{
    match PixelSegment::pack(0, 0, row as i64, 0, 0, 0, 0) {
        Ok(segment) => segment.tile_y(),
        Err(_) => -1,
    }
}

// The word of a line, i pixel rows down.
fn pack(f: Fields, tile_y: i16, i: u8) -> u64
    requires { is_packable_at f tile_y i ≡ true }
    ensures { result ≡ packed f tile_y i }
{
    match PixelSegment::new(f.layer, f.tile_x, tile_y, f.x, f.y + i, f.mult, f.cover) {
        Ok(segment) => segment.0,
        Err(_) => 0,
    }
}

// Writes the words of a line from place `at` on, and answers the place after them.
fn write_segment(s: SegmentLine, tile_y: i16, row: &mut [u64], at: usize) -> usize
    requires { (segment_rule s ≡ true) × (is_tile_y tile_y ≡ true) × (at + plus s.rows ≤ length row.old) }
    ensures { SegmentWritten tile_y s row.old at result row.new }
{
    let f = to_fields(s);
    for i in 0..f.rows {
        row[at + i as usize] = pack(f, tile_y, i);
    }
    at + f.rows as usize
}

pub fn write_row(numbers: &[i32], m: usize, number: i32, row: &mut [u64])
    requires { (7 * m ≤ length numbers.now) × (all segment_rule (segments_in numbers.now m) ≡ true)
        × (segment_count (segments_in numbers.now m) ≤ length row.old) }
    ensures { row.new ≡ over (row_words number (segments_in numbers.now m))
        row.old }
{
    let tile_y = to_tile_y(number);
    let mut at: usize = 0;
    for i in 0..m {
        at = write_segment(
            job_numbers::segment::segment_at(numbers, i),
            tile_y,
            row,
            at,
        );
    }
}
