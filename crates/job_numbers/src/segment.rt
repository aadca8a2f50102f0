// The lines of block 3: segments, each repeated downward.
ghost use Rattle.std.specs.Prelude.{◌≡◌, true, ◌+◌, ◌*◌, ◌≤◌, length};
ghost use Rattle.laws.specs.Integer.{plus};
ghost use Rattle.laws.specs.Lists.{all};
ghost use Rattle.job_lines.specs.Rules.{segment_rule, segment_count};
ghost use Rattle.job_text_statements.specs.Numbers.{segment_at, segments_in};

use job_lines::segment::{SegmentLine, is_segment};

pub fn segment_at(numbers: &[i32], i: usize) -> SegmentLine
    requires { 7 * i + 7 ≤ length numbers.now }
    ensures { result ≡ segment_at numbers.now i }
{
    let at = 7 * i;
    SegmentLine {
        tile_x: numbers[at],
        layer: numbers[at + 1],
        x: numbers[at + 2],
        y: numbers[at + 3],
        rows: numbers[at + 4],
        mult: numbers[at + 5],
        cover: numbers[at + 6],
    }
}

pub fn are_segments(numbers: &[i32], m: usize) -> bool
    requires { 7 * m ≤ length numbers.now }
    ensures { result ≡ all segment_rule (segments_in numbers.now m) }
{
    let mut ok = true;
    for i in 0..m {
        ok &= is_segment(segment_at(numbers, i));
    }
    ok
}

fn repeats(s: SegmentLine) -> usize
    requires { segment_rule s ≡ true }
    ensures { (result ≡ plus s.rows) × (result ≤ 16) }
{
    s.rows as usize
}

// How many segments lines that keep the rules stand for.
pub fn count_segments(numbers: &[i32], m: usize) -> usize
    requires { (7 * m ≤ length numbers.now) × (m ≤ 512) × (all segment_rule (segments_in numbers.now m) ≡ true) }
    ensures { result ≡ segment_count (segments_in numbers.now m) }
{
    let mut count: usize = 0;
    for i in 0..m {
        count += repeats(segment_at(numbers, i));
    }
    count
}
