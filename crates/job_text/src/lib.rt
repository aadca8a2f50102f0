// The job text of the row program, read as numbers: `job_blocks` reads its three blocks, `job_numbers` judges their
// lines.
#![tactic(auto)]

ghost use Rattle.std.specs.Prelude.{◌≡◌, ◌≤◌, length};
ghost use Rattle.job_text_statements.specs.Parse.{head_of};
ghost use Rattle.job_text_statements.specs.Read.{NumbersRead};

use job_text_statements::{Counts, Head};

pub fn head_of(numbers: &[i32]) -> Head
    requires { 4 ≤ length numbers.now }
    ensures { result ≡ head_of numbers.now }
{
    Head {
        row: numbers[0],
        tiles: numbers[1],
        from: numbers[2],
        to: numbers[3],
    }
}

// Reads a text, and stores the numbers of each block from the front on. Of a text that is no job it stores what it
// reads.
pub fn read_numbers(
    s: &[u8],
    head: &mut [i32],
    layers: &mut [i32],
    segments: &mut [i32],
) -> Option<Counts>
    requires { (4 ≤ length head.old) × (512 ≤ length layers.old) × (3584 ≤ length segments.old) }
    ensures { NumbersRead s.now result head.new layers.new segments.new }
{
    let (n, m) = job_blocks::read_blocks(s, head, layers, segments)?;
    if !job_numbers::layer::are_layers(layers, n) {
        return None;
    }
    if !job_numbers::segment::are_segments(segments, m) {
        return None;
    }
    let count = job_numbers::segment::count_segments(segments, m);
    if 2048 < count {
        return None;
    }
    Some(Counts {
        layers: n,
        lines: m,
        segments: count,
    })
}
