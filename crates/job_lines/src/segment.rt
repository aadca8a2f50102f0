// A line of block 3: a segment, repeated downward.
ghost use Rattle.std.specs.Prelude.{◌≡◌};
ghost use Rattle.job_lines.specs.Rules.{segment_rule};

use crate::range::is_within;
use pixel_segment::PixelSegment;

#[derive(Clone, Copy)]
pub struct SegmentLine {
    pub tile_x: i32,
    pub layer: i32,
    pub x: i32,
    pub y: i32,
    pub rows: i32,
    pub mult: i32,
    pub cover: i32,
}

// Whether packing takes the line's numbers, and no repeat goes below the tile. The row number is no part of the line:
// tile y 0 stands for it.
pub fn is_segment(s: SegmentLine) -> bool
    ensures { result ≡ segment_rule s }
{
    let packed = PixelSegment::pack(
        s.layer as i64,
        s.tile_x as i64,
        0,
        s.x as i64,
        s.y as i64,
        s.mult as i64,
        s.cover as i64,
    );
    match packed {
        Ok(_) => is_within(s.rows, 1, 16 - s.y),
        Err(_) => false,
    }
}
