// A segment of a load: its slot, and its line by four draws.
ghost use Rattle.std.specs.Prelude.{◌≡◌, ◌≤◌, ◌<◌};
ghost use Rattle.job_text_statements.specs.Job.{segment_values};
ghost use Rattle.load_statements.specs.Draw.{state_after};
ghost use Rattle.load_statements.specs.Load.{slot_of, segment_from};

use crate::draw::Generator;

// A segment's line, and the generator after its draws.
#[derive(Clone, Copy)]
pub struct SegmentDrawn {
    pub line: [i32; 7],
    pub generator: Generator,
}

pub fn slot_of(tiles: u32, count: u32, k: u32) -> u32
    requires { (tiles ≤ 4095) × (count ≤ 512) × (k < count) }
    ensures { result ≡ slot_of tiles count k }
{
    k * 8 * tiles / count
}

// The line of a slot, by the four next draws.
pub fn draw_segment(generator: Generator, slot: u32) -> SegmentDrawn
    requires { slot < 32760 }
    ensures { (result.line ≡ segment_values (segment_from generator.state slot))
        × (result.generator.state ≡ state_after generator.state 4) }
{
    let first = generator.draw();
    let second = first.generator.draw();
    let third = second.generator.draw();
    let fourth = third.generator.draw();
    let tile = (slot / 8) as i32;
    let layer = (slot % 8) as i32;
    let x = (first.value % 16) as i32;
    let y = (second.value % 16) as i32;
    let mult = (third.value % 33) as i32;
    let cover = (fourth.value % 33) as i32 - 16;
    let after = fourth.generator;
    SegmentDrawn {
        line: [tile, layer, x, y, 1, mult, cover],
        generator: after,
    }
}
