// The covers of a part of a row added to an incoming cover, in tiles four pixels high: what a tile hands on. Refused by
// 9 where a pixel row's absolute covers exceed 127.
ghost use Rattle.std.specs.Prelude.{◌≡◌, true};
ghost use Rattle.pixel_segment.specs.Field.{gpu};
ghost use Rattle.cover_statements.specs.Carry.{is_light, carry_of};
ghost use Rattle.cover.specs.Adding.{AddingTo};
ghost use Rattle.cover_statements.specs.InnerLoad.{Capped, Magnitudes, loads_of, all_light};

use crate::GpuCover;
use cover::{carry, rows};
use pixel_segment_gpu::GpuSegment;

// What adding answers: the carry, or refusal 9 and the cover as it came. An enum can't hold the array of a cover, so a
// flag tells the two.
#[derive(Clone, Copy)]
pub struct GpuCarried {
    pub accepted: bool,
    pub cover: GpuCover,
}

// The absolute value of each cover.
pub fn magnitudes(covers: [i8; 4]) -> [u16; 4]
    ensures { Magnitudes covers result }
{
    let mut loads = [0u16; 4];
    rows::magnitudes(&covers, &mut loads);
    loads
}

// The absolute covers of each pixel row, in one pass over the segments.
fn add_loads(part: &[u64], incoming: [u16; 4]) -> [u16; 4]
    requires { Capped incoming }
    ensures { result ≡ loads_of gpu 4 incoming part.now }
{
    let mut loads = incoming;
    for word in part {
        let segment = GpuSegment(*word);
        let y = segment.local_y() as usize;
        loads[y] = carry::raised(loads[y], segment.cover());
    }
    loads
}

// Whether no load is above 127.
pub fn are_light(loads: [u16; 4]) -> bool
    ensures { result ≡ all_light loads }
{
    rows::are_light(&loads)
}

// Number 9: whether it applies at no pixel row.
pub fn is_light(part: &[u64], cover: GpuCover) -> bool
    ensures { result ≡ is_light gpu 4 cover.covers part.now }
{
    let covers = cover.covers;
    are_light(add_loads(part, magnitudes(covers)))
}

// The carry of a part that number 9 does not refuse.
pub fn add_segments(part: &[u64], cover: GpuCover) -> GpuCover
    requires { is_light gpu 4 cover.covers part.now ≡ true }
    ensures { result.covers ≡ carry_of gpu 4 cover.covers part.now }
{
    let mut covers = cover.covers;
    for word in part {
        let segment = GpuSegment(*word);
        let y = segment.local_y() as usize;
        covers[y] += segment.cover();
    }
    GpuCover { covers }
}

// The carry of any part, or refusal 9.
pub fn carry(part: &[u64], cover: GpuCover) -> GpuCarried
    ensures { AddingTo gpu 4 cover.covers part.now result.accepted result.cover.covers }
{
    if is_light(part, cover) {
        let sum = add_segments(part, cover);
        GpuCarried {
            accepted: true,
            cover: sum,
        }
    } else {
        GpuCarried {
            accepted: false,
            cover,
        }
    }
}
