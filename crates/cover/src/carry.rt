// The covers of a part of a row added to an incoming cover: what a tile hands on. Refused by 9 where a pixel row's
// absolute covers exceed 127.
ghost use Rattle.std.specs.Prelude.{◌≡◌, true, ◌+◌, ◌≤◌, min, nat_abs};
ghost use Rattle.pixel_segment.specs.Field.{cpu};
ghost use Rattle.cover_statements.specs.Carry.{is_light};
ghost use Rattle.cover.specs.Adding.{Adding};
ghost use Rattle.cover_statements.specs.InnerLoad.{Capped, Magnitudes, loads_of, all_light};

use crate::{Cover, rows};
use pixel_segment::PixelSegment;

// What adding answers: the carry, or refusal 9 and the cover as it came. An enum can't hold the array of a cover, so a
// flag tells the two.
#[derive(Clone, Copy)]
pub struct Carried {
    pub accepted: bool,
    pub cover: Cover,
}

// The absolute value of each cover.
pub fn magnitudes(covers: [i8; 16]) -> [u16; 16]
    ensures { Magnitudes covers result }
{
    let mut loads = [0u16; 16];
    rows::magnitudes(&covers, &mut loads);
    loads
}

// A load with one cover more; 128 stands for all that is above 127, so no load outgrows its type.
pub fn raised(load: u16, cover: i8) -> u16
    requires { load ≤ 128 }
    ensures { result ≡ min (load + nat_abs cover) 128 }
{
    (load + weight::cover_magnitude(cover)).min(128)
}

// The absolute covers of each pixel row, in one pass over the segments.
fn add_loads(part: &[u64], incoming: [u16; 16]) -> [u16; 16]
    requires { Capped incoming }
    ensures { result ≡ loads_of cpu 16 incoming part.now }
{
    let mut loads = incoming;
    for word in part {
        let segment = PixelSegment(*word);
        let y = segment.local_y() as usize;
        let load = raised(loads[y], segment.cover());
        loads[y] = load;
    }
    loads
}

// Whether no load is above 127.
pub fn are_light(loads: [u16; 16]) -> bool
    ensures { result ≡ all_light loads }
{
    rows::are_light(&loads)
}

// Number 9: whether it applies at no pixel row.
pub fn is_light(part: &[u64], cover: Cover) -> bool
    ensures { result ≡ is_light cpu 16 cover.covers part.now }
{
    let covers = cover.covers;
    are_light(add_loads(part, magnitudes(covers)))
}

// The covers of a part added to those that come in, as long as the absolute covers of each pixel row stay within 127;
// refused where they do not. `incoming` has the absolute values of those that come in. A load bounds the sum of its
// row, so one pass does both.
fn sum_judged(part: &[u64], incoming: [u16; 16], cover: Cover) -> Carried
    requires { Magnitudes cover.covers incoming × (all_light incoming ≡ true) }
    ensures { Adding cpu 16 cover.covers part.now result }
{
    let mut loads = incoming;
    let mut covers = cover.covers;
    for word in part {
        let segment = PixelSegment(*word);
        let y = segment.local_y() as usize;
        let own = segment.cover();
        let before = loads[y];
        let load = before + weight::cover_magnitude(own);
        if 127 < load {
            return Carried {
                accepted: false,
                cover,
            };
        }
        loads[y] = load;
        covers[y] += own;
    }
    let sum = Cover { covers };
    Carried {
        accepted: true,
        cover: sum,
    }
}

// The carry of any part, or refusal 9.
pub fn carry(part: &[u64], cover: Cover) -> Carried
    ensures { Adding cpu 16 cover.covers part.now result }
{
    let incoming = cover.covers;
    let loads = magnitudes(incoming);
    if !are_light(loads) {
        return Carried {
            accepted: false,
            cover,
        };
    }
    sum_judged(part, loads, cover)
}
