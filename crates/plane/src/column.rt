// A part without segments: its plane is one column, repeated.
ghost use Rattle.std.specs.Prelude.{◌≡◌, true, [], ◌≤◌, length};
ghost use Rattle.laws.specs.Lists.{over};
ghost use Rattle.pixel_segment.specs.Field.{cpu};
ghost use Rattle.cover_statements.specs.Carry.{is_light};
ghost use Rattle.cover_statements.specs.Mark.{mark_of};
ghost use Rattle.cover_statements.specs.Paint.{part_plane};
ghost use Rattle.cover_statements.specs.InnerWeighed.{InRange, weights_of};

use cover::{Cover, carry};
use mark::weights;
use styling::FillRule;
use weight::{column, tile};

// Whether number 9 leaves a part without segments: what comes in is all that counts.
pub fn is_light(cover: Cover) -> bool
    ensures { result ≡ is_light cpu 16 cover.covers [] }
{
    let incoming = cover.covers;
    let loads = carry::magnitudes(incoming);
    carry::are_light(loads)
}

// The weights of a column. `tile::weigh` would be a call, and its loops of any length.
fn weigh(areas: &mut [i16], rule: FillRule)
    requires { InRange areas.old }
    ensures { areas.new ≡ weights_of rule areas.old }
{
    match rule {
        FillRule::NonZero => tile::weigh_non_zero(areas),
        FillRule::EvenOdd => tile::weigh_even_odd(areas),
    }
}

// The coverages of a part without segments that nothing refuses, and their mark.
pub fn paint(cover: Cover, rule: FillRule, plane: &mut [f32]) -> u32
    requires { (is_light cpu 16 cover.covers [] ≡ true) × (256 ≤ length plane.old) }
    ensures { (plane.new ≡ over (part_plane cpu rule cover.covers []) plane.old)
        × (result ≡ mark_of (part_plane cpu rule cover.covers [])) }
{
    let covers = cover.covers;
    let mut weights = [0i16; 16];
    column::column_areas(&covers, &mut weights);
    weigh(&mut weights, rule);
    let mut column = [0.0f32; 16];
    tile::write_coverages(&weights, &mut column);
    column::repeat_column(&column, plane);
    weights::mark_of_column(&weights)
}
