// A part without segments: its plane is one column, repeated.
ghost use Rattle.std.specs.Prelude.{◌≡◌, true, [], ◌≤◌, length};
ghost use Rattle.laws.specs.Lists.{over};
ghost use Rattle.pixel_segment.specs.Field.{gpu};
ghost use Rattle.cover_statements.specs.Carry.{is_light};
ghost use Rattle.cover_statements.specs.Cover.{cover_at};
ghost use Rattle.cover_statements.specs.Plane.{plane_of};

use crate::GpuCover;
use styling::FillRule;
use weight::{column, tile};

// The coverages of a part without segments that nothing refuses.
pub fn paint(cover: GpuCover, rule: FillRule, plane: &mut [f32])
    requires { (is_light gpu 4 cover.covers [] ≡ true) × (64 ≤ length plane.old) }
    ensures { plane.new ≡ over (plane_of gpu 4 rule (cover_at cover.covers) [])
        plane.old }
{
    let covers = cover.covers;
    let mut weights = [0i16; 4];
    column::column_areas(&covers, &mut weights);
    tile::weigh(&mut weights, rule);
    let mut column = [0.0f32; 4];
    tile::write_coverages(&weights, &mut column);
    column::repeat_column(&column, plane);
}
