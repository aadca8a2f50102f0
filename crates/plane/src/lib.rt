// The coverages of a part in a lent plane, at row × 16 + column.
#![tactic(auto)]

pub mod area;
pub mod column;
pub mod light;
pub mod shade;

ghost use Rattle.std.specs.Prelude.{◌≡◌, true, ◌≤◌, length};
ghost use Rattle.laws.specs.Lists.{over};
ghost use Rattle.pixel_segment.specs.Field.{cpu};
ghost use Rattle.cover_statements.specs.Carry.{is_light};
ghost use Rattle.cover_statements.specs.InnerCell.{no_cells, JudgedAreas};
ghost use Rattle.cover_statements.specs.Mark.{mark_of};
ghost use Rattle.cover_statements.specs.Paint.{part_plane, Painting};

use cover::Cover;
use refusals::Refusal;
use styling::FillRule;

// The doubled areas of a part, or false where number 9 refuses it. Of one that is known not to be refused they are
// summed without loads.
fn sum_areas(is_known: bool, part: &[u64], cover: Cover, areas: &mut [i16; 256]) -> bool
    requires { (areas.old ≡ no_cells 16)
        × (is_known ≡ true → is_light cpu 16 cover.covers part.now ≡ true) }
    ensures { JudgedAreas cpu 16 cover.covers part.now result areas.new }
{
    if is_known {
        light::sum_areas(part, cover, areas);
        true
    } else {
        area::judged_areas(part, cover, areas)
    }
}

// The coverages of any part in a plane that has room for them, and their mark; or refusal 9, which leaves the plane as
// it was: what is summed before it is found stands in arrays of its own. One function serves those who judge and those
// who know, so that the areas are a local where they are shaded: lent, they might be the plane's memory.
fn paint_judged(
    is_known: bool,
    part: &[u64],
    cover: Cover,
    rule: FillRule,
    plane: &mut [f32],
) -> Result<u32, Refusal>
    requires { (256 ≤ length plane.old)
        × (is_known ≡ true → is_light cpu 16 cover.covers part.now ≡ true) }
    ensures { Painting cpu rule cover.covers part.now plane.old result
        plane.new }
{
    if part.is_empty() {
        if !column::is_light(cover) {
            return Err(Refusal::Covers);
        }
        return Ok(column::paint(cover, rule, plane));
    }
    let mut areas = [0i16; 256];
    if !sum_areas(is_known, part, cover, &mut areas) {
        return Err(Refusal::Covers);
    }
    Ok(shade::paint(&mut areas, rule, plane))
}

// The coverages of a part that nothing refuses, and their mark. It is not judged again.
pub fn paint(part: &[u64], cover: Cover, rule: FillRule, plane: &mut [f32]) -> u32
    requires { (is_light cpu 16 cover.covers part.now ≡ true) × (256 ≤ length plane.old) }
    ensures { (plane.new ≡ over (part_plane cpu rule cover.covers part.now)
        plane.old) × (result ≡ mark_of (part_plane cpu rule cover.covers part.now)) }
{
    paint_judged(true, part, cover, rule, plane).unwrap()
}

// The coverages of any part, and their mark; or refusal 1 or 9, which leaves the plane as it was.
pub fn paint_part(
    part: &[u64],
    cover: Cover,
    rule: FillRule,
    plane: &mut [f32],
) -> Result<u32, Refusal>
    ensures { Painting cpu rule cover.covers part.now plane.old result
        plane.new }
{
    if plane.len() < 256 {
        Err(Refusal::Room)
    } else {
        paint_judged(false, part, cover, rule, plane)
    }
}
