// The coverages of a part in a lent plane of a tile four pixels high, at row × 16 + column.
ghost use Rattle.std.specs.Prelude.{◌≡◌, true, ◌≤◌, length};
ghost use Rattle.laws.specs.Lists.{over};
ghost use Rattle.pixel_segment.specs.Field.{gpu};
ghost use Rattle.cover_statements.specs.Carry.{is_light};
ghost use Rattle.cover_statements.specs.Cover.{cover_at};
ghost use Rattle.cover_statements.specs.Plane.{plane_of};
ghost use Rattle.cover_statements.specs.InnerWeighed.{Weighed, weights_plane};
ghost use Rattle.cover_gpu.specs.GpuPaint.{GpuPainting};

use crate::{GpuCover, area, carry, column};
use refusals::Refusal;
use styling::FillRule;
use weight::tile;

// The plane of 64 weights that stand by columns. What lies past it stays.
fn write_plane(weights: &[i16], plane: &mut [f32])
    requires { Weighed weights.now × (64 ≤ length weights.now) × (64 ≤ length plane.old) }
    ensures { plane.new ≡ over (weights_plane 4 weights.now) plane.old }
{
    for y in 0..4 {
        let row = tile::row_of(weights, 4, y);
        tile::write_row(&row, y, plane);
    }
}

// The coverages of any part in a plane that has room for them; or refusal 9, which leaves the plane as it was.
fn paint_judged(
    part: &[u64],
    cover: GpuCover,
    rule: FillRule,
    plane: &mut [f32],
) -> Result<(), Refusal>
    requires { 64 ≤ length plane.old }
    ensures { GpuPainting rule cover.covers part.now plane.old result
        plane.new }
{
    if part.is_empty() {
        if !carry::is_light(part, cover) {
            return Err(Refusal::Covers);
        }
        column::paint(cover, rule, plane);
        return Ok(());
    }
    let mut areas = [0i16; 64];
    if !area::judged_areas(part, cover, &mut areas) {
        return Err(Refusal::Covers);
    }
    tile::weigh(&mut areas, rule);
    write_plane(&areas, plane);
    Ok(())
}

// The coverages of a part that nothing refuses.
pub fn paint(part: &[u64], cover: GpuCover, rule: FillRule, plane: &mut [f32])
    requires { (is_light gpu 4 cover.covers part.now ≡ true) × (64 ≤ length plane.old) }
    ensures { plane.new ≡ over (plane_of gpu 4 rule (cover_at cover.covers) part.now)
        plane.old }
{
    paint_judged(part, cover, rule, plane).unwrap();
}

// The coverages of any part; or refusal 1 or 9, which leaves the plane as it was.
pub fn paint_part(
    part: &[u64],
    cover: GpuCover,
    rule: FillRule,
    plane: &mut [f32],
) -> Result<(), Refusal>
    ensures { GpuPainting rule cover.covers part.now plane.old result
        plane.new }
{
    if plane.len() < 64 {
        Err(Refusal::Room)
    } else {
        paint_judged(part, cover, rule, plane)
    }
}
