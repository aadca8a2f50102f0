// The coverages of doubled areas that stand by columns, in a lent plane, and their mark: by each rule in the order that
// is faster.
ghost use Rattle.std.specs.Prelude.{◌≡◌, ◌≤◌, length};
ghost use Rattle.laws.specs.Lists.{over};
ghost use Rattle.styling.specs.declared.FillRule.TheVariants.{NonZero, EvenOdd};
ghost use Rattle.cover_statements.specs.Mark.{mark_of};
ghost use Rattle.cover_statements.specs.InnerWeighed.{InRange, weights_of, weights_plane};

use mark::weights;
use styling::FillRule;
use weight::tile;

// Weights by columns, many at a time; the exchange of the two places is in the writing.
fn paint_non_zero(areas: &mut [i16], plane: &mut [f32]) -> u32
    requires { InRange areas.old × (256 ≤ length areas.old) × (256 ≤ length plane.old) }
    ensures { (plane.new
        ≡ over (weights_plane 16 (weights_of NonZero areas.old)) plane.old)
        × (result ≡ mark_of (weights_plane 16 (weights_of NonZero areas.old))) }
{
    tile::weigh_non_zero(areas);
    tile::write_plane(areas, plane);
    weights::mark_of(areas)
}

// Weights are looked up one by one, so in the order of the plane; the mark is read from the areas themselves.
fn paint_even_odd(areas: &[i16], plane: &mut [f32]) -> u32
    requires { (256 ≤ length areas.now) × (256 ≤ length plane.old) }
    ensures { (plane.new
        ≡ over (weights_plane 16 (weights_of EvenOdd areas.now)) plane.old)
        × (result ≡ mark_of (weights_plane 16 (weights_of EvenOdd areas.now))) }
{
    tile::write_even_odd(areas, plane);
    weights::mark_of(areas)
}

// The areas are left as what weighing makes of them.
pub fn paint(areas: &mut [i16], rule: FillRule, plane: &mut [f32]) -> u32
    requires { InRange areas.old × (256 ≤ length areas.old) × (256 ≤ length plane.old) }
    ensures { (plane.new
        ≡ over (weights_plane 16 (weights_of rule areas.old)) plane.old)
        × (result ≡ mark_of (weights_plane 16 (weights_of rule areas.old))) }
{
    match rule {
        FillRule::NonZero => paint_non_zero(areas, plane),
        FillRule::EvenOdd => paint_even_odd(areas, plane),
    }
}
