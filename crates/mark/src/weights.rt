// The mark of a plane, read from numbers that stand by columns, so that an octet is eight neighbours: the doubled areas
// of a plane by EvenOdd, or weights, each of which is its own EvenOdd weight.
ghost use Rattle.std.specs.Prelude.{◌≡◌, ◌+◌, ◌*◌, ◌≤◌, length};
ghost use Rattle.styling.specs.declared.FillRule.TheVariants.{EvenOdd};
ghost use Rattle.cover_statements.specs.Coverage.{is_above, area_coverage};
ghost use Rattle.cover_statements.specs.Mark.{mark_of, some_above};
ghost use Rattle.cover_statements.specs.InnerWeighed.{Weighed, weights_of, coverages_in, weights_plane, repeated};

// Whether the EvenOdd coverage of a doubled area is above 0: exactly where the area is no multiple of 1,024.
fn is_above(d: i16) -> bool
    ensures { result ≡ is_above (area_coverage EvenOdd d) }
{
    weight::rest_of_area(d) > 0
}

// Whether one of the eight numbers from 8 times the octet on has a coverage above 0.
fn is_used(areas: &[i16], octet: usize) -> bool
    requires { 8 * octet + 8 ≤ length areas.now }
    ensures { result ≡ some_above (coverages_in (weights_of EvenOdd areas.now)) octet }
{
    let a = 8 * octet;
    is_above(areas[a])
        | is_above(areas[a + 1])
        | is_above(areas[a + 2])
        | is_above(areas[a + 3])
        | is_above(areas[a + 4])
        | is_above(areas[a + 5])
        | is_above(areas[a + 6])
        | is_above(areas[a + 7])
}

// The mark of a plane by its 256 numbers, from the highest octet down.
pub fn mark_of(areas: &[i16]) -> u32
    requires { 256 ≤ length areas.now }
    ensures { result ≡ mark_of (weights_plane 16 (weights_of EvenOdd areas.now)) }
{
    let mut mark: u32 = 0;
    for octet in (0..32).rev() {
        mark = mark * 2 + is_used(areas, octet) as u32;
    }
    mark
}

// The mark of a plane whose columns are all the same, by the 16 weights of one: the bits of its two halves, 16 times.
pub fn mark_of_column(weights: &[i16]) -> u32
    requires { Weighed weights.now × (16 ≤ length weights.now) }
    ensures { result ≡ mark_of (repeated 16 (coverages_in weights.now)) }
{
    let upper = is_used(weights, 0);
    let lower = is_used(weights, 1);
    (upper as u32 + 2 * (lower as u32)) * 1431655765
}
