// The weights of many doubled areas in their places, and the coverages of many weights, each by a loop of its own; and
// the EvenOdd coverages of many areas, by one.
ghost use Rattle.std.specs.Prelude.{◌≡◌, ◌+◌, ◌*◌, ◌≤◌, ◌<◌, length};
ghost use Rattle.laws.specs.Lists.{over, tabulate};
ghost use Rattle.weight_table.specs.Rest.{curve};
ghost use Rattle.styling.specs.declared.FillRule.TheVariants.{NonZero, EvenOdd};
ghost use Rattle.cover_statements.specs.Cover.{cover_at};
ghost use Rattle.cover_statements.specs.InnerWeighed.{
  InRange,
  Weighed,
  weights_of,
  coverages_in,
  weights_plane,
  weights_row,
  put_row,
};

use crate::small;
use styling::FillRule;

pub fn weigh_non_zero(areas: &mut [i16])
    requires { InRange areas.old }
    ensures { areas.new ≡ weights_of NonZero areas.old }
{
    for area in areas.iter_mut() {
        *area = small::non_zero(*area);
    }
}

// The copy of the table is taken once, above the loop.
pub fn weigh_even_odd(areas: &mut [i16])
    ensures { areas.new ≡ weights_of EvenOdd areas.old }
{
    let table = weight_table::weights();
    for area in areas.iter_mut() {
        *area = crate::even_odd_in(&table, *area) as i16;
    }
}

// The weights of doubled areas, in their places.
pub fn weigh(areas: &mut [i16], rule: FillRule)
    requires { InRange areas.old }
    ensures { areas.new ≡ weights_of rule areas.old }
{
    match rule {
        FillRule::NonZero => weigh_non_zero(areas),
        FillRule::EvenOdd => weigh_even_odd(areas),
    }
}

// The coverages of weights, in the same places. What lies past them in the plane stays.
pub fn write_coverages(weights: &[i16], plane: &mut [f32])
    requires { Weighed weights.now × (length weights.now ≤ length plane.old) }
    ensures { plane.new ≡ over (coverages_in weights.now) plane.old }
{
    for (k, weight) in weights.iter().enumerate() {
        plane[k] = crate::coverage(*weight as u16);
    }
}

// Row y of weights that stand by columns of a tile `rows` high.
pub fn row_of(weights: &[i16], rows: usize, y: usize) -> [i16; 16]
    requires { (16 * rows ≤ length weights.now) × (y < rows) }
    ensures { result ≡ tabulate 16 (λ x. cover_at weights.now (x * rows + y)) }
{
    let mut row = [0i16; 16];
    for x in 0..16 {
        row[x] = weights[x * rows + y];
    }
    row
}

// The coverages of 16 weights, as row y of a plane.
pub fn write_row(row: &[i16; 16], y: usize, plane: &mut [f32])
    requires { Weighed row.now × (length row.now ≡ 16) × (y * 16 + 16 ≤ length plane.old) }
    ensures { plane.new ≡ put_row y (coverages_in row.now) plane.old }
{
    for (x, weight) in row.iter().enumerate() {
        plane[y * 16 + x] = crate::coverage(*weight as u16);
    }
}

// The plane of 256 weights that stand by columns: the exchange of the two places is here. What lies past it stays. A
// row is read whole before it is written: four rows are then read and written at a time, which they are not where the
// number of rows is a parameter.
pub fn write_plane(weights: &[i16], plane: &mut [f32])
    requires { Weighed weights.now × (256 ≤ length weights.now) × (256 ≤ length plane.old) }
    ensures { plane.new ≡ over (weights_plane 16 weights.now) plane.old }
{
    for y in 0..16 {
        let row = row_of(weights, 16, y);
        write_row(&row, y, plane);
    }
}

// Row y of the EvenOdd plane of doubled areas that stand by columns.
fn write_even_odd_row(table: &[u16; 1024], areas: &[i16], y: usize, plane: &mut [f32])
    requires { (table.now ≡ curve) × (256 ≤ length areas.now) × (y < 16)
        × (y * 16 + 16 ≤ length plane.old) }
    ensures { plane.new
        ≡ put_row y (weights_row 16 (weights_of EvenOdd areas.now) y) plane.old }
{
    for x in 0..16 {
        plane[y * 16 + x] = crate::coverage(crate::even_odd_in(table, areas[x * 16 + y]));
    }
}

// The EvenOdd plane of 256 doubled areas that stand by columns. Each weight is looked up alone, so in the order of the
// plane: the exchange of the two places costs nothing, and the coverages of four are written at a time.
pub fn write_even_odd(areas: &[i16], plane: &mut [f32])
    requires { (256 ≤ length areas.now) × (256 ≤ length plane.old) }
    ensures { plane.new
        ≡ over (weights_plane 16 (weights_of EvenOdd areas.now)) plane.old }
{
    let table = weight_table::weights();
    for y in 0..16 {
        write_even_odd_row(&table, areas, y, plane);
    }
}
