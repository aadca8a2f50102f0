// The six planes of a tile, written from d at the lowest and at the highest covers.
ghost use Rattle.std.specs.Prelude.{◌≡◌, ◌+◌, ◌*◌, ◌≤◌, ◌<◌, length};
ghost use Rattle.laws.specs.Lists.{over};
ghost use Rattle.weight_table.specs.Rest.{curve};
ghost use Rattle.styling.specs.declared.FillRule.TheVariants.{NonZero, EvenOdd};
ghost use Rattle.cover_statements.specs.Plane.{column_of, row_of, in_places};
ghost use Rattle.cover_bounds_statements.specs.Within.{bound_planes};
ghost use Rattle.cover_bounds_statements.specs.InnerPlanes.{area_in, Upward, WeightsWritten, Roomy, PlanesWritten};

use crate::interval;

// Where d of the pixel at a place of a plane stands: d is stored by columns.
fn cell(place: usize) -> usize
    requires { place < 256 }
    ensures { result ≡ column_of place * 16 + row_of place }
{
    place % 16 * 16 + place / 16
}

fn write_areas(areas: &[i16; 256], plane: &mut [i16])
    requires { 256 ≤ length plane.old }
    ensures { plane.new ≡ over (in_places 16 (area_in areas.now)) plane.old }
{
    for place in 0..256 {
        plane[place] = areas[cell(place)];
    }
}

fn write_non_zero(lows: &[i16; 256], highs: &[i16; 256], least: &mut [u16], greatest: &mut [u16])
    requires { Upward lows.now highs.now × (256 ≤ length least.old) × (256 ≤ length greatest.old) }
    ensures { WeightsWritten NonZero lows.now highs.now
        least.old greatest.old least.new greatest.new }
{
    for place in 0..256 {
        let k = cell(place);
        least[place] = interval::least_non_zero(lows[k], highs[k]);
        greatest[place] = interval::greatest_non_zero(lows[k], highs[k]);
    }
}

fn write_even_odd(
    weights: &[u16; 1024],
    lows: &[i16; 256],
    highs: &[i16; 256],
    least: &mut [u16],
    greatest: &mut [u16],
)
    requires { (weights.now ≡ curve) × Upward lows.now highs.now
        × (256 ≤ length least.old) × (256 ≤ length greatest.old) }
    ensures { WeightsWritten EvenOdd lows.now highs.now
        least.old greatest.old least.new greatest.new }
{
    for place in 0..256 {
        let k = cell(place);
        least[place] = interval::least_even_odd(weights, lows[k], highs[k]);
        greatest[place] = interval::greatest_even_odd(weights, lows[k], highs[k]);
    }
}

// All six planes. What lies past their 256 numbers stays.
pub fn write_planes(
    lows: &[i16; 256],
    highs: &[i16; 256],
    lowest: &mut [i16],
    highest: &mut [i16],
    least_non_zero: &mut [u16],
    greatest_non_zero: &mut [u16],
    least_even_odd: &mut [u16],
    greatest_even_odd: &mut [u16],
)
    requires { Upward lows.now highs.now
        × Roomy (bound_planes lowest.old highest.old least_non_zero.old greatest_non_zero.old
        least_even_odd.old greatest_even_odd.old) }
    ensures { PlanesWritten lows.now highs.now
        (bound_planes lowest.old highest.old
        least_non_zero.old greatest_non_zero.old
        least_even_odd.old greatest_even_odd.old)
        (bound_planes lowest.new highest.new
        least_non_zero.new greatest_non_zero.new
        least_even_odd.new greatest_even_odd.new) }
{
    write_areas(lows, lowest);
    write_areas(highs, highest);
    write_non_zero(lows, highs, least_non_zero, greatest_non_zero);
    let weights = weight_table::weights();
    write_even_odd(&weights, lows, highs, least_even_odd, greatest_even_odd);
}
