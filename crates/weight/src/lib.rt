// From a doubled area to a coverage: the weight by each rule, and its 512th part as an f32.
#![tactic(auto)]

pub mod column;
pub mod small;
pub mod tile;

ghost use Rattle.std.specs.Prelude.{◌≡◌, ◌≤◌, nat_abs};
ghost use Rattle.laws.specs.Integer.{modℤ};
ghost use Rattle.weight_table.specs.Rest.{curve};
ghost use Rattle.cover_statements.specs.Weight.{non_zero_of, even_odd_of, weight_of};
ghost use Rattle.cover_statements.specs.Coverage.{coverage_of, area_coverage};

use styling::FillRule;

// The absolute value, of -32,768 too.
pub fn magnitude(x: i16) -> u16
    ensures { result ≡ nat_abs x }
{
    x.unsigned_abs()
}

// The absolute value of a cover, of -128 too.
pub fn cover_magnitude(cover: i8) -> u16
    ensures { (result ≡ nat_abs cover) × (result ≤ 128) }
{
    cover.unsigned_abs() as u16
}

// The remainder of a cover by 32. 128 is a multiple of 32, and with it no cover is negative.
pub fn rest_of_cover(cover: i8) -> u8
    ensures { result ≡ modℤ 32 cover }
{
    ((cover as i16 + 128) as u8) % 32
}

pub fn non_zero(d: i16) -> u16
    ensures { result ≡ non_zero_of d }
{
    magnitude(d).min(512)
}

// The remainder of d by 1,024. 32,768 is a multiple of it, and with it no d is negative.
pub fn rest_of_area(d: i16) -> usize
    ensures { result ≡ modℤ 1024 d }
{
    ((d as i32 + 32768) as u32 % 1024) as usize
}

// The EvenOdd weight, read from the weights of all remainders.
pub fn even_odd_in(weights: &[u16; 1024], d: i16) -> u16
    requires { weights.now ≡ curve }
    ensures { result ≡ even_odd_of d }
{
    weights[rest_of_area(d)]
}

// For a single d: it copies the weights.
pub fn even_odd(d: i16) -> u16
    ensures { result ≡ even_odd_of d }
{
    let weights = weight_table::weights();
    even_odd_in(&weights, d)
}

// The weight of a doubled area, 0 to 512.
pub fn weight(d: i16, rule: FillRule) -> u16
    ensures { result ≡ weight_of rule d }
{
    match rule {
        FillRule::NonZero => non_zero(d),
        FillRule::EvenOdd => even_odd(d),
    }
}

// The weight becomes an f32 without loss, and the product with 1/512 is exact.
pub fn coverage(weight: u16) -> f32
    requires { weight ≤ 512 }
    ensures { result ≡ coverage_of weight }
{
    (weight as f32) * 0.001953125
}

pub fn doubled_area_to_coverage(d: i16, rule: FillRule) -> f32
    ensures { result ≡ area_coverage rule d }
{
    coverage(weight(d, rule))
}
