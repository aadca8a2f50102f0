// The least and the greatest weight of all whole numbers from a to b, by each rule: the ends tell them, and whether a
// number of weight 0 or 512 lies in between.
ghost use Rattle.std.specs.Prelude.{◌≡◌, true, ◌≤◌, ◌<◌, pos, ◌+ℤ◌};
ghost use Rattle.std.specs.Int.Signed.{le_z};
ghost use Rattle.laws.specs.Integer.{modℤ};
ghost use Rattle.weight_table.specs.Rest.{curve};
ghost use Rattle.styling.specs.declared.FillRule.TheVariants.{NonZero, EvenOdd};
ghost use Rattle.cover_bounds_statements.specs.Interval.{distance, least_weight, greatest_weight};
ghost use Rattle.cover_bounds_statements.specs.InnerEnds.{has_zero, has_multiple};

// Whether 0 lies between the ends.
fn has_zero(a: i16, b: i16) -> bool
    ensures { result ≡ has_zero a b }
{
    (a <= 0) & (0 <= b)
}

// The remainder of d + shift by 1,024. 32,768 is a multiple of it, and with it no number is negative.
fn rest_of(d: i16, shift: u16) -> u32
    ensures { (result ≡ modℤ 1024 (d +ℤ pos shift)) × (result < 1024) }
{
    ((d as i32 + shift as i32 + 32768) as u32) % 1024
}

// How far b lies above a.
fn distance(a: i16, b: i16) -> u32
    requires { le_z a b ≡ true }
    ensures { (result ≡ distance a b) × (result ≤ 65535) }
{
    b.abs_diff(a) as u32
}

// Whether some number from a to b is a multiple of 1,024 once `shift` is added: the first one is, or the next multiple
// is within reach.
fn has_multiple(shift: u16, a: i16, b: i16) -> bool
    requires { le_z a b ≡ true }
    ensures { result ≡ has_multiple shift a b }
{
    let rest = rest_of(a, shift);
    (rest == 0) | (1024 <= rest + distance(a, b))
}

pub fn least_non_zero(a: i16, b: i16) -> u16
    requires { le_z a b ≡ true }
    ensures { result ≡ least_weight NonZero a b }
{
    if has_zero(a, b) {
        0
    } else {
        weight::non_zero(a).min(weight::non_zero(b))
    }
}

pub fn greatest_non_zero(a: i16, b: i16) -> u16
    requires { le_z a b ≡ true }
    ensures { result ≡ greatest_weight NonZero a b }
{
    weight::non_zero(a).max(weight::non_zero(b))
}

pub fn least_even_odd(weights: &[u16; 1024], a: i16, b: i16) -> u16
    requires { (weights.now ≡ curve) × (le_z a b ≡ true) }
    ensures { result ≡ least_weight EvenOdd a b }
{
    if has_multiple(0, a, b) {
        0
    } else {
        weight::even_odd_in(weights, a).min(weight::even_odd_in(weights, b))
    }
}

// A number that leaves 512 is 512 below a multiple of 1,024.
pub fn greatest_even_odd(weights: &[u16; 1024], a: i16, b: i16) -> u16
    requires { (weights.now ≡ curve) × (le_z a b ≡ true) }
    ensures { result ≡ greatest_weight EvenOdd a b }
{
    if has_multiple(512, a, b) {
        512
    } else {
        weight::even_odd_in(weights, a).max(weight::even_odd_in(weights, b))
    }
}
