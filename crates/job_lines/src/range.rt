// Ranges of numbers.
ghost use Rattle.std.specs.Prelude.{◌≡◌};
ghost use Rattle.laws.specs.Integer.{is_within};

pub fn is_within(v: i32, low: i32, high: i32) -> bool
    ensures { result ≡ is_within low high v }
{
    (low <= v) & (v <= high)
}
