// The NonZero weights of doubled areas that number 9 leaves: they are at most 8,001, so 16 signed bits do.
ghost use Rattle.std.specs.Prelude.{◌≡◌, ◌≤◌, pos, nat_abs};
ghost use Rattle.cover_statements.specs.Weight.{non_zero_of};

pub fn non_zero(d: i16) -> i16
    requires { nat_abs d ≤ 8001 }
    ensures { result ≡ pos (non_zero_of d) }
{
    d.abs().min(512)
}
