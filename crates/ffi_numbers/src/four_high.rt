// Tiles four pixels high: what a painting answers, and a layer's rule.
ghost use Rattle.std.specs.Prelude.{◌≡◌};
ghost use Rattle.refusals.specs.Refusal.{given_or_refused};
ghost use Rattle.styling.specs.Codes.{rule_code};
ghost use Rattle.ffi_numbers.specs.Numbers.{refusal_number};

use refusals::Refusal;
use styling::FillRule;

pub fn painted_number(painted: Result<(), Refusal>) -> u32
    ensures { result ≡ refusal_number (given_or_refused painted) }
{
    match painted {
        Ok(()) => 0,
        Err(refusal) => refusals::number_of(refusal),
    }
}

pub fn rule_code(rule: FillRule) -> u32
    ensures { result ≡ rule_code rule }
{
    match rule {
        FillRule::NonZero => 0,
        FillRule::EvenOdd => 1,
    }
}
