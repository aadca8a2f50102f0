// The numbers of a layer record, as cases. A number past the last case, which a judged table has not, gives the last.
ghost use Rattle.std.specs.Prelude.{◌≡◌};
ghost use Rattle.styling.specs.Codes.{rule_of, fill_of, mode_of};

use crate::{BlendMode, Color, Fill, FillRule};

pub fn fill_rule(code: u32) -> FillRule
    ensures { result ≡ rule_of code }
{
    if code == 0 {
        FillRule::NonZero
    } else {
        FillRule::EvenOdd
    }
}

pub fn fill(code: u32, color: Color) -> Fill
    ensures { result ≡ fill_of code color }
{
    match code {
        0 => Fill::Solid(color),
        1 => Fill::Gradient,
        _ => Fill::Texture,
    }
}

pub fn blend_mode(code: u32) -> BlendMode
    ensures { result ≡ mode_of code }
{
    match code {
        0 => BlendMode::Over,
        1 => BlendMode::Multiply,
        2 => BlendMode::Screen,
        3 => BlendMode::Overlay,
        4 => BlendMode::Darken,
        5 => BlendMode::Lighten,
        6 => BlendMode::ColorDodge,
        7 => BlendMode::ColorBurn,
        8 => BlendMode::HardLight,
        9 => BlendMode::SoftLight,
        10 => BlendMode::Difference,
        11 => BlendMode::Exclusion,
        12 => BlendMode::Hue,
        13 => BlendMode::Saturation,
        14 => BlendMode::Color,
        _ => BlendMode::Luminosity,
    }
}
