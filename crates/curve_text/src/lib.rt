// The even-odd curve as text: each remainder of d by 1,024 beside its EvenOdd weight.
#![tactic(auto)]

ghost use Rattle.std.specs.Prelude.{◌≡◌, ◌≤◌, ◌<◌, length};
ghost use Rattle.report.specs.Put.{LineWritten};
ghost use Rattle.curve_text.specs.Curve.{curve_line, curve_text};

use report::fields;
use styling::FillRule;

// The line of a remainder: itself and its weight.
fn line_of(rest: u16) -> [i32; 2]
    requires { rest < 1024 }
    ensures { result ≡ curve_line rest }
{
    let weight = weight::weight(rest as i16, FillRule::EvenOdd);
    [rest as i32, weight as i32]
}

// Writes the text at the front of `out`, and answers its length. The names have 12 bytes, a line at most 9; printing a
// line asks for 24.
fn write_curve(out: &mut [u8]) -> usize
    requires { 9252 ≤ length out.old }
    ensures { LineWritten curve_text out.old result out.new }
{
    let mut end = fields::print_bytes(out, 0, b"rest weight\n");
    for rest in 0..1024 {
        let line = line_of(rest);
        end = lines::print_line(out, end, &line);
    }
    end
}

// Writes the text at the front of `out`, which it fills, and answers its length.
pub fn print_curve(out: &mut [u8; 7900]) -> usize
    ensures { LineWritten curve_text out.old result out.new }
{
    let mut text = [0u8; 9252];
    let end = write_curve(&mut text);
    fields::print_bytes(out, 0, &text[..end])
}
