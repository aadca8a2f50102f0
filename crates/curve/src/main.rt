// The curve program: prints the EvenOdd weight of every remainder by 1,024.
#![tactic(auto)]

ghost use Rattle.std.specs.Prelude.{OnOk};
ghost use Rattle.std.specs.Io.KnownBytes.{Appends};
ghost use Rattle.curve_text.specs.Curve.{curve_text};

use std::io;
use std::io::Write;

// Hands the text to a writer. The contract of `print_curve` holds the length.
#[tactic(auto, using(report::proofs::Putting::line_within, report::proofs::Putting::line_length))]
fn write_curve<W: Write>(writer: &mut W) -> io::Result<()>
    ensures { OnOk result (Appends (W.contents writer.old) (W.contents writer.new) curve_text) }
{
    let mut out = [0u8; 7900];
    let end = curve_text::print_curve(&mut out);
    writer.write_all(&out[..end])
}

fn main(rt: HostRuntime) -> io::Result<()> {
    write_curve(&mut io::writer(&rt))
}
