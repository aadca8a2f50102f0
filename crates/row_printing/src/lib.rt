// The lines of a driven row, printed into a lent buffer that has room for all of them.
#![tactic(auto)]

ghost use Rattle.std.specs.Prelude.{◌≡◌, ◌+◌, ◌*◌, ◌≤◌, length};
ghost use Rattle.decimal.specs.Print.{Printing};
ghost use Rattle.report.specs.Text.{tile_names, tile_text, refusal_text};
ghost use Rattle.report.specs.Put.{LineWritten};
ghost use Rattle.row_lines.specs.Driven.{lines_written};
ghost use Rattle.row_answer.specs.Answer.{op_of};
ghost use Rattle.row_printing.specs.Told.{tile_in, told_lines, told_text, Lines, Tells};

use refusals::Refusal;
use report::{Op, TileLine};

fn op_of(code: u32) -> Op
    ensures { result ≡ op_of code }
{
    if code == 0 {
        Op::None
    } else if code == 1 {
        Op::Solid
    } else {
        Op::Paint
    }
}

// The line of a tile by its five words.
fn tile_in(told: &[u32], i: usize, tile: u32) -> TileLine
    requires { i * 5 + 5 ≤ length told.now }
    ensures { result ≡ tile_in told.now i tile }
{
    let at = i * 5;
    TileLine {
        tile: tile,
        op: op_of(told[at]),
        listed: told[at + 1],
        shown: told[at + 2],
        octets: told[at + 3],
        carried: told[at + 4],
    }
}

// The callers of these three have room for the line, so that there is a place after it.
fn print_names(out: &mut [u8], at: usize) -> usize
    requires { at + 36 ≤ length out.old }
    ensures { Printing tile_names out.old at result out.new }
{
    report::print_names(out, at).unwrap_or(at)
}

// Prints line i, as that of the given tile.
fn print_tile(told: &[u32], i: usize, tile: u32, out: &mut [u8], at: usize) -> usize
    requires { (i * 5 + 5 ≤ length told.now) × (at + 61 ≤ length out.old) }
    ensures { (Printing (tile_text (tile_in told.now i tile)) out.old at result out.new)
        × (result ≤ at + 61) }
{
    report::print_tile(out, at, tile_in(told, i, tile)).unwrap_or(at)
}

pub fn print_refusal(out: &mut [u8], at: usize, number: u32) -> usize
    requires { at + 19 ≤ length out.old }
    ensures { (Printing (refusal_text number) out.old at result out.new) × (result ≤ at + 19) }
{
    report::print_refusal(out, at, number).unwrap_or(at)
}

// Prints the first n lines, from the tile `first` on.
fn print_lines(told: &[u32], first: u32, n: usize, out: &mut [u8], at: usize) -> usize
    requires { Lines told.now first n out.old at }
    ensures { (Printing (told_lines told.now first n) out.old at result out.new)
        × (result ≤ at + n * 61) }
{
    let mut end = at;
    for i in 0..n {
        end = print_tile(told, i, first + i as u32, out, end);
    }
    end
}

// Prints what a driver told: the names, its lines, and the refusal that ended it.
pub fn print_driven(
    driven: Result<usize, (Refusal, usize)>,
    told: &[u32],
    first: u32,
    out: &mut [u8],
) -> usize
    requires { Tells told.now first (lines_written driven) out.old }
    ensures { LineWritten (told_text told.now first (lines_written driven)) out.old result
        out.new }
{
    let start = print_names(out, 0);
    match driven {
        Ok(n) => print_lines(told, first, n, out, start),
        Err((refusal, n)) => {
            let end = print_lines(told, first, n, out, start);
            print_refusal(out, end, refusals::number_of(refusal))
        }
    }
}
