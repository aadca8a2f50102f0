// The parts of a line, printed where there is room.
ghost use Rattle.std.specs.Prelude.{◌≡◌, ◌+◌, ◌≤◌, length};
ghost use Rattle.decimal.specs.Print.{Printing};
ghost use Rattle.report.specs.Text.{number_field, op_field, tile_text, refusal_text};
ghost use Rattle.report.specs.Put.{LineWritten};

use crate::{Op, TileLine};

// Prints bytes from place `at` on, and answers the place after them.
pub fn print_bytes(out: &mut [u8], at: usize, src: &[u8]) -> usize
    requires { at + length src.now ≤ length out.old }
    ensures { Printing src.now out.old at result out.new }
{
    let end = at + src.len();
    out[at..end].copy_from_slice(src);
    end
}

// Prints a number and the byte that ends its field.
fn print_number(out: &mut [u8], at: usize, n: u32, end: u8) -> usize
    requires { at + 11 ≤ length out.old }
    ensures { (Printing (number_field n end) out.old at result out.new) × (result ≤ at + 11) }
{
    let i = decimal::print_decimal(out, at, n);
    out[i] = end;
    i + 1
}

// Prints the word of a decision and a space.
fn print_op(out: &mut [u8], at: usize, op: Op) -> usize
    requires { at + 6 ≤ length out.old }
    ensures { (Printing (op_field op) out.old at result out.new) × (result ≤ at + 6) }
{
    match op {
        Op::None => print_bytes(out, at, b"none "),
        Op::Solid => print_bytes(out, at, b"solid "),
        Op::Paint => print_bytes(out, at, b"paint "),
    }
}

// Writes the line of a tile at the front, and answers its length.
pub fn write_tile(out: &mut [u8], line: TileLine) -> usize
    requires { 61 ≤ length out.old }
    ensures { LineWritten (tile_text line) out.old result out.new }
{
    let op = line.op;
    let tile_end = print_number(out, 0, line.tile, b' ');
    let op_end = print_op(out, tile_end, op);
    let listed_end = print_number(out, op_end, line.listed, b' ');
    let shown_end = print_number(out, listed_end, line.shown, b' ');
    let octets_end = print_number(out, shown_end, line.octets, b' ');
    print_number(out, octets_end, line.carried, b'\n')
}

pub fn write_refusal(out: &mut [u8], number: u32) -> usize
    requires { 19 ≤ length out.old }
    ensures { LineWritten (refusal_text number) out.old result out.new }
{
    let start = print_bytes(out, 0, b"refused ");
    print_number(out, start, number, b'\n')
}
