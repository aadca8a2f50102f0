// A load as text: the job text that a seed, a number of tiles and a number of segments make, as the answer to the line
// that asks for it.
#![tactic(auto)]

pub mod blocks;

ghost use Rattle.std.specs.Prelude.{◌≡◌, List, ℕ, ◌≤◌, length, OnOk, IfSome};
ghost use Rattle.std.specs.Io.KnownBytes.{Appends};
ghost use Rattle.job_text_statements.specs.Job.{render};
ghost use Rattle.load_statements.specs.Load.{load_of};
ghost use Rattle.load_statements.specs.Input.{AskedInRange};
ghost use Rattle.load_statements.specs.Answer.{load_answer_text};
ghost use Rattle.report.specs.Put.{LineWritten};
ghost use Rattle.input_front.specs.Front.{HoldsFront};
ghost use Rattle.load_text.specs.Print.{LoadAnswered};

use load_numbers::input;
use load_statements::Asked;
use report::fields;
use std::io;
use std::io::{Read, Write};

// Writes the text of a load at the front of `out`, and answers its length. A text has at most 11,518 bytes; printing a
// line asks for 84 past the lines that may come.
fn write_load(out: &mut [u8], asked: Asked) -> usize
    requires { (AskedInRange asked) × (11602 ≤ length out.old) }
    ensures { LineWritten (render (load_of asked)) out.old result out.new }
{
    let head_end = blocks::print_head(out, asked.tiles);
    let layers_end = blocks::print_layers(out, head_end);
    blocks::print_segments(out, layers_end, asked.seed, asked.tiles, asked.count)
}

// Writes the text of a load at the front of `out`, which has room for every one, and answers its length.
fn answer_load(asked: Asked, out: &mut [u8; 11518]) -> usize
    requires { AskedInRange asked }
    ensures { LineWritten (render (load_of asked)) out.old result out.new }
{
    let mut text = [0u8; 11602];
    let end = write_load(&mut text, asked);
    fields::print_bytes(out, 0, &text[..end])
}

// Writes the answer to a text, a load's or the refusal, at the front of `out`, which has room for every answer, and
// answers its length.
pub fn answer(text: &[u8], out: &mut [u8; 11518]) -> usize
    ensures { LoadAnswered text.now out.old result out.new }
{
    match input::read_input(text) {
        Some(asked) => answer_load(asked, out),
        None => fields::write_refusal(out, 10),
    }
}

// The answer to an input of which the first 21 bytes were read, n of them being there: they decide it.
pub fn answer_front(buffer: &[u8; 21], n: usize, out: &mut [u8; 11518]) -> usize
    ensures { (whole : List ℕ) → HoldsFront buffer.now n whole
        → LoadAnswered whole out.old result out.new }
{
    answer(input_front::front(buffer, n), out)
}

// Reads an input, and hands the answer to it to a writer.
pub fn answer_input<R: Read, W: Write>(reader: &mut R, writer: &mut W) -> io::Result<()>
    ensures { OnOk result (IfSome (R.remaining reader.old)
        (λ whole. Appends (W.contents writer.old) (W.contents writer.new) (load_answer_text whole))) }
{
    let mut text = [0u8; 21];
    let n = input_front::read_front(reader, &mut text)?;
    let mut out = [0u8; 11518];
    let end = answer_front(&text, n, &mut out);
    writer.write_all(&out[..end])
}
