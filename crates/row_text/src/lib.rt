// The answer of the row program to a job text, as the bytes that it prints.
#![tactic(auto)]

ghost use Rattle.std.specs.Prelude.{List, ℕ, ◌≤◌, length, OnOk, IfSome};
ghost use Rattle.std.specs.Io.KnownBytes.{Appends};
ghost use Rattle.laws.specs.Integer.{plus};
ghost use Rattle.input_front.specs.Front.{HoldsFront};
ghost use Rattle.report.specs.Put.{LineWritten};
ghost use Rattle.row_answer.specs.Answer.{driving_text, head_driving, answer_text, answer_room};

use job_statements::JobError;
use job_text_statements::Head;
use std::io;
use std::io::{Read, Write};

// Drives a row, with room for the lines of every row, and prints what it tells.
fn drive(
    head: Head,
    row: &[u64],
    layers: &[u32],
    colors: &[f32],
    count: usize,
    out: &mut [u8],
) -> usize
    requires { answer_room ≤ length out.old }
    ensures { LineWritten
        (driving_text (plus head.from)
        (head_driving head row.now layers.now colors.now count))
        out.old result out.new }
{
    let mut told = [0u32; 20475];
    let first = head.from;
    let driven = row_driver::drive_row(
        head.row, first, head.to, head.tiles, row, layers, colors, count, &mut told,
    );
    row_printing::print_driven(driven, &told, row_state::natural(first), out)
}

// Writes the answer at the front of `out`, which has room for every answer, and answers its length. The arrays hold
// every job.
pub fn answer(text: &[u8], out: &mut [u8; 249850]) -> usize
    ensures { LineWritten (answer_text text.now) out.old result out.new }
{
    let mut layers = [0u32; 512];
    let mut colors = [0.0f32; 256];
    let mut row = [0u64; 2048];
    match job::read_job(text, &mut layers, &mut colors, &mut row) {
        Ok(numbers) => {
            let count = numbers.layers;
            let words = count * 8;
            let floats = count * 4;
            drive(
                numbers.head,
                &row[..numbers.segments],
                &layers[..words],
                &colors[..floats],
                count,
                out,
            )
        }
        Err(JobError::NoRoom) => 0,
        Err(JobError::Malformed) => row_printing::print_refusal(out, 0, 10),
    }
}

// The answer to an input of which the first 65,537 bytes were read, n of them being there: they decide it.
pub fn answer_front(buffer: &[u8; 65537], n: usize, out: &mut [u8; 249850]) -> usize
    ensures { (whole : List ℕ) → HoldsFront buffer.now n whole
        → LineWritten (answer_text whole) out.old result out.new }
{
    answer(input_front::front(buffer, n), out)
}

// Reads an input, and hands the answer to it to a writer.
pub fn answer_input<R: Read, W: Write>(reader: &mut R, writer: &mut W) -> io::Result<()>
    ensures { OnOk result (IfSome (R.remaining reader.old)
        (λ whole. Appends (W.contents writer.old) (W.contents writer.new) (answer_text whole))) }
{
    let mut text = [0u8; 65537];
    let n = input_front::read_front(reader, &mut text)?;
    let mut out = [0u8; 249850];
    let end = answer_front(&text, n, &mut out);
    writer.write_all(&out[..end])
}
