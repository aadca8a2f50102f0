// The lines that the row program prints, written into a lent buffer. `fields` prints the parts of a line.
#![tactic(auto)]

pub mod fields;

ghost use Rattle.report.specs.Text.{tile_names, tile_text, refusal_text};
ghost use Rattle.report.specs.Put.{Put};

// The word for the decision about a tile.
#[derive(Clone, Copy)]
pub enum Op {
    None,
    Solid,
    Paint,
}

// A tile's line: its number, the decision, layers listed, layers shown, used octets summed over the draws, carries
// handed on.
#[derive(Clone, Copy)]
pub struct TileLine {
    pub tile: u32,
    pub op: Op,
    pub listed: u32,
    pub shown: u32,
    pub octets: u32,
    pub carried: u32,
}

// Prints a text from place `at` on, where it has room.
pub fn put(out: &mut [u8], at: usize, text: &[u8]) -> Option<usize>
    ensures { Put text.now out.old at result out.new }
{
    if out.len() < at {
        return None;
    }
    if out.len() - at < text.len() {
        return None;
    }
    Some(fields::print_bytes(out, at, text))
}

// The line of names.
pub fn print_names(out: &mut [u8], at: usize) -> Option<usize>
    ensures { Put tile_names out.old at result out.new }
{
    put(out, at, b"tile op listed shown octets carried\n")
}

pub fn print_tile(out: &mut [u8], at: usize, line: TileLine) -> Option<usize>
    ensures { Put (tile_text line) out.old at result out.new }
{
    let mut text = [0u8; 64];
    let end = fields::write_tile(&mut text, line);
    put(out, at, &text[..end])
}

// The last line where a refusal ends the run.
pub fn print_refusal(out: &mut [u8], at: usize, number: u32) -> Option<usize>
    ensures { Put (refusal_text number) out.old at result out.new }
{
    let mut text = [0u8; 64];
    let end = fields::write_refusal(&mut text, number);
    put(out, at, &text[..end])
}
