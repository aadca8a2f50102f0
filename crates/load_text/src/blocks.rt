// The three blocks of a load's text, printed one after another.
ghost use Rattle.std.specs.Prelude.{◌≡◌, ◌+◌, ◌*◌, ◌≤◌, ◌<◌, length};
ghost use Rattle.decimal.specs.Print.{Printing};
ghost use Rattle.job_text_statements.specs.Job.{head_values, layer_values};
ghost use Rattle.load_statements.specs.Load.{asked, load_head, load_layer};
ghost use Rattle.load_statements.specs.Input.{AskedInRange};
ghost use Rattle.load_text.specs.Print.{head_block, layers_block, segments_block};

use load_numbers::draw::Generator;
use load_numbers::segment;
use report::fields;

// The values of block 1: row 0, and all tiles.
fn head_line(tiles: u32) -> [i32; 4]
    requires { tiles ≤ 4095 }
    ensures { result ≡ head_values (load_head tiles) }
{
    let to = tiles as i32;
    [0, to, 0, to]
}

// Block 1, at the front: in at most 32 bytes.
pub fn print_head(out: &mut [u8], tiles: u32) -> usize
    requires { (tiles ≤ 4095) × (66 ≤ length out.old) }
    ensures { (Printing (head_block tiles) out.old 0 result out.new) × (result ≤ 32) }
{
    let end = fields::print_bytes(out, 0, b"row tiles from to\n");
    let line = head_line(tiles);
    lines::print_line(out, end, &line)
}

// The line of a layer: a NonZero draw, unclipped, solid, mode Over, alpha 1.
fn layer_line(id: u32) -> [i32; 8]
    requires { id < 8 }
    ensures { result ≡ layer_values (load_layer id) }
{
    [id as i32, 0, 0, 0, 0, 0, 0, 256]
}

// Block 2: in at most 189 bytes.
pub fn print_layers(out: &mut [u8], at: usize) -> usize
    requires { at + 285 ≤ length out.old }
    ensures { (Printing layers_block out.old at result out.new) × (result ≤ at + 189) }
{
    let mut end = fields::print_bytes(out, at, b"layer rule clip span clipped fill mode alpha\n");
    for id in 0..8 {
        let line = layer_line(id);
        end = lines::print_line(out, end, &line);
    }
    end
}

// Block 3: its names, and at most 22 bytes a line.
pub fn print_segments(out: &mut [u8], at: usize, seed: u32, tiles: u32, count: u32) -> usize
    requires { (AskedInRange (asked seed tiles count)) × (at + 33 + 22 * count + 84 ≤ length out.old) }
    ensures { (Printing (segments_block (asked seed tiles count)) out.old at result out.new)
        × (result ≤ at + 33 + 22 * count) }
{
    let mut end = fields::print_bytes(out, at, b"tile_x layer x y rows mult cover\n");
    let mut generator = Generator { state: seed };
    for k in 0..count {
        let slot = segment::slot_of(tiles, count, k);
        let drawn = segment::draw_segment(generator, slot);
        let line = drawn.line;
        end = lines::print_line(out, end, &line);
        generator = drawn.generator;
    }
    end
}
