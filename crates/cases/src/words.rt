// P1 to P5: packed words and searches.
ghost use Rattle.std.specs.Prelude.{◌≡◌, true};
ghost use Rattle.pixel_segment.specs.Pack.{packed_answer};
ghost use Rattle.segment_rows.specs.Search.{place_in};
ghost use Rattle.cases.specs.Answers.{is_word, is_refused, is_at, is_absent_at};

use pixel_segment::PixelSegment;
use refusals::Refusal;
use segment_rows::search;

// Whether packing gave the word.
fn is_word(packed: Result<PixelSegment, Refusal>, word: u64) -> bool
    ensures { result ≡ is_word (packed_answer packed) word }
{
    match packed {
        Ok(s) => s.0 == word,
        Err(_) => false,
    }
}

// Whether packing was refused by 11.
fn is_refused(packed: Result<PixelSegment, Refusal>) -> bool
    ensures { result ≡ is_refused (packed_answer packed) }
{
    match packed {
        Ok(_) => false,
        Err(refusal) => refusals::number_of(refusal) == 11,
    }
}

fn is_at(found: Result<usize, usize>, place: usize) -> bool
    ensures { result ≡ is_at (place_in found) place }
{
    match found {
        Ok(i) => i == place,
        Err(_) => false,
    }
}

fn is_absent(found: Result<usize, usize>, place: usize) -> bool
    ensures { result ≡ is_absent_at (place_in found) place }
{
    match found {
        Ok(_) => false,
        Err(i) => i == place,
    }
}

// Layer 5, tile x 2, tile y 0, local x 3, local y 4, multiplier 32, cover 16.
pub fn p1() -> bool
    ensures { result ≡ true }
{
    is_word(PixelSegment::new(5, 2, 0, 3, 4, 32, 16), 0x0020060000534810)
}

// The same with cover -1: its double area is -32.
pub fn p2() -> bool
    ensures { result ≡ true }
{
    let packs = is_word(PixelSegment::new(5, 2, 0, 3, 4, 32, -1), 0x002006000053483F);
    packs & (PixelSegment(0x002006000053483F).double_area() == -32)
}

// Tile x -7 is refused, and -1 packs.
pub fn p3() -> bool
    ensures { result ≡ true }
{
    let far = is_refused(PixelSegment::new(5, -7, 0, 3, 4, 32, 16));
    let near = is_word(
        PixelSegment::new(5, -1, 0, 3, 4, 32, 16),
        0x0020000000534810,
    );
    far & near
}

// Tile y 2,046 packs and reads back; 2,047 is refused.
pub fn p4_tile_y() -> bool
    ensures { result ≡ true }
{
    let last = is_word(
        PixelSegment::new(5, 2, 2046, 3, 4, 32, 16),
        0xFFE0060000534810,
    );
    let past = is_refused(PixelSegment::new(5, 2, 2047, 3, 4, 32, 16));
    let last_y = PixelSegment(0xFFE0060000534810).tile_y();
    last & past & (last_y == 2046)
}

// Tile x 4,094 packs and reads back; 4,095 is refused.
pub fn p4_tile_x() -> bool
    ensures { result ≡ true }
{
    let last = is_word(
        PixelSegment::new(5, 4094, 0, 3, 4, 32, 16),
        0x003FFE0000534810,
    );
    let past = is_refused(PixelSegment::new(5, 4095, 0, 3, 4, 32, 16));
    let last_x = PixelSegment(0x003FFE0000534810).tile_x();
    last & past & (last_x == 4094)
}

// Words of the layers 1, 3, 3, 3 and 7: layer 3 is found at 3.
pub fn p5_found() -> bool
    ensures { result ≡ true }
{
    let words: [u64; 5] = [0x100000, 0x300000, 0x300000, 0x300000, 0x700000];
    is_at(search::search_last_by_layer_id(&words, 3), 3)
}

// Layers 0, 4 and 9 are absent, and would stand at 0, 4 and 5.
pub fn p5_absent() -> bool
    ensures { result ≡ true }
{
    let words: [u64; 5] = [0x100000, 0x300000, 0x300000, 0x300000, 0x700000];
    let first = is_absent(search::search_last_by_layer_id(&words, 0), 0);
    let inside = is_absent(search::search_last_by_layer_id(&words, 4), 4);
    let last = is_absent(search::search_last_by_layer_id(&words, 9), 5);
    first & inside & last
}

// In an empty slice every key is absent, at 0.
pub fn p5_empty() -> bool
    ensures { result ≡ true }
{
    let words: [u64; 1] = [0x300000];
    is_absent(search::search_last_by_layer_id(&words[..0], 3), 0)
}
