// W-210, outlines run backwards: a row and the row with every cover negated, driven, and whether their lines are the
// same.
use pixel_segment::PixelSegment;
use refusals::Refusal;
use std::io;

fn word(layer: u32, tile_x: i16, local_y: u8, cover: i8) -> u64 {
    match PixelSegment::new(layer, tile_x, 0, 3, local_y, 20, cover) {
        Ok(segment) => segment.0,
        Err(_) => 0,
    }
}

// The row with eight segments more from a place on: one in each of the pixel rows from y on.
fn half(row: [u64; 64], at: usize, layer: u32, tile_x: i16, y: u8, cover: i8) -> [u64; 64] {
    let mut all = row;
    if at < 57 {
        if y < 9 {
            all[at] = word(layer, tile_x, y, cover);
            all[at + 1] = word(layer, tile_x, y + 1, cover);
            all[at + 2] = word(layer, tile_x, y + 2, cover);
            all[at + 3] = word(layer, tile_x, y + 3, cover);
            all[at + 4] = word(layer, tile_x, y + 4, cover);
            all[at + 5] = word(layer, tile_x, y + 5, cover);
            all[at + 6] = word(layer, tile_x, y + 6, cover);
            all[at + 7] = word(layer, tile_x, y + 7, cover);
        }
    }
    all
}

// With sixteen, one in each pixel row.
fn band(row: [u64; 64], at: usize, layer: u32, tile_x: i16, cover: i8) -> [u64; 64] {
    if at < 49 {
        half(
            half(row, at, layer, tile_x, 0, cover),
            at + 8,
            layer,
            tile_x,
            8,
            cover,
        )
    } else {
        row
    }
}

// Layer 1 from tile -1 on, more of it in tiles 0 and 2, and layer 2 from tile 1 on.
fn bands(first: i8, second: i8, third: i8, fourth: i8) -> [u64; 64] {
    let one = band([0u64; 64], 0, 1, -1, first);
    let two = band(one, 16, 1, 0, second);
    let three = band(two, 32, 2, 1, third);
    band(three, 48, 1, 2, fourth)
}

fn is_done(driven: Result<usize, (Refusal, usize)>) -> bool {
    match driven {
        Ok(tiles) => tiles == 4,
        Err((_, _)) => false,
    }
}

fn same_word(lines: &[u32; 20475], others: &[u32; 20475], at: usize) -> bool {
    if at < 20475 {
        lines[at] == others[at]
    } else {
        false
    }
}

// The five words of the line of a tile, which stand from a place on.
fn same_line(lines: &[u32; 20475], others: &[u32; 20475], at: usize) -> bool {
    if at < 20 {
        same_word(lines, others, at)
            & same_word(lines, others, at + 1)
            & same_word(lines, others, at + 2)
            & same_word(lines, others, at + 3)
            & same_word(lines, others, at + 4)
    } else {
        false
    }
}

// Whether two rows of four tiles are driven to their end with the same lines. Layer 1 is an opaque draw, NonZero, and
// layer 2 a translucent one, EvenOdd.
fn same_lines(row: [u64; 64], other: [u64; 64]) -> bool {
    let layers = [1u32, 0, 0, 0, 0, 0, 0, 0, 2, 1, 0, 0, 0, 0, 0, 0];
    let colors = [1.0f32, 1.0, 1.0, 1.0, 1.0, 1.0, 1.0, 0.5];
    let mut lines = [0u32; 20475];
    let mut others = [9u32; 20475];
    let done = is_done(row_driver::drive_row(0, 0, 4, 4, &row, &layers, &colors, 2, &mut lines));
    let both = is_done(row_driver::drive_row(0, 0, 4, 4, &other, &layers, &colors, 2, &mut others))
        & done;
    both & same_line(&lines, &others, 0)
        & same_line(&lines, &others, 5)
        & same_line(&lines, &others, 10)
        & same_line(&lines, &others, 15)
}

pub fn print_cases(rt: &impl Print) -> io::Result<()> {
    crate::printing::print(
        rt,
        b"covers up to 31 and their opposites, the same lines",
        same_lines(bands(16, 15, 31, -31), bands(-16, -15, -31, 31)),
    )?;
    crate::printing::print(
        rt,
        b"a cover of -32, which has no opposite, other lines",
        !same_lines(bands(-32, 31, 5, 1), bands(-32, -31, -5, -1)),
    )
}
