// W-213, tiles four pixels high: each example's name, and whether the answer is its own.
use crate::printing::{number_in, print};
use cover_gpu::{GpuCover, carry, painting as gpu_plane};
use layer_row_gpu::tiles::Ended;
use layer_row_gpu::{LayerRow, tiles};
use pixel_segment_gpu::{GpuSegment, search};
use segment_rows::search::Key;
use std::io;
use styling::FillRule;

// Whether packing gives a word, in tile y, local y and cover beside layer 5, tile x 2, local x 3 and multiplier 32; 0
// stands for refusal 11.
fn packs(tile_y: i16, local_y: u8, cover: i8, word: u64) -> bool {
    match GpuSegment::new(5, 2, tile_y, 3, local_y, 32, cover) {
        Ok(segment) => segment.0 == word,
        Err(refusal) => (word == 0) & (refusals::number_of(refusal) == 11),
    }
}

fn print_words(rt: &impl Print) -> io::Result<()> {
    print(
        rt,
        b"tile y 0, local y 3",
        packs(0, 3, 16, 0x000801800014F810),
    )?;
    print(rt, b"cover -1", packs(0, 3, -1, 0x000801800014F83F))?;
    print(
        rt,
        b"double area -32",
        GpuSegment(0x000801800014F83F).double_area() == -32,
    )?;
    print(rt, b"tile y 8190", packs(8190, 3, 16, 0xFFF801800014F810))?;
    print(rt, b"tile y 2047", packs(2047, 3, 16, 0x400001800014F810))?;
    print(rt, b"tile y -1", packs(-1, 0, 16, 0x000001800014C810))?;
    print(rt, b"local y 4, 11", packs(0, 4, 16, 0))?;
    print(rt, b"tile y 8191, 11", packs(8191, 3, 16, 0))?;
    print(rt, b"tile y -2, 11", packs(-2, 3, 16, 0))
}

// Whether a layer is found at a place among layers 1, 3, 3, 3, 7, or absent there.
fn finds(layer_id: u32, is_found: bool, place: usize) -> bool {
    let words = [0x40000u64, 0xC0000, 0xC0000, 0xC0000, 0x1C0000];
    match search::search_last_by_key(&words, Key::LayerId(layer_id)) {
        Ok(i) => is_found & (i == place),
        Err(i) => !is_found & (i == place),
    }
}

fn print_order(rt: &impl Print) -> io::Result<()> {
    let order = GpuSegment(0x000801800014F810).cmp(GpuSegment(0x000801800017C020));
    print(rt, b"equal in the upper 46 bits", order.is_eq())?;
    print(rt, b"layer 3 found at 3", finds(3, true, 3))?;
    print(rt, b"layer 0 absent at 0", finds(0, false, 0))?;
    print(rt, b"layer 4 absent at 4", finds(4, false, 4))?;
    print(rt, b"layer 9 absent at 5", finds(9, false, 5))
}

fn cover_of(first: i8, others: i8) -> GpuCover {
    let covers = [first, others, others, others];
    GpuCover { covers }
}

fn has(cover: GpuCover, first: i8, second: i8, third: i8, fourth: i8) -> bool {
    let covers = cover.covers;
    (covers[0] == first) & (covers[1] == second) & (covers[2] == third) & (covers[3] == fourth)
}

fn print_covers(rt: &impl Print) -> io::Result<()> {
    let part = [0x000801800014C830u64];
    let carried = carry::carry(&part, cover_of(16, 16));
    let cover = carried.cover;
    print(
        rt,
        b"hands on 0, 16, 16, 16",
        carried.accepted & has(cover, 0, 16, 16, 16),
    )?;
    // Cover -8 in row 0.
    let eight = [0x000801800014C838u64];
    print(rt, b"119 and -8", carry::is_light(&eight, cover_of(119, 0)))?;
    print(
        rt,
        b"120 and -8, 9",
        !carry::is_light(&eight, cover_of(120, 0)),
    )
}

fn print_coverages(rt: &impl Print) -> io::Result<()> {
    let part = [0x0008018000161430u64];
    let mut places = [0.25f32; 64];
    let answer = gpu_plane::paint_part(&part, cover_of(16, 16), FillRule::NonZero, &mut places);
    let left = (places[0] == 1.0) & (places[16] == 1.0) & (places[23] == 1.0);
    let right = (places[24] == 0.5) & (places[25] == 0.0) & (places[31] == 0.0);
    let below = (places[32] == 1.0) & (places[63] == 1.0);
    print(
        rt,
        b"half a pixel at place 24",
        (number_in(answer) == 0) & left & right & below,
    )?;
    let mut few = [0.25f32; 63];
    let refused = gpu_plane::paint_part(&part, cover_of(16, 16), FillRule::NonZero, &mut few);
    print(
        rt,
        b"a plane of 63, 1",
        (number_in(refused) == 1) & (few[0] == 0.25),
    )
}

// What the opening of a row without segments answers.
fn opens(tile_y: i32, layer_id: u32, rule: u32) -> u32 {
    let words = [0u64; 1];
    let opened = layer_row_gpu::open_layer_row(tile_y, 0, 4, layer_id, rule, &words[0..0]);
    let answer = opened.answer;
    number_in(answer)
}

// The state after a work.
fn past(state: LayerRow, tile: i32, row: &[u64; 3], places: &mut [f32; 64]) -> LayerRow {
    let worked = layer_row_gpu::work_tile(state, tile, row, places);
    worked.state
}

// What a work answers: 0, or the number of the refusal.
fn answered(state: LayerRow, tile: i32, row: &[u64; 3], places: &mut [f32; 64]) -> u32 {
    let worked = layer_row_gpu::work_tile(state, tile, row, places);
    let answer = worked.answer;
    number_in(answer)
}

fn hands_on(state: LayerRow, first: i8, second: i8, third: i8, fourth: i8) -> bool {
    let cover = state.cover;
    has(cover, first, second, third, fourth)
}

fn print_openings(rt: &impl Print) -> io::Result<()> {
    print(rt, b"row 8190 opens", opens(8190, 1, 0) == 0)?;
    print(rt, b"row 8191, 2", opens(8191, 1, 0) == 2)?;
    print(rt, b"row -1, 2", opens(-1, 1, 0) == 2)?;
    print(rt, b"layer 2097151 opens", opens(0, 2097151, 1) == 0)?;
    print(rt, b"layer 2097152, 4", opens(0, 2097152, 1) == 4)?;
    print(rt, b"rule 2, 4", opens(0, 1, 2) == 4)?;
    print(rt, b"row 8191 and rule 7, 2", opens(8191, 1, 7) == 2)
}

// Layer 1 in tiles -1, 0 and 2.
fn row() -> [u64; 3] {
    [
        0x0008000000040810u64,
        0x000800800005223B,
        0x0008018000044830,
    ]
}

// Tile 0 worked from the opening, and again.
fn print_first(rt: &impl Print, opened: LayerRow) -> io::Result<LayerRow> {
    let row = row();
    let mut places = [0.25f32; 64];
    let one = past(opened, 0, &row, &mut places);
    print(
        rt,
        b"tile 0 hands on 16, 0, -5, 0",
        hands_on(one, 16, 0, -5, 0),
    )?;
    let first = (places[0] == 1.0) & (places[15] == 1.0) & (places[16] == 0.0);
    let third = (places[35] == 0.0) & (places[36] == 0.078125) & (places[37] == 0.3125);
    print(rt, b"tile 0 has 1 in row 0, 0.3125 in row 2", first & third)?;
    print(
        rt,
        b"tile 0 again, 2",
        answered(one, 0, &row, &mut places) == 2,
    )?;
    Ok(one)
}

// Tiles 1 to 3.
fn print_others(rt: &impl Print, one: LayerRow) -> io::Result<()> {
    let row = row();
    let mut places = [0.25f32; 64];
    let two = past(one, 1, &row, &mut places);
    print(
        rt,
        b"tile 1 hands on 16, 0, -5, 0",
        hands_on(two, 16, 0, -5, 0),
    )?;
    let three = past(two, 2, &row, &mut places);
    print(
        rt,
        b"tile 2 hands on 0, 0, -5, 0",
        hands_on(three, 0, 0, -5, 0),
    )?;
    let four = past(three, 3, &row, &mut places);
    print(
        rt,
        b"tile 3 hands on 0, 0, -5, 0",
        hands_on(four, 0, 0, -5, 0),
    )
}

// How a range of tiles ended: 0 all that were asked for, 1 the row's end, 2 no plane, 3 the next would be refused.
fn end_of(ended: Ended) -> u32 {
    match ended {
        Ended::Asked => 0,
        Ended::RowEnd => 1,
        Ended::NoRoom => 2,
        Ended::Refused(_) => 3,
    }
}

// Whether a range with three planes from tile 0 on works so many tiles, and ends so.
fn ranges(opened: LayerRow, tiles: usize, worked: usize, end: u32) -> bool {
    let row = row();
    let mut places = [0.25f32; 192];
    let range = tiles::work_tiles(opened, 0, tiles, &row, &mut places);
    let ended = range.ended;
    (range.worked == worked) & (end_of(ended) == end)
}

fn print_range(rt: &impl Print, opened: LayerRow) -> io::Result<()> {
    print(rt, b"two tiles of two", ranges(opened, 2, 2, 0))?;
    print(rt, b"four tiles, planes for three", ranges(opened, 4, 3, 2))?;
    let row = row();
    let mut few = [0.25f32; 63];
    let refused = tiles::work_tiles(opened, 0, 4, &row, &mut few);
    let answer = refused.answer;
    print(rt, b"a range with 63 numbers, 1", number_in(answer) == 1)?;
    let mut many = [0.25f32; 512];
    let range = tiles::work_tiles(opened, 0, 9, &row, &mut many);
    let ended = range.ended;
    let state = range.state;
    print(
        rt,
        b"nine tiles of a row of four",
        (range.worked == 4) & (end_of(ended) == 1) & hands_on(state, 0, 0, -5, 0),
    )?;
    print(
        rt,
        b"its third plane has 1 in row 0",
        (many[128] == 1.0) & (many[143] == 0.0) & (many[256] == 0.25),
    )
}

fn print_row(rt: &impl Print) -> io::Result<()> {
    let row = row();
    let answer = layer_row_gpu::open_layer_row(0, 0, 4, 1, 0, &row);
    let opened = answer.state;
    print(
        rt,
        b"opened with 16, 0, 0, 0",
        hands_on(opened, 16, 0, 0, 0),
    )?;
    print_range(rt, opened)?;
    print_others(rt, print_first(rt, opened)?)
}

pub fn print_cases(rt: &impl Print) -> io::Result<()> {
    print_words(rt)?;
    print_order(rt)?;
    print_covers(rt)?;
    print_coverages(rt)?;
    print_openings(rt)?;
    print_row(rt)
}
