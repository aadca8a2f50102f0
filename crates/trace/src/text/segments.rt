// The words of a part by their seven fields.
use pixel_segment::PixelSegment;
use std::io;

fn print_word(rt: &impl Print, word: u64) -> io::Result<()> {
    let segment = PixelSegment(word);
    crate::text::print(rt, b"    ")?;
    crate::text::print_hex(rt, word, 16)?;
    crate::text::print_signed(rt, segment.tile_y(), 7)?;
    crate::text::print_signed(rt, segment.tile_x(), 7)?;
    crate::text::print_right(rt, segment.layer_id() as u64, 8)?;
    crate::text::print_right(rt, segment.local_x() as u64, 4)?;
    crate::text::print_right(rt, segment.local_y() as u64, 4)?;
    crate::text::print_right(rt, segment.double_area_multiplier() as u64, 6)?;
    crate::text::print_signed(rt, crate::text::wide(segment.cover()), 6)?;
    crate::text::print_signed(rt, segment.double_area(), 6)?;
    crate::text::print(rt, b"\n")
}

pub fn print_part(rt: &impl Print, part: &[u64]) -> io::Result<()> {
    crate::text::print(rt, b"  segments: ")?;
    crate::text::print_number(rt, part.len() as u64)?;
    crate::text::print(rt, b"\n")?;
    if !part.is_empty() {
        crate::text::print(
            rt,
            b"    word               tile_y tile_x   layer   x   y  mult cover  area\n",
        )?;
    }
    for word in part {
        print_word(rt, *word)?;
    }
    Ok(())
}
