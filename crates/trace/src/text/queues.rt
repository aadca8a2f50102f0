// A queue of carries: of each its layer and the covers of its 16 pixel rows.
use std::io;

// The cover of a pixel row of an entry, of which there are at most 256.
pub fn cover_in(covers: &[i8], place: usize, y: usize) -> i8 {
    if 256 <= place {
        return 0;
    }
    if 16 <= y {
        return 0;
    }
    crate::text::cover_at(covers, place * 16 + y)
}

fn print_covers(rt: &impl Print, covers: &[i8], place: usize) -> io::Result<()> {
    for y in 0..16 {
        crate::text::print_signed(rt, crate::text::wide(cover_in(covers, place, y)), 5)?;
    }
    crate::text::print(rt, b"\n")
}

fn print_carry(rt: &impl Print, id: u32, covers: &[i8], place: usize) -> io::Result<()> {
    crate::text::print(rt, b"    ")?;
    crate::text::print_right(rt, id as u64, 7)?;
    crate::text::print(rt, b"  ")?;
    print_covers(rt, covers, place)
}

// The first n carries, under a name.
pub fn print_queue(
    rt: &impl Print,
    name: &[u8],
    ids: &[u32],
    covers: &[i8],
    n: usize,
) -> io::Result<()> {
    crate::text::print(rt, name)?;
    crate::text::print_number(rt, n as u64)?;
    crate::text::print(rt, b"\n")?;
    if 0 < n {
        crate::text::print(rt, b"      layer  covers of pixel rows 0 to 15\n")?;
    }
    for i in 0..n {
        print_carry(rt, crate::text::id_at(ids, i), covers, i)?;
    }
    Ok(())
}
