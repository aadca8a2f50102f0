// The pixels of a tile: doubled areas and weights as numbers, coverages as 16 lines of 16 characters.
use std::io;
use styling::FillRule;

// Where the pixel of a column and a row stands in a plane of coverages.
fn place_of(column: usize, row: usize) -> usize {
    if 16 <= column {
        return 0;
    }
    if 16 <= row {
        return 0;
    }
    row * 16 + column
}

// Where it stands among the doubled areas of a kept set of segments.
fn area_place(column: usize, row: usize) -> usize {
    if 16 <= column {
        return 0;
    }
    if 16 <= row {
        return 0;
    }
    column * 16 + row
}

fn coverage_at(plane: &[f32], place: usize) -> f32 {
    plane.get(place).copied().unwrap_or(0.0)
}

fn area_at(areas: &[i16], place: usize) -> i16 {
    areas.get(place).copied().unwrap_or(0)
}

// The digit of whole tenths from 5 on.
fn upper_digit(coverage: f32) -> u8 {
    if coverage < 0.6 {
        b'5'
    } else if coverage < 0.7 {
        b'6'
    } else if coverage < 0.8 {
        b'7'
    } else if coverage < 0.9 {
        b'8'
    } else {
        b'9'
    }
}

// The digit of whole tenths below 5.
fn lower_digit(coverage: f32) -> u8 {
    if coverage < 0.1 {
        b'0'
    } else if coverage < 0.2 {
        b'1'
    } else if coverage < 0.3 {
        b'2'
    } else if coverage < 0.4 {
        b'3'
    } else {
        b'4'
    }
}

// A point for 0, # for 1, and else the whole tenths. Of the tenths only one half is a whole number of 512ths, and so a
// coverage.
fn character(coverage: f32) -> u8 {
    if coverage <= 0.0 {
        b'.'
    } else if coverage < 0.5 {
        lower_digit(coverage)
    } else if coverage < 1.0 {
        upper_digit(coverage)
    } else {
        b'#'
    }
}

fn print_line(rt: &impl Print, plane: &[f32], row: usize) -> io::Result<()> {
    let mut line = [b' '; 16];
    for (column, byte) in line.iter_mut().enumerate() {
        *byte = character(coverage_at(plane, place_of(column, row)));
    }
    crate::text::print(rt, b"    ")?;
    crate::text::print(rt, &line)?;
    crate::text::print(rt, b"\n")
}

// The coverages of a plane, a line for each pixel row.
pub fn print_plane(rt: &impl Print, plane: &[f32]) -> io::Result<()> {
    for row in 0..16 {
        print_line(rt, plane, row)?;
    }
    Ok(())
}

// The doubled areas of a pixel row.
fn print_areas(rt: &impl Print, areas: &[i16], row: usize) -> io::Result<()> {
    for column in 0..16 {
        crate::text::print_signed(rt, area_at(areas, area_place(column, row)), 6)?;
    }
    crate::text::print(rt, b"\n")
}

// Their weights.
fn print_weights(rt: &impl Print, areas: &[i16], row: usize, rule: FillRule) -> io::Result<()> {
    for column in 0..16 {
        let d = area_at(areas, area_place(column, row));
        crate::text::print_right(rt, weight::weight(d, rule) as u64, 6)?;
    }
    crate::text::print(rt, b"\n")
}

// Whether two pixel rows have the same doubled areas.
fn are_alike(areas: &[i16], row: usize, other: usize) -> bool {
    let mut ok = true;
    for column in 0..16 {
        ok &= area_at(areas, area_place(column, row)) == area_at(areas, area_place(column, other));
    }
    ok
}

// A pixel row by its doubled areas and its weights, unless it is like the row above it.
fn print_row(rt: &impl Print, areas: &[i16], row: usize, rule: FillRule) -> io::Result<()> {
    if 0 < row {
        if are_alike(areas, row, row - 1) {
            return Ok(());
        }
    }
    crate::text::print(rt, b"    row ")?;
    crate::text::print_right(rt, row as u64, 2)?;
    crate::text::print(rt, b" d     ")?;
    print_areas(rt, areas, row)?;
    crate::text::print(rt, b"           weight")?;
    print_weights(rt, areas, row, rule)
}

// The pixel rows of a tile. One that is like the row above it is left out.
pub fn print_rows(rt: &impl Print, areas: &[i16], rule: FillRule) -> io::Result<()> {
    for row in 0..16 {
        print_row(rt, areas, row, rule)?;
    }
    Ok(())
}
