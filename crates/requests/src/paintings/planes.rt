// W-209, planes row by row: two parts painted into a plane, by NonZero, with the numbers at their places and the mark.
ghost use Rattle.std.specs.Prelude.{◌≤◌};

use cover::Cover;
use std::io;
use styling::FillRule;

// The mark, or 0 after a refusal.
fn paint(word: u64, cover: i8, plane: &mut [f32]) -> u32 {
    let part = [word; 1];
    let incoming = Cover {
        covers: [cover; 16],
    };
    plane::paint_part(&part, incoming, FillRule::NonZero, plane).unwrap_or(0)
}

// Whether all numbers from one place up to another are this one.
fn are_all(plane: &[f32; 256], from: usize, to: usize, number: f32) -> bool
    requires { (from ≤ to) × (to ≤ 256) }
{
    plane[from..to].iter().all(|coverage| *coverage == number)
}

// A segment of cover 16 at column 8 of row 9, and nothing comes in: the row is covered from its column on.
fn print_row_nine(rt: &impl Print) -> io::Result<()> {
    let mut plane = [7.0f32; 256];
    let mark = paint(0x0020020000589810, 0, &mut plane);
    let above = are_all(&plane, 0, 152, 0.0);
    let row = are_all(&plane, 152, 160, 1.0);
    let below = are_all(&plane, 160, 256, 0.0);
    crate::printing::print(rt, b"row 9 is 1 at places 152 to 159", above & row & below)?;
    crate::printing::print(
        rt,
        b"the lower octets of columns 8 to 15",
        mark == 0xAAAA0000,
    )
}

// 16 comes in at each row, and a segment of cover -16 lies at column 3 of row 0: the row is covered up to its column.
fn print_row_zero(rt: &impl Print) -> io::Result<()> {
    let mut plane = [7.0f32; 256];
    let mark = paint(0x0020060000530230, 16, &mut plane);
    let left = are_all(&plane, 0, 3, 1.0);
    let edge = are_all(&plane, 3, 4, 0.75);
    let right = are_all(&plane, 4, 16, 0.0);
    let below = are_all(&plane, 16, 256, 1.0);
    crate::printing::print(
        rt,
        b"row 0 is 1, 0.75 at place 3, then 0",
        left & edge & right & below,
    )?;
    crate::printing::print(rt, b"all octets", mark == 0xFFFFFFFF)
}

pub fn print_cases(rt: &impl Print) -> io::Result<()> {
    print_row_nine(rt)?;
    print_row_zero(rt)
}
