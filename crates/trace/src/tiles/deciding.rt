// The decision about a tile and its cached tile, told; a solid tile is settled.
use cached_tile::kept::{Kept, Settlement};
use pass_statements::decide::Decision;
use std::io;
use styling::Color;

// A channel in whole 256ths, at most 256.
fn in_256ths(channel: f32) -> u16 {
    (0..256)
        .find(|k: &u16| channel <= (*k as f32) * 0.00390625)
        .unwrap_or(256)
}

fn print_channel(rt: &impl Print, channel: f32) -> io::Result<()> {
    crate::text::print(rt, b" ")?;
    crate::text::print_number(rt, in_256ths(channel) as u64)
}

fn print_solid(rt: &impl Print, bottom: Color, first: usize) -> io::Result<()> {
    crate::text::print(rt, b"solid, bottom colour in 256ths")?;
    print_channel(rt, bottom.r)?;
    print_channel(rt, bottom.g)?;
    print_channel(rt, bottom.b)?;
    print_channel(rt, bottom.a)?;
    crate::text::print(rt, b", shown layers before those to mix above it: ")?;
    crate::text::print_number(rt, first as u64)
}

pub fn print_decision(rt: &impl Print, decision: Decision) -> io::Result<()> {
    crate::text::print(rt, b"  decision: ")?;
    match decision {
        Decision::None => crate::text::print(rt, b"none")?,
        Decision::Solid(bottom, first) => print_solid(rt, bottom, first)?,
        Decision::Paint => crate::text::print(rt, b"paint")?,
    }
    crate::text::print(rt, b"\n")
}

pub fn print_word(rt: &impl Print, decision: Decision) -> io::Result<()> {
    match decision {
        Decision::None => crate::text::print(rt, b" none "),
        Decision::Solid(_, _) => crate::text::print(rt, b" solid "),
        Decision::Paint => crate::text::print(rt, b" paint "),
    }
}

// Beside `row_driver`'s: its clause cites `is_paint` of row_lines, and this program asks for neither crate.
pub fn is_paint(decision: Decision) -> bool {
    match decision {
        Decision::None => false,
        Decision::Solid(_, _) => false,
        Decision::Paint => true,
    }
}

fn print_byte(rt: &impl Print, byte: u8) -> io::Result<()> {
    crate::text::print(rt, b" ")?;
    crate::text::print_number(rt, byte as u64)
}

// The eight bytes of a cached tile, under a name.
pub fn print_cached(rt: &impl Print, name: &[u8], kept: Kept) -> io::Result<()> {
    let tile = kept.tile;
    let count = tile.layer_count;
    let color = tile.solid_color;
    crate::text::print(rt, name)?;
    print_byte(rt, tile.tags)?;
    print_byte(rt, count[0])?;
    print_byte(rt, count[1])?;
    print_byte(rt, count[2])?;
    print_byte(rt, color[0])?;
    print_byte(rt, color[1])?;
    print_byte(rt, color[2])?;
    print_byte(rt, color[3])?;
    crate::text::print(rt, b"\n")
}

fn print_settlement(rt: &impl Print, settlement: Settlement) -> io::Result<()> {
    match settlement {
        Settlement::Write => crate::text::print(rt, b"  settled with 0 0 0 255: write\n"),
        Settlement::Keep => crate::text::print(rt, b"  settled with 0 0 0 255: keep\n"),
        Settlement::TagOutOfRange => crate::text::print(rt, b"  settled: refused 6\n"),
    }
}

// Settles a solid tile. A job's colours are black at some alpha, and its clear colour is opaque black: whatever is
// mixed, the tile's display bytes are 0, 0, 0, 255.
pub fn settle(rt: &impl Print, decision: Decision, kept: Kept, told: bool) -> io::Result<Kept> {
    match decision {
        Decision::None => Ok(kept),
        Decision::Solid(_, _) => {
            let settled = row_working::settle(kept, [0, 0, 0, 255]);
            let settlement = settled.settlement;
            let after = settled.kept;
            if told {
                print_settlement(rt, settlement)?;
            }
            Ok(after)
        }
        Decision::Paint => Ok(kept),
    }
}
