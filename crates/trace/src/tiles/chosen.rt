// Which parts of a tile are told, each a bit of a number, and whose paintings.
pub const SEGMENTS: u32 = 1;

pub const TAKEN_IN: u32 = 2;

pub const LIST: u32 = 4;

pub const DECISION: u32 = 8;

pub const CACHED: u32 = 16;
// The line of a painting: mark, octets, clip. Areas and planes stand below such a line.
pub const PAINTED: u32 = 32;

pub const AREAS: u32 = 64;

pub const PLANES: u32 = 128;

pub const HANDED_ON: u32 = 256;

pub const LINE: u32 = 512;

// What is told of a tile: its parts, none of them where it is not chosen, and the layers whose paintings are told.
#[derive(Clone, Copy)]
pub struct Chosen {
    pub parts: u32,
    pub every_layer: bool,
    pub layer: u32,
}

pub fn has(chosen: Chosen, part: u32) -> bool {
    chosen.parts & part != 0
}

// Whether a painting of a layer is told at all.
pub fn has_painting(chosen: Chosen, id: u32) -> bool {
    let any = has(chosen, PAINTED) | has(chosen, AREAS) | has(chosen, PLANES);
    any & (chosen.every_layer | (chosen.layer == id))
}
