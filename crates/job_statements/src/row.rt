// A line's numbers, as packing takes them.
#[derive(Clone, Copy)]
pub struct Fields {
    pub tile_x: i16,
    pub layer: u32,
    pub x: u8,
    pub y: u8,
    pub rows: u8,
    pub mult: u8,
    pub cover: i8,
}
