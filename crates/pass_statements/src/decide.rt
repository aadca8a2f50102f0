// The decision about a tile.
use crate::Index;
use styling::Color;

// Nothing is drawn; the tile has one colour, mixed over the bottom colour from the shown layers after the first so
// many; or it is painted.
#[derive(Clone, Copy)]
pub enum Decision {
    None,
    Solid(Color, usize),
    Paint,
}

#[derive(Clone, Copy)]
pub struct Decided {
    pub decision: Decision,
    pub skipped: Index,
}

// Settled with no look at the colours, or a bottom colour and how many shown layers are not mixed above it.
#[derive(Clone, Copy)]
pub enum Bottom {
    Settled(Decision),
    Under(Color, usize),
}
