// What the third pass, `skip_fully_covered_layers_pass`, answers.
use crate::Index;
use styling::Color;

// The first cover that tells whether the tile can be solid.
#[derive(Clone, Copy)]
pub enum InterestingCover {
    Absent,
    Opaque(Color),
    Incomplete,
}

// What the pass has found so far.
#[derive(Clone, Copy)]
pub struct Covered {
    pub first: InterestingCover,
    pub unchanged: bool,
    pub skipped: Index,
}
