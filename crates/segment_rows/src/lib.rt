// Rows of packed segments (cpu/pixel_segment.rs): whether they are in order, the searches in them, and the parts of a
// tile or a layer.
#![tactic(auto)]

pub mod order;
pub mod parts;
pub mod search;
