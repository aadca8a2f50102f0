// Painting one layer in one tile (`paint_layer` of painter/mod.rs), without colours: its coverages, its mark, and the
// painter's clip after it.
#![tactic(auto)]

pub mod clips;
pub mod freed;
pub mod painting;
