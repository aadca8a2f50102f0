// The lines of a job text: a layer, a segment, and the rules on their values.
#![tactic(auto)]

pub mod layer;
pub mod range;
pub mod segment;
