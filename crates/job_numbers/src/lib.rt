// The lines of a job as they lie in lists of numbers: read, judged, and counted.
#![tactic(auto)]

pub mod layer;
pub mod segment;
