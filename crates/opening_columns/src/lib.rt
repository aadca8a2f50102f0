// The columns of an opening: the ids of its layers, and their covers.
#![tactic(auto)]

pub mod collect;
pub mod sums;
