// Answers, states and cached tiles as numbers, written into lent memory and read from it, for the exported functions.
#![tactic(auto)]

pub mod cached;
pub mod counts;
pub mod four_high;
pub mod plates;
pub mod rows;
pub mod words;
