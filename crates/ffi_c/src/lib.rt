// The exports of ffi as a static library for C: each calls the function of ffi that has its name, and promises what that
// promises.
#![tactic(auto)]

pub mod batches;
pub mod bounds;
pub mod cached;
pub mod counts;
pub mod covers;
pub mod deciding;
pub mod four_high;
pub mod four_high_rows;
pub mod layers;
pub mod listing;
pub mod painting;
pub mod plates;
pub mod rows;
pub mod sets;
pub mod standing;
pub mod version;
pub mod words;
pub mod working;
