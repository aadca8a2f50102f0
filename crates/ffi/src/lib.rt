// The public operations for programs in other languages, which ffi_c exports under the same names: each function
// takes numbers and slices, and gives numbers and lent slices. An answer is told by its number in the table of
// refusals, 0 where it is none (ffi_numbers/specs/Numbers.antt). Nothing is decided here: each function refuses what
// the operation below it refuses, and nothing else.
#![tactic(auto)]

pub mod batches;
pub mod bounds;
pub mod cached;
pub mod counts;
pub mod covers;
pub mod deciding;
pub mod four_high;
pub mod four_high_rows;
pub mod layers;
pub mod listing;
pub mod painting;
pub mod plates;
pub mod rows;
pub mod sets;
pub mod standing;
pub mod version;
pub mod words;
pub mod working;
