// The numbers of a load: read from the line that asks for it, drawn by the generator, and put together to a segment's
// line.
#![tactic(auto)]

pub mod draw;
pub mod input;
pub mod segment;
