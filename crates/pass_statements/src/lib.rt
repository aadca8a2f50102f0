// What the passes read and answer. The contracts and laws are in specs/ and proofs/; the functions are of the crates
// that use it: tile_unchanged, trivial_clip_steps, full_cover_steps and passes.
#![tactic(auto)]

pub mod clips;
pub mod covered;
pub mod decide;
pub mod item;

// A position in the list. It is not a layer id.
#[derive(Clone, Copy)]
pub struct Index(pub usize);
