// A load that can be made again: the generator, the job that it makes, the line that asks for one, and what holds of
// every load. Definitions in specs/, laws in proofs/. No code but the type of what a line asks for.
#![tactic(auto)]

// What a load is made from: the seed, the number of tiles and the number of segments.
#[derive(Clone, Copy)]
pub struct Asked {
    pub seed: u32,
    pub tiles: u32,
    pub count: u32,
}
