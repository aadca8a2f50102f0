// What is said of a driven row: a line for each tile. No code stands here.
#![tactic(auto)]

// The line of a tile: the decision (0 none, 1 solid, 2 paint), layers listed, layers shown, used octets, carries handed
// on.
#[derive(Clone, Copy)]
pub struct Line {
    pub decision: u32,
    pub listed: u32,
    pub shown: u32,
    pub octets: u32,
    pub carried: u32,
}
