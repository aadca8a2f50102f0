// What reading a job text answers. The contracts and laws are in specs/ and proofs/; the functions are of job_blocks,
// job_numbers and job_text.
#![tactic(auto)]

// The numbers of block 1.
#[derive(Clone, Copy)]
pub struct Head {
    pub row: i32,
    pub tiles: i32,
    pub from: i32,
    pub to: i32,
}

// How long a job is: how many layers it has, how many lines of segments, and how many segments these stand for.
#[derive(Clone, Copy)]
pub struct Counts {
    pub layers: usize,
    pub lines: usize,
    pub segments: usize,
}
