// Which layer record stands: what the operation answers, and where its walk stands. What it promises is in specs/, the
// laws are in proofs/; the functions are of revisions.
#![tactic(auto)]

// The record that a walk has come to: its layer and revision in one number, and its place among the records. The
// greatest number is past every record, and then the place plays no part.
#[derive(Clone, Copy)]
pub struct Reached {
    pub key: u64,
    pub at: usize,
}

// How many layers and revisions there are, and how many records stand.
#[derive(Clone, Copy)]
pub struct Counted {
    pub own: usize,
    pub standing: usize,
}
