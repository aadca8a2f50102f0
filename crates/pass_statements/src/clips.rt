// What the second pass, `skip_trivial_clips_pass`, keeps and answers.
use crate::Index;

// The clip that was met last. `last` is wider than an id, so that id + span always fits.
#[derive(Clone, Copy)]
pub struct ActiveClip {
    pub full: bool,
    pub last: u64,
    pub at: Index,
    pub used: bool,
}

// A draw: the clip, now perhaps used; whether the draw is masked off; whether it is drawn unclipped.
#[derive(Clone, Copy)]
pub struct Drawn {
    pub cur: Option<ActiveClip>,
    pub masked: bool,
    pub unclipped: bool,
}

// The clip after a layer that may lie past its end: whether it ended unused, and where it stands.
#[derive(Clone, Copy)]
pub struct Closed {
    pub cur: Option<ActiveClip>,
    pub unused: bool,
    pub at: Index,
}

// One turn of the pass.
#[derive(Clone, Copy)]
pub struct Step {
    pub cur: Option<ActiveClip>,
    pub masked: bool,
    pub unclipped: bool,
    pub unused: bool,
    pub at: Index,
}
