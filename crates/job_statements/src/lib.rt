// What reading a job answers. The contracts and laws are in specs/ and proofs/; the functions are of job_table, job_row
// and job.
#![tactic(auto)]

pub mod row;

use job_text_statements::Head;

// What is told of a job that was read: the numbers of block 1, how many layers the table has, and how many segments the
// row.
#[derive(Clone, Copy)]
pub struct Numbers {
    pub head: Head,
    pub layers: usize,
    pub segments: usize,
}

// Why no job was read.
#[derive(Clone, Copy)]
pub enum JobError {
    // A lent array is too short for the job.
    NoRoom,
    // Refusal 10.
    Malformed,
}
