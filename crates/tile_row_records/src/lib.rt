// The work on a tile with a queue that is lent as a slice of carry records, and both operations with an array of them.
// `working::work_tile` reads the records and calls the function over columns.
#![tactic(auto)]

pub mod records;
pub mod working;
