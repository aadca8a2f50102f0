// Worked examples of painted planes, run.
pub mod languages;
pub mod planes;
