// The layers of one tile (painter/layer_workbench/mod.rs), met one after the other. The list, the carries handed on and
// the passes are crates of their own.
#![tactic(auto)]

pub mod walk;
