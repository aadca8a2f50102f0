// The optimisation passes over a tile's list (painter/layer_workbench/passes/) and the decision that they come to. They
// read the entries of the list, the layer table, the clear colours and the count that was kept, never the segments.
#![tactic(auto)]

pub mod clips;
pub mod covered;
pub mod decide;
