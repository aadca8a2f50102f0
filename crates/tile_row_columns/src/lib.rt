// The work on a tile and the painting of a layer from columns that were read of carry records: as many entries are lent
// as there are records, 256 at most.
#![tactic(auto)]

pub mod painting;
pub mod working;
