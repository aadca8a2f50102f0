// What is said of the keep rule for the tiles of a row. No code stands here.
#![tactic(auto)]
