// The carries of a row that is worked from its opening on, tile after tile, and what the whole row says of them.
// Definitions in specs/, laws in proofs/. No code.
#![tactic(auto)]
