// Any list of listings, decidings, works and paintings after an accepted opening: specs/ says what is due of each, and
// proofs/ has the theorem. There is no code.
#![tactic(auto)]
