// Any list of calls of a row through the exports, told by numbers and lent slices alone: specs/ says what is right of
// each, and proofs/ has the theorems. There is no code.
#![tactic(auto)]
