// Covers known within bounds: what is said of them. specs/ has the definitions, proofs/ the laws. No code.
#![tactic(auto)]
