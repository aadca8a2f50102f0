// The text that the row program prints for a job text. Definitions in specs/, laws in proofs/. No code.
#![tactic(auto)]
