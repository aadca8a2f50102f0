// What the definitions and proofs of several crates share and no one concept owns: definitions in specs/, laws in
// proofs/. No code.
#![tactic(auto)]
