// What is said of two rows worked beside each other. No code stands here.
#![tactic(auto)]
