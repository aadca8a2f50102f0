// What is said of a batch in a run: the calls that it stands for, and that they give what is due. No code stands here.
#![tactic(auto)]
