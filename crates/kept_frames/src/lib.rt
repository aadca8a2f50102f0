// A tile from frame to frame: when a tile that is kept shows what drawing it afresh would. No code stands here.
#![tactic(auto)]
