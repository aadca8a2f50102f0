// Tiles that are kept along rows, from frame to frame. No code stands here.
#![tactic(auto)]
