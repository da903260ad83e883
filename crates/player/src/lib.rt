// Plays a paper: reads its annotations, maps them, adds them up and multiplies them, and tells in words what came out.
#![tactic(auto)]

pub mod items;
pub mod play;
