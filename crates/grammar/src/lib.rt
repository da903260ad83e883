// The words of a paper: names of kinds and maps, and the mistakes that a paper may have.
#![tactic(auto)]

pub mod mistakes;
pub mod names;
