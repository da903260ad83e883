// Reads a paper, a plain text that a user writes, and says by line and column what is wrong with it.
#![tactic(auto)]

pub mod statements;
