// Words of a text with their lines and columns, and the numbers that words write.
#![tactic(auto)]

pub mod numbers;
pub mod split;
pub mod words;
