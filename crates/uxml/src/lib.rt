// The meaning of annotated trees and forests, of queries, of stores and of their uses. The definitions stand in specs/;
// each function here does nothing, and its contract is a law of theirs, for every lawful kind.
#![tactic(auto)]

pub mod commands;
pub mod equality;
pub mod normal;
pub mod stores;
