// Trees, queries and refusals, and the bytes of documents and queries: what they read as, and how they are written.
#![tactic(auto)]

pub mod commands;
pub mod events;
pub mod laws;
pub mod refusals;
