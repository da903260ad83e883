// Annotation kinds: the commutative semirings that the whole engine is written over, five of them, and their codes.
#![tactic(auto)]

pub mod clearances;
pub mod codes;
pub mod conditions;
pub mod counts;
pub mod flags;
pub mod pairs;
pub mod semiring;
pub mod words;
