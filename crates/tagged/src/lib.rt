// The rule for one tagged word: a value with a full/empty state, and the seventeen operations on it.
#![tactic(auto)]

pub mod answers;
pub mod operations;
pub mod refusals;
pub mod rule;
pub mod words;
