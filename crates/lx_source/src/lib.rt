//! Generated sources: the rules of each one, and what holds of them.
#![tactic(auto)]

pub mod laws;
