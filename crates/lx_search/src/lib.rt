//! The states of an automaton by a breadth-first search in the order of units: all to which words lead, or those that accept nothing.
#![tactic(auto)]

mod scope;
mod search;
mod words;

pub use scope::{Scope, accepts};
pub use search::{Found, searched};
pub use words::word_to;
