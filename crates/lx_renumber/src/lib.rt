//! Automata of rules that differ from those of another automaton in their numbers alone.
#![tactic(auto)]

mod copies;
mod expressions;
mod repeats;
mod rules;

pub use copies::renumbered;
pub use repeats::Repeats;
pub use rules::difference;
