//! Automata with registers: what an emitted scanner is made from.
#![tactic(auto)]

mod automaton;
pub mod examples;
pub mod laws;
mod ops;
mod walks;

pub use automaton::{Accept, Auto, Edge, Held, State};
pub use ops::{Op, Ops};
pub use walks::{edges_of, met_states};
