//! Determinization of the tagged automaton of a rule list: an automaton with registers that tells the best values.
#![tactic(auto)]

mod automata;
mod cuts;
mod edges;
mod kernels;
pub mod laws;
mod lists;
mod marks;
mod operations;
mod states;
mod steps;

pub use automata::determinize;
pub use cuts::{last_unit, merged_cuts};
pub use edges::push_edge;
pub use kernels::Kernels;
pub use lists::Lists;
pub use states::Source;
pub use steps::{Ending, Step, first_ending, next_steps, step_places};
