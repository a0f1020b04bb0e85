//! The POSIX order of parses, the laws by which kernels carry it from one unit to the next, and a determinization under it.
#![tactic(auto)]

mod automata;
mod beginnings;
mod closures;
mod courses;
pub mod examples;
mod kept;
pub mod laws;
mod numbers;
mod points;
mod reaches;
mod search;
mod spots;
mod starts;
mod states;

pub use automata::determinize_posix;
