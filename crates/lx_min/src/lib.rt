//! Minimization of automata with registers: states that no word tells apart become one.
#![tactic(auto)]

mod accept_numbers;
mod canonical;
mod distances;
mod joined;
pub mod laws;
mod list_numbers;
mod looks;
mod merging;
mod minimization;
mod numbering;
mod partitions;
mod rounds;
mod signatures;
mod splits;

pub use minimization::minimize;
