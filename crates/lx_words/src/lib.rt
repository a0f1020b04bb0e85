//! The words of the command line: what they ask for, and which of them are refused.
#![tactic(auto)]

mod command;
pub mod laws;
mod line;
mod numbers;
mod options;
mod points;
mod words;

pub use words::read_words;
