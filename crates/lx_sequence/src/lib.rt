//! Operations that act at once, as operations that act one by one.
#![tactic(auto)]

mod copy_sequences;
pub mod examples;
pub mod laws;
mod sequences;

pub use sequences::sequence;
