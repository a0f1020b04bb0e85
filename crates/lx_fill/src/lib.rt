//! Checks before refills: at which states a scanner asks for more units, and for how many.
#![tactic(auto)]

mod fill;
pub mod laws;
mod longest;
mod search;

pub use fill::{CheckList, checks, max_fill};
