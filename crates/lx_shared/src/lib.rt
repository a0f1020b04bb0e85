//! Values with several owners: what stands in many places of a compilation, as the text of an action, is held once.
#![tactic(auto)]

mod shares;

pub use shares::{Shared, SharedText};
