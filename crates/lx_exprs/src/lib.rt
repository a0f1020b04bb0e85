//! What expressions mean: their checks, their terms, and the definitions that they stand on.
#![tactic(auto)]

pub mod copies;
pub mod definitions;
pub mod expressions;
pub mod laws;
pub mod leaves;
pub mod operands;
pub mod points;
pub mod sets;
pub mod tags;
pub mod values;
