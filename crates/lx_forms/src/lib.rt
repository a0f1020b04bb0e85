//! The forms of expressions: which token is an operand of which sign, and the steps in which an expression is read.
#![tactic(auto)]

pub mod laws;
pub mod lexemes;
pub mod steps;
