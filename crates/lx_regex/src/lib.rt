//! Regular expressions with tags: what an expression matches, and which match of a rule list is meant.
#![tactic(auto)]

pub mod examples;
pub mod expr;
pub mod laws;
pub mod parts;
pub mod rules;

pub use expr::{Expr, nullable, size};
pub use parts::{Part, PartSort, Parts};
pub use rules::{Kind, Rule, RuleSet, Tag};
