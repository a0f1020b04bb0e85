//! Warnings of a scanner: rules that are never entered, rules that match the empty word, and the first input that nothing matches.
#![tactic(auto)]

mod dead_words;
mod entered;
mod gaps;
mod lists;

pub use lists::{Warning, WarningList, warnings};
