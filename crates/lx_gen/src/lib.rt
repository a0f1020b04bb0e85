//! The emitted piece of a block of scanners.
#![tactic(auto)]

mod automata;
mod contexts;
mod generating;
mod scanner_ends;

pub use automata::ScannerAuto;
pub use generating::{Generated, generate};
pub use scanner_ends::{Marks, rule_ends};
