//! The stepper: it runs an emitted piece over a stream, match by match.
#![tactic(auto)]

mod advances;
mod answers;
mod assignments;
mod calls;
mod conds;
mod firsts;
mod giving;
mod histories;
pub mod laws;
mod lexer;
mod matches;
mod numbers;
mod saved;
mod scanner;
mod sizes;
mod slots;
mod states;
mod step;
mod tags;
mod units;

pub use answers::{Group, Outcome, StmtAt};
pub use lexer::{Lexer, resume};
pub use saved::{Saved, fits};
