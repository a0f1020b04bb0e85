//! Reads emitted pieces back from the bytes of an output.
#![tactic(auto)]

mod blocks;
mod cases;
mod conds;
pub mod find;
mod heads;
mod labels;
pub mod laws;
mod lines;
mod marks;
mod openings;
pub mod read;
mod reading;
mod rules;
mod sections;
mod statements;
mod states;
mod switches;
mod validity;
mod words;

pub use find::find_block;
pub use read::{PieceStop, read_piece};
