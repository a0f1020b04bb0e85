//! Covering words: from the least word of each kernel of a scanner's rules, the first unit of each run of units that lead alike.
//! And the match of a word.
#![tactic(auto)]

mod covering;
mod covers;
mod cursors;
pub mod laws;
mod machine;
mod matches;
mod registers;
mod values;
mod words;
mod writes;

pub use covering::{COVER_LIMIT, CoverStop};
pub use covers::cover;
pub use matches::{CoverMatch, match_word};
pub use values::{TagValue, Values};
pub use words::Words;
