//! The compilation of one source: its texts outside of blocks, with an emitted piece in the place of each block.
#![tactic(auto)]

mod automata;
mod blocks;
mod bodies;
mod compiling;
mod cover_lines;
mod covered;
mod determinized;
mod directives;
mod facts;
pub mod laws;
mod made;
mod making;
mod parts;
mod reduction;
mod walk;
mod warned;
mod warning_lines;
mod writing;

pub use compiling::{Compiled, compile};
pub use made::Made;
pub use parts::{Content, Directive, Part};
pub use warned::{PlacedWarning, tells_warnings};
pub use warning_lines::warning_line;
