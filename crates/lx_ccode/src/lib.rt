//! Emitted pieces of C: their text, which of them are valid, and what they do.
#![tactic(auto)]

pub mod bodies;
pub mod counts;
pub mod examples;
pub mod fronts;
pub mod heads;
mod kinds;
mod labels;
pub mod laws;
mod lines;
pub mod name_sets;
mod numerals;
mod openings;
pub mod piece;
pub mod places;
pub mod printing;
mod sections;

pub use bodies::{Body, FileState, Format, print_body, print_body_piece};
pub use counts::{has_register_one, mregs_of, regs_of, table_size};
pub use fronts::begins_with_piece;
pub use heads::{is_custom, is_three};
pub use kinds::ends_in_code;
pub use labels::block_front;
pub use name_sets::NameSet;
pub use numerals::hexadecimal;
pub use piece::{CodeBlock, CondCase, Head, LineMark, Mode, Piece, StateCase, Stmt, SwitchCase};
pub use places::line_after;
pub use printing::{append_piece, count_statements, print, statements};
