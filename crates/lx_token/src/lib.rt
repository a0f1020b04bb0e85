//! The tokens of a block of rules, and what numbers, bounds, strings and classes among them say.
#![tactic(auto)]

mod blanks;
mod braces;
mod characters;
mod classes;
mod kinds;
mod list;
mod numbers;
mod quoted;
mod signs;
mod unclosed;
mod words;

pub use blanks::{after_blank, after_closing, after_line};
pub use braces::{after_bounds, after_braces, after_literal, after_piece, after_unquoted};
pub use characters::{Character, characters_are_those_of_items, characters_of};
pub use classes::{Class, PointRange, class_of, classes_have_the_ranges_of_their_parts};
pub use kinds::{TokenKind, quoted_texts_are_items};
pub use list::{Token, TokenList, tokens, tokens_stand_in_order};
pub use numbers::{Number, Repeat, number_of, repeat_of};
pub use quoted::hexadecimal_digits_are_one_set;
pub use unclosed::{Unclosed, after_quote};
