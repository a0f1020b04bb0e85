//! The block trees of bodies: which tokens make definitions, configurations, rules and the texts of directives.
#![tactic(auto)]

mod forms;
mod items;
mod laws;
mod parsing;
mod sorts;
mod states;

pub use items::{BlockTree, Item};
pub use laws::{
    bodies_are_read_or_refused, bodies_have_one_tree, expressions_stand_in_ranges,
    items_name_tokens,
};
pub use parsing::parse;
pub use sorts::{Sort, sort_of};
