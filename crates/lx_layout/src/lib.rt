//! The emitted piece of an automaton with registers.
#![tactic(auto)]

mod accepts;
mod blocks;
mod copies;
mod demands;
pub mod examples;
mod forgetting;
mod halting;
pub mod laws;
mod number_index;
mod part_ends;
mod part_entries;
mod part_fallback;
pub mod part_laws;
mod part_places;
mod part_states;
mod parts;
pub mod piece_laws;
mod pieces;
mod readers;
mod refills;
mod rule_endings;
mod rule_ends;
pub mod scanner_laws;
mod state_plans;
mod statements;
mod switches;

pub use number_index::NumberIndex;
pub use pieces::{PieceForm, ScannerInput, piece_of};
pub use rule_ends::{EndIndex, RuleEnd, index_of};
pub use switches::{names_register_one, state_cases};
