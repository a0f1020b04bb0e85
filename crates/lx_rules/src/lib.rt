//! What a block of definitions and rules resolves to: the rule lists of its scanners, and the actions.
#![tactic(auto)]

mod acts;
mod conditions;
mod configurations;
mod copies;
pub mod environment;
mod finishing;
mod heads;
mod items;
mod kept;
mod labels;
mod laws;
mod lists;
mod opening;
pub mod resolved;
pub mod resolving;
mod rule_exprs;
mod scanners;
mod words;

pub use configurations::bytes_of;
pub use environment::Env;
pub use laws::{
    block_faults_stand_in_the_file_of_the_opener, blocks_resolve_in_one_way,
    blocks_resolve_or_have_a_fault, resolved_blocks_are_well_formed,
};
pub use resolved::{Act, Config, Resolved, Scanner, end_rule, numbered_act};
pub use resolving::resolve;
