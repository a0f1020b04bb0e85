//! How a unit is tested: the transition classes of a state, the runs of units that go one way, and the tests that choose a class.
#![tactic(auto)]

mod asking;
mod case_checks;
mod classes;
mod first_questions;
pub mod laws;
mod left_splits;
mod proposals;
mod test_trees;
mod unit_masks;
mod unit_sets;
mod unit_splits;
mod unit_switches;
mod unit_ways;

pub use asking::{Asking, tests_of};
pub use classes::{TransitionClass, TransitionClasses, class_place, transition_classes};
pub use test_trees::{Question, TestTree, UnitCase};
pub use unit_sets::UnitSets;
pub use unit_splits::same_place;
