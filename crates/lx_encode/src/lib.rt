//! Encodings: which code units spell a code point, what becomes of surrogates, and the graph on which an
//! automaton walks through the spellings of a class unit by unit.
#![tactic(auto)]

mod graph;
mod layers;
mod policies;
mod runs;
mod table;
mod units;

pub use graph::{Residual, UnitGraph};
pub use policies::{FIRST_SURROGATE, LAST_SURROGATE, PointStop, REPLACEMENT, all_points, apply};
pub use units::{Units, greatest_point, greatest_unit, unit_bytes, units_of};
