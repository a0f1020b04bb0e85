//! Sets of code points, kept as sorted ranges: the classes of regular expressions.
#![tactic(auto)]

mod ranges;
mod sets;

pub use ranges::{MAX_POINT, Range};
pub use sets::{ClassSet, same_points_same_ranges};
