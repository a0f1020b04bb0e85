//! Places of kernels, with what is kept of them.
use lx_tnfa::Place;

/// A place of a kernel, and what is kept of it. A list of these decides what comes after each unit.
#[derive(Clone, Copy, PartialEq, Eq, Hash)]
pub(crate) struct Kept {
    pub place: Place,
    /// How many parts are open there.
    pub depth: u32,
    /// The number that it has with the place before it; 0 where that is not of its rule.
    pub number: u32,
}
