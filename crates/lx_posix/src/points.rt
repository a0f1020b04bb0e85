//! Where walks begin and end.
use lx_tnfa::Place;

/// Where a walk begins or ends.
#[derive(Clone, Copy, PartialEq, Eq, Hash)]
pub(crate) enum Point {
    /// At the state with this number.
    State(u32),
    /// In the middle of a leaf.
    Within(Place),
}

/// A place of a kernel, as that from which walks begin, and what is kept of it. Before all units each rule has one.
#[derive(Clone, Copy)]
pub(crate) struct Beginning {
    /// Where they begin.
    pub at: Point,
    /// How many parts are open behind it.
    pub depth: u32,
    /// How many parts are open in the place.
    pub open: u32,
    /// The number that it has with the place before it; 0 where that is not of its rule.
    pub number: u32,
}
