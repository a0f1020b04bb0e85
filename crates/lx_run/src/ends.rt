//! How a run ends.

/// How a run ended.
#[derive(Clone, Copy, Debug, PartialEq, Eq)]
pub enum RunEnd {
    /// The whole text was given.
    Done,
    /// A token does not fit the window: so many units would stay in it and so many are needed beside them, and this is its size. The lines
    /// of the matches before were given. All three count units.
    WindowFull { kept: u64, need: u64, size: u64 },
    /// The sink failed, and a front of the text was given.
    PutFailed,
    /// Memory ran out, and a front of the text was given.
    Memory,
}
