//! The kinds of blocks.

/// The kinds of blocks of a source. `Enter` and `Leave` stand around the pieces of an included file.
#[derive(Clone, Copy, Debug, PartialEq, Eq)]
pub enum BlockKind {
    Code,
    Rules,
    Use,
    Max,
    MaxNmatch,
    Stags,
    Mtags,
    Types,
    GetState,
    Ignore,
    Include,
    Enter,
    Leave,
}
