//! The limits of sources, scanners and emitted pieces. Contracts cite them by name.

/// How many bytes a source may have.
pub const SOURCE_LIMIT: usize = 16_777_216;

/// The greatest size that the rules of a scanner may have together.
pub const SIZE_LIMIT: u64 = 4096;

/// The greatest number in the bounds of a repetition.
pub const BOUND_LIMIT: u64 = 4096;

/// How deep the expressions of a scanner may be nested.
pub const NESTING_LIMIT: u64 = 256;

/// How many tags the rules of a scanner may have.
pub const TAG_LIMIT: u64 = 128;

/// How many kernels, and so states, a scanner may have.
pub const KERNEL_LIMIT: usize = 4096;

/// How many places the kernels of a scanner may have together.
pub const PLACE_LIMIT: usize = 1_048_576;

/// The greatest number of a register or a history.
pub const REGISTER_LIMIT: u32 = 4_294_967_295;

/// How many statements an emitted piece may have: 2^62.
pub const STATEMENT_LIMIT: u64 = 4_611_686_018_427_387_904;
