//! Why a file is none of cases, or a case cannot be run.

use lx_base::Memory;
use std::alloc::{AllocError, AllocFailed};

/// What is wrong with a line or with a case; or memory is wanting.
#[derive(Clone, Copy)]
pub enum CaseError {
    Memory,
    Malformed(&'static str),
}

impl From<AllocError> for CaseError {
    fn from(_: AllocError) -> CaseError {
        CaseError::Memory
    }
}

impl<T: Drop> From<AllocFailed<T>> for CaseError {
    fn from(_: AllocFailed<T>) -> CaseError {
        CaseError::Memory
    }
}

impl From<Memory> for CaseError {
    fn from(_: Memory) -> CaseError {
        CaseError::Memory
    }
}

impl CaseError {
    /// What is told of it.
    pub fn text(self) -> &'static str {
        match self {
            CaseError::Memory => "out of memory",
            CaseError::Malformed(text) => text,
        }
    }
}
