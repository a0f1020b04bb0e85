//! What stands at a place before and after a run.

use crate::cases::{Alteration, Extent};
use crate::outcome::{Difference, difference};
use case_reports::CaseError;
use std::alloc::{AllocError, Global};
use std::mem;

/// A sink or a file: its name, what stood there before the last run, what that run left there, what the next run finds in the place of
/// this, and whether what was left was compared.
pub struct Seen {
    pub name: String,
    before: Option<Vec<u8>>,
    bytes: Option<Vec<u8>>,
    altered: Option<Vec<u8>>,
    compared: bool,
}

impl Drop for Seen {
    fn drop(self) {
        let Self {
            name: _,
            before: _,
            bytes: _,
            altered: _,
            compared: _,
        } = self;
    }
}

impl Seen {
    /// A place at which these bytes stand, or nothing.
    pub fn new(alloc: Global, name: &str, bytes: Option<Vec<u8>>) -> Result<Seen, AllocError> {
        Ok(Seen {
            name: String::from_str(alloc, name)?,
            before: None,
            bytes,
            altered: None,
            compared: true,
        })
    }

    /// Puts these bytes there before a run.
    pub fn give(&mut self, bytes: Vec<u8>) {
        self.bytes = Some(bytes);
        self.altered = None;
    }

    /// Alters what the next run finds there, which is a file that reaches to the place of this.
    pub fn alter(&mut self, alloc: Global, alteration: Alteration) -> Result<(), CaseError> {
        let Some(bytes) = self.found() else {
            return Err(CaseError::Malformed("no such file is there"));
        };
        let mut bytes = Vec::from_slice(alloc, bytes)?;
        alter(&mut bytes, alteration)?;
        self.altered = Some(bytes);
        Ok(())
    }

    /// What the next run finds there.
    pub fn found(&self) -> Option<&[u8]> {
        match &self.altered {
            Some(bytes) => Some(bytes.as_slice()),
            None => as_bytes(&self.bytes),
        }
    }

    /// Takes note of what a run left there. What it left as it was altered is again as it was before.
    pub fn leave(&mut self, bytes: Option<Vec<u8>>) {
        let altered = self.altered.take();
        if altered.is_some() && altered == bytes {
            return;
        }
        self.before = mem::replace(&mut self.bytes, bytes);
        self.compared = false;
    }

    /// How what the last run left there differs from the content that was wanted.
    pub fn compare(
        &mut self,
        alloc: Global,
        extent: Extent,
        content: &[u8],
    ) -> Result<Difference, AllocError> {
        self.compared = true;
        let got = as_bytes(&self.bytes);
        difference(alloc, self.name.as_str(), extent, content, got)
    }

    /// How what the last run left there differs from what stood there before, where it was not compared yet.
    pub fn compare_unchanged(&mut self, alloc: Global) -> Result<Difference, AllocError> {
        if self.compared {
            return Ok(None);
        }
        self.compared = true;
        let (name, got) = (self.name.as_str(), as_bytes(&self.bytes));
        match &self.before {
            None => difference(alloc, name, Extent::Absent, b"", got),
            Some(wanted) => difference(alloc, name, Extent::Whole, wanted.as_slice(), got),
        }
    }
}

fn alter(bytes: &mut Vec<u8>, alteration: Alteration) -> Result<(), CaseError> {
    match alteration {
        Alteration::Cut(length) if length <= bytes.len() => {
            bytes.truncate(length);
            Ok(())
        }
        Alteration::Set(place, byte) if place < bytes.len() => {
            bytes[place] = byte;
            Ok(())
        }
        _ => Err(CaseError::Malformed("the file ends before this place")),
    }
}

fn as_bytes(bytes: &Option<Vec<u8>>) -> Option<&[u8]> {
    match bytes {
        None => None,
        Some(bytes) => Some(bytes.as_slice()),
    }
}
