//! The files and the sinks of one run.

use case_reports::CaseError;
use lx_base::Memory;
use lx_files::{Files, MemFiles, MemSink, ReadAnswer};
use lx_top::re2c;
use std::alloc::Global;

/// The calls that fail in a run, by their numbers from 0.
#[derive(Clone, Copy)]
pub struct Failing {
    pub files: Option<u64>,
    pub out: Option<u64>,
    pub err: Option<u64>,
}

/// No call fails.
pub const NONE: Failing = Failing {
    files: None,
    out: None,
    err: None,
};

/// The files in memory, the standard output and the standard error of a run.
pub struct Stage {
    pub files: MemFiles,
    pub out: MemSink,
    pub err: MemSink,
}

impl Drop for Stage {
    fn drop(self) {
        let Self {
            files: _,
            out: _,
            err: _,
        } = self;
    }
}

impl Stage {
    /// No files, and empty sinks.
    pub fn new(alloc: Global, failing: Failing) -> Result<Stage, Memory> {
        let mut files = MemFiles::new(alloc);
        if let Some(call) = failing.files {
            files.fail_call(call)?;
        }
        let out = sink(alloc, failing.out)?;
        let err = sink(alloc, failing.err)?;
        Ok(Stage { files, out, err })
    }

    /// Runs the program with these words, and answers its exit status.
    pub fn run(&mut self, alloc: Global, words: &[String]) -> u8 {
        re2c(alloc, words, &mut self.files, &mut self.out, &mut self.err)
    }

    /// The bytes of a file. A read counts as a call, and the call that was to fail may still be ahead, so it is tried twice.
    pub fn read(&mut self, alloc: Global, name: &str) -> Result<Option<Vec<u8>>, CaseError> {
        match self.files.read(alloc, name) {
            Ok(bytes) => Ok(Some(bytes)),
            Err(ReadAnswer::Failed) => self.read_again(alloc, name),
            Err(answer) => no_bytes(answer),
        }
    }

    fn read_again(&mut self, alloc: Global, name: &str) -> Result<Option<Vec<u8>>, CaseError> {
        match self.files.read(alloc, name) {
            Ok(bytes) => Ok(Some(bytes)),
            Err(answer) => no_bytes(answer),
        }
    }
}

fn no_bytes(answer: ReadAnswer) -> Result<Option<Vec<u8>>, CaseError> {
    match answer {
        ReadAnswer::Missing => Ok(None),
        ReadAnswer::Memory => Err(CaseError::Memory),
        ReadAnswer::Failed => Err(CaseError::Malformed("a call fails behind its run")),
    }
}

fn sink(alloc: Global, failing: Option<u64>) -> Result<MemSink, Memory> {
    let mut sink = MemSink::new(alloc);
    if let Some(call) = failing {
        sink.fail_call(call)?;
    }
    Ok(sink)
}
