//! `re2c`: turns C files with blocks of rules into scanners in C.
#![tactic(auto)]

use lx_files::{RealFiles, RealSink};
use lx_top::answer;
use std::alloc::Global;
use std::process::ExitCode;
use std::{env, io};

fn main(rt: HostRuntime) -> ExitCode {
    let mut files = RealFiles::new(&rt);
    let mut out = RealSink::new(rt.stdout());
    let mut err = RealSink::new(rt.stderr());
    ExitCode::from(answer(rt.alloc(), words(&rt), &mut files, &mut out, &mut err))
}

/// The words of the command line behind the program's name. An error of the kind `InvalidData` says that one is no UTF-8.
fn words<R: std::rt::Env + Alloc<A = Global>>(rt: &R) -> io::Result<Vec<String>> {
    let words = env::args(rt)?.skip(1).collect(rt.alloc())?;
    Ok(words)
}
