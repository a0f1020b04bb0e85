//! The program as one call.
ghost use Rattle.std.specs.Prelude.{◌≡◌, ◌≢◌, map, string_bytes};
ghost use Rattle.lx_top.specs.Endings.{Answers, Ends, EndsSo, RefusesWords};
ghost use Rattle.lx_top.specs.Outside.{files_view, outside, sink_view};

use crate::endings::{Ending, Halt};
use crate::jobs::perform;
use crate::report::report;
use crate::warnings::tell_warnings;
use lx_base::{Fault, FileNames};
use lx_files::{Files, Sink};
use std::alloc::Global;
use std::io;
use std::io::ErrorKind;

/// The status where memory ran out before the words were had.
const OUT_OF_MEMORY: u8 = 4;

/// The status where the words could not be had for any other cause, but that one is no UTF-8.
const NO_WORDS: u8 = 5;

/// Answers the exit status to the words of the command line behind the program's name, or to the error by which they could not be had.
///
/// `out` is the standard output and `err` the standard error. An error of the kind `InvalidData` says that a word is no UTF-8. What each
/// status promises is said by `Answers`.
pub fn answer<F: Files, O: Sink, E: Sink>(
    alloc: Global,
    words: io::Result<Vec<String>>,
    files: &mut F,
    out: &mut O,
    err: &mut E,
) -> u8
    ensures answers { let files_before = files_view (F.held files.old) (F.faults files.old) (F.write_faults files.old) in
        let files_after = files_view (F.held files.new) (F.faults files.new) (F.write_faults files.new) in
        let out_before = sink_view (O.given out.old) (O.faults out.old) (O.wants out.old) in
        let out_after = sink_view (O.given out.new) (O.faults out.new) (O.wants out.new) in
        let err_before = sink_view (E.given err.old) (E.faults err.old) (E.wants err.old) in
        let err_after = sink_view (E.given err.new) (E.faults err.new) (E.wants err.new) in
        Answers words (outside files_before out_before err_before) (outside files_after out_after err_after) result }
{
    match words {
        Ok(words) => re2c(alloc, words.as_slice(), files, out, err),
        Err(error) => status_without_words(alloc, error.kind(), err),
    }
}

/// The exit status where the words could not be had: a word that is no UTF-8 is refused as a faulty command line.
fn status_without_words<E: Sink>(alloc: Global, kind: ErrorKind, err: &mut E) -> u8
    ensures no_text { kind ≡ ErrorKind.InvalidData → RefusesWords (sink_view (E.given err.old) (E.faults err.old) (E.wants err.old)) (sink_view (E.given err.new) (E.faults err.new) (E.wants err.new)) result }
    ensures memory { kind ≡ ErrorKind.OutOfMemory → (result ≡ OUT_OF_MEMORY) × (sink_view (E.given err.new) (E.faults err.new) (E.wants err.new) ≡ sink_view (E.given err.old) (E.faults err.old) (E.wants err.old)) }
    ensures other { kind ≢ ErrorKind.InvalidData → kind ≢ ErrorKind.OutOfMemory → (result ≡ NO_WORDS) × (sink_view (E.given err.new) (E.faults err.new) (E.wants err.new) ≡ sink_view (E.given err.old) (E.faults err.old) (E.wants err.old)) }
{
    match kind {
        ErrorKind::InvalidData => refuse_words(alloc, err),
        ErrorKind::OutOfMemory => OUT_OF_MEMORY,
        _ => NO_WORDS,
    }
}

/// Does all that the program does, and answers the exit status: 0 done, 1 refused, 2 a read failed, 3 a put or a
/// write failed, 4 memory ran out.
///
/// `words` are the words of the command line behind the program's name, `out` is the standard output and `err` the
/// standard error. What each status promises is said by `Ends`.
pub fn re2c<F: Files, O: Sink, E: Sink>(
    alloc: Global,
    words: &[String],
    files: &mut F,
    out: &mut O,
    err: &mut E,
) -> u8
    ensures ends { let files_before = files_view (F.held files.old) (F.faults files.old) (F.write_faults files.old) in
        let files_after = files_view (F.held files.new) (F.faults files.new) (F.write_faults files.new) in
        let out_before = sink_view (O.given out.old) (O.faults out.old) (O.wants out.old) in
        let out_after = sink_view (O.given out.new) (O.faults out.new) (O.wants out.new) in
        let err_before = sink_view (E.given err.old) (E.faults err.old) (E.wants err.old) in
        let err_after = sink_view (E.given err.new) (E.faults err.new) (E.wants err.new) in
        Ends (map string_bytes words.now) (outside files_before out_before err_before) (outside files_after out_after err_after) result }
{
    run(alloc, words, files, out, err).status()
}

/// Refuses a command line of which a word is no UTF-8, as any faulty one, by `re2c: error: usage` at the standard error.
///
/// The exit status is 1; or 3 where the put failed, or 4 where memory ran out on the way to say so.
pub fn refuse_words<E: Sink>(alloc: Global, err: &mut E) -> u8
    ensures refuses { RefusesWords (sink_view (E.given err.old) (E.faults err.old) (E.wants err.old)) (sink_view (E.given err.new) (E.faults err.new) (E.wants err.new)) result }
{
    let names = FileNames::new(alloc);
    report(alloc, &names, Halt::Fault(Fault::Usage), err).status()
}

fn run<F: Files, O: Sink, E: Sink>(
    alloc: Global,
    words: &[String],
    files: &mut F,
    out: &mut O,
    err: &mut E,
) -> Ending
    ensures ends { let files_before = files_view (F.held files.old) (F.faults files.old) (F.write_faults files.old) in
        let files_after = files_view (F.held files.new) (F.faults files.new) (F.write_faults files.new) in
        let out_before = sink_view (O.given out.old) (O.faults out.old) (O.wants out.old) in
        let out_after = sink_view (O.given out.new) (O.faults out.new) (O.wants out.new) in
        let err_before = sink_view (E.given err.old) (E.faults err.old) (E.wants err.old) in
        let err_after = sink_view (E.given err.new) (E.faults err.new) (E.wants err.new) in
        EndsSo (map string_bytes words.now) (outside files_before out_before err_before) (outside files_after out_after err_after) result }
{
    let mut names = FileNames::new(alloc);
    match perform(alloc, words, files, out, &mut names) {
        Ok(warnings) => tell_warnings(alloc, &names, warnings.as_slice(), err),
        Err(halt) => report(alloc, &names, halt, err),
    }
}
