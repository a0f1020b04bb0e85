//! What the user is told where a run did not do all that it was asked to.
ghost use Rattle.std.specs.Prelude.{◌≡◌, ◌≤◌};
ghost use Rattle.lx_base.specs.Message.{IsPlaced, message_text};
ghost use Rattle.lx_top.specs.Endings.{PutsText, TellsMessage, failure_text};
ghost use Rattle.lx_top.specs.Outside.{sink_view};
ghost use Rattle.lx_top.specs.Steps.{Reports, IsPlacedHalt};

use crate::endings::{Ending, Halt};
use lx_base::{Fault, FileNames, message};
use lx_files::{PutAnswer, Sink, put_all};
use std::alloc::Global;

/// Tells at the standard error why a run broke off, and answers how it ended.
///
/// A fault is told by its message. Any other cause is told by a text that is tried once, and whose failure
/// changes nothing.
pub fn report<E: Sink>(alloc: Global, names: &FileNames, halt: Halt, err: &mut E) -> Ending
    requires { IsPlacedHalt names.now halt }
    ensures { Reports names.now (sink_view (E.given err.old) (E.faults err.old) (E.wants err.old)) (sink_view (E.given err.new) (E.faults err.new) (E.wants err.new)) halt result }
{
    match halt {
        Halt::Fault(fault) => tell_fault(alloc, names, &fault, err),
        Halt::ReadFailed => tell_failure(Ending::ReadFailed, err),
        Halt::PutFailed => tell_failure(Ending::PutFailed, err),
        Halt::OutOfMemory => tell_failure(Ending::OutOfMemory, err),
    }
}

fn tell_fault<E: Sink>(alloc: Global, names: &FileNames, fault: &Fault, err: &mut E) -> Ending
    requires { IsPlaced names.now fault.now }
    ensures { TellsMessage (message_text names.now fault.now) (sink_view (E.given err.old) (E.faults err.old) (E.wants err.old)) (sink_view (E.given err.new) (E.faults err.new) (E.wants err.new)) result }
{
    match message(alloc, names, fault) {
        Ok(text) => tell_message(text.as_slice(), err),
        Err(_) => tell_failure(Ending::OutOfMemory, err),
    }
}

fn tell_message<E: Sink>(text: &[u8], err: &mut E) -> Ending
    ensures { TellsMessage text.now (sink_view (E.given err.old) (E.faults err.old) (E.wants err.old)) (sink_view (E.given err.new) (E.faults err.new) (E.wants err.new)) result }
{
    match put_all(err, text) {
        Ok(()) => Ending::Refused,
        Err(PutAnswer::Failed) => tell_failure(Ending::PutFailed, err),
        Err(PutAnswer::Memory) => tell_failure(Ending::OutOfMemory, err),
    }
}

/// Tells at the standard error the text of an ending that is no refusal, if it can.
pub(crate) fn tell_failure<E: Sink>(ending: Ending, err: &mut E) -> Ending
    ensures same { result ≡ ending }
    ensures told { PutsText (failure_text ending) (sink_view (E.given err.old) (E.faults err.old) (E.wants err.old)) (sink_view (E.given err.new) (E.faults err.new) (E.wants err.new)) }
    ensures never_falls { E.faults err.old ≤ E.faults err.new }
{
    let _ = put_all(err, failure_text(ending));
    ending
}

fn failure_text(ending: Ending) -> &'static [u8]
    ensures { result.now ≡ failure_text ending }
{
    match ending {
        Ending::Done | Ending::Refused => b"",
        Ending::ReadFailed => b"re2c: error: read failed\n",
        Ending::PutFailed => b"re2c: error: write failed\n",
        Ending::OutOfMemory => b"re2c: error: out of memory\n",
    }
}
