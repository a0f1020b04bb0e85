//! The lines of warnings at the standard error.
ghost use Rattle.std.specs.Prelude.{◌≡◌, ◌≢◌, ◌≤◌, [], OnOk, OnErr, IfErr};
ghost use Rattle.lx_files.specs.Taking.{GivesFront, RefusesPut, given_then};
ghost use Rattle.lx_compile.specs.Warnings.{warning_lines};
ghost use Rattle.lx_top.specs.Endings.{TellsLines};
ghost use Rattle.lx_top.specs.Outside.{sink_view};

use crate::endings::Ending;
use crate::report::tell_failure;
use lx_base::FileNames;
use lx_compile::{PlacedWarning, warning_line};
use lx_files::{PutAnswer, Sink, put_all};
use std::alloc::Global;

/// Puts the lines of warnings to the standard error, one behind another.
fn put_lines<E: Sink>(
    alloc: Global,
    names: &FileNames,
    warnings: &[PlacedWarning],
    err: &mut E,
) -> Result<(), PutAnswer>
    ensures given { OnOk result (E.given err.new ≡ given_then (E.given err.old) (warning_lines names.now warnings.now)) }
    ensures calm { OnOk result (E.faults err.new ≡ E.faults err.old) }
    ensures refuses { IfErr result (RefusesPut (E.faults err.old) (E.faults err.new)) }
    ensures front { OnErr result (GivesFront (E.given err.old) (E.given err.new) (warning_lines names.now warnings.now)) }
    ensures some { OnErr result (warning_lines names.now warnings.now ≢ []) }
    ensures never_falls { E.faults err.old ≤ E.faults err.new }
    ensures wants_never_fall { E.wants err.old ≤ E.wants err.new }
{
    for warning in warnings {
        let line = warning_line(alloc, names, warning)?;
        put_all(err, line.as_slice())?;
    }
    Ok(())
}

/// Tells warnings behind a job that was done, and answers how the run ended.
pub(crate) fn tell_warnings<E: Sink>(
    alloc: Global,
    names: &FileNames,
    warnings: &[PlacedWarning],
    err: &mut E,
) -> Ending
    ensures { TellsLines (warning_lines names.now warnings.now) (sink_view (E.given err.old) (E.faults err.old) (E.wants err.old)) (sink_view (E.given err.new) (E.faults err.new) (E.wants err.new)) result }
{
    match put_lines(alloc, names, warnings, err) {
        Ok(()) => Ending::Done,
        Err(PutAnswer::Failed) => tell_failure(Ending::PutFailed, err),
        Err(PutAnswer::Memory) => tell_failure(Ending::OutOfMemory, err),
    }
}
