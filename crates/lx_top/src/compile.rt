//! The compilation of the source in a file.
ghost use Rattle.std.specs.Prelude.{◌≡◌, false, [], List, option_map, None, IfErr, IfOk};
ghost use Rattle.lx_compile.specs.FirstFault.{IsFirstFault};
ghost use Rattle.lx_compile.specs.Output.{IsGiven};
ghost use Rattle.lx_compile.specs.Warnings.{told_warnings, warning_lines};
ghost use Rattle.lx_compile.specs.declared.made.Made.{Made};
ghost use Rattle.lx_files.specs.Held.{Sees};
ghost use Rattle.lx_files.specs.declared.files.HeldFile.{HeldFile};
ghost use Rattle.lx_split.specs.Includes.{expansion};
ghost use Rattle.lx_top.specs.Outside.{files_view, sink_view};
ghost use Rattle.lx_top.specs.Output.{GoesTo};
ghost use Rattle.lx_top.specs.Steps.{Cites, JobEnds};

use crate::delivery::deliver;
use crate::endings::Halt;
use lx_base::{FileNames, Options, Sequence};
use lx_compile::{Compiled, PlacedWarning};
use lx_files::{Files, Sink};
use std::alloc::Global;

/// Gives an output to the target, or where there is none to the standard output.
fn give_output<F: Files, O: Sink>(
    files: &mut F,
    out: &mut O,
    target: Option<&str>,
    output: &[u8],
) -> Result<(), Halt>
    ensures ends { let files_before = files_view (F.held files.old) (F.faults files.old) (F.write_faults files.old) in
        let files_after = files_view (F.held files.new) (F.faults files.new) (F.write_faults files.new) in
        let before = sink_view (O.given out.old) (O.faults out.old) (O.wants out.old) in
        let after = sink_view (O.given out.new) (O.faults out.new) (O.wants out.new) in
        let target = option_map (λ name. name.now) target.entry in
        JobEnds false (λ fault. fault ≡ None) target (GoesTo target (λ given. given ≡ output.now)) files_before files_after before after result }
{
    match target {
        None => deliver(files, out, None, b"", output),
        Some(_) => deliver(files, out, target, output, b""),
    }
}

/// Compiles the source in a file, which is the first that is met, and gives its output to the target, or where there is none to
/// the standard output. It answers the warnings that are to be told.
pub(crate) fn compile<F: Files, O: Sink>(
    alloc: Global,
    name: &str,
    target: Option<&str>,
    options: &Options,
    files: &mut F,
    out: &mut O,
    names: &mut FileNames,
) -> Result<Sequence<PlacedWarning>, Halt>
    requires names { names.old ≡ [] }
    ensures ends { let files_before = files_view (F.held files.old) (F.faults files.old) (F.write_faults files.old) in
        let files_after = files_view (F.held files.new) (F.faults files.new) (F.write_faults files.new) in
        let before = sink_view (O.given out.old) (O.faults out.old) (O.wants out.old) in
        let after = sink_view (O.given out.new) (O.faults out.new) (O.wants out.new) in
        let target = option_map (λ name. name.now) target.entry in
        (seen : List HeldFile) × (made : List Made) × Sees (F.held files.old) seen
        × JobEnds false (IsFirstFault options.now seen name.now made) target (GoesTo target (IsGiven options.now seen name.now made)) files_before files_after before after result
        × IfErr result (Cites (expansion options.now seen name.now).met.names names.new)
        × IfOk result (λ warnings. warning_lines names.new warnings ≡ warning_lines (expansion options.now seen name.now).met.names (told_warnings options.now made)) }
{
    let compiled = lx_compile::compile(alloc, files, names, options, name)?;
    let Compiled { output, warnings } = compiled;
    give_output(files, out, target, &output)?;
    Ok(warnings)
}
