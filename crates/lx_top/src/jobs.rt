//! What the words ask for, and its doing.
ghost use Rattle.std.specs.Prelude.{◌≡◌, [], List, map, option_map, string_bytes, IfErr, IfOk};
ghost use Rattle.lx_compile.specs.Warnings.{warning_lines};
ghost use Rattle.lx_compile.specs.declared.made.Made.{Made};
ghost use Rattle.lx_files.specs.Held.{Sees};
ghost use Rattle.lx_files.specs.declared.files.HeldFile.{HeldFile};
ghost use Rattle.lx_top.specs.FirstFault.{IsFirstFault, IsJobFault};
ghost use Rattle.lx_top.specs.Jobs.{IsWithinLimits, file_names, is_run, job_of, names_of, options_for, target_of};
ghost use Rattle.lx_top.specs.Outside.{files_view, sink_view};
ghost use Rattle.lx_top.specs.Output.{IsRightOf};
ghost use Rattle.lx_top.specs.Steps.{Cites, JobEnds};
ghost use Rattle.lx_top.specs.Warnings.{job_lines, lines_for};

use crate::compile::compile;
use crate::emitted::{WindowUnits, run_emitted};
use crate::endings::Halt;
use crate::source::run_source;
use lx_base::{FileName, FileNames, Job, Options, Sequence};
use lx_compile::PlacedWarning;
use lx_files::{Files, Sink};
use lx_words::read_words;
use std::alloc::Global;

/// Does what the words ask for, and answers the warnings that are to be told. The names of the files that are met stand in `names`
/// afterwards.
pub fn perform<F: Files, O: Sink>(
    alloc: Global,
    words: &[String],
    files: &mut F,
    out: &mut O,
    names: &mut FileNames,
) -> Result<Sequence<PlacedWarning>, Halt>
    requires { names.old ≡ [] }
    ensures ends { let texts = map string_bytes words.now in
        let files_before = files_view (F.held files.old) (F.faults files.old) (F.write_faults files.old) in
        let files_after = files_view (F.held files.new) (F.faults files.new) (F.write_faults files.new) in
        let before = sink_view (O.given out.old) (O.faults out.old) (O.wants out.old) in
        let after = sink_view (O.given out.new) (O.faults out.new) (O.wants out.new) in
        (seen : List HeldFile) × (made : List Made) × Sees (F.held files.old) seen
        × JobEnds (is_run (job_of texts)) (IsFirstFault texts seen made) (target_of (job_of texts)) (IsRightOf (options_for texts) seen made) files_before files_after before after result
        × IfErr result (Cites (file_names texts seen) names.new)
        × IfOk result (λ warnings. warning_lines names.new warnings ≡ lines_for texts seen made) }
{
    let options = read_words(alloc, words)?;
    perform_job(alloc, &options, files, out, names)
}

/// Does the job that the options name, and answers the warnings that are to be told.
fn perform_job<F: Files, O: Sink>(
    alloc: Global,
    options: &Options,
    files: &mut F,
    out: &mut O,
    names: &mut FileNames,
) -> Result<Sequence<PlacedWarning>, Halt>
    requires names { names.old ≡ [] }
    requires limits { IsWithinLimits options.now.job }
    ensures ends { let files_before = files_view (F.held files.old) (F.faults files.old) (F.write_faults files.old) in
        let files_after = files_view (F.held files.new) (F.faults files.new) (F.write_faults files.new) in
        let before = sink_view (O.given out.old) (O.faults out.old) (O.wants out.old) in
        let after = sink_view (O.given out.new) (O.faults out.new) (O.wants out.new) in
        (seen : List HeldFile) × (made : List Made) × Sees (F.held files.old) seen
        × JobEnds (is_run options.now.job) (IsJobFault options.now seen made) (target_of options.now.job) (IsRightOf options.now seen made) files_before files_after before after result
        × IfErr result (Cites (names_of options.now options.now.job seen) names.new)
        × IfOk result (λ warnings. warning_lines names.new warnings ≡ job_lines options.now options.now.job seen made) }
{
    match &options.job {
        Job::Compile { file, to } => {
            let (file, to) = (file.as_str(), name_in(to));
            compile(alloc, file, to, options, files, out, names)
        }
        Job::Run {
            input,
            emitted,
            block,
            window,
            piece,
        } => {
            let units = WindowUnits {
                window: *window,
                step: *piece,
            };
            names.add(emitted.as_str())?;
            names.add(input.as_str())?;
            let (emitted, input) = (emitted.as_str(), input.as_str());
            run_emitted(alloc, emitted, input, *block, units, files, out)?;
            Ok(Sequence::new(alloc))
        }
        Job::Source { n, to } => {
            run_source(alloc, *n, to.as_str(), files, out)?;
            Ok(Sequence::new(alloc))
        }
    }
}

/// The name, if there is one.
fn name_in(name: &Option<FileName>) -> Option<&str>
    ensures { option_map (λ text. text.now) result ≡ name.now }
{
    match name {
        None => None,
        Some(name) => Some(name.as_str()),
    }
}
