//! How a job gives.
ghost use Rattle.std.specs.Prelude.{◌≡◌, false, option_map, None};
ghost use Rattle.lx_top.specs.Outside.{files_view, sink_view};
ghost use Rattle.lx_top.specs.Steps.{JobEnds, WriteEnds};

use crate::endings::Halt;
use lx_files::{Files, Sink, WriteAnswer, put_all};

/// Gives bytes to a file, if there is one, in the place of what stood there.
fn write_to<F: Files>(files: &mut F, target: Option<&str>, bytes: &[u8]) -> Result<(), Halt>
    ensures binds { let files_before = files_view (F.held files.old) (F.faults files.old) (F.write_faults files.old) in
        let files_after = files_view (F.held files.new) (F.faults files.new) (F.write_faults files.new) in
        WriteEnds (option_map (λ name. name.now) target.entry) bytes.now files_before files_after result }
{
    let Some(name) = target else {
        return Ok(());
    };
    match files.write(name, bytes) {
        Ok(()) => Ok(()),
        Err(WriteAnswer::Failed) => Err(Halt::PutFailed),
        Err(WriteAnswer::Memory) => Err(Halt::OutOfMemory),
    }
}

/// Gives bytes to a file, if there is one, in the place of what stood there, and then a text to the standard output.
pub(crate) fn deliver<F: Files, O: Sink>(
    files: &mut F,
    out: &mut O,
    target: Option<&str>,
    bytes: &[u8],
    text: &[u8],
) -> Result<(), Halt>
    ensures ends { let files_before = files_view (F.held files.old) (F.faults files.old) (F.write_faults files.old) in
        let files_after = files_view (F.held files.new) (F.faults files.new) (F.write_faults files.new) in
        let before = sink_view (O.given out.old) (O.faults out.old) (O.wants out.old) in
        let after = sink_view (O.given out.new) (O.faults out.new) (O.wants out.new) in
        JobEnds false (λ fault. fault ≡ None) (option_map (λ name. name.now) target.entry) (λ given put. (given ≡ bytes.now) × (put ≡ text.now)) files_before files_after before after result }
{
    write_to(files, target, bytes)?;
    put_all(out, text)?;
    Ok(())
}
