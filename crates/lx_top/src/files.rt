//! The files that are read.
ghost use Rattle.std.specs.Prelude.{◌≡◌, List, Some, MatchResult, OnOk};
ghost use Rattle.lx_files.specs.Counts.{Rose};
ghost use Rattle.lx_files.specs.Held.{bytes_of, Sees};
ghost use Rattle.lx_files.specs.declared.files.HeldFile.{HeldFile};
ghost use Rattle.lx_top.specs.Steps.{HaltsRead, IsNoFile};

use crate::endings::Halt;
use lx_base::{ByteText, Fault, Pos};
use lx_files::{Files, ReadAnswer};
use std::alloc::Global;

/// The bytes of the file with this name, which is met as the one with this number.
pub fn read_file<F: Files>(
    alloc: Global,
    files: &mut F,
    file: u32,
    name: &str,
) -> Result<Vec<u8>, Halt>
    ensures read { (seen : List HeldFile) × Sees (F.held files.old) seen × MatchResult result
        (λ source. bytes_of seen name.now ≡ Some source.items)
        (HaltsRead seen (Rose (F.faults files.old) (F.faults files.new)) file name.now) }
    ensures calm { OnOk result (F.faults files.new ≡ F.faults files.old) }
    ensures held_stays { F.held files.new ≡ F.held files.old }
    ensures write_faults_stay { F.write_faults files.new ≡ F.write_faults files.old }
{
    match files.read(alloc, name) {
        Ok(source) => Ok(source),
        Err(ReadAnswer::Missing) => Err(no_file(alloc, file, name)),
        Err(ReadAnswer::Failed) => Err(Halt::ReadFailed),
        Err(ReadAnswer::Memory) => Err(Halt::OutOfMemory),
    }
}

/// The fault of a file that is not there.
fn no_file(alloc: Global, file: u32, name: &str) -> Halt
    ensures { IsNoFile file name.now result }
{
    match Vec::from_slice(alloc, name.as_bytes()) {
        Ok(name) => Halt::Fault(Fault::NoFile {
            at: Pos::start_of(file),
            name: ByteText::from_vec(name),
        }),
        Err(_) => Halt::OutOfMemory,
    }
}
