//! What a file system means.
ghost use Rattle.std.specs.Prelude.{◌≡◌, ℕ, ◌≤◌, List, Option, IfOk, IfErr, OnOk};
ghost use Rattle.lx_files.specs.declared.files.HeldFile.{HeldFile};
ghost use Rattle.lx_files.specs.Held.{Binds, WhereTold};
ghost use Rattle.lx_files.specs.Reading.{Gives, RefusesRead, RefusesWrite};

use lx_base::{ByteText, FileName, Memory};
use std::alloc::Global;
use thiserror::Error;

/// A file: a name and the bytes under it.
#[derive(Drop)]
pub struct HeldFile {
    pub name: FileName,
    pub bytes: ByteText,
}

/// Why a file was not read: there is none of this name, reading failed, or memory ran out.
#[derive(Clone, Copy, Debug, PartialEq, Eq, Error)]
pub enum ReadAnswer {
    #[error("no such file")]
    Missing,
    #[error("the read failed")]
    Failed,
    #[error("out of memory")]
    Memory,
}

/// Why a file was not written: writing failed, or memory ran out.
#[derive(Clone, Copy, Debug, PartialEq, Eq, Error)]
pub enum WriteAnswer {
    #[error("the write failed")]
    Failed,
    #[error("out of memory")]
    Memory,
}

impl From<Memory> for WriteAnswer {
    ghost use Rattle.std.specs.Prelude.{◌≡◌};
    ghost use Rattle.lx_files.specs.declared.files.WriteAnswer.TheVariants as answer;

    ghost from_gives = { λ _ given. given ≡ answer.Memory };

    fn from(_error: Memory) -> WriteAnswer {
        WriteAnswer::Memory
    }
}

/// Files that are read and written whole, by name.
///
/// `held` is what they hold, where that is told. `faults` counts the reads that failed and `write_faults`
/// the writes; neither count falls.
pub trait Files {
    ghost held: { Self → Option (List HeldFile) };

    ghost faults: { Self → ℕ };

    ghost write_faults: { Self → ℕ };

    /// The bytes under a name.
    ///
    /// `Missing` comes where nothing is held under the name, and where it is not told what is held only
    /// with a fault; `Failed` comes only with a fault.
    fn read(&mut self, alloc: Global, name: &str) -> Result<Vec<u8>, ReadAnswer>
        ensures gives { IfOk result (λ bytes. Gives (held self.old) name.now bytes.items) }
        ensures refuses { IfErr result (RefusesRead (held self.old) name.now (faults self.old) (faults self.new)) }
        ensures calm { OnOk result (faults self.new ≡ faults self.old) }
        ensures never_falls { faults self.old ≤ faults self.new }
        ensures held_stays { held self.new ≡ held self.old }
        ensures write_faults_stay { write_faults self.new ≡ write_faults self.old };

    /// Puts the bytes under the name, in the place of what stood there.
    ///
    /// `Failed` comes only with a fault of writing, and a front of the bytes may then stand under the name.
    /// Where memory runs out nothing changed.
    fn write(&mut self, name: &str, bytes: &[u8]) -> Result<(), WriteAnswer>
        ensures binds { OnOk result (WhereTold (held self.old) (held self.new) (λ files files'. Binds files files' name.now bytes.now)) }
        ensures refuses { IfErr result (RefusesWrite (held self.old) (held self.new) name.now bytes.now (write_faults self.old) (write_faults self.new)) }
        ensures calm { OnOk result (write_faults self.new ≡ write_faults self.old) }
        ensures never_falls { write_faults self.old ≤ write_faults self.new }
        ensures faults_stay { faults self.new ≡ faults self.old };
}
