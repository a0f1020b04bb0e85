//! What a sink means.
ghost use Rattle.std.specs.Prelude.{◌≡◌, ℕ, ◌≤◌, List, Option, IfOk, IfErr, OnOk, OnErr};
ghost use Rattle.lx_files.specs.Taking.{Takes, RefusesPut, WantsMemory};

use lx_base::Memory;
use thiserror::Error;

/// Why a sink took nothing: the put failed, or memory ran out.
#[derive(Clone, Copy, Debug, PartialEq, Eq, Error)]
pub enum PutAnswer {
    #[error("the put failed")]
    Failed,
    #[error("out of memory")]
    Memory,
}

impl From<Memory> for PutAnswer {
    ghost use Rattle.std.specs.Prelude.{◌≡◌};
    ghost use Rattle.lx_files.specs.declared.sinks.PutAnswer.TheVariants as answer;

    ghost from_gives = { λ _ given. given ≡ answer.Memory };

    fn from(_error: Memory) -> PutAnswer {
        PutAnswer::Memory
    }
}

/// What takes bytes: the standard output, the standard error, or a list.
///
/// `given` is what was taken so far, where that is told. `faults` counts the puts that failed, and `wants` those that were refused for want
/// of memory; neither ever falls.
pub trait Sink {
    ghost given: { Self → Option (List ℕ) };

    ghost faults: { Self → ℕ };

    ghost wants: { Self → ℕ };

    /// Takes a front of the bytes and answers its length, which is positive where there are bytes.
    ///
    /// `Failed` comes only with a fault, and `Memory` only where the count of wants rises. On a refusal nothing was taken.
    fn put(&mut self, bytes: &[u8]) -> Result<usize, PutAnswer>
        ensures takes { IfOk result (Takes (given self.old) (given self.new) bytes.now) }
        ensures refuses { IfErr result (RefusesPut (faults self.old) (faults self.new)) }
        ensures lacks { IfErr result (WantsMemory (wants self.old) (wants self.new)) }
        ensures calm { OnOk result (faults self.new ≡ faults self.old) }
        ensures kept { OnErr result (given self.new ≡ given self.old) }
        ensures never_falls { faults self.old ≤ faults self.new }
        ensures wants_never_fall { wants self.old ≤ wants self.new };
}
