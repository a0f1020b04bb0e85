//! How a run of the program ends.
ghost use Rattle.std.specs.Prelude.{◌≡◌};
ghost use Rattle.lx_top.specs.Endings.{status_of};

use lx_base::{Fault, Memory, Stop};
use lx_files::PutAnswer;
use lx_split::ExpandStop;

/// How a run ends, each with its exit status.
#[derive(Clone, Copy, PartialEq, Eq)]
pub enum Ending {
    /// Status 0: all was done.
    Done,
    /// Status 1: the words, a source or an input is refused, by the message at the standard error.
    Refused,
    /// Status 2: a read failed.
    ReadFailed,
    /// Status 3: a put or a write failed.
    PutFailed,
    /// Status 4: memory ran out.
    OutOfMemory,
}

impl Ending {
    /// The exit status.
    pub fn status(self) -> u8
        ensures { result ≡ status_of self }
    {
        match self {
            Ending::Done => 0,
            Ending::Refused => 1,
            Ending::ReadFailed => 2,
            Ending::PutFailed => 3,
            Ending::OutOfMemory => 4,
        }
    }
}

/// Why a run broke off.
#[derive(Drop)]
pub enum Halt {
    /// The words or a file have a fault.
    Fault(Fault),
    /// A read failed.
    ReadFailed,
    /// A put to the standard output or a write failed.
    PutFailed,
    /// Memory ran out.
    OutOfMemory,
}

impl From<Memory> for Halt {
    ghost use Rattle.std.specs.Prelude.{◌≡◌};
    ghost use Rattle.lx_top.specs.declared.endings.Halt.TheVariants as halt;

    ghost from_gives = { λ _ given. given ≡ halt.OutOfMemory };

    fn from(_error: Memory) -> Halt {
        Halt::OutOfMemory
    }
}

impl From<Stop> for Halt {
    ghost use Rattle.std.specs.Prelude.{◌≡◌};
    ghost use Rattle.lx_top.specs.Puts.{halt_of_stop};

    ghost from_gives = { λ stop given. given ≡ halt_of_stop stop };

    fn from(stop: Stop) -> Halt {
        match stop {
            Stop::Memory => Halt::OutOfMemory,
            Stop::Fault(fault) => Halt::Fault(fault),
        }
    }
}

impl From<ExpandStop> for Halt {
    ghost use Rattle.std.specs.Prelude.{◌≡◌};
    ghost use Rattle.lx_top.specs.Puts.{halt_of_expand};

    ghost from_gives = { λ stop given. given ≡ halt_of_expand stop };

    fn from(stop: ExpandStop) -> Halt {
        match stop {
            ExpandStop::Memory => Halt::OutOfMemory,
            ExpandStop::Fault(fault) => Halt::Fault(fault),
            ExpandStop::ReadFailed => Halt::ReadFailed,
        }
    }
}

impl From<PutAnswer> for Halt {
    ghost use Rattle.lx_top.specs.Puts.{halt_of};
    ghost use Rattle.std.specs.Prelude.{◌≡◌};

    ghost from_gives = { λ answer given. given ≡ halt_of answer };

    fn from(answer: PutAnswer) -> Halt {
        match answer {
            PutAnswer::Failed => Halt::PutFailed,
            PutAnswer::Memory => Halt::OutOfMemory,
        }
    }
}
