//! What a refill means.
ghost use Rattle.std.specs.Prelude.{◌≡◌, ℕ, ◌≤◌, length, Option, IfOk, OnOk, OnErr};
ghost use Rattle.lx_window.specs.Ahead.{Ahead};
ghost use Rattle.lx_window.specs.Counts.{Rose};
ghost use Rattle.lx_window.specs.Refilling.{Fills, IsRoom};

use thiserror::Error;

/// What a refill did: it added so many bytes; there are no more; or the scanner is to be left for now.
#[derive(Clone, Copy, Debug, PartialEq, Eq)]
pub enum Fill {
    More(usize),
    NoMore,
    Leave,
}

/// A refill failed.
#[derive(Clone, Copy, Debug, PartialEq, Eq, Error)]
#[error("the refill failed")]
pub struct FillFailed;

/// What gives the bytes of an input, a part at a time.
///
/// `unit` is the number of bytes that a unit has: 1, 2 or 4. `ahead` is what was not given yet and the parts in which it is given, where
/// these are told. `faults` counts the refills that failed and `pauses` those that left the scanner, and neither ever falls.
pub trait Refill {
    ghost unit: { Self → ℕ };

    ghost ahead: { Self → Option Ahead };

    ghost faults: { Self → ℕ };

    ghost pauses: { Self → ℕ };

    /// Writes what comes next to the front of the room, which has a positive whole number of units.
    ///
    /// `Leave` comes only with a pause, and `FillFailed` only with a fault. After `FillFailed` the room may hold anything.
    fn refill(&mut self, room: &mut [u8]) -> Result<Fill, FillFailed>
        requires { IsRoom (unit self.old) room.old }
        ensures fills { IfOk result (Fills (unit self.old) (ahead self.old) (ahead self.new) room.old room.new) }
        ensures leaves { result ≡ Ok Fill.Leave → Rose (pauses self.old) (pauses self.new) }
        ensures fails { OnErr result (Rose (faults self.old) (faults self.new)) }
        ensures calm { OnOk result (faults self.new ≡ faults self.old) }
        ensures kept { OnErr result (ahead self.new ≡ ahead self.old) }
        ensures same_unit { unit self.new ≡ unit self.old }
        ensures faults_never_fall { faults self.old ≤ faults self.new }
        ensures pauses_never_fall { pauses self.old ≤ pauses self.new };
}
