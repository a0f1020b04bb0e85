//! A source in memory.
ghost use Rattle.std.specs.Prelude.{◌≡◌, ℕ, ◌+◌, ◌*◌, ◌<◌, ◌≤◌, ◌++◌, ◌-◌, List, length, take, drop, replicate, min, Ok, Some, true, false, IsTrue, IfOk, OnOk, OnErr};
ghost use Rattle.lx_window.specs.Counts.{Rose};
ghost use Rattle.lx_window.specs.Refilling.{Fills, IsRoom};
ghost use Rattle.lx_window.specs.MemorySource.{ahead_of, faults_of, answer_of, part_length, source_after};
ghost use Rattle.lx_window.specs.Units.{IsUnit, IsWhole};

use crate::refills::{Fill, FillFailed, Refill};
use std::marker::Model;

/// Fills the part with the first of these bytes, and with bytes 0 behind all of them.
fn put_padded(bytes: &[u8], part: &mut [u8])
    ensures { part.new ≡ take (length part.old) bytes.now ++ replicate (length part.old - length bytes.now) 0 }
{
    let count = part.len().min(bytes.len());
    part[..count].copy_from_slice(&bytes[..count]);
    part[count..].fill(0);
}

/// A source over borrowed bytes and the padding behind them, which is not held in memory. It never fails. It leaves the scanner once before
/// each part that it gives and once before its first `NoMore`, or never.
#[derive(Drop)]
pub struct MemRefill<'s> {
    ahead: &'s [u8],
    zeros: u64,
    unit: u32,
    step: u32,
    leaves: bool,
    leaves_next: bool,
    pauses: u64,
}

impl<'s> Model for MemRefill<'s> {
    ghost use Rattle.std.specs.Prelude.{◌<◌, ◌++◌, replicate};
    ghost use Rattle.lx_window.specs.Units.{IsUnit, IsWhole};
    ghost use Rattle.lx_window.specs.MemorySource.{MemorySource};

    ghost Value = { MemorySource };

    ghost view = { λ source. record {
      unit = source.unit;
      bytes = source.ahead.now ++ replicate source.zeros 0;
      step = source.step;
      leaves = source.leaves;
      leaves_next = source.leaves_next;
      pauses = source.pauses;
    } };

    ghost invariant = { λ source. IsUnit source.unit × IsWhole source.unit (source.ahead.now ++ replicate source.zeros 0) × (0 < source.step) };
}

impl MemRefill<'_> {
    /// Gives these bytes, at most `step` units a time. With `leaves` it leaves the scanner before each part.
    pub fn over(bytes: &[u8], unit: u32, step: u32, leaves: bool) -> MemRefill<'_>
        requires unit { IsUnit unit }
        requires whole { IsWhole unit bytes.now }
        requires some { 0 < step }
        ensures { result ≡ record { unit = unit; bytes = bytes.now; step = step; leaves = leaves; leaves_next = leaves; pauses = 0 } }
    {
        MemRefill::padded(bytes, 0, unit, step, leaves)
    }

    /// Gives these bytes and then so many units 0, at most `step` units a time. With `leaves` it leaves the scanner before each part.
    pub fn padded(bytes: &[u8], padding: u32, unit: u32, step: u32, leaves: bool) -> MemRefill<'_>
        requires unit { IsUnit unit }
        requires whole { IsWhole unit bytes.now }
        requires some { 0 < step }
        ensures { result ≡ record { unit = unit; bytes = bytes.now ++ replicate (padding * unit) 0; step = step; leaves = leaves; leaves_next = leaves; pauses = 0 } }
    {
        MemRefill {
            ahead: bytes,
            zeros: u64::from(padding) * u64::from(unit),
            unit,
            step,
            leaves,
            leaves_next: leaves,
            pauses: 0,
        }
    }

    /// How many bytes were not given yet, or 2^64 - 1 where there are more.
    fn left(&self) -> u64
        ensures { result ≡ min (length self.now.bytes) 18446744073709551615 }
    {
        (self.ahead.len() as u64).saturating_add(self.zeros)
    }

    /// How many bytes are given to a room of so many.
    fn part_length(&self, room: usize) -> usize
        ensures { result ≡ part_length self.now room }
    {
        let most = u64::from(self.unit) * u64::from(self.step);
        most.min((room as u64).min(self.left())) as usize
    }
}

impl Refill for MemRefill<'_> {
    ghost unit = { λ source. source.unit };

    ghost ahead = { ahead_of };

    ghost faults = { faults_of };

    ghost pauses = { λ source. source.pauses };

    fn refill(&mut self, room: &mut [u8]) -> Result<Fill, FillFailed>
        requires { IsRoom self.old.unit room.old }
        ensures fills { IfOk result (Fills self.old.unit (ahead_of self.old) (ahead_of self.new) room.old room.new) }
        ensures leaves { result ≡ Ok Fill.Leave → Rose self.old.pauses self.new.pauses }
        ensures fails { OnErr result (Rose (faults_of self.old) (faults_of self.new)) }
        ensures calm { OnOk result (faults_of self.new ≡ faults_of self.old) }
        ensures kept { OnErr result (ahead_of self.new ≡ ahead_of self.old) }
        ensures same_unit { self.new.unit ≡ self.old.unit }
        ensures faults_never_fall { faults_of self.old ≤ faults_of self.new }
        ensures pauses_never_fall { self.old.pauses ≤ self.new.pauses }
        ensures answers { result ≡ Ok (answer_of self.old (length room.old)) }
        ensures after { self.new ≡ source_after (answer_of self.old (length room.old)) self.old }
    {
        if self.leaves_next {
            self.leaves_next = false;
            self.pauses = self.pauses.saturating_add(1);
            return Ok(Fill::Leave);
        }
        if self.left() == 0 {
            return Ok(Fill::NoMore);
        }
        let count = self.part_length(room.len());
        let ahead = self.ahead;
        put_padded(ahead, &mut room[..count]);
        let held = count.min(ahead.len());
        self.ahead = &ahead[held..];
        self.zeros -= (count - held) as u64;
        self.leaves_next = self.leaves;
        Ok(Fill::More(count))
    }
}
