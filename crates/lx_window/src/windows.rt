//! The window over an input.
ghost use Rattle.std.specs.Prelude.{◌≡◌, ℕ, ◌+◌, ◌-◌, ◌*◌, ◌<◌, ◌≤◌, List, length, slice_index, SomeIff, IfOk, OnOk, OnErr};
ghost use Rattle.lx_window.specs.Counts.{Rose};
ghost use Rattle.lx_window.specs.Units.{IsUnit, IsWhole};
ghost use Rattle.lx_window.specs.Windows.{IsFormed, KeepsStart, Refills, empty_window, begun, slid, window_units, bytes_before, bytes_between};

use crate::refills::{Fill, FillFailed, Refill};
use crate::units::{byte_count, number_at};
use std::marker::Model;

/// A window over the units of a stream: from `base` to `limit`, with the start of a token between. Offsets count units from the stream's
/// beginning, and stay what they are when the window slides.
///
/// It lies in a borrowed buffer, and none of its calls takes memory.
#[derive(Drop)]
pub struct Window<'b> {
    buffer: &'b mut [u8],
    unit: u32,
    base: u64,
    start: u64,
    limit: u64,
}

impl<'b> Model for Window<'b> {
    ghost use Rattle.lx_window.specs.WindowView.{WindowView};

    ghost Value = { WindowView };

    ghost use Rattle.lx_window.specs.Buffers.{view_of, LiesWell};

    ghost view = { view_of };

    ghost invariant = { LiesWell };
}

impl Window<'_> {
    /// A window with nothing in it, whose first unit will be that at `base`.
    pub fn over(buffer: &mut [u8], unit: u32, base: u64) -> Window<'_>
        requires unit { IsUnit unit }
        requires whole { IsWhole unit buffer.old }
        requires early { base ≤ 0x4000_0000_0000_0000 }
        ensures empty { result ≡ empty_window unit base (length buffer.old) }
        ensures formed { IsFormed result }
    {
        Window {
            buffer,
            unit,
            base,
            start: base,
            limit: base,
        }
    }

    /// The offset of the token's start.
    pub fn start(&self) -> u64
        ensures start { result ≡ self.now.start }
        ensures formed { IsFormed self.now }
    {
        self.start
    }

    /// The offset behind the last unit.
    pub fn limit(&self) -> u64
        ensures limit { result ≡ self.now.limit }
        ensures formed { IsFormed self.now }
    {
        self.limit
    }

    /// How many units fit.
    pub fn size(&self) -> u64
        ensures { result ≡ self.now.size }
    {
        (self.buffer.len() / self.unit as usize) as u64
    }

    /// How many bytes are free behind the limit.
    pub fn room(&self) -> usize
        ensures { result ≡ self.now.unit * (self.now.base + self.now.size - self.now.limit) }
    {
        self.buffer.len() - byte_count(self.unit, self.limit - self.base)
    }

    /// The bytes from the token's start to an offset, not copied.
    pub fn token(&self, to: u64) -> &[u8]
        requires from_start { self.now.start ≤ to }
        requires to_limit { to ≤ self.now.limit }
        ensures { result.now ≡ bytes_between self.now self.now.start to }
    {
        let from = byte_count(self.unit, self.start - self.base);
        let end = byte_count(self.unit, to - self.base);
        &self.buffer[from..end]
    }

    /// Moves the token's start.
    pub fn begin(&mut self, at: u64)
        requires from_start { self.old.start ≤ at }
        requires to_limit { at ≤ self.old.limit }
        requires early { at ≤ 0x4000_0000_0000_0000 }
        ensures begun { self.new ≡ begun self.old at }
        ensures formed { IsFormed self.new }
    {
        self.start = at;
    }

    /// The unit at an offset from the token's start to the limit, least byte first.
    pub fn unit_at(&self, at: u64) -> Option<u32>
        ensures { SomeIff result ((self.now.start ≤ at) × (at < self.now.limit)) (slice_index (window_units self.now) (at - self.now.base)) }
    {
        if at < self.start || self.limit <= at {
            return None;
        }
        let place = byte_count(self.unit, at - self.base);
        let bytes = &*self.buffer;
        Some(number_at(bytes, place, self.unit))
    }

    /// Drops what stands before the token's start.
    pub fn slide(&mut self)
        ensures slid { self.new ≡ slid self.old }
        ensures formed { IsFormed self.new }
    {
        if self.start == self.base {
            return;
        }
        let from = byte_count(self.unit, self.start - self.base);
        let end = byte_count(self.unit, self.limit - self.base);
        let buffer = &mut *self.buffer;
        buffer.copy_within(from..end, 0);
        self.base = self.start;
    }

    /// Slides, and lets a source fill the room behind the limit.
    pub fn refill<S: Refill>(&mut self, src: &mut S) -> Result<Fill, FillFailed>
        requires room { self.old.limit < self.old.start + self.old.size }
        requires unit { S.unit src.old ≡ self.old.unit }
        ensures refills { IfOk result (Refills (S.ahead src.old) (S.ahead src.new) self.old self.new) }
        ensures formed { IsFormed self.new }
        ensures start_kept { KeepsStart self.old self.new }
        ensures leaves { result ≡ Ok Fill.Leave → Rose (S.pauses src.old) (S.pauses src.new) }
        ensures fails { OnErr result (Rose (S.faults src.old) (S.faults src.new)) }
        ensures calm { OnOk result (S.faults src.new ≡ S.faults src.old) }
        ensures ahead_kept { OnErr result (S.ahead src.new ≡ S.ahead src.old) }
        ensures window_kept { OnErr result (self.new ≡ slid self.old) }
        ensures same_unit { S.unit src.new ≡ S.unit src.old }
        ensures faults_never_fall { S.faults src.old ≤ S.faults src.new }
        ensures pauses_never_fall { S.pauses src.old ≤ S.pauses src.new }
    {
        self.slide();
        let held = byte_count(self.unit, self.limit - self.base);
        let buffer = &mut *self.buffer;
        let fill = src.refill(&mut buffer[held..])?;
        if let Fill::More(count) = fill {
            self.limit += count as u64 / u64::from(self.unit);
        }
        Ok(fill)
    }
}
