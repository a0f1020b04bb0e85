//! The sets for which tests of a piece may ask.
ghost use Rattle.std.specs.Prelude.{◌≡◌, ◌*◌, ◌<◌, [], OnOk, take};
ghost use Rattle.std.specs.List.{AllByRecursion};
ghost use Rattle.lx_ccode.specs.Validity.{IsByte};
ghost use Rattle.lx_dispatch.specs.Dispatch.{IsTable};

use crate::unit_masks::UnitMask;
use lx_auto::{Auto, State};
use lx_base::Memory;
use std::alloc::Global;

/// How many sets there are at most.
const MOST_SETS: usize = 64;

/// The sets for which tests of a piece may ask, as a table: unit `u` is in set `k` where byte `256 * (k / 8) + u`, divided by
/// 2^(k % 8), is odd.
#[derive(Drop)]
pub struct UnitSets {
    pub table: Vec<u8>,
    masks: Vec<UnitMask>,
}

/// Each byte of a table is one.
fn see_bytes(table: &[u8])
    ensures { AllByRecursion IsByte table.now }
{}

/// Makes room for the set with this number, where the table ends before it.
fn make_room(table: &mut Vec<u8>, number: usize) -> Result<(), Memory>
    requires table { IsTable table.old.items }
    requires few { number < 64 }
    ensures { OnOk result (IsTable table.new.items) }
{
    if table.len() != 256 * (number / 8) {
        return Ok(());
    }
    for _ in 0..256u64 {
        table.push(0)?;
    }
    see_bytes(table.as_slice());
    Ok(())
}

/// Marks the units of the set with this number.
fn mark(table: &mut Vec<u8>, number: usize, mask: &UnitMask)
    requires table { IsTable table.old.items }
    requires few { number < 64 }
    ensures { IsTable table.new.items }
{
    let start = 256 * (number / 8);
    let bit = 1u8 << (number % 8);
    for unit in 0..256 {
        let place = start + unit;
        if mask.has(unit as u32) && place < table.len() {
            table[place] |= bit;
        }
    }
    see_bytes(table.as_slice());
}

/// The units of edges from the state with this number back to it that do nothing, but for the one at the end of the input.
pub(crate) fn own_set(eof: Option<u32>, number: usize, state: &State) -> UnitMask {
    let mut own = UnitMask::none();
    if !state.leave.as_slice().is_empty() {
        return own;
    }
    for edge in state.edges.as_slice() {
        if edge.to as usize == number && edge.ops.as_slice().is_empty() {
            own.add(edge.lo, edge.hi);
        }
    }
    if let Some(unit) = eof {
        own.remove(unit);
    }
    own
}

/// Whether all units up to a greatest one lead from the state with this number back to it and do nothing.
fn stays(eof: Option<u32>, greatest: u32, number: usize, state: &State) -> bool {
    if eof.is_some() {
        return false;
    }
    let mut low = 0;
    for edge in state.edges.as_slice() {
        let stays = edge.to as usize == number && edge.ops.as_slice().is_empty();
        if !stays || u64::from(edge.lo) != low {
            return false;
        }
        low = u64::from(edge.hi) + 1;
    }
    u64::from(greatest) < low
}

impl UnitSets {
    /// No set.
    pub fn new(alloc: Global) -> Self
        ensures { result.table.items ≡ [] }
    {
        Self {
            table: Vec::new(alloc),
            masks: Vec::new(alloc),
        }
    }

    /// The sets, each at its number. Those behind the table are not among them.
    pub(crate) fn masks(&self) -> &[UnitMask] {
        let count = (self.table.len() / 32).min(self.masks.len()).min(MOST_SETS);
        &self.masks[..count]
    }

    /// Adds a set, where it is a new one and there is room.
    fn add_set(&mut self, mask: &UnitMask) -> Result<(), Memory>
        requires { IsTable self.old.table.items }
        ensures { OnOk result (IsTable self.new.table.items) }
    {
        let number = self.masks.len();
        if number >= MOST_SETS || self.masks.iter().any(|known| known.equals(mask)) {
            return Ok(());
        }
        make_room(&mut self.table, number)?;
        mark(&mut self.table, number, mask);
        self.masks.push(*mask)?;
        Ok(())
    }

    /// Adds the own set of a state, if it has one and not all of its units go one way.
    fn add_own(
        &mut self,
        eof: Option<u32>,
        greatest: u32,
        number: usize,
        state: &State,
    ) -> Result<(), Memory>
        requires { IsTable self.old.table.items }
        ensures { OnOk result (IsTable self.new.table.items) }
    {
        let own = own_set(eof, number, state);
        if own.is_empty() || stays(eof, greatest, number, state) {
            return Ok(());
        }
        self.add_set(&own)
    }

    /// Adds the own sets of the states of an automaton, for units up to a greatest one, where a unit stands at the end of the
    /// input or not.
    pub fn add(&mut self, eof: Option<u32>, greatest: u32, auto: &Auto) -> Result<(), Memory>
        requires { IsTable self.old.table.items }
        ensures { OnOk result (IsTable self.new.table.items) }
    {
        for (number, state) in auto.states.as_slice().iter().enumerate() {
            self.add_own(eof, greatest, number, state)?;
        }
        Ok(())
    }

    /// Cuts the table to so many times 256 bytes.
    pub fn cut(&mut self, groups: usize)
        ensures { self.new.table.items ≡ take (256 * groups) self.old.table.items }
    {
        self.table.truncate(groups.saturating_mul(256));
    }
}
