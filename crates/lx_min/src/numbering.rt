//! The classes of a partition, numbered by the order of their chosen states.
ghost use Rattle.std.specs.Prelude.{◌≡◌, ◌↔◌, ◌+◌, ◌<◌, IfOk, IsTrue, OnOk, length, slice_index};
ghost use Rattle.lx_auto.specs.Automaton.{IsAuto};
ghost use Rattle.lx_min.specs.Numberings.{AreChosen, IsNumbering, IsNumberedTo, numbered_classes};
ghost use Rattle.lx_min.specs.Partitions.{IsMinimal};

use crate::partitions::Partition;
use lx_auto::Auto;
use lx_base::Memory;
use std::alloc::Global;

/// Classes of states, numbered from 0.
pub(crate) struct Numbering {
    /// The class of each state in the partition.
    pub class: Vec<u32>,
    /// The number of each class of the partition.
    pub rank: Vec<u32>,
    /// The state that is chosen for each number.
    pub chosen: Vec<u32>,
}

impl Drop for Numbering {
    fn drop(self) {
        let Self {
            class: _,
            rank: _,
            chosen: _,
        } = self;
    }
}

/// The number at a place, or 0 where there is none. It takes no memory.
fn at(numbers: &[u32], place: u32) -> u32
    ensures { result ≡ slice_index numbers.now place }
{
    match numbers.get(place as usize) {
        Some(number) => *number,
        None => 0,
    }
}

/// Whether the state is the one that is chosen for the class. It takes no memory.
fn is_chosen(chosen: &[u32], class: u32, state: u32) -> bool
    ensures { IsTrue result ↔ ((class < length chosen.now) × (slice_index chosen.now class ≡ state)) }
{
    match chosen.get(class as usize) {
        Some(chosen) => *chosen == state,
        None => false,
    }
}

impl Numbering {
    /// The number of a state's class. It takes no memory.
    pub(crate) fn of(&self, state: u32) -> u32
        ensures { result ≡ (numbered_classes self.now).of state }
    {
        at(&self.rank, at(&self.class, state))
    }

    /// Gives the state's class the next number, if the state is the one that is chosen for it.
    fn pass(&mut self, chosen: &[u32], state: u32) -> Result<(), Memory>
        requires within { state < length self.old.class.items }
        requires chosen { AreChosen self.old.class.items chosen.now }
        requires numbered { IsNumberedTo chosen.now self.old state }
        ensures numbered { OnOk result (IsNumberedTo chosen.now self.new (state + 1)) }
        ensures kept { self.new.class.items ≡ self.old.class.items }
    {
        let class = self.class[state as usize];
        if is_chosen(chosen, class, state) {
            self.rank[class as usize] = self.chosen.len() as u32;
            self.chosen.push(state)?;
        }
        Ok(())
    }
}

/// The classes of the partition, numbered by the order of their chosen states.
pub(crate) fn numbering_of(
    alloc: Global,
    auto: &Auto,
    partition: Partition,
) -> Result<Numbering, Memory>
    requires formed { IsAuto auto.now }
    requires minimal { IsMinimal auto.now partition }
    ensures { IfOk result (λ numbering. IsNumbering auto.now numbering) }
{
    let mut numbering = Numbering {
        rank: vec![in alloc; 0; partition.chosen.len()]?,
        class: partition.class,
        chosen: Vec::new(alloc),
    };
    for state in 0..auto.states.as_slice().len() {
        numbering.pass(&partition.chosen, state as u32)?;
    }
    Ok(numbering)
}
