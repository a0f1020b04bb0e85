//! Registers that hold the same wherever one of them holds something. Values that are alike have one name.
use crate::classes::{Classes, at};
use crate::flows::{Flows, code_of};
use crate::naming::slots_by_state;
use indexmap::{IndexMap, IndexSet};
use lx_auto::Held;
use lx_base::Memory;
use std::alloc::Global;

/// What is known of a register from its classes at the states so far.
#[derive(Clone, Copy, PartialEq, Eq, Hash)]
struct Sign {
    before: usize,
    class: usize,
}

/// Numbers of registers, by their codes: those that are alike have the same.
pub(crate) struct Alike {
    seen: IndexSet<Sign>,
    numbers: IndexMap<u32, usize>,
}

impl Drop for Alike {
    fn drop(self) {
        let Self {
            seen: _,
            numbers: _,
        } = self;
    }
}

impl Alike {
    /// The number of a register, or 0 if it never holds anything.
    pub(crate) fn number(&self, held: Held) -> usize {
        match self.numbers.get(&code_of(held)) {
            Some(number) => *number,
            None => 0,
        }
    }

    /// Notes the class of a slot.
    fn note(&mut self, flows: &Flows, classes: &Classes, place: usize) -> Result<(), Memory> {
        if let Some(slot) = flows.slots.get(place) {
            let sign = Sign {
                before: self.number(slot.held),
                class: at(classes.of.as_slice(), place),
            };
            let (number, _) = self.seen.insert_full(sign)?;
            self.numbers
                .insert(code_of(slot.held), number.saturating_add(1))?;
        }
        Ok(())
    }

    /// The same of a list.
    fn note_all(
        &mut self,
        flows: &Flows,
        classes: &Classes,
        places: &[usize],
    ) -> Result<(), Memory> {
        for place in places {
            self.note(flows, classes, *place)?;
        }
        Ok(())
    }

    /// The same of the slots of no state.
    fn note_others(&mut self, flows: &Flows, classes: &Classes) -> Result<(), Memory> {
        for (place, slot) in flows.slots.iter().enumerate() {
            if flows.edges.get(slot.state as usize).is_none() {
                self.note(flows, classes, place)?;
            }
        }
        Ok(())
    }

    /// The same of the slots of all states.
    fn note_states(
        &mut self,
        flows: &Flows,
        classes: &Classes,
        lists: &[Vec<usize>],
    ) -> Result<(), Memory> {
        for places in lists {
            self.note_all(flows, classes, places.as_slice())?;
        }
        Ok(())
    }

    /// The same of all slots, state by state.
    fn note_slots(
        &mut self,
        alloc: Global,
        flows: &Flows,
        classes: &Classes,
    ) -> Result<(), Memory> {
        let lists = slots_by_state(alloc, flows)?;
        self.note_states(flows, classes, lists.as_slice())
    }
}

/// Which registers are alike, by the classes of those that hold the same at a state.
pub(crate) fn alike_of(alloc: Global, flows: &Flows, classes: &Classes) -> Result<Alike, Memory> {
    let mut alike = Alike {
        seen: IndexSet::new(alloc),
        numbers: IndexMap::new(alloc),
    };
    alike.note_slots(alloc, flows, classes)?;
    alike.note_others(flows, classes)?;
    Ok(alike)
}
