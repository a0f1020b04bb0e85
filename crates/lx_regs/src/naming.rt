//! Names for the classes of registers at each state, so that few values have to be moved.
//!
//! A class gets the name of the value to which it goes later on; of several such classes at a state one gets it, by their webs, and in one
//! web the one that comes to the value first. States are named as a breadth-first search meets them. A class that is left takes over the name of what comes to it along the edge by which its
//! state was met; else it gets one that is free.
use crate::classes::{Classes, at};
use crate::flows::{Flow, Flows, Move, Source, code_of, number_of, with_number};
use crate::hints::{Hints, held_at, none_kept};
use crate::order::Met;
use crate::webs::Webs;
use indexmap::{IndexMap, IndexSet};
use lx_auto::Held;
use lx_base::Memory;
use std::alloc::Global;

/// The flow along an edge, if there is one.
fn flow_at(flows: &Flows, by: Option<(usize, usize)>) -> Option<&Flow> {
    match by {
        Some((state, place)) => match flows.edges.get(state) {
            Some(edges) => edges.get(place),
            None => None,
        },
        None => None,
    }
}

/// The slots of each state.
pub(crate) fn slots_by_state(alloc: Global, flows: &Flows) -> Result<Vec<Vec<usize>>, Memory> {
    let mut lists: Vec<Vec<usize>> = Vec::new(alloc);
    for _ in flows.edges.as_slice() {
        lists.push(Vec::new(alloc))?;
    }
    for (place, slot) in flows.slots.iter().enumerate() {
        if let Some(list) = lists.get_mut(slot.state as usize) {
            list.push(place)?;
        }
    }
    Ok(lists)
}

/// A class that goes to a value, and the turn in which that became known.
#[derive(Clone, Copy)]
struct Candidate {
    class: usize,
    turn: usize,
}

/// Names, as they are given.
struct Namer<'a> {
    /// The hints, with the table in which names are noted.
    hints: &'a mut Hints,
    /// The webs of the classes.
    webs: &'a mut Webs,
    /// The name of each class, if it has one.
    names: Vec<Option<Held>>,
    /// The names that are taken at a state, by their codes.
    taken: IndexSet<u32>,
    /// The class at a state that gets the name of a value, by the code of this.
    first: IndexMap<u32, Candidate>,
}

impl Drop for Namer<'_> {
    fn drop(self) {
        let Self {
            hints: _,
            webs: _,
            names: _,
            taken: _,
            first: _,
        } = self;
    }
}

impl<'a> Namer<'a> {
    /// Gives a class a name, if it has none and the name is not taken. That of m-register 0, which is never written, is given to none.
    fn claim(&mut self, class: usize, name: Held) -> Result<(), Memory> {
        if held_at(self.names.as_slice(), class).is_some() || name == Held::MReg(0) {
            return Ok(());
        }
        let is_free = self.taken.insert(code_of(name))?;
        if is_free && let Some(kept) = self.names.get_mut(class) {
            *kept = Some(name);
        }
        Ok(())
    }

    /// The name of a slot, if it or its class has one.
    fn name_of(&self, flows: &Flows, classes: &[usize], place: usize) -> Option<Held> {
        let fixed = match flows.slots.get(place) {
            Some(slot) => self.hints.table.fixed(slot.held),
            None => None,
        };
        match fixed {
            Some(name) => Some(name),
            None => held_at(self.names.as_slice(), at(classes, place)),
        }
    }

    /// Takes the names for all states of registers at a state, and gives them to their classes.
    fn claim_fixed(
        &mut self,
        flows: &Flows,
        classes: &[usize],
        places: &[usize],
    ) -> Result<(), Memory> {
        for place in places {
            if let Some(slot) = flows.slots.get(*place)
                && let Some(name) = self.hints.table.fixed(slot.held)
            {
                self.claim(at(classes, *place), name)?;
                self.taken.insert(code_of(name))?;
            }
        }
        Ok(())
    }

    /// Takes over the names of what comes along an edge.
    fn claim_along(
        &mut self,
        flows: &Flows,
        classes: &[usize],
        moves: &[Move],
    ) -> Result<(), Memory> {
        for step in moves {
            if let Source::Slot(source) = step.source
                && let Some(name) = self.name_of(flows, classes, source)
            {
                self.claim(at(classes, step.target), name)?;
            }
        }
        Ok(())
    }

    /// Notes a class that goes to a value, if it is before the others so far.
    fn note_first(&mut self, candidate: Candidate, value: Held) -> Result<(), Memory> {
        let code = code_of(value);
        let is_first = match self.first.get(&code) {
            Some(other) if self.webs.are_joined(candidate.class, other.class) => {
                candidate.turn < other.turn
            }
            Some(other) => self.webs.is_before(candidate.class, other.class),
            None => true,
        };
        if is_first {
            self.first.insert(code, candidate)?;
        }
        Ok(())
    }

    /// Whether a class gets the name of a value.
    fn has_first(&self, class: usize, value: Held) -> bool {
        match self.first.get(&code_of(value)) {
            Some(candidate) => candidate.class == class,
            None => false,
        }
    }

    /// Gives classes the names of values to which they go.
    fn claim_hints(&mut self, classes: &[usize], places: &[usize]) -> Result<(), Memory> {
        self.first.clear();
        for place in places {
            if let Some(value) = held_at(self.hints.of.as_slice(), *place) {
                let candidate = Candidate {
                    class: at(classes, *place),
                    turn: self.hints.turn_of(*place),
                };
                self.note_first(candidate, value)?;
            }
        }
        for place in places {
            let class = at(classes, *place);
            if let Some(value) = held_at(self.hints.of.as_slice(), *place)
                && self.has_first(class, value)
            {
                self.claim(class, value)?;
            }
        }
        Ok(())
    }

    /// The least number from a given one on that is not taken.
    fn free_from(&self, held: Held, from: u32) -> u32 {
        let mut number = from;
        for _ in 0..self.taken.len() {
            if !self.taken.contains(&code_of(with_number(held, number))) {
                return number;
            }
            number = number.saturating_add(1);
        }
        number
    }

    /// Gives each class that has no name one that is free.
    fn claim_free(
        &mut self,
        flows: &Flows,
        classes: &[usize],
        places: &[usize],
    ) -> Result<(), Memory> {
        let (mut regs, mut mregs) = (self.hints.free_regs, self.hints.free_mregs);
        for place in places {
            if let Some(slot) = flows.slots.get(*place)
                && self.name_of(flows, classes, *place).is_none()
            {
                let held = slot.held;
                let from = match held {
                    Held::Reg(_) => regs,
                    Held::MReg(_) => mregs,
                };
                let number = self.free_from(held, from);
                self.claim(at(classes, *place), with_number(held, number))?;
                match held {
                    Held::Reg(_) => regs = number,
                    Held::MReg(_) => mregs = number,
                }
            }
        }
        Ok(())
    }

    /// Notes the names of registers at a state in the table.
    fn note(&mut self, flows: &Flows, classes: &[usize], places: &[usize]) -> Result<(), Memory> {
        for place in places {
            if let Some(slot) = flows.slots.get(*place)
                && let Some(name) = self.name_of(flows, classes, *place)
            {
                self.hints
                    .table
                    .choose(slot.state, slot.held, number_of(name))?;
            }
        }
        Ok(())
    }

    /// Names the registers at a state.
    fn name_state(
        &mut self,
        flows: &Flows,
        classes: &[usize],
        met: Met,
        places: &[usize],
    ) -> Result<(), Memory> {
        self.taken.clear();
        self.claim_fixed(flows, classes, places)?;
        self.claim_hints(classes, places)?;
        if let Some(flow) = flow_at(flows, met.by) {
            self.claim_along(flows, classes, flow.moves.as_slice())?;
        }
        self.claim_free(flows, classes, places)?;
        self.note(flows, classes, places)
    }

    /// Names the registers at all states, by the slots of each.
    fn name_states(
        &mut self,
        flows: &Flows,
        classes: &[usize],
        order: &[Met],
        lists: &[Vec<usize>],
    ) -> Result<(), Memory> {
        for met in order {
            if let Some(places) = lists.get(met.state) {
                self.name_state(flows, classes, *met, places.as_slice())?;
            }
        }
        Ok(())
    }
}

/// Notes the names of registers at all states in the table of the hints, by the slots of each state.
fn note_names_by(
    alloc: Global,
    flows: &Flows,
    classes: &Classes,
    webs: &mut Webs,
    order: &[Met],
    hints: &mut Hints,
    lists: &[Vec<usize>],
) -> Result<(), Memory> {
    let names = none_kept(alloc, classes.count)?;
    let mut namer = Namer {
        hints,
        webs,
        names,
        taken: IndexSet::new(alloc),
        first: IndexMap::new(alloc),
    };
    namer.name_states(flows, classes.of.as_slice(), order, lists)
}

/// Notes the names of registers at all states in the table of the hints.
pub(crate) fn note_names(
    alloc: Global,
    flows: &Flows,
    classes: &Classes,
    webs: &mut Webs,
    order: &[Met],
    hints: &mut Hints,
) -> Result<(), Memory> {
    let lists = slots_by_state(alloc, flows)?;
    note_names_by(alloc, flows, classes, webs, order, hints, lists.as_slice())
}
