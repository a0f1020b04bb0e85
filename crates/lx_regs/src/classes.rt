//! Which registers hold the same at a state, on whatever way it was reached.
//!
//! At first all registers of one sort at a state are in one class; then classes are split where different values come to their members
//! along some edge, until none is split any more. So it goes again where those that go to different values have been split.
use crate::flows::{Flow, Flows, Move, Source, code_of};
use crate::hints::Hints;
use crate::order::Met;
use indexmap::IndexSet;
use lx_auto::Held;
use lx_base::Memory;
use std::alloc::Global;
use std::hash::Hash;

/// What is known of a register from its class and what came to it along the edges so far.
#[derive(Clone, Copy, PartialEq, Eq, Hash)]
struct Sign {
    class: usize,
    flow: usize,
    source: Source,
    marks: usize,
}

/// The classes of slots, by their places.
#[derive(Drop)]
pub(crate) struct Classes {
    pub(crate) of: Vec<usize>,
    pub(crate) count: usize,
}

/// The number at a place, or 0 behind the end.
pub(crate) fn at(numbers: &[usize], place: usize) -> usize {
    match numbers.get(place) {
        Some(number) => *number,
        None => 0,
    }
}

/// Classes of slots, as they are told by items: slots with one item are of one class. Classes have numbers from 0, without gaps.
struct Numbering<T: Eq + Hash + Drop> {
    seen: IndexSet<T>,
    of: Vec<usize>,
}

impl<T: Eq + Hash + Drop> Drop for Numbering<T> {
    fn drop(self) {
        let Self { seen: _, of: _ } = self;
    }
}

impl<T: Eq + Hash + Drop> Numbering<T> {
    fn new(alloc: Global) -> Numbering<T> {
        Numbering {
            seen: IndexSet::new(alloc),
            of: Vec::new(alloc),
        }
    }

    /// Puts the next slot into the class of an item.
    fn put(&mut self, item: T) -> Result<(), Memory> {
        let (class, _) = self.seen.insert_full(item)?;
        self.of.push(class)?;
        Ok(())
    }

    /// The classes.
    fn into_classes(self) -> Classes {
        let count = self.seen.len();
        let Self { seen: _, of } = self;
        Classes { of, count }
    }
}

/// The classes with numbers from 0, without gaps.
fn numbered(alloc: Global, keys: &[usize]) -> Result<Classes, Memory> {
    let mut numbering = Numbering::new(alloc);
    for key in keys {
        numbering.put(*key)?;
    }
    Ok(numbering.into_classes())
}

/// What the registers of a class have in common at first: the state, and whether they are m-registers.
#[derive(Clone, Copy, PartialEq, Eq, Hash)]
struct Common {
    state: u32,
    is_history: bool,
}

/// One class for the registers of one sort at a state.
fn first_classes(alloc: Global, flows: &Flows) -> Result<Classes, Memory> {
    let mut numbering = Numbering::new(alloc);
    for slot in flows.slots.as_slice() {
        let common = Common {
            state: slot.state,
            is_history: matches!(slot.held, Held::MReg(_)),
        };
        numbering.put(common)?;
    }
    Ok(numbering.into_classes())
}

/// A class, and the value to which some of its registers go.
#[derive(Clone, Copy, PartialEq, Eq, Hash)]
struct Part {
    class: usize,
    value: Option<u32>,
}

/// The classes, split where their members go to different values.
fn parts_by_value(
    alloc: Global,
    flows: &Flows,
    hints: &Hints,
    classes: &[usize],
) -> Result<Classes, Memory> {
    let mut numbering = Numbering::new(alloc);
    for (place, class) in classes.iter().enumerate() {
        let part = Part {
            class: *class,
            value: match hints.hint(flows, place) {
                Some(name) => Some(code_of(name)),
                None => None,
            },
        };
        numbering.put(part)?;
    }
    Ok(numbering.into_classes())
}

/// A class of its own for each slot.
fn own_classes(alloc: Global, flows: &Flows) -> Result<Classes, Memory> {
    let mut of = Vec::new(alloc);
    for (place, _) in flows.slots.iter().enumerate() {
        of.push(place)?;
    }
    let count = flows.slots.len();
    Ok(Classes { of, count })
}

/// What is known of slots, while it is gathered.
struct Signs {
    seen: IndexSet<Sign>,
    /// The sign of each slot, or its class before anything came to it.
    keys: Vec<usize>,
}

impl Drop for Signs {
    fn drop(self) {
        let Self { seen: _, keys: _ } = self;
    }
}

impl Signs {
    /// From where a value comes, by what is known of the slot.
    fn source(&self, source: Source) -> Source {
        match source {
            Source::Slot(slot) => Source::Slot(at(self.keys.as_slice(), slot)),
            other => other,
        }
    }

    /// From where values come that go along an edge.
    fn sources(&self, alloc: Global, moves: &[Move]) -> Result<Vec<Source>, Memory> {
        let mut sources = Vec::new(alloc);
        for step in moves {
            sources.push(self.source(step.source))?;
        }
        Ok(sources)
    }

    /// Notes what comes to a slot along the flow with this number.
    fn note(&mut self, flow: usize, step: Move, source: Source) -> Result<(), Memory> {
        let sign = Sign {
            class: at(self.keys.as_slice(), step.target),
            flow,
            source,
            marks: step.marks,
        };
        let (place, _) = self.seen.insert_full(sign)?;
        let key = place.saturating_add(self.keys.len());
        if let Some(kept) = self.keys.get_mut(step.target) {
            *kept = key;
        }
        Ok(())
    }

    /// The same of all that come along it. What is known of the slots from which they come is read before any of it is noted.
    fn note_all(&mut self, alloc: Global, flow: usize, moves: &[Move]) -> Result<(), Memory> {
        let sources = self.sources(alloc, moves)?;
        for (place, step) in moves.iter().enumerate() {
            if let Some(source) = sources.get(place) {
                self.note(flow, *step, *source)?;
            }
        }
        Ok(())
    }

    /// The same of the edges out of a state, of which the first has this number; and the number behind the last one's.
    fn note_edges(&mut self, alloc: Global, first: usize, edges: &[Flow]) -> Result<usize, Memory> {
        let mut number = first;
        for flow in edges {
            self.note_all(alloc, number, flow.moves.as_slice())?;
            number = number.saturating_add(1);
        }
        Ok(number)
    }

    /// The same of a state, of which the first flow has this number.
    fn note_state(
        &mut self,
        alloc: Global,
        first: usize,
        flows: &Flows,
        state: usize,
    ) -> Result<usize, Memory> {
        let mut number = first;
        if let Some(edges) = flows.edges.get(state) {
            number = self.note_edges(alloc, number, edges.as_slice())?;
        }
        if let Some(moves) = flows.accepts.get(state) {
            self.note_all(alloc, number, moves.as_slice())?;
            number = number.saturating_add(1);
        }
        Ok(number)
    }

    /// The same of all states.
    fn note_states(&mut self, alloc: Global, flows: &Flows, order: &[Met]) -> Result<(), Memory> {
        let mut number = 0usize;
        for met in order {
            number = self.note_state(alloc, number, flows, met.state)?;
        }
        Ok(())
    }
}

/// The classes, split where different values come to their members.
fn split(
    alloc: Global,
    flows: &Flows,
    order: &[Met],
    classes: &[usize],
) -> Result<Classes, Memory> {
    let keys = Vec::from_slice(alloc, classes)?;
    let mut signs = Signs {
        seen: IndexSet::new(alloc),
        keys,
    };
    signs.note_states(alloc, flows, order)?;
    numbered(alloc, signs.keys.as_slice())
}

/// The classes, split until none is split any more, as far as a hundred rounds tell; else each slot has a class of its own.
fn split_all(
    alloc: Global,
    flows: &Flows,
    order: &[Met],
    first: Classes,
) -> Result<Classes, Memory> {
    let mut classes = first;
    for _ in 0..100 {
        let next = split(alloc, flows, order, classes.of.as_slice())?;
        if next.count == classes.count {
            return Ok(next);
        }
        classes = next;
    }
    own_classes(alloc, flows)
}

/// The classes of registers that hold the same.
pub(crate) fn classes_of(alloc: Global, flows: &Flows, order: &[Met]) -> Result<Classes, Memory> {
    let first = first_classes(alloc, flows)?;
    split_all(alloc, flows, order, first)
}

/// The classes of registers that hold the same and go to one value.
pub(crate) fn classes_by_value(
    alloc: Global,
    flows: &Flows,
    order: &[Met],
    hints: &Hints,
    classes: &Classes,
) -> Result<Classes, Memory> {
    let first = parts_by_value(alloc, flows, hints, classes.of.as_slice())?;
    split_all(alloc, flows, order, first)
}
