//! Which of the classes at a state that go to one value gets the value's name.
//!
//! Only one of them can. Were it one thing at a state and another at the next, both would have to move. So it is chosen for webs: classes
//! that stand beside others of their value are of one web if what the one holds comes to the other along an edge. Of webs beside one
//! another that one gets the name from which, or to which, most values would have to move without it.
use crate::classes::{Classes, at};
use crate::flows::{Flow, Flows, Move, Source, code_of};
use crate::hints::Hints;
use indexmap::IndexMap;
use lx_base::Memory;
use std::alloc::Global;

/// A state, and a value to which classes there go, by the code of its name.
#[derive(Clone, Copy, PartialEq, Eq, Hash)]
struct Cell {
    state: u32,
    value: u32,
}

/// The cells of classes, and how many classes each cell has.
struct Cells {
    of: Vec<Option<Cell>>,
    counts: IndexMap<Cell, usize>,
}

impl Drop for Cells {
    fn drop(self) {
        let Self { of: _, counts: _ } = self;
    }
}

impl Cells {
    /// Puts a class into its cell, unless it is there.
    fn put(&mut self, class: usize, cell: Cell) -> Result<(), Memory> {
        if let Some(kept) = self.of.get_mut(class)
            && kept.is_none()
        {
            *kept = Some(cell);
            let count = match self.counts.get(&cell) {
                Some(count) => *count,
                None => 0,
            };
            self.counts.insert(cell, count.saturating_add(1))?;
        }
        Ok(())
    }

    /// Whether a cell has several classes.
    fn are_several(&self, cell: Cell) -> bool {
        match self.counts.get(&cell) {
            Some(count) => 1 < *count,
            None => false,
        }
    }
}

/// Cells without a class, for so many classes.
fn no_cells(alloc: Global, count: usize) -> Result<Cells, Memory> {
    let mut of = Vec::new(alloc);
    for _ in 0..count {
        of.push(None)?;
    }
    Ok(Cells {
        of,
        counts: IndexMap::new(alloc),
    })
}

/// The cells of classes.
fn cells_of(
    alloc: Global,
    flows: &Flows,
    classes: &Classes,
    hints: &Hints,
) -> Result<Cells, Memory> {
    let mut cells = no_cells(alloc, classes.count)?;
    for (place, slot) in flows.slots.iter().enumerate() {
        if let Some(name) = hints.hint(flows, place)
            && flows.edges.get(slot.state as usize).is_some()
        {
            let cell = Cell {
                state: slot.state,
                value: code_of(name),
            };
            cells.put(at(classes.of.as_slice(), place), cell)?;
        }
    }
    Ok(cells)
}

/// A class in its web.
#[derive(Clone, Copy)]
struct Member {
    /// The code of the value to which it goes, if that is known.
    value: Option<u32>,
    /// Whether others of its value stand beside it.
    is_beside: bool,
    /// Another class of its web with a lesser number, or itself.
    parent: usize,
    /// How many values would have to move without the name, where it is the least class of its web.
    weight: usize,
}

/// Webs of classes.
#[derive(Drop)]
pub(crate) struct Webs {
    members: Vec<Member>,
}

impl Webs {
    /// What is known of a class.
    fn member(&self, class: usize) -> Member {
        match self.members.get(class) {
            Some(member) => *member,
            None => Member {
                value: None,
                is_beside: false,
                parent: class,
                weight: 0,
            },
        }
    }

    /// Sets the parent of a class.
    fn set_parent(&mut self, class: usize, parent: usize) {
        if let Some(member) = self.members.get_mut(class) {
            member.parent = parent;
        }
    }

    /// The least class of the web of a class. The way to it gets shorter.
    fn least(&mut self, class: usize) -> usize {
        let mut least = class;
        for _ in 0..self.members.len() {
            let parent = self.member(least).parent;
            if parent == least {
                return least;
            }
            let above = self.member(parent).parent;
            self.set_parent(least, above);
            least = above;
        }
        least
    }

    /// Makes the webs of two classes one.
    fn join(&mut self, class: usize, other: usize) {
        let (first, second) = (self.least(class), self.least(other));
        self.set_parent(first.max(second), first.min(second));
    }

    /// Counts a value that would have to move.
    fn weigh(&mut self, class: usize) {
        let least = self.least(class);
        if let Some(member) = self.members.get_mut(least) {
            member.weight = member.weight.saturating_add(1);
        }
    }

    /// Notes that what a class holds comes to another one: at first webs are joined, then they are weighed.
    fn note(&mut self, from: usize, to: usize, joins: bool) {
        let (source, target) = (self.member(from), self.member(to));
        if source.value != target.value {
            return;
        }
        match (source.is_beside, target.is_beside, joins) {
            (true, true, true) => self.join(from, to),
            (true, false, false) => self.weigh(from),
            (false, true, false) => self.weigh(to),
            _ => {}
        }
    }

    /// The same of all that comes along an edge.
    fn note_moves(&mut self, classes: &[usize], moves: &[Move], joins: bool) {
        for step in moves {
            if let Source::Slot(source) = step.source {
                self.note(at(classes, source), at(classes, step.target), joins);
            }
        }
    }

    /// The same of all edges out of a state.
    fn note_edges(&mut self, classes: &[usize], edges: &[Flow], joins: bool) {
        for flow in edges {
            self.note_moves(classes, flow.moves.as_slice(), joins);
        }
    }

    /// The same of all states.
    fn note_all(&mut self, flows: &Flows, classes: &[usize], joins: bool) {
        for edges in flows.edges.as_slice() {
            self.note_edges(classes, edges.as_slice(), joins);
        }
        for moves in flows.accepts.as_slice() {
            self.note_moves(classes, moves.as_slice(), joins);
        }
    }

    /// Whether two classes are of one web.
    pub(crate) fn are_joined(&mut self, class: usize, other: usize) -> bool {
        self.least(class) == self.least(other)
    }

    /// Whether a class gets the name rather than another one at its state.
    pub(crate) fn is_before(&mut self, class: usize, other: usize) -> bool {
        let (web, behind) = (self.least(class), self.least(other));
        let (weight, less) = (self.member(web).weight, self.member(behind).weight);
        less < weight || (less == weight && web < behind)
    }
}

/// Classes, each in a web of its own.
fn lone_webs(alloc: Global, cells: &Cells) -> Result<Webs, Memory> {
    let mut members = Vec::new(alloc);
    for (class, cell) in cells.of.iter().enumerate() {
        members.push(Member {
            value: match cell {
                Some(cell) => Some(cell.value),
                None => None,
            },
            is_beside: match cell {
                Some(cell) => cells.are_several(*cell),
                None => false,
            },
            parent: class,
            weight: 0,
        })?;
    }
    Ok(Webs { members })
}

/// The webs of classes.
pub(crate) fn webs_of(
    alloc: Global,
    flows: &Flows,
    classes: &Classes,
    hints: &Hints,
) -> Result<Webs, Memory> {
    let cells = cells_of(alloc, flows, classes, hints)?;
    let mut webs = lone_webs(alloc, &cells)?;
    webs.note_all(flows, classes.of.as_slice(), true);
    webs.note_all(flows, classes.of.as_slice(), false);
    Ok(webs)
}
