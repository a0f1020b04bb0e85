//! Which slots get what other slots held: the ways of hints, which go back from what gets a value to what held it.
//!
//! Nothing is proved of it but safety, since what is made from it is tested.
use crate::flows::{Flow, Flows, Move, Source};
use crate::order::Met;
use lx_base::Memory;
use std::alloc::Global;

/// A slot, and one from which something comes to it, by their places.
#[derive(Clone, Copy)]
pub(crate) struct Way {
    pub(crate) target: usize,
    pub(crate) source: usize,
}

/// Adds the ways of moves.
fn add_moves(ways: &mut Vec<Way>, moves: &[Move]) -> Result<(), Memory> {
    for step in moves {
        if let Source::Slot(source) = step.source {
            ways.push(Way {
                target: step.target,
                source,
            })?;
        }
    }
    Ok(())
}

/// The same of all edges out of a state.
fn add_edges(ways: &mut Vec<Way>, edges: &[Flow]) -> Result<(), Memory> {
    for flow in edges {
        add_moves(ways, flow.moves.as_slice())?;
    }
    Ok(())
}

/// The ways of all states in the opposite order: of each those to what it accepts, then those along its edges.
pub(crate) fn ways_of(alloc: Global, flows: &Flows, order: &[Met]) -> Result<Vec<Way>, Memory> {
    let mut ways = Vec::new(alloc);
    for met in order.iter().rev() {
        if let Some(moves) = flows.accepts.get(met.state) {
            add_moves(&mut ways, moves.as_slice())?;
        }
        if let Some(edges) = flows.edges.get(met.state) {
            add_edges(&mut ways, edges.as_slice())?;
        }
    }
    Ok(ways)
}

/// A way, and the link before it to the same target.
#[derive(Clone, Copy)]
struct Link {
    way: Way,
    before: Option<usize>,
}

/// The ways by which hints may still come, by their targets, and the slots that got one.
pub(crate) struct Links {
    links: Vec<Link>,
    /// The last link of each target.
    of: Vec<Option<usize>>,
    noted: Vec<usize>,
}

impl Drop for Links {
    fn drop(self) {
        let Self {
            links: _,
            of: _,
            noted: _,
        } = self;
    }
}

impl Links {
    /// No links for so many slots.
    pub(crate) fn new(alloc: Global, count: usize) -> Result<Links, Memory> {
        let mut of = Vec::new(alloc);
        of.resize(count, None)?;
        Ok(Links {
            links: Vec::new(alloc),
            of,
            noted: Vec::new(alloc),
        })
    }

    /// How many links there are.
    pub(crate) fn len(&self) -> usize {
        self.links.len()
    }

    /// Links the source of a way to its target.
    pub(crate) fn link(&mut self, way: Way) -> Result<(), Memory> {
        let place = self.links.len();
        if let Some(last) = self.of.get_mut(way.target) {
            let before = *last;
            *last = Some(place);
            self.links.push(Link { way, before })?;
        }
        Ok(())
    }

    /// The link of a target at which to begin.
    pub(crate) fn first(&self, target: usize) -> Option<usize> {
        match self.of.get(target) {
            Some(link) => *link,
            None => None,
        }
    }

    /// The link behind a link.
    pub(crate) fn next(&self, link: Option<usize>) -> Option<usize> {
        match self.links.get(link?) {
            Some(link) => link.before,
            None => None,
        }
    }

    /// The way of a link.
    pub(crate) fn way(&self, link: Option<usize>) -> Option<Way> {
        match self.links.get(link?) {
            Some(link) => Some(link.way),
            None => None,
        }
    }

    /// Notes that a slot got a hint.
    pub(crate) fn note(&mut self, slot: usize) -> Result<(), Memory> {
        self.noted.push(slot)?;
        Ok(())
    }

    /// The slot that got a hint in this turn.
    pub(crate) fn noted(&self, turn: usize) -> Option<usize> {
        match self.noted.get(turn) {
            Some(slot) => Some(*slot),
            None => None,
        }
    }
}
