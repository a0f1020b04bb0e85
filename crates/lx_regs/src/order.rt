//! The states of an automaton as a breadth-first search meets them.
use crate::flows::{Flow, Flows};
use indexmap::IndexSet;
use lx_base::Memory;
use std::alloc::Global;

/// A state as the search meets it: its number, and the edge by which it is met, by the number of the state that it leaves and its place
/// there.
#[derive(Clone, Copy)]
pub(crate) struct Met {
    pub(crate) state: usize,
    pub(crate) by: Option<(usize, usize)>,
}

/// The states as a search meets them.
pub(crate) struct Order {
    pub(crate) met: Vec<Met>,
    seen: IndexSet<usize>,
}

impl Drop for Order {
    fn drop(self) {
        let Self { met: _, seen: _ } = self;
    }
}

impl Order {
    /// Meets a state, unless it was met before.
    fn meet(&mut self, state: usize, by: Option<(usize, usize)>) -> Result<(), Memory> {
        let is_new = self.seen.insert(state)?;
        if is_new {
            self.met.push(Met { state, by })?;
        }
        Ok(())
    }

    /// Meets the states to which edges out of a state lead.
    fn meet_next(&mut self, state: usize, edges: &[Flow]) -> Result<(), Memory> {
        for (place, flow) in edges.iter().enumerate() {
            self.meet(flow.to as usize, Some((state, place)))?;
        }
        Ok(())
    }

    /// Meets the states to which edges out of states that were met lead, until there is none any more.
    fn search(&mut self, flows: &Flows) -> Result<(), Memory> {
        for index in 0..flows.edges.len() {
            if let Some(met) = self.met.get(index) {
                let state = met.state;
                if let Some(edges) = flows.edges.get(state) {
                    self.meet_next(state, edges.as_slice())?;
                }
            }
        }
        Ok(())
    }

    /// Meets those of so many states that were not met.
    fn meet_all(&mut self, count: usize) -> Result<(), Memory> {
        for state in 0..count {
            self.meet(state, None)?;
        }
        Ok(())
    }
}

/// All states: those that a breadth-first search from the first one meets, then the others.
pub(crate) fn order_of(alloc: Global, flows: &Flows) -> Result<Order, Memory> {
    let mut order = Order {
        met: Vec::new(alloc),
        seen: IndexSet::new(alloc),
    };
    order.meet(0, None)?;
    order.search(flows)?;
    order.meet_all(flows.edges.len())?;
    Ok(order)
}
