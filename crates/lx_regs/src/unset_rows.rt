//! Which registers hold nothing at which state of an automaton, as it is proposed.
//!
//! Nothing is proved of the proposal but safety, since it is tested.
ghost use Rattle.std.specs.Prelude.{◌≡◌};
ghost use Rattle.lx_regs.specs.Unset.{row_at};

use crate::unset::{is_unset, kept_list};
use lx_auto::{Auto, Edge, State};
use lx_base::Memory;
use std::alloc::Global;

/// How many marks the rows of states and of edges may have together.
const MARK_LIMIT: usize = 16777216;

/// How many times a search goes over the states at most.
const ROUNDS: usize = 8;

/// For each state, which registers are said to hold nothing where a walk comes to it. At the start there are none.
#[derive(Drop)]
pub(crate) struct UnsetRows {
    rows: Vec<Vec<bool>>,
}

impl UnsetRows {
    /// The marks of the registers at a state. It takes no memory.
    pub(crate) fn at(&self, state: u32) -> &[bool]
        ensures { result.now ≡ row_at self.now state }
    {
        if state == 0 {
            return &[];
        }
        match self.rows.get(state as usize) {
            Some(row) => row.as_slice(),
            None => &[],
        }
    }
}

/// A search for the registers that hold nothing, which begins with all registers, and takes away those that may hold something.
struct Search<'a> {
    alloc: Global,
    auto: &'a Auto,
    rows: Vec<Vec<bool>>,
    /// For each state, whether its row was not looked at since it got less.
    stale: Vec<bool>,
}

impl<'a> Drop for Search<'a> {
    fn drop(self) {
        let Self {
            alloc: _,
            auto: _,
            rows: _,
            stale: _,
        } = self;
    }
}

/// Leaves those marks of a row that another one has too, and tells whether some went.
fn narrow(row: &mut Vec<bool>, other: &[bool]) -> bool {
    let mut is_less = false;
    for place in 0..row.len() {
        if row[place] && !is_unset(other, place) {
            row[place] = false;
            is_less = true;
        }
    }
    is_less
}

/// Rows for so many states with a mark for each of so many registers, but for the start.
fn full_rows(alloc: Global, states: usize, regs: usize) -> Result<Vec<Vec<bool>>, Memory> {
    let mut rows = Vec::new(alloc);
    for state in 0..states {
        rows.push(vec![in alloc; state != 0; regs]?)?;
    }
    Ok(rows)
}

impl<'a> Search<'a> {
    /// Takes away at a state what may hold something on an edge to it.
    fn meet(&mut self, state: usize, row: &[bool]) {
        if let Some(known) = self.rows.get_mut(state)
            && narrow(known, row)
            && let Some(stale) = self.stale.get_mut(state)
        {
            *stale = true;
        }
    }

    /// Goes along an edge, from where its state is left with these registers empty.
    fn go(&mut self, edge: &Edge, left: &[bool]) -> Result<(), Memory> {
        if edge.ops.as_slice().is_empty() {
            self.meet(edge.to as usize, left);
            return Ok(());
        }
        let behind = kept_list(self.alloc, edge.ops.as_slice(), left)?;
        self.meet(edge.to as usize, behind.unset.as_slice());
        Ok(())
    }

    /// The registers that hold nothing where a state is left.
    fn left_at(&self, number: usize, state: &State) -> Result<Vec<bool>, Memory> {
        match self.rows.get(number) {
            Some(row) => {
                let left = kept_list(self.alloc, state.leave.as_slice(), row.as_slice())?;
                Ok(left.unset)
            }
            None => Ok(Vec::new(self.alloc)),
        }
    }

    /// Goes along the edges out of a state.
    fn pass(&mut self, number: usize, state: &State) -> Result<(), Memory> {
        let left = self.left_at(number, state)?;
        for edge in state.edges.as_slice() {
            self.go(edge, left.as_slice())?;
        }
        Ok(())
    }

    /// Whether the row of a state has to be looked at, which it has not any more.
    fn takes(&mut self, number: usize) -> bool {
        match self.stale.get_mut(number) {
            Some(stale) => {
                let was = *stale;
                *stale = false;
                was
            }
            None => false,
        }
    }

    /// Goes along the edges out of all states of which the row got less.
    fn go_round(&mut self) -> Result<(), Memory> {
        for (number, state) in self.auto.states.as_slice().iter().enumerate() {
            if self.takes(number) {
                self.pass(number, state)?;
            }
        }
        Ok(())
    }

    /// The rows that were found.
    fn into_rows(self) -> UnsetRows {
        let Self {
            alloc: _,
            auto: _,
            rows,
            stale: _,
        } = self;
        UnsetRows { rows }
    }
}

/// How many states and edges an automaton has.
fn row_count(auto: &Auto) -> usize {
    let mut count = auto.states.as_slice().len();
    for state in auto.states.as_slice() {
        count = count.saturating_add(state.edges.as_slice().len());
    }
    count
}

/// Whether an automaton has registers, and few enough for a row at each state and edge.
pub(crate) fn has_rows(auto: &Auto) -> bool {
    0 < auto.regs && row_count(auto).saturating_mul(auto.regs as usize) <= MARK_LIMIT
}

/// Which registers hold nothing at which state, as it is proposed.
pub(crate) fn propose_unset(alloc: Global, auto: &Auto) -> Result<UnsetRows, Memory> {
    let states = auto.states.as_slice().len();
    let mut search = Search {
        alloc,
        auto,
        rows: full_rows(alloc, states, auto.regs as usize)?,
        stale: vec![in alloc; true; states]?,
    };
    for _ in 0..ROUNDS {
        search.go_round()?;
    }
    Ok(search.into_rows())
}
