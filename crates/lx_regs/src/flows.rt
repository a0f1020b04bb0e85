//! How values go along the edges of an automaton, from the registers at one state to those at the next.
//!
//! Nothing is proved of it but safety, since what is made from it is tested.
ghost use Rattle.std.specs.Prelude.{◌≡◌, ◌<◌, Contains, length};
ghost use Rattle.lx_auto.specs.Automaton.{IsAuto, state_of};
ghost use Rattle.lx_regs.specs.LiveSets.{IsLivenessOf};

use crate::effects::Effects;
use crate::live::Liveness;
use crate::outcomes::{Outcome, outcome_of};
use indexmap::IndexSet;
use lx_auto::{Accept, Auto, Edge, Held, State};
use lx_base::Memory;
use std::alloc::Global;

/// A number that no state has.
const NO_STATE: u32 = 4294967295;

/// A register at a state.
#[derive(Clone, Copy)]
pub(crate) struct Slot {
    pub(crate) state: u32,
    pub(crate) held: Held,
}

/// From where a value comes.
#[derive(Clone, Copy, PartialEq, Eq, Hash)]
pub(crate) enum Source {
    /// It is the offset.
    Offset,
    /// It is nothing.
    Nothing,
    /// It is what the register with this place among the slots held.
    Slot(usize),
}

/// A value that comes to a register.
#[derive(Clone, Copy)]
pub(crate) struct Move {
    /// The place of the register among the slots.
    pub(crate) target: usize,
    pub(crate) source: Source,
    /// The place of the marks behind a history among the lists of marks.
    pub(crate) marks: usize,
}

/// The values that go along an edge.
#[derive(Drop)]
pub(crate) struct Flow {
    pub(crate) to: u32,
    pub(crate) moves: Vec<Move>,
}

/// The values that go along all edges, and to what is accepted.
pub(crate) struct Flows {
    alloc: Global,
    keys: IndexSet<u64>,
    pub(crate) slots: Vec<Slot>,
    marks: IndexSet<Vec<bool>>,
    /// Those of the edges of each state, state by state.
    pub(crate) edges: Vec<Vec<Flow>>,
    /// Those to the values of what each state accepts, which are slots of no state.
    pub(crate) accepts: Vec<Vec<Move>>,
}

impl Drop for Flows {
    fn drop(self) {
        let Self {
            alloc: _,
            keys: _,
            slots: _,
            marks: _,
            edges: _,
            accepts: _,
        } = self;
    }
}

/// A number for a register or an m-register: that of a register is even.
pub(crate) fn code_of(held: Held) -> u32 {
    match held {
        Held::Reg(reg) => reg.wrapping_mul(2),
        Held::MReg(mreg) => mreg.wrapping_mul(2).wrapping_add(1),
    }
}

/// The number of a register or an m-register.
pub(crate) fn number_of(held: Held) -> u32 {
    match held {
        Held::Reg(reg) => reg,
        Held::MReg(mreg) => mreg,
    }
}

/// A register of the same sort with another number.
pub(crate) fn with_number(held: Held, number: u32) -> Held {
    match held {
        Held::Reg(_) => Held::Reg(number),
        Held::MReg(_) => Held::MReg(number),
    }
}

impl Flows {
    fn new(alloc: Global) -> Flows {
        Flows {
            alloc,
            keys: IndexSet::new(alloc),
            slots: Vec::new(alloc),
            marks: IndexSet::new(alloc),
            edges: Vec::new(alloc),
            accepts: Vec::new(alloc),
        }
    }

    /// The marks at a place among the lists of marks.
    pub(crate) fn marks_at(&self, place: usize) -> &[bool] {
        match self.marks.get_index(place) {
            Some(marks) => marks.as_slice(),
            None => &[],
        }
    }

    /// The place of a register at a state among the slots.
    fn slot(&mut self, state: u32, held: Held) -> Result<usize, Memory> {
        let key = state as u64 * 4294967296 + code_of(held) as u64;
        let (place, is_new) = self.keys.insert_full(key)?;
        if is_new {
            self.slots.push(Slot { state, held })?;
        }
        Ok(place)
    }

    /// From where a value comes that an outcome at a state takes from there.
    fn source(&mut self, state: u32, outcome: &Outcome) -> Result<Source, Memory> {
        let held = match outcome {
            Outcome::Offset => return Ok(Source::Offset),
            Outcome::Unset => return Ok(Source::Nothing),
            Outcome::Register(reg) => Held::Reg(*reg),
            Outcome::History(mreg, _) => Held::MReg(*mreg),
        };
        let place = self.slot(state, held)?;
        Ok(Source::Slot(place))
    }

    /// The place of the marks of an outcome among the lists of marks.
    fn marks_of(&mut self, outcome: Outcome) -> Result<usize, Memory> {
        let marks = match outcome {
            Outcome::History(_, marks) => marks.into_vec(),
            _ => Vec::new(self.alloc),
        };
        let (place, _) = self.marks.insert_full(marks)?;
        Ok(place)
    }

    /// What comes to a slot by an outcome at a state.
    fn step(&mut self, state: u32, target: usize, outcome: Outcome) -> Result<Move, Memory> {
        let source = self.source(state, &outcome)?;
        let marks = self.marks_of(outcome)?;
        Ok(Move {
            target,
            source,
            marks,
        })
    }

    /// What comes to a register at a state by two lists, of which one is that of the state before.
    fn move_to(
        &mut self,
        state: u32,
        to: u32,
        lists: (&Effects<'_>, &Effects<'_>),
        held: Held,
    ) -> Result<Move, Memory> {
        let target = self.slot(to, held)?;
        let outcome = outcome_of(self.alloc, lists.0, lists.1, held)?;
        self.step(state, target, outcome)
    }

    /// The same of some registers.
    fn moves(
        &mut self,
        state: u32,
        to: u32,
        lists: (&Effects<'_>, &Effects<'_>),
        registers: &[Held],
    ) -> Result<Vec<Move>, Memory> {
        let mut moves = Vec::new(self.alloc);
        for held in registers {
            moves.push(self.move_to(state, to, lists, *held)?)?;
        }
        Ok(moves)
    }

    /// What comes along an edge out of a state to the registers that are live behind it.
    fn moves_along(
        &mut self,
        state: u32,
        leave: &Effects<'_>,
        edge: &Edge,
        registers: &[Held],
    ) -> Result<Vec<Move>, Memory> {
        let effects = Effects::of(self.alloc, edge.ops.as_slice())?;
        self.moves(state, edge.to, (leave, &effects), registers)
    }

    /// The values that go along an edge out of a state to the registers that are live behind it.
    fn along(
        &mut self,
        state: u32,
        leave: &Effects<'_>,
        edge: &Edge,
        registers: &[Held],
    ) -> Result<Flow, Memory> {
        let moves = self.moves_along(state, leave, edge, registers)?;
        Ok(Flow { to: edge.to, moves })
    }

    /// What comes to values by a list.
    fn moves_to(
        &mut self,
        state: u32,
        effects: &Effects<'_>,
        values: &[Held],
    ) -> Result<Vec<Move>, Memory> {
        let none = Effects::of(self.alloc, &[])?;
        self.moves(state, NO_STATE, (&none, effects), values)
    }

    /// The values that go to those of what is accepted at a state.
    fn to_accepted(&mut self, state: u32, accept: &Accept) -> Result<Vec<Move>, Memory> {
        let effects = Effects::of(self.alloc, accept.ops.as_slice())?;
        self.moves_to(state, &effects, accept.values.as_slice())
    }

    /// The values that go to those of what a state accepts.
    fn to_values(&mut self, state: u32, accept: &Option<Accept>) -> Result<Vec<Move>, Memory> {
        match accept {
            Some(accept) => self.to_accepted(state, accept),
            None => Ok(Vec::new(self.alloc)),
        }
    }

    /// The values that go along the edges out of a state, where this is done on leaving it.
    fn out_behind(
        &mut self,
        given: &Auto,
        live: &Liveness,
        number: u32,
        state: &State,
        leave: &Effects<'_>,
    ) -> Result<Vec<Flow>, Memory>
        requires live { IsLivenessOf given.now live.now }
        requires within { number < length given.now.states }
        requires state { state.now ≡ state_of given.now.states number }
    {
        let mut flows = Vec::new(self.alloc);
        for edge in state.edges.as_slice() {
            let registers = live.behind(self.alloc, given, number, edge)?;
            let flow = self.along(number, leave, edge, registers.as_slice())?;
            flows.push(flow)?;
        }
        Ok(flows)
    }

    /// The values that go along the edges out of a state.
    fn out_of(
        &mut self,
        given: &Auto,
        live: &Liveness,
        number: u32,
        state: &State,
    ) -> Result<Vec<Flow>, Memory>
        requires live { IsLivenessOf given.now live.now }
        requires within { number < length given.now.states }
        requires state { state.now ≡ state_of given.now.states number }
    {
        let leave = Effects::of(self.alloc, state.leave.as_slice())?;
        self.out_behind(given, live, number, state, &leave)
    }

    /// Adds the edges of a state.
    fn add_edges(
        &mut self,
        given: &Auto,
        live: &Liveness,
        number: u32,
        state: &State,
    ) -> Result<(), Memory>
        requires live { IsLivenessOf given.now live.now }
        requires within { number < length given.now.states }
        requires state { state.now ≡ state_of given.now.states number }
    {
        let flows = self.out_of(given, live, number, state)?;
        self.edges.push(flows)?;
        Ok(())
    }

    /// Adds what a state accepts.
    fn add_accept(&mut self, number: u32, accept: &Option<Accept>) -> Result<(), Memory> {
        let moves = self.to_values(number, accept)?;
        self.accepts.push(moves)?;
        Ok(())
    }

    /// Adds the states with their edges.
    fn add_states(&mut self, given: &Auto, live: &Liveness) -> Result<(), Memory>
        requires formed { IsAuto given.now }
        requires live { IsLivenessOf given.now live.now }
    {
        for (number, state) in given.states.as_slice().iter().enumerate() {
            self.add_edges(given, live, number as u32, state)?;
            self.add_accept(number as u32, &state.accept)?;
        }
        Ok(())
    }
}

/// The values that go along the edges of an automaton.
pub(crate) fn flows_of(alloc: Global, given: &Auto, live: &Liveness) -> Result<Flows, Memory>
    requires formed { IsAuto given.now }
    requires live { IsLivenessOf given.now live.now }
{
    let mut flows = Flows::new(alloc);
    flows.add_states(given, live)?;
    Ok(flows)
}
