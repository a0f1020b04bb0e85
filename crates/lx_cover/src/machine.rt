//! The run of an automaton on a word, unit by unit, and the match that it finds.
ghost use Rattle.std.specs.Prelude.{◌≡◌, ◌+◌, ◌^◌, ◌<◌, Some, IfOk, OnOk, length};
ghost use Rattle.lx_auto.specs.Automaton.{IsAccept, IsAuto, state_of};
ghost use Rattle.lx_auto.specs.Run.{at_start, behind_edge, found_behind, found_by, found_left, left_after};
ghost use Rattle.lx_auto.specs.declared.automaton.Auto.{Auto as AutoValue};
ghost use Rattle.lx_cover.specs.Machine.{IsLeftWithin, IsMachineOf, IsTaken, LeadsWithin, Stands, last_standing, left_of, standing_of};

use crate::registers::Registers;
use crate::values::Values;
use lx_auto::{Accept, Auto, Edge, State};
use lx_base::Memory;
use std::alloc::Global;

/// An accepting state that was left, by its number, and the offset there.
#[derive(Clone, Copy)]
pub(crate) struct LastLeft {
    state: u32,
    offset: u64,
}

/// The match of a rule: its number, where it ends, and the values of its tags.
#[derive(Drop)]
pub(crate) struct Taken {
    pub rule: u32,
    pub offset: u64,
    pub values: Values,
}

/// A machine that runs an automaton: its state, how far it came, its registers, and the accepting state that it left last.
#[derive(Drop)]
pub(crate) struct Machine {
    state: u32,
    pub offset: u64,
    registers: Registers,
    left: Option<LastLeft>,
}

/// The state with a number.
fn state_at(auto: &Auto, number: u32) -> &State
    requires { number < length auto.now.states }
    ensures { result.now ≡ state_of auto.now.states number }
{
    &auto.states.as_slice()[number as usize]
}

impl Machine {
    /// One at the beginning of a word.
    fn start(alloc: Global, auto: &Auto) -> Result<Machine, Memory>
        requires { IsAuto auto.now }
        ensures { IfOk result (Stands auto.now (at_start 0)) }
    {
        Ok(Machine {
            state: 0,
            offset: 0,
            registers: Registers::new(alloc, auto)?,
            left: None,
        })
    }

    /// The accepting state left last, once the state that accepts so is left too.
    fn left_behind(&self, accept: &Option<Accept>) -> Option<LastLeft>
        ensures left { (auto : AutoValue) → accept.now ≡ (state_of auto.states self.now.state).accept
            → left_of auto result ≡ left_after accept.now (standing_of auto self.now) }
        ensures within { (auto : AutoValue) → IsMachineOf auto self.now → IsLeftWithin auto result }
    {
        match accept {
            None => self.left,
            Some(_) => Some(LastLeft {
                state: self.state,
                offset: self.offset,
            }),
        }
    }

    /// Leaves the state by an edge.
    fn take(&mut self, alloc: Global, auto: &Auto, edge: &Edge) -> Result<(), Memory>
        requires formed { IsAuto auto.now }
        requires machine { IsMachineOf auto.now self.old }
        requires offset { self.old.offset + 1 < 2 ^ 64 }
        requires edge { LeadsWithin auto.now edge.now }
        ensures { OnOk result (Stands auto.now
            (behind_edge (state_of auto.now.states self.old.state) (standing_of auto.now self.old) edge.now) self.new) }
    {
        let state = state_at(auto, self.state);
        let left = self.left_behind(&state.accept);
        self.registers
            .act(alloc, self.offset, state.leave.as_slice())?;
        self.registers.act(alloc, self.offset, edge.ops.as_slice())?;
        self.left = left;
        self.state = edge.to;
        self.offset += 1;
        Ok(())
    }

    /// The machine where its run on a word stops: at the end, or before a unit that is on no edge.
    pub(crate) fn run(alloc: Global, auto: &Auto, word: &[u32]) -> Result<Machine, Memory>
        requires { IsAuto auto.now }
        ensures { IfOk result (Stands auto.now (last_standing auto.now (at_start 0) word.now)) }
    {
        let mut machine = Machine::start(alloc, auto)?;
        for unit in word {
            match auto.edge(machine.state, *unit) {
                None => return Ok(machine),
                Some(edge) => machine.take(alloc, auto, edge)?,
            }
        }
        Ok(machine)
    }

    /// The match that ends where the machine stands, by what its state accepts.
    fn taken_here(&mut self, alloc: Global, accept: &Accept) -> Result<Taken, Memory>
        requires { IsAccept (length self.old.registers.values.items) (length self.old.registers.histories.items) (Some accept.now) }
        ensures { (auto : AutoValue) → IfOk result
            (λ taken. IsTaken (found_by (Some accept.now) (standing_of auto self.old)) (Some taken)) }
    {
        self.registers
            .act(alloc, self.offset, accept.ops.as_slice())?;
        Ok(Taken {
            rule: accept.rule,
            offset: self.offset,
            values: self.registers.values(alloc, accept.values.as_slice())?,
        })
    }

    /// The match of the accepting state left last, if there is one.
    fn taken_left(&self, alloc: Global, auto: &Auto) -> Result<Option<Taken>, Memory>
        requires formed { IsAuto auto.now }
        requires machine { IsMachineOf auto.now self.now }
        ensures { IfOk result (IsTaken (found_left (standing_of auto.now self.now).bank (left_of auto.now self.now.left))) }
    {
        let Some(left) = self.left else {
            return Ok(None);
        };
        let Some(accept) = &state_at(auto, left.state).accept else {
            return Ok(None);
        };
        Ok(Some(Taken {
            rule: accept.rule,
            offset: left.offset,
            values: self.registers.values(alloc, accept.values.as_slice())?,
        }))
    }

    /// The match where no unit is read any more: the one that ends here, or that of the accepting state left last.
    pub(crate) fn taken(&mut self, alloc: Global, auto: &Auto) -> Result<Option<Taken>, Memory>
        requires formed { IsAuto auto.now }
        requires machine { IsMachineOf auto.now self.old }
        ensures { IfOk result (IsTaken (found_behind auto.now (standing_of auto.now self.old))) }
    {
        match &state_at(auto, self.state).accept {
            None => self.taken_left(alloc, auto),
            Some(accept) => Ok(Some(self.taken_here(alloc, accept)?)),
        }
    }
}
