//! The lists of operations that bring values to the registers that are chosen for them.
//!
//! All of it is done on edges, and nothing where a state is left: that would be done on each way out of the state, also on those behind
//! which nothing reads it.
use crate::flows::{Flow, Flows, Move, Source, code_of};
use crate::name_tables::NameTable;
use indexmap::IndexMap;
use lx_auto::{Accept, Edge, Held, Op, Ops, State};
use lx_base::{Memory, Sequence};
use std::alloc::Global;

/// What a register gets, by names of the answer.
#[derive(Clone, Copy)]
enum Gets {
    Offset,
    Nothing,
    What(Held),
}

/// A register of the answer and what it gets.
#[derive(Clone, Copy)]
struct Setting {
    target: Held,
    gets: Gets,
    marks: usize,
}

/// What registers of the answer get along an edge, by their codes.
type Settings = IndexMap<u32, Setting>;

/// What lists are written from.
#[derive(Clone, Copy)]
pub(crate) struct Writer<'a> {
    pub(crate) alloc: Global,
    pub(crate) flows: &'a Flows,
    pub(crate) table: &'a NameTable,
}

impl<'a> Writer<'a> {
    /// The name of a slot.
    fn name(&self, place: usize) -> Option<Held> {
        match self.flows.slots.get(place) {
            Some(slot) => Some(self.table.name(slot.state, slot.held)),
            None => None,
        }
    }

    /// What a register of the answer gets by a move.
    fn setting(&self, step: Move) -> Option<Setting> {
        let target = self.name(step.target)?;
        let gets = match step.source {
            Source::Offset => Gets::Offset,
            Source::Nothing => Gets::Nothing,
            Source::Slot(source) => Gets::What(self.name(source)?),
        };
        Some(Setting {
            target,
            gets,
            marks: step.marks,
        })
    }

    /// Notes what a register of the answer gets by a move, unless something is noted of it.
    fn note(&self, settings: &mut Settings, step: Move) -> Result<(), Memory> {
        if let Some(setting) = self.setting(step) {
            let code = code_of(setting.target);
            if settings.get(&code).is_none() {
                settings.insert(code, setting)?;
            }
        }
        Ok(())
    }

    /// What registers of the answer get by moves, each once.
    fn settings(&self, moves: &[Move]) -> Result<Settings, Memory> {
        let mut settings = IndexMap::new(self.alloc);
        for step in moves {
            self.note(&mut settings, *step)?;
        }
        Ok(settings)
    }

    /// Appends the marks of an m-register.
    fn push_marks(&self, ops: &mut Ops, mreg: u32, marks: &[bool]) -> Result<(), Memory> {
        for mark in marks {
            ops.push(if *mark {
                Op::MHere(mreg)
            } else {
                Op::MNull(mreg)
            })?;
        }
        Ok(())
    }

    /// Appends what gives a register what it gets, where it does not hold that already.
    fn push(&self, ops: &mut Ops, setting: Setting) -> Result<(), Memory> {
        match (setting.target, setting.gets) {
            (Held::Reg(reg), Gets::Offset) => ops.push(Op::Here(reg)),
            (Held::Reg(reg), Gets::Nothing) => ops.push(Op::Null(reg)),
            (Held::Reg(reg), Gets::What(Held::Reg(source))) => {
                if reg != source {
                    ops.push(Op::Copy(reg, source))?;
                }
                Ok(())
            }
            (Held::MReg(mreg), Gets::What(Held::MReg(source))) => {
                if mreg != source {
                    ops.push(Op::MCopy(mreg, source))?;
                }
                self.push_marks(ops, mreg, self.flows.marks_at(setting.marks))
            }
            _ => Ok(()),
        }
    }

    /// The operations by which registers of the answer get this.
    fn ops_by(&self, settings: &Settings) -> Result<Ops, Memory> {
        let mut ops = Ops::new(self.alloc);
        for index in 0..settings.len() {
            if let Some((_, setting)) = settings.get_index(index) {
                self.push(&mut ops, *setting)?;
            }
        }
        Ok(ops)
    }

    /// The operations by which registers of the answer get what they get by moves.
    fn ops(&self, moves: &[Move]) -> Result<Ops, Memory> {
        let settings = self.settings(moves)?;
        self.ops_by(&settings)
    }

    /// The operations of an edge of the answer.
    fn ops_along(&self, flow: Option<&Flow>) -> Result<Ops, Memory> {
        match flow {
            Some(flow) => self.ops(flow.moves.as_slice()),
            None => Ok(Ops::new(self.alloc)),
        }
    }

    /// An edge of the answer.
    fn edge(&self, edge: &Edge, flow: Option<&Flow>) -> Result<Edge, Memory> {
        Ok(Edge {
            lo: edge.lo,
            hi: edge.hi,
            ops: self.ops_along(flow)?,
            to: edge.to,
        })
    }

    /// The edges of a state of the answer.
    fn edges(&self, edges: &[Edge], flows: &[Flow]) -> Result<Sequence<Edge>, Memory> {
        let mut others = Sequence::new(self.alloc);
        for (place, edge) in edges.iter().enumerate() {
            others.push(self.edge(edge, flows.get(place))?)?;
        }
        Ok(others)
    }

    /// What holds the values in the answer.
    fn values(&self, values: &[Held]) -> Result<Sequence<Held>, Memory> {
        let mut others = Sequence::new(self.alloc);
        for value in values {
            others.push(self.table.name(0, *value))?;
        }
        Ok(others)
    }

    /// What a state of the answer accepts.
    fn accepted(&self, accept: &Accept, moves: &[Move]) -> Result<Accept, Memory> {
        Ok(Accept {
            rule: accept.rule,
            ops: self.ops(moves)?,
            values: self.values(accept.values.as_slice())?,
        })
    }

    /// The same, if it accepts.
    fn accept(&self, accept: &Option<Accept>, moves: &[Move]) -> Result<Option<Accept>, Memory> {
        match accept {
            Some(accept) => Ok(Some(self.accepted(accept, moves)?)),
            None => Ok(None),
        }
    }

    /// A state of the answer.
    fn state(&self, state: &State, flows: &[Flow], moves: &[Move]) -> Result<State, Memory> {
        Ok(State {
            edges: self.edges(state.edges.as_slice(), flows)?,
            accept: self.accept(&state.accept, moves)?,
            leave: Ops::new(self.alloc),
        })
    }

    /// The states of the answer.
    pub(crate) fn states(&self, states: &[State]) -> Result<Sequence<State>, Memory> {
        let mut others = Sequence::new(self.alloc);
        for (number, state) in states.iter().enumerate() {
            if let (Some(flows), Some(moves)) = (
                self.flows.edges.get(number),
                self.flows.accepts.get(number),
            ) {
                let other = self.state(state, flows.as_slice(), moves.as_slice())?;
                others.push(other)?;
            }
        }
        Ok(others)
    }
}
