//! The state of a list of places.
ghost use Rattle.std.specs.Prelude.{◌≡◌, ◌<◌, ◌≤◌, ◌*◌, All, IfOk, IfSome, List, MatchResult, None, Some, length, map, option_map, slice_get};
ghost use Rattle.lx_base.specs.declared.limits.TheConstants.{PLACE_LIMIT};
ghost use Rattle.lx_auto.specs.Automaton.{AreApart};
ghost use Rattle.lx_tnfa.specs.Closure.{AllPlaces};
ghost use Rattle.lx_tnfa.specs.declared.places.Place.{Place};
ghost use Rattle.lx_tdfa.specs.Building.{AreListed, AreTargets, Grows, IsEdgeMade, IsSourceOfRules, TooManyFound, greatest_of};
ghost use Rattle.lx_tdfa.specs.Edges.{AreEdgesBefore};
ghost use Rattle.lx_tdfa.specs.Making.{StopsBy, seen_ending, seen_step};
ghost use Rattle.lx_tdfa.specs.Registers.{ending_ops, first_of, held_from, step_ops, widest};
ghost use Rattle.lx_tdfa.specs.Table.{IsStateOf, accept_of, is_first, leave_of, onward_by};

use crate::cuts::{last_unit, merged_cuts};
use crate::edges::push_edge;
use crate::kernels::Kernels;
use crate::operations::{Transfer, push_tags};
use crate::steps::{Ending, Step, first_ending, next_steps, step_places};
use lx_auto::{Accept, Edge, Held, Ops, State};
use lx_base::{Memory, Pos, Sequence, Stop};
use lx_tnfa::{Place, Reach, Search, Tnfa, Visited};
use std::alloc::Global;

/// What the states of an automaton are made from.
#[derive(Clone, Copy)]
pub struct Source<'a> {
    pub alloc: Global,
    /// The automaton of a rule list, from which they are made.
    pub t: &'a Tnfa,
    /// The most tags that a rule has: so many registers hold the values at a place.
    pub width: u32,
    /// Where the scanner stands that would have too many states.
    pub at: Pos,
}

/// Buffers for the work on one state after another.
#[derive(Drop)]
pub(crate) struct Buffers {
    pub search: Search,
    pub seen: Visited<Place>,
}

/// Units, from the least to the greatest one.
#[derive(Clone, Copy)]
struct Units {
    lo: u32,
    hi: u32,
}

impl<'a> Source<'a> {
    /// The first register of the place with this index.
    fn first_of(&self, index: usize) -> u32
        requires narrow { self.now.width ≤ 130 }
        requires within { index ≤ PLACE_LIMIT }
        ensures { result ≡ first_of self.now.width index }
    {
        (index as u32 + 1) * self.width
    }

    /// The operations of steps: they bring the values of tags from place to place. Its only error is want of memory.
    pub fn step_ops(&self, is_first: bool, steps: &[Step<'_>]) -> Result<Ops, Memory>
        requires of_rules { IsSourceOfRules self.now }
        requires few { length steps.now ≤ PLACE_LIMIT }
        requires sources { All (λ step. step.reach.now.from < PLACE_LIMIT) steps.now }
        ensures { IfOk result (λ ops. ops ≡ step_ops self.now.t.now (widest self.now.t.now.rules) is_first 0 (map seen_step steps.now)) }
    {
        let mut ops = Ops::new(self.alloc);
        let mut marks = Vec::new(self.alloc);
        for (index, step) in steps.iter().enumerate() {
            let transfer = Transfer {
                is_first,
                source: self.first_of(step.reach.from as usize),
                target: self.first_of(index),
            };
            push_tags(
                &mut ops,
                &mut marks,
                transfer,
                step.reach.events.as_slice(),
                self.t.tags_at(step.to.part),
            )?;
        }
        Ok(ops)
    }

    /// The operations that keep the values of a rule that ends.
    fn ending_ops(&self, is_first: bool, ending: Ending<'_>) -> Result<Ops, Memory>
        requires of_rules { IsSourceOfRules self.now }
        requires source { ending.reach.now.from < PLACE_LIMIT }
        ensures { IfOk result (λ ops. ops ≡ ending_ops self.now.t.now (widest self.now.t.now.rules) is_first (seen_ending ending.entry)) }
    {
        let mut ops = Ops::new(self.alloc);
        let mut marks = Vec::new(self.alloc);
        let transfer = Transfer {
            is_first,
            source: self.first_of(ending.reach.from as usize),
            target: 0,
        };
        push_tags(
            &mut ops,
            &mut marks,
            transfer,
            ending.reach.events.as_slice(),
            self.t.tags_of(ending.rule),
        )?;
        Ok(ops)
    }

    /// What holds the values of a rule's tags where it was accepted.
    fn held(&self, kinds: &[bool]) -> Result<Sequence<Held>, Memory>
        requires { length kinds.now ≤ 130 }
        ensures { IfOk result (λ values. values ≡ held_from 0 kinds.now) }
    {
        let mut values = Sequence::new(self.alloc);
        for (tag, many) in kinds.iter().enumerate() {
            let tag = tag as u32;
            values.push(if *many {
                Held::MReg(tag + 1)
            } else {
                Held::Reg(tag)
            })?;
        }
        Ok(values)
    }

    /// What a state accepts by its first ending. Its only error is want of memory.
    pub fn accept(
        &self,
        is_first: bool,
        ending: Option<Ending<'_>>,
    ) -> Result<Option<Accept>, Memory>
        requires of_rules { IsSourceOfRules self.now }
        requires source { IfSome ending (λ ending. ending.reach.now.from < PLACE_LIMIT) }
        ensures { IfOk result (λ accept. accept ≡ accept_of self.now.t.now is_first (option_map seen_ending ending.entry)) }
    {
        match ending {
            None => Ok(None),
            Some(ending) => Ok(Some(Accept {
                rule: ending.rule,
                ops: self.ending_ops(is_first, ending)?,
                values: self.held(self.t.tags_of(ending.rule))?,
            })),
        }
    }

    /// What is done where a state is left: the values of the rule that ended are kept. Its only error is want of memory.
    pub fn leave(&self, is_first: bool, ending: Option<Ending<'_>>) -> Result<Ops, Memory>
        requires of_rules { IsSourceOfRules self.now }
        requires source { IfSome ending (λ ending. ending.reach.now.from < PLACE_LIMIT) }
        ensures { IfOk result (λ ops. ops ≡ leave_of self.now.t.now is_first (option_map seen_ending ending.entry)) }
    {
        match ending {
            None => Ok(Ops::new(self.alloc)),
            Some(ending) => self.ending_ops(is_first, ending),
        }
    }

    /// The edge on units that all go on alike, if there is one; a list of places that is new becomes a state.
    fn edge(
        &self,
        kernels: &mut Kernels<Place>,
        seen: &mut Visited<Place>,
        is_first: bool,
        reaches: &[Reach],
        units: Units,
    ) -> Result<Option<Edge>, Stop>
        requires of_rules { IsSourceOfRules self.now }
        requires listed { AreListed self.now.t.now kernels.old }
        requires targets { AreTargets self.now.t.now reaches.now × AllPlaces self.now.t.now reaches.now }
        requires unit { units.lo ≤ greatest_of self.now.t.now }
        ensures { MatchResult result (λ edge. Grows self.now.t.now kernels.old kernels.new × IsEdgeMade self.now.t.now kernels.new is_first reaches.now units edge)
            (StopsBy self.now.at (TooManyFound self.now.t.now)) }
    {
        let steps = next_steps(self.alloc, self.t, seen, reaches, units.lo)?;
        if steps.is_empty() {
            return Ok(None);
        }
        let to = kernels.add(step_places(self.alloc, &steps)?, self.at)?;
        Ok(Some(Edge {
            lo: units.lo,
            hi: units.hi,
            ops: self.step_ops(is_first, &steps)?,
            to: to as u32,
        }))
    }

    /// The edges of a state, by the targets of its closure.
    fn edges(
        &self,
        kernels: &mut Kernels<Place>,
        seen: &mut Visited<Place>,
        is_first: bool,
        reaches: &[Reach],
    ) -> Result<Sequence<Edge>, Stop>
        requires of_rules { IsSourceOfRules self.now }
        requires listed { AreListed self.now.t.now kernels.old }
        requires targets { AreTargets self.now.t.now reaches.now × AllPlaces self.now.t.now reaches.now }
        ensures { MatchResult result (λ edges. Grows self.now.t.now kernels.old kernels.new
            × AreEdgesBefore self.now.t.now (greatest_of self.now.t.now) kernels.new is_first (onward_by self.now.t.now reaches.now) None edges)
            (StopsBy self.now.at (TooManyFound self.now.t.now)) }
    {
        let cuts = merged_cuts(self.alloc, self.t, reaches)?;
        let mut edges = Vec::new(self.alloc);
        for index in 0..cuts.len() {
            if let Some(hi) = last_unit(&cuts, index, self.t.greatest()) {
                let units = Units {
                    lo: cuts[index],
                    hi,
                };
                if let Some(edge) = self.edge(kernels, seen, is_first, reaches, units)? {
                    push_edge(&mut edges, edge)?;
                }
            }
        }
        Ok(Sequence::from_vec(edges))
    }

    /// The state of the list of places with this number.
    pub(crate) fn state(
        &self,
        kernels: &mut Kernels<Place>,
        buffers: &mut Buffers,
        number: usize,
    ) -> Result<State, Stop>
        requires of_rules { IsSourceOfRules self.now }
        requires listed { AreListed self.now.t.now kernels.old }
        requires there { number < length kernels.old }
        ensures { MatchResult result (λ state. Grows self.now.t.now kernels.old kernels.new
            × ((list : List Place) → slice_get kernels.old number ≡ Some list
            → IsStateOf self.now.t.now (greatest_of self.now.t.now) kernels.new (is_first number) list state × AreApart state.edges))
            (StopsBy self.now.at (TooManyFound self.now.t.now)) }
    {
        let is_first = number == 0;
        let reaches = self
            .t
            .closure_with(self.alloc, &mut buffers.search, kernels.get(number))?;
        let reaches = reaches.as_slice();
        let ending = first_ending(reaches);
        Ok(State {
            edges: self.edges(kernels, &mut buffers.seen, is_first, reaches)?,
            accept: self.accept(is_first, ending)?,
            leave: self.leave(is_first, ending)?,
        })
    }
}
