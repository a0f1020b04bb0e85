//! Targets of plain walks.
ghost use Rattle.std.specs.Prelude.{◌≡◌, [], ◌++◌, map, reverse, length, take, IfOk, IsTrue, OnOk, ◌↔◌};

use crate::places::Place;
use crate::search::{Branch, Entry, Search, Way, push_begins, push_moves, push_starts};
use crate::states::{Event, State};
use crate::stops::VisitedStops;
use crate::tnfa::Tnfa;
use lx_base::{Memory, Sequence};
use lx_encode::Residual;
use std::alloc::Global;

/// Where a walk without units may end.
#[derive(Clone, Copy, PartialEq, Eq, Hash)]
pub enum Target {
    /// Before a leaf, or in the middle of one.
    Leaf(Place),
    /// At the end of the rule with this number.
    End(u32),
}

/// A target with the tag events of the least walk to it.
#[derive(Drop)]
pub struct Reach {
    /// Where the walk ends.
    pub to: Target,
    /// What happens to tags on the walk, in order.
    pub events: Sequence<Event>,
    /// The index of the place from which the walk starts.
    pub from: u32,
}

/// Where a walk may stand: at the state with this number, or at a target.
#[derive(Clone, Copy, PartialEq, Eq, Hash)]
pub(crate) enum Stop {
    AtState(u32),
    AtTarget(Target),
}

impl Tnfa {
    ghost use Rattle.std.specs.Prelude.{All, ◌+◌, ◌<◌, ◌^◌};
    ghost use Rattle.lx_tnfa.specs.Closure.{AllPlaces, IsClosureOf, IsDead, LeadToTargets, beginning_of, steps_at, waiting_from};
    ghost use Rattle.lx_tnfa.specs.Live.{state_of};
    ghost use Rattle.lx_tnfa.specs.Search.{Enters, entries_at, first_entry, trail_to, way_events};
    ghost use Rattle.lx_tnfa.specs.Tnfa.{IsPlace};

    /// The events of a move.
    fn events_of(&self, way: &Way) -> &[Event]
        ensures { result.now ≡ way_events self.now.states (Some way.now) }
    {
        match self.states.get(way.state as usize) {
            Some(State::Moves(ways)) => match ways.as_slice().get(way.index) {
                Some(way) => way.events.as_slice(),
                None => &[],
            },
            Some(State::Class(_)) | Some(State::AnyUnit) | None => &[],
        }
    }

    /// Cuts the trail back to where a stop that waits branches off, and goes on to it.
    fn follow(&self, trail: &mut Vec<Event>, at: &Entry) -> Result<(), Memory>
        ensures { OnOk result (trail.new.items ≡ trail_to self.now.states trail.old.items at.now) }
    {
        trail.truncate(at.depth);
        if let Some(way) = &at.way {
            trail.extend_from_slice(self.events_of(way))?;
        }
        Ok(())
    }

    /// Appends the stops one step on to those that wait, the last step first.
    fn push_steps(&self, waiting: &mut Vec<Entry>, branch: Branch) -> Result<(), Memory>
        ensures pushed { OnOk result (waiting.new.items ≡ waiting.old.items ++ reverse (entries_at self.now branch branch.state (state_of self.now.states branch.state))) }
        ensures targets { LeadToTargets self.now (steps_at self.now branch.state (state_of self.now.states branch.state)) }
    {
        if branch.state == 0 {
            return push_begins(waiting, branch, &self.begins);
        }
        let part = branch.state / 2;
        match self.states.get(branch.state as usize) {
            Some(State::Moves(ways)) => {
                push_moves(waiting, branch, self.rule_of(part), ways.as_slice())
            }
            Some(State::Class(class)) => match self.classes.get(*class as usize) {
                Some(class) => push_starts(waiting, branch, part, class.graph.starts()),
                None => Ok(()),
            },
            Some(State::AnyUnit) => push_starts(waiting, branch, part, &[Residual(1)]),
            None => Ok(()),
        }
    }

    /// Whether no end can be reached from a stop.
    fn is_dead(&self, stop: Stop) -> bool
        ensures { IsTrue result ↔ IsDead self.now stop }
    {
        match stop {
            Stop::AtState(number) => match self.live.get(number as usize) {
                Some(live) => !*live,
                None => false,
            },
            Stop::AtTarget(_) => false,
        }
    }

    /// Whether a stop is to be entered, which then counts as visited: not where no end can be reached from it, and only once.
    fn enters(&self, visited: &mut VisitedStops, stop: Stop) -> Result<bool, Memory>
        ensures { IfOk result (Enters self.now stop visited.old visited.new) }
    {
        if self.is_dead(stop) {
            return Ok(false);
        }
        visited.add(stop)
    }

    /// Where a walk from a place begins.
    fn beginning_of(&self, place: &Place) -> Stop
        requires { IsPlace self.now place.now }
        ensures { result ≡ beginning_of self.now place.now }
    {
        let done = match &self.states[2 * place.part as usize] {
            State::Moves(_) => return Stop::AtState(0),
            State::Class(class) => self.classes[*class as usize].graph.done(place.rest),
            State::AnyUnit => place.rest == Residual(0),
        };
        if done {
            Stop::AtState(2 * place.part + 1)
        } else {
            Stop::AtTarget(Target::Leaf(*place))
        }
    }

    /// Appends the stops at which the walks from places begin to those that wait, the last place first.
    fn push_beginnings(&self, waiting: &mut Vec<Entry>, places: &[Place]) -> Result<(), Memory>
        requires places { All (IsPlace self.now) places.now }
        requires few { length places.now + 1 < 2 ^ 32 }
        ensures { OnOk result (waiting.new.items ≡ waiting.old.items ++ reverse (map first_entry (waiting_from self.now 0 places.now))) }
    {
        for index in (0..places.len()).rev() {
            waiting.push(Entry {
                stop: self.beginning_of(&places[index]),
                depth: 0,
                way: None,
                from: index as u32,
            })?;
        }
        Ok(())
    }

    /// The targets that plain walks from places reach, each once, by place and then by least walk, with the events of that walk.
    ///
    /// `IsClosureOf` in `specs/Closure.antt` says what plain walks are. A caller who calls often lends the buffers of the search, to
    /// `closure_with`.
    pub fn closure(&self, alloc: Global, places: &[Place]) -> Result<Sequence<Reach>, Memory>
        requires places { All (IsPlace self.now) places.now }
        requires few { length places.now + 1 < 2 ^ 32 }
        ensures closure { IfOk result (IsClosureOf self.now places.now) }
        ensures places { IfOk result (AllPlaces self.now) }
    {
        let mut search = Search::new(alloc);
        self.closure_with(alloc, &mut search, places)
    }

    /// The same as `closure`, by a search in buffers that the caller lends, whatever they hold: a caller who calls often lends one
    /// `Search`. Its buffers are kept, and grow to the largest call; all other memory that is taken is the answer's.
    ///
    /// The search is depth first, with a stack of the stops that wait, and a trail of the events on the way to the stop where it is.
    /// It takes time linear in the states and moves that it visits, the events of these moves, and the answer, and once for each `Search`
    /// also in the states of the automaton.
    pub fn closure_with(
        &self,
        alloc: Global,
        search: &mut Search,
        places: &[Place],
    ) -> Result<Sequence<Reach>, Memory>
        requires places { All (IsPlace self.now) places.now }
        requires few { length places.now + 1 < 2 ^ 32 }
        ensures closure { IfOk result (IsClosureOf self.now places.now) }
        ensures places { IfOk result (AllPlaces self.now) }
    {
        let Search {
            visited,
            waiting,
            trail,
        } = search;
        visited.clear();
        trail.clear();
        waiting.clear();
        self.push_beginnings(waiting, places)?;
        let mut reaches = Sequence::new(alloc);
        while let Some(at) = waiting.pop() {
            if !self.enters(visited, at.stop)? {
                continue;
            }
            self.follow(trail, &at)?;
            match at.stop {
                Stop::AtState(state) => {
                    let branch = Branch {
                        state,
                        depth: trail.len(),
                        from: at.from,
                    };
                    self.push_steps(waiting, branch)?;
                }
                Stop::AtTarget(to) => reaches.push(Reach {
                    to,
                    events: Sequence::from_vec(Vec::from_slice(alloc, trail)?),
                    from: at.from,
                })?,
            }
        }
        Ok(reaches)
    }
}
