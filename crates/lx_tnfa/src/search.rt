//! The buffers of a search: the stops that it has visited, those that wait, and the trail of tag events.
ghost use Rattle.std.specs.Prelude.{◌≡◌, ◌++◌, map, reverse, None, OnOk};
ghost use Rattle.lx_tnfa.specs.Closure.{leaf_step, stop_at};
ghost use Rattle.lx_tnfa.specs.Search.{entry_to, move_entries};
ghost use Rattle.lx_tnfa.specs.declared.closure.Stop.TheVariants.{AtState};

use crate::closure::{Stop, Target};
use crate::places::Place;
use crate::states::{Event, Move};
use crate::stops::VisitedStops;
use lx_base::Memory;
use lx_encode::Residual;
use std::alloc::Global;

/// A move: the number of its state, and its place among the moves there.
#[derive(Clone, Copy)]
pub(crate) struct Way {
    pub state: u32,
    pub index: usize,
}

/// A stop that is still to be looked at. The events of the walk to it are those of the trail up to a depth, and those of a move.
#[derive(Clone, Copy)]
pub(crate) struct Entry {
    pub stop: Stop,
    pub depth: usize,
    pub way: Option<Way>,
    /// The index of the place from which the walk starts.
    pub from: u32,
}

/// Where walks branch off: at a state, with so many events on the trail, on a walk from the place with this index.
#[derive(Clone, Copy)]
pub(crate) struct Branch {
    pub state: u32,
    pub depth: usize,
    pub from: u32,
}

impl Branch {
    /// A stop one step on, by a move if that may have events.
    fn entry(self, way: Option<Way>, stop: Stop) -> Entry
        ensures { result ≡ entry_to self way stop }
    {
        Entry {
            stop,
            depth: self.depth,
            way,
            from: self.from,
        }
    }
}

/// The buffers of a search for the closure of places, which a caller lends to `Tnfa::closure_with`.
///
/// It may hold anything from call to call: no answer depends on what it held. Its buffers are kept, and grow to what the largest
/// call needed.
pub struct Search {
    pub(crate) visited: VisitedStops,
    pub(crate) waiting: Vec<Entry>,
    pub(crate) trail: Vec<Event>,
}

impl Drop for Search {
    fn drop(self) {
        let Self {
            visited: _,
            waiting: _,
            trail: _,
        } = self;
    }
}

impl Search {
    /// Empty buffers. It takes no memory.
    pub fn new(alloc: Global) -> Search {
        Search {
            visited: VisitedStops::new(alloc),
            waiting: Vec::new(alloc),
            trail: Vec::new(alloc),
        }
    }
}

/// A state; the last state of all is the end of the rule.
fn stop_at(rule: u32, number: u32) -> Stop
    ensures { result ≡ stop_at rule number }
{
    if number == 0 {
        Stop::AtTarget(Target::End(rule))
    } else {
        Stop::AtState(number)
    }
}

/// Appends the beginnings of rules to the stops that wait, the last one first.
pub(crate) fn push_begins(
    waiting: &mut Vec<Entry>,
    branch: Branch,
    begins: &[u32],
) -> Result<(), Memory>
    ensures { OnOk result (waiting.new.items ≡ waiting.old.items ++ reverse (map (λ begin. entry_to branch None (AtState begin)) begins.now)) }
{
    for index in (0..begins.len()).rev() {
        waiting.push(branch.entry(None, Stop::AtState(begins[index])))?;
    }
    Ok(())
}

/// Appends where moves lead, in the rule with this number, to the stops that wait, the last one first.
pub(crate) fn push_moves(
    waiting: &mut Vec<Entry>,
    branch: Branch,
    rule: u32,
    ways: &[Move],
) -> Result<(), Memory>
    ensures { OnOk result (waiting.new.items ≡ waiting.old.items ++ reverse (move_entries branch rule 0 ways.now)) }
{
    for index in (0..ways.len()).rev() {
        let way = Way {
            state: branch.state,
            index,
        };
        waiting.push(branch.entry(Some(way), stop_at(rule, ways[index].to)))?;
    }
    Ok(())
}

/// Appends places in a leaf to the stops that wait, the last one first.
pub(crate) fn push_starts(
    waiting: &mut Vec<Entry>,
    branch: Branch,
    part: u32,
    starts: &[Residual],
) -> Result<(), Memory>
    ensures { OnOk result (waiting.new.items ≡ waiting.old.items ++ reverse (map (λ start. entry_to branch None (leaf_step part start).to) starts.now)) }
{
    for index in (0..starts.len()).rev() {
        let place = Place {
            part,
            rest: starts[index],
        };
        waiting.push(branch.entry(None, Stop::AtTarget(Target::Leaf(place))))?;
    }
    Ok(())
}
