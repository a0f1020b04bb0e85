//! The stops of a search that were visited.
ghost use Rattle.std.specs.Bool.{MatchBool};
ghost use Rattle.std.specs.Prelude.{◌≡◌, [], ◌∷◌, ◌++◌, ℕ, ◌<◌, ◌≤◌, ◌^◌, Contains, IfOk, IfSome, OnErr, OnOk};
ghost use Rattle.lx_tnfa.specs.Noted.{IsNoted, NotesOnly, mark_place, turn_at};

use crate::closure::{Stop, Target};
use indexmap::IndexSet;
use lx_base::Memory;
use std::alloc::Global;
use std::marker::Model;

/// Different stops, in the order in which they were visited. Most have a number, by which they are found without a hash, and all are
/// taken out at once. Contracts see them as a list.
pub(crate) struct VisitedStops {
    stops: Vec<Stop>,
    /// By the numbers of stops, the turn in which each was visited last.
    marks: Vec<u32>,
    /// Those without a number.
    others: IndexSet<Stop>,
    /// The present turn: each begins with no stop.
    turn: u32,
}

impl Drop for VisitedStops {
    fn drop(self) {
        let Self {
            stops: _,
            marks: _,
            others: _,
            turn: _,
        } = self;
    }
}

impl Model for VisitedStops {
    ghost use Rattle.std.specs.Prelude.{List};
    ghost use Rattle.lx_tnfa.specs.Noted.{AreNoted};
    ghost use Rattle.lx_tnfa.specs.declared.closure.Stop.{Stop as StopValue};

    ghost Value = { List StopValue };

    ghost view = { λ visited. visited.stops.items };

    ghost invariant = { λ visited. AreNoted visited.stops.items visited.marks.items visited.turn visited.others.keys };
}

/// The number of a stop, if it has one: states have the even ones, places with residual 0 or 1 the odd ones.
fn mark_place(stop: Stop) -> Option<usize>
    ensures place { result ≡ mark_place stop }
    ensures small { IfSome result (λ place. place < 2 ^ 40) }
{
    match stop {
        Stop::AtState(number) => Some(2 * number as usize),
        Stop::AtTarget(Target::Leaf(place)) => match place.rest.0 {
            0 => Some(4 * place.part as usize + 1),
            1 => Some(4 * place.part as usize + 3),
            _ => None,
        },
        Stop::AtTarget(Target::End(_)) => None,
    }
}

/// Notes the turn at a place, and tells whether it was not noted there.
fn mark(marks: &mut Vec<u32>, turn: u32, place: usize) -> Result<bool, Memory>
    requires { place < 2 ^ 40 }
    ensures told { IfOk result (λ fresh. MatchBool fresh (¬ turn_at marks.old.items place ≡ turn) (turn_at marks.old.items place ≡ turn)) }
    ensures noted { OnOk result (turn_at marks.new.items place ≡ turn) }
    ensures kept { (other : ℕ) → ¬ other ≡ place → turn_at marks.new.items other ≡ turn_at marks.old.items other }
    ensures refused { OnErr result (marks.new.items ≡ marks.old.items) }
{
    if place >= marks.len() {
        marks.resize(place + 1, 0)?;
    }
    let fresh = marks[place] != turn;
    marks[place] = turn;
    Ok(fresh)
}

/// Notes a stop, and tells whether it was not noted in this turn.
fn note(
    marks: &mut Vec<u32>,
    others: &mut IndexSet<Stop>,
    turn: u32,
    stop: Stop,
) -> Result<bool, Memory>
    ensures told { IfOk result (λ fresh. MatchBool fresh (¬ IsNoted marks.old.items turn others.old.keys stop)
        (IsNoted marks.old.items turn others.old.keys stop)) }
    ensures noted { OnOk result (NotesOnly stop marks.old.items marks.new.items turn others.old.keys others.new.keys) }
    ensures refused { OnErr result ((marks.new.items ≡ marks.old.items) × (others.new.keys ≡ others.old.keys)) }
{
    match mark_place(stop) {
        Some(place) => mark(marks, turn, place),
        None => {
            let fresh = others.insert(stop)?;
            Ok(fresh)
        }
    }
}

/// Takes all items out, in time linear in how many there are, and keeps the memory.
fn empty(others: &mut IndexSet<Stop>)
    ensures { others.new.keys ≡ [] }
{
    while others.pop().is_some() {}
}

/// A turn that is noted nowhere. Once the turns are used up, the marks are made anew.
fn next_turn(marks: &mut Vec<u32>, turn: u32) -> u32
    ensures { ((place : ℕ) → turn_at marks.old.items place ≤ turn) → (place : ℕ) → turn_at marks.new.items place < result }
{
    if turn == u32::MAX {
        marks.clear();
        1
    } else {
        turn + 1
    }
}

impl VisitedStops {
    /// No stop. It takes no memory.
    pub(crate) fn new(alloc: Global) -> VisitedStops
        ensures { result ≡ [] }
    {
        VisitedStops {
            stops: Vec::new(alloc),
            marks: Vec::new(alloc),
            others: IndexSet::new(alloc),
            turn: 1,
        }
    }

    /// Takes all stops out, in time linear in how many of them have no number, and keeps the memory.
    pub(crate) fn clear(&mut self)
        ensures { self.new ≡ [] }
    {
        self.stops.clear();
        empty(&mut self.others);
        self.turn = next_turn(&mut self.marks, self.turn);
    }

    /// Visits a stop, and says whether it was not visited before.
    pub(crate) fn add(&mut self, stop: Stop) -> Result<bool, Memory>
        ensures { IfOk result (λ new. MatchBool new (¬ Contains self.old stop × (self.new ≡ self.old ++ stop ∷ []))
            (Contains self.old stop × (self.new ≡ self.old))) }
    {
        self.stops.reserve(1)?;
        let fresh = note(&mut self.marks, &mut self.others, self.turn, stop)?;
        if fresh {
            self.stops.push(stop)?;
        }
        Ok(fresh)
    }
}
