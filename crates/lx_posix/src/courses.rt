//! The tag events on one way after another. Behind the moves that a way has in common with the one before it, only the others are
//! looked at.
ghost use Rattle.std.specs.Prelude.{◌≡◌, ◌≤◌, ℕ, ◌++◌, OnOk, length};
ghost use Rattle.lx_posix.specs.Courses.{IsCourse, marks_on, shared};
ghost use Rattle.lx_posix.specs.Finding.{IsWay};
ghost use Rattle.lx_posix.specs.Reaching.{events_on};

use lx_base::Memory;
use lx_tnfa::{Event, Tnfa};

/// Where a way stands: at a state, behind so many tag events.
#[derive(Clone, Copy)]
pub(crate) struct Mark {
    pub state: u32,
    pub count: usize,
}

/// A way from a state by moves with these indices.
#[derive(Clone, Copy)]
pub(crate) struct Way<'a> {
    pub state: u32,
    pub moves: &'a [u32],
}

/// How many moves two ways have in common before they part. It takes no memory.
pub(crate) fn shared(way: &[u32], other: &[u32]) -> usize
    ensures is { result ≡ shared way.now other.now }
    ensures within { result ≤ length way.now }
    ensures other_within { result ≤ length other.now }
{
    let mut left = way;
    let mut others = other;
    while let Some((index, behind)) = left.split_first() {
        let Some((second, rest)) = others.split_first() else {
            return way.len() - left.len();
        };
        if *index != *second {
            return way.len() - left.len();
        }
        left = behind;
        others = rest;
    }
    way.len() - left.len()
}

/// Appends the marks and the tag events of a way from a state by moves with these indices.
fn go_on(
    t: &Tnfa,
    marks: &mut Vec<Mark>,
    events: &mut Vec<Event>,
    state: u32,
    way: &[u32],
) -> Result<(), Memory>
    requires { (to : ℕ) × IsWay t.now state way.now to }
    ensures marked { OnOk result (marks.new.items ≡ marks.old.items ++ marks_on t.now state (length events.old.items) way.now) }
    ensures listed { OnOk result (events.new.items ≡ events.old.items ++ events_on t.now state way.now) }
{
    let mut at = state;
    for index in way {
        marks.push(Mark {
            state: at,
            count: events.len(),
        })?;
        let step = &t.moves(at)[*index as usize];
        events.extend_from_slice(step.events.as_slice())?;
        at = step.to;
    }
    marks.push(Mark {
        state: at,
        count: events.len(),
    })?;
    Ok(())
}

/// Goes over from one way to another from the same state.
fn follow(
    t: &Tnfa,
    marks: &mut Vec<Mark>,
    events: &mut Vec<Event>,
    before: &[u32],
    way: Way<'_>,
) -> Result<(), Memory>
    requires course { IsCourse t.now way.state before.now marks.old.items events.old.items }
    requires way { (to : ℕ) × IsWay t.now way.state way.moves.now to }
    ensures { OnOk result (IsCourse t.now way.entry.state way.entry.moves.now marks.new.items events.new.items) }
{
    let count = shared(before, way.moves);
    let mark = marks[count];
    marks.truncate(count);
    events.truncate(mark.count);
    let behind = &way.moves[count..];
    go_on(t, marks, events, mark.state, behind)?;
    Ok(())
}

/// Goes over from one way to another.
pub(crate) fn turn(
    t: &Tnfa,
    marks: &mut Vec<Mark>,
    events: &mut Vec<Event>,
    before: Way<'_>,
    way: Way<'_>,
) -> Result<(), Memory>
    requires course { IsCourse t.now before.state before.moves.now marks.old.items events.old.items }
    requires way { (to : ℕ) × IsWay t.now way.state way.moves.now to }
    ensures { OnOk result (IsCourse t.now way.entry.state way.entry.moves.now marks.new.items events.new.items) }
{
    if before.state == way.state {
        return follow(t, marks, events, before.moves, way);
    }
    marks.clear();
    events.clear();
    go_on(t, marks, events, way.state, way.moves)?;
    Ok(())
}
