//! The targets to which the ways of a search lead, with the tag events on them.
ghost use Rattle.std.specs.Prelude.{◌≡◌, ℕ, ◌+◌, ◌<◌, ◌^◌, ◌++◌, All, IfOk, OnOk, length, replicate};
ghost use Rattle.lx_posix.specs.Courses.{moves_on};
ghost use Rattle.lx_posix.specs.Finding.{IsFoundAt, beginning_at};
ghost use Rattle.lx_posix.specs.Reaching.{IsBelow, events_from, found_reaches, origins_of, reaches_at, reaches_of, source_of};
ghost use Rattle.lx_posix.specs.WayNumbers.{state_number};
ghost use Rattle.lx_posix.specs.declared.points.Point.TheVariants as point;

use crate::courses::{Mark, Way, turn};
use crate::points::{Beginning, Point};
use crate::search::Found;
use lx_base::{Memory, Sequence};
use lx_tnfa::{Event, Place, Reach, Target, Tnfa};
use std::alloc::Global;

/// The targets of ways, and for each the index of its way.
#[derive(Drop)]
pub(crate) struct Reaches {
    pub reaches: Vec<Reach>,
    pub origins: Vec<usize>,
}

/// The way to a point, with the state from which it begins. Within a leaf no move is made.
fn way_to<'a>(beginnings: &[Beginning], found: &'a Found) -> Way<'a>
    requires { found.now.from < length beginnings.now }
    ensures state { result.state ≡ state_number (beginning_at beginnings.now found.now.from).at }
    ensures moves { result.moves.now ≡ moves_on (beginning_at beginnings.now found.now.from).at found.now.way }
{
    match beginnings[found.from as usize].at {
        Point::State(state) => Way {
            state,
            moves: found.way.as_slice(),
        },
        Point::Within(_) => Way {
            state: 0,
            moves: &[],
        },
    }
}

/// Appends each start of the leaf at a state, where an end can be reached behind it, as a target with these events.
fn push_starts(
    alloc: Global,
    t: &Tnfa,
    reaches: &mut Vec<Reach>,
    from: u32,
    state: u32,
    events: &[Event],
) -> Result<(), Memory>
    requires { state + 1 < 2 ^ 32 }
    ensures { OnOk result (reaches.new.items ≡ reaches.old.items ++ reaches_at t.now from (point.State state) events.now) }
{
    if !t.is_live(state + 1) {
        return Ok(());
    }
    for rest in t.starts(state) {
        let place = Place {
            part: state / 2,
            rest: *rest,
        };
        reaches.push(Reach {
            to: Target::Leaf(place),
            events: Sequence::copy_of(alloc, events)?,
            from,
        })?;
    }
    Ok(())
}

/// Appends the targets at a point, with these events on the way there.
fn push_targets(
    alloc: Global,
    t: &Tnfa,
    reaches: &mut Vec<Reach>,
    from: u32,
    at: Point,
    events: &[Event],
) -> Result<(), Memory>
    requires { IsBelow (2 ^ 32) at }
    ensures { OnOk result (reaches.new.items ≡ reaches.old.items ++ reaches_at t.now from at events.now) }
{
    match at {
        Point::State(state) => push_starts(alloc, t, reaches, from, state, events),
        Point::Within(place) => {
            reaches.push(Reach {
                to: Target::Leaf(place),
                events: Sequence::copy_of(alloc, events)?,
                from,
            })?;
            Ok(())
        }
    }
}

/// The index of the place from which a way begins: at first that of the start.
fn source_of(is_first: bool, from: u32) -> u32
    ensures { result ≡ source_of is_first from }
{
    if is_first { 0 } else { from }
}

/// Appends the targets of a way, on which these are the tag events.
fn push_reaches(
    alloc: Global,
    t: &Tnfa,
    reaches: &mut Vec<Reach>,
    is_first: bool,
    beginnings: &[Beginning],
    found: &Found,
    events: &[Event],
) -> Result<(), Memory>
    requires found { (deep : ℕ → ℕ) × IsFoundAt t.now beginnings.now deep found.now }
    requires few { length t.now.states < 2 ^ 32 }
    requires events { events.now ≡ events_from t.now (beginning_at beginnings.now found.now.from).at found.now.way }
    ensures { OnOk result (reaches.new.items ≡ reaches.old.items ++ found_reaches t.now is_first beginnings.now found.now) }
{
    let from = source_of(is_first, found.from);
    push_targets(alloc, t, reaches, from, found.at, events)
}

/// Appends the index of a way for each of its targets, of which there are so many.
fn push_origins(origins: &mut Vec<usize>, index: usize, count: usize) -> Result<(), Memory>
    ensures { OnOk result (origins.new.items ≡ origins.old.items ++ replicate count index) }
{
    for _ in 0..count {
        origins.push(index)?;
    }
    Ok(())
}

/// The targets of the ways that a search found, in order, and for each the index of its way.
///
/// Behind what a way has in common with the one before it, each move is looked at once.
pub(crate) fn reaches_of(
    alloc: Global,
    t: &Tnfa,
    is_first: bool,
    beginnings: &[Beginning],
    founds: &[Found],
) -> Result<Reaches, Memory>
    requires founds { (deep : ℕ → ℕ) × All (IsFoundAt t.now beginnings.now deep) founds.now }
    requires few { length t.now.states < 2 ^ 32 }
    ensures reaches { IfOk result (λ reaches. reaches.reaches.items ≡ reaches_of t.now is_first beginnings.now founds.now) }
    ensures origins { IfOk result (λ reaches. reaches.origins.items ≡ origins_of t.now is_first beginnings.now 0 founds.now) }
{
    let mut reaches = Vec::new(alloc);
    let mut origins = Vec::new(alloc);
    let mut marks = Vec::new(alloc);
    let mut events = Vec::new(alloc);
    marks.push(Mark { state: 0, count: 0 })?;
    let mut last = Way {
        state: 0,
        moves: &[],
    };
    for (index, found) in founds.iter().enumerate() {
        let way = way_to(beginnings, found);
        turn(t, &mut marks, &mut events, last, way)?;
        last = way;
        let before = reaches.len();
        push_reaches(
            alloc,
            t,
            &mut reaches,
            is_first,
            beginnings,
            found,
            events.as_slice(),
        )?;
        let count = reaches.len() - before;
        push_origins(&mut origins, index, count)?;
    }
    Ok(Reaches { reaches, origins })
}
