//! States and their ordered moves.
ghost use Rattle.std.specs.Prelude.{◌≡◌, ℕ, ◌+◌, ◌*◌, ◌<◌, ◌^◌, [], ◌∷◌, None, map, IfOk, nat_eq, if◌then◌else◌, option_to_list};
ghost use Rattle.lx_regex.specs.Automaton.{member_moves, move};
ghost use Rattle.lx_regex.specs.Script.{tags_among};
ghost use Rattle.lx_regex.specs.Term.{Terms, copies};
ghost use Rattle.lx_tnfa.specs.Moves.{shown_move, sized_moves};
ghost use Rattle.lx_tnfa.specs.Shapes.{HaveShapes, parts_together};
ghost use Rattle.lx_tnfa.specs.TagLists.{remove_tags};
ghost use Rattle.lx_tnfa.specs.declared.states.Event.TheVariants.{Unset};

use crate::shape::Shape;
use crate::tags::remove_tags;
use lx_base::{Memory, Sequence};
use lx_regex::parts::copies;
use std::alloc::Global;

/// What a move does to a tag: it sets it to the offset, or unsets it.
#[derive(Clone, Copy, PartialEq, Eq)]
pub enum Event {
    /// The tag with this number gets the offset.
    Set(u32),
    /// The tag with this number gets no value.
    Unset(u32),
}

/// A move to another state, by which no unit is read.
#[derive(Drop)]
pub struct Move {
    /// The number of the state.
    pub to: u32,
    /// What happens to tags on the way, in order.
    pub events: Sequence<Event>,
}

/// What may happen at a state.
#[derive(Drop)]
pub(crate) enum State {
    /// One of these moves; an earlier one is preferred to a later one.
    Moves(Sequence<Move>),
    /// A code point of a class is read, by the graph with this number.
    Class(u32),
    /// Any one unit is read.
    AnyUnit,
}

/// The events by which tags are unset.
fn unset_events(alloc: Global, tags: &[u32]) -> Result<Sequence<Event>, Memory>
    ensures { IfOk result (λ events. events ≡ map Unset tags.now) }
{
    let mut events = Sequence::new(alloc);
    for tag in tags {
        events.push(Event::Unset(*tag))?;
    }
    Ok(events)
}

/// The one move to a state, by which a tag may be set.
pub(crate) fn one_move(alloc: Global, to: u32, set: Option<u32>) -> Result<Sequence<Move>, Memory>
    ensures { IfOk result (λ ways. ways ≡ map shown_move (move None (option_to_list set) [] to ∷ [])) }
{
    let mut events = Sequence::new(alloc);
    if let Some(number) = set {
        events.push(Event::Set(number))?;
    }
    let mut ways = Sequence::new(alloc);
    ways.push(Move { to, events })?;
    Ok(ways)
}

/// A repetition: its part, how many parts its body has, its minimum and its bound.
#[derive(Clone, Copy)]
pub(crate) struct Repeat {
    pub part: u32,
    pub size: u32,
    pub low: u32,
    pub high: Option<u32>,
}

/// A repetition that is this part, of a body with so many parts. Where it has no copy of its body, the body's parts count for
/// nothing.
pub(crate) fn repeat_of(part: u32, size: u32, low: u32, high: Option<u32>) -> Repeat
    ensures { result ≡ record { part = part; size = if nat_eq (copies low high) 0 then 0 else size; low = low; high = high } }
{
    let size = if copies(low, high) == 0 { 0 } else { size };
    Repeat {
        part,
        size,
        low,
        high,
    }
}

/// The moves after so many iterations: to a copy of the body, and to the end, where these tags are unset.
pub(crate) fn iteration_moves(
    alloc: Global,
    repeat: Repeat,
    done: u32,
    unset: &[u32],
) -> Result<Sequence<Move>, Memory>
    requires { repeat.part + 1 + copies repeat.low repeat.high * repeat.size < 2 ^ 31 }
    ensures { IfOk result (λ ways. ways ≡ map shown_move (sized_moves repeat done unset.now)) }
{
    let mut ways = Sequence::new(alloc);
    if repeat.high.is_none_or(|high| done < high) {
        let copy = done.min(copies(repeat.low, repeat.high).saturating_sub(1));
        ways.push(Move {
            to: 2 * (repeat.part + 1 + copy * repeat.size),
            events: Sequence::new(alloc),
        })?;
    }
    if repeat.low <= done {
        ways.push(Move {
            to: 2 * repeat.part + 1,
            events: unset_events(alloc, unset)?,
        })?;
    }
    Ok(ways)
}

/// The moves to the members of an alternation, of which the first is this part; each unsets the tags of the other members.
pub(crate) fn member_moves(
    alloc: Global,
    first: u32,
    all: &[u32],
    members: &[Shape],
) -> Result<Sequence<Move>, Memory>
    requires room { first + parts_together members.now < 2 ^ 31 }
    ensures { IfOk result (λ ways. (terms : Terms) → HaveShapes terms members.now → all.now ≡ tags_among terms
        → ways ≡ map shown_move (member_moves terms 0 first (λ tags. tags))) }
{
    let mut part = first;
    let mut ways = Sequence::new(alloc);
    for member in members {
        ways.push(Move {
            to: 2 * part,
            events: unset_others(alloc, all, &member.tags)?,
        })?;
        part += member.parts;
    }
    Ok(ways)
}

/// The events by which all tags but some are unset.
fn unset_others(alloc: Global, all: &[u32], own: &[u32]) -> Result<Sequence<Event>, Memory>
    ensures { IfOk result (λ events. events ≡ map Unset (remove_tags own.now all.now)) }
{
    let mut others = Vec::from_slice(alloc, all)?;
    remove_tags(&mut others, own);
    unset_events(alloc, &others)
}
