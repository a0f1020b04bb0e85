//! How far states of one class are from those of other classes, by a breadth-first search backwards (Moore 1959).
//!
//! No clause says that the search finds the distances: what it found is tested by their definition, in one look at each edge.
ghost use Rattle.std.specs.Prelude.{◌≡◌, ◌<◌, IfOk, IsTrue, length};
ghost use Rattle.lx_auto.specs.Automaton.{IsAuto};
ghost use Rattle.lx_min.specs.Distances.{AllDiffer, AreAccepts, AreDistances, TellApart, accept_class, distance_of, nearest};

use crate::joined::class_in;
use lx_auto::{Accept, Auto, Edge, State};
use lx_base::Memory;
use std::alloc::Global;

/// From where and how distances are counted. They are those of states of one class, which is the wide one. Each other state is at a
/// distance of its own class.
#[derive(Clone, Copy)]
pub(crate) struct Scale {
    /// The wide class.
    pub wide: u32,
    /// How much farther the state before an edge is than the one behind it.
    pub step: u32,
    /// What no distance of a state exceeds from which a word leads to one of another class.
    pub far: u32,
}

/// A search backwards from the states of all classes but one.
#[derive(Drop)]
struct Search {
    /// How far each state is, as far as it was met.
    distances: Vec<u32>,
    /// The states that were met, in the order in which they were met.
    order: Vec<u32>,
}

/// So many empty lists.
fn empty_lists(alloc: Global, count: usize) -> Result<Vec<Vec<u32>>, Memory> {
    let mut lists = Vec::with_capacity(alloc, count)?;
    for _number in 0..count {
        lists.push(Vec::new(alloc))?;
    }
    Ok(lists)
}

/// Notes a state in the lists of those to which its edges lead.
fn note_edges(sources: &mut Vec<Vec<u32>>, state: u32, edges: &[Edge]) -> Result<(), Memory> {
    for edge in edges {
        if let Some(list) = sources.get_mut(edge.to as usize) {
            list.push(state)?;
        }
    }
    Ok(())
}

/// For each state those with an edge to it, once for each such edge.
fn sources_of(alloc: Global, auto: &Auto) -> Result<Vec<Vec<u32>>, Memory>
    requires { IsAuto auto.now }
{
    let states = auto.states.as_slice();
    let mut sources = empty_lists(alloc, states.len())?;
    for (number, state) in states.iter().enumerate() {
        note_edges(&mut sources, number as u32, state.edges.as_slice())?;
    }
    Ok(sources)
}

/// The states of each class below the step, but for those of the wide class.
fn members_of(alloc: Global, classes: &[u32], scale: Scale) -> Result<Vec<Vec<u32>>, Memory>
    requires { length classes.now < 4294967295 }
{
    let mut members = empty_lists(alloc, scale.step as usize)?;
    for (state, class) in classes.iter().enumerate() {
        if *class != scale.wide
            && let Some(list) = members.get_mut(*class as usize)
        {
            list.push(state as u32)?;
        }
    }
    Ok(members)
}

impl Search {
    /// Meets states at a distance.
    fn meet_all(&mut self, states: &[u32], distance: u32) -> Result<(), Memory> {
        for state in states {
            self.meet(*state, distance)?;
        }
        Ok(())
    }

    /// Meets a state at a distance, if it was not met at one as near.
    fn meet(&mut self, state: u32, distance: u32) -> Result<(), Memory> {
        if let Some(known) = self.distances.get_mut(state as usize)
            && distance < *known
        {
            *known = distance;
            self.order.push(state)?;
        }
        Ok(())
    }

    /// Meets the states of classes, each at the number of its class.
    fn begin(&mut self, members: &[Vec<u32>]) -> Result<(), Memory> {
        let mut class = 0u32;
        for states in members {
            self.meet_all(states.as_slice(), class)?;
            class = class.saturating_add(1);
        }
        Ok(())
    }

    /// Meets the states with an edge to this one, a step farther.
    fn pass(&mut self, sources: &[Vec<u32>], state: u32, step: u32) -> Result<(), Memory> {
        let behind = class_in(self.distances.as_slice(), state).saturating_add(step);
        if let Some(list) = sources.get(state as usize) {
            self.meet_all(list.as_slice(), behind)?;
        }
        Ok(())
    }
}

/// How far each state is, and a step more than what is far where no word leads it to a state of another class than the wide one.
fn searched(alloc: Global, auto: &Auto, classes: &[u32], scale: Scale) -> Result<Vec<u32>, Memory>
    requires formed { IsAuto auto.now }
    requires few { length classes.now < 4294967295 }
{
    let sources = sources_of(alloc, auto)?;
    let members = members_of(alloc, classes, scale)?;
    let mut search = Search {
        distances: vec![in alloc; scale.far.saturating_add(scale.step); sources.len()]?,
        order: Vec::new(alloc),
    };
    search.begin(members.as_slice())?;
    for place in 0..sources.len() {
        if let Some(state) = search.order.get(place).copied() {
            search.pass(sources.as_slice(), state, scale.step)?;
        }
    }
    Ok(search.distances)
}

/// The least distance of the states to which edges lead, or `far` where it is less.
fn nearest(distances: &[u32], edges: &[Edge], far: u32) -> u32
    ensures { result ≡ nearest distances.now edges.now far }
{
    let mut least = far;
    for edge in edges {
        let distance = class_in(distances, edge.to);
        if distance < least {
            least = distance;
        }
    }
    least
}

/// Whether a distance is that of a state of a class with such edges.
fn is_right(distances: &[u32], scale: Scale, class: u32, edges: &[Edge], distance: u32) -> bool
    ensures { IsTrue result → distance ≡ distance_of distances.now scale class edges.now }
{
    if class == scale.wide {
        distance >= scale.step && distance - scale.step == nearest(distances, edges, scale.far)
    } else {
        distance == class
    }
}

/// Whether distances are those of the states.
fn are_right(auto: &Auto, classes: &[u32], scale: Scale, distances: &[u32]) -> bool
    requires { IsAuto auto.now }
    ensures { IsTrue result → AreDistances auto.now classes.now scale distances.now }
{
    for (number, state) in auto.states.as_slice().iter().enumerate() {
        let class = class_in(classes, number as u32);
        let distance = class_in(distances, number as u32);
        if !is_right(distances, scale, class, state.edges.as_slice(), distance) {
            return false;
        }
    }
    true
}

/// A number for each state: that of its class, and for one of the wide class how far it is from the states of others. Classes are below
/// `step`, so that states of two classes have no number in common.
pub(crate) fn distances_from(
    alloc: Global,
    auto: &Auto,
    classes: &[u32],
    wide: u32,
    step: u32,
) -> Result<Vec<u32>, Memory>
    requires formed { IsAuto auto.now }
    requires fit { length classes.now ≡ length auto.now.states }
    requires apart { TellApart auto.now classes.now }
    requires some { 0 < step }
    ensures apart { IfOk result (λ distances. TellApart auto.now distances.items) }
    ensures fit { IfOk result (λ distances. length distances.items ≡ length auto.now.states) }
{
    let count = auto.states.as_slice().len();
    let scale = Scale {
        wide,
        step,
        far: step.saturating_mul(count as u32),
    };
    let distances = searched(alloc, auto, classes, scale)?;
    if distances.len() == count && are_right(auto, classes, scale, distances.as_slice()) {
        return Ok(distances);
    }
    Ok(vec![in alloc; 0; count]?)
}

/// The class of a state by what it accepts: 0 where it accepts something, and else 1.
fn accept_class(accept: &Option<Accept>) -> u32
    ensures { result ≡ accept_class accept.now }
{
    match accept {
        Some(_) => 0,
        None => 1,
    }
}

/// The class of each state by whether it accepts.
fn accept_classes(alloc: Global, states: &[State]) -> Result<Vec<u32>, Memory>
    ensures { IfOk result (λ classes. AreAccepts states.now (length states.now) classes.items) }
{
    let mut classes = Vec::with_capacity(alloc, states.len())?;
    for state in states {
        let class = accept_class(&state.accept);
        classes.push(class)?;
    }
    Ok(classes)
}

/// A number for each state: how far it is from an accepting one.
pub(crate) fn distances_of(alloc: Global, auto: &Auto) -> Result<Vec<u32>, Memory>
    requires { IsAuto auto.now }
    ensures apart { IfOk result (λ distances. TellApart auto.now distances.items) }
    ensures fit { IfOk result (λ distances. length distances.items ≡ length auto.now.states) }
{
    let classes = accept_classes(alloc, auto.states.as_slice())?;
    distances_from(alloc, auto, classes.as_slice(), 1, 1)
}

/// Whether no two of the numbers are equal, in time linear in them where none is greater than one more than their count.
pub(crate) fn all_differ(alloc: Global, numbers: &[u32]) -> Result<bool, Memory>
    ensures { IfOk result (λ differ. IsTrue differ → AllDiffer numbers.now) }
{
    let mut seen = vec![in alloc; false; numbers.len().saturating_add(2)]?;
    for number in numbers {
        let place = *number as usize;
        if place >= seen.len() || seen[place] {
            return Ok(false);
        }
        seen[place] = true;
    }
    Ok(true)
}
