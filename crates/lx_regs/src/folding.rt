//! One edge for each class of a state's edges, and the way back: a class are the edges of a state that lead to one state by one list.
ghost use Rattle.std.specs.Cmp.{and_equiv, nat_eq_equiv, on_equiv, partial_equiv_from_equiv, unsigned_Decides};
ghost use Rattle.std.specs.Cmp.Lexicographic.{lists_equiv, pointwise};
ghost use Rattle.std.specs.Hash as fed;
ghost use Rattle.std.specs.Hash.{and-Alike, items_Alike, on_Alike, same_Alike};
ghost use Rattle.std.specs.Ordering.{eq_of_both, on};
ghost use Rattle.std.specs.Prelude.{◌≡◌, ℕ, ◌++◌, ◌<◌, length, map, IfOk, nat_eq};
ghost use Rattle.lx_auto.specs.contracts.ops.OpEq.TheImpl.Laws.{laws-law};
ghost use Rattle.lx_auto.specs.contracts.ops.OpHash.TheImpl.{hash_input-value};
ghost use Rattle.lx_auto.specs.contracts.ops.OpHash.TheImpl.Laws.{respects_eq-law};
ghost use Rattle.lx_auto.specs.contracts.ops.OpPartialEq.TheImpl.{eq-value};
ghost use Rattle.lx_auto.specs.Automaton.{IsAuto, state_of};
ghost use Rattle.lx_regs.specs.FoldedEdges.{AreFolded, AreFoldedStates, IsFolding, IsFoldedList, IsFoldedState, folds_at, unfolded_auto, unfolded_edge, unfolded_state, unfolded_states};

use indexmap::IndexSet;
use lx_auto::{Accept, Auto, Edge, Op, Ops, State};
use lx_base::{Memory, Sequence};
use std::alloc::Global;
use std::hash::{Hash, Hasher};

/// What is noted of an edge: its range, and the place of the first edge of its class among those that are kept.
#[derive(Clone, Copy)]
pub(crate) struct Fold {
    pub lo: u32,
    pub hi: u32,
    pub place: usize,
}

/// A class of edges: the first of them. Two are equal where their edges lead to one state by one list.
#[derive(Clone, Copy)]
struct EdgeClass<'a> {
    edge: &'a Edge,
}

impl PartialEq for EdgeClass<'_> {
    ghost eq = { eq_of_both (on (λ class. class.edge.now.to) nat_eq) (on (λ class. class.edge.now.ops) (pointwise eq-value.it)) };

    ghost laws = { partial_equiv_from_equiv (and_equiv (on_equiv (λ class. class.edge.now.to) nat_eq_equiv) (on_equiv (λ class. class.edge.now.ops) (lists_equiv laws-law))) };

    fn eq(&self, other: &Self) -> bool {
        self.edge.to == other.edge.to && self.edge.ops.as_slice() == other.edge.ops.as_slice()
    }
}

impl Eq for EdgeClass<'_> {
    ghost laws = { and_equiv (on_equiv (λ class. class.edge.now.to) nat_eq_equiv) (on_equiv (λ class. class.edge.now.ops) (lists_equiv laws-law)) };
}

impl Hash for EdgeClass<'_> {
    ghost hash_input = { λ class. fed.u32 class.edge.now.to ++ fed.slice hash_input-value.it class.edge.now.ops };

    ghost respects_eq = { (and-Alike (on_Alike (λ class. class.edge.now.to) (same_Alike fed.u32 unsigned_Decides)) (on_Alike (λ class. class.edge.now.ops) (items_Alike (record { fed = respects_eq-law })))).fed };

    fn hash<H: Hasher>(&self, state: &mut H) {
        self.edge.to.hash(state);
        self.edge.ops.as_slice().hash(state);
    }
}

/// A list of the same operations.
fn copied_ops(alloc: Global, ops: &[Op]) -> Result<Ops, Memory>
    ensures { IfOk result (λ copy. copy ≡ ops.now) }
{
    let mut copy = Ops::new(alloc);
    for op in ops {
        copy.push(*op)?;
    }
    Ok(copy)
}

/// The edges by which classes are held.
fn first_edges(alloc: Global, classes: &[EdgeClass<'_>]) -> Result<Sequence<Edge>, Memory>
    ensures { IfOk result (λ kept. kept ≡ map (λ class. class.edge.now) classes.now) }
{
    let mut kept = Sequence::new(alloc);
    for class in classes {
        kept.push(Edge {
            lo: class.edge.lo,
            hi: class.edge.hi,
            ops: copied_ops(alloc, class.edge.ops.as_slice())?,
            to: class.edge.to,
        })?;
    }
    Ok(kept)
}

/// What a state accepts, with the same operations and values.
fn copied_accept(alloc: Global, accept: &Option<Accept>) -> Result<Option<Accept>, Memory>
    ensures { IfOk result (λ copy. copy ≡ accept.now) }
{
    match accept {
        None => Ok(None),
        Some(accept) => Ok(Some(Accept {
            rule: accept.rule,
            ops: copied_ops(alloc, accept.ops.as_slice())?,
            values: Sequence::copy_of(alloc, accept.values.as_slice())?,
        })),
    }
}

/// The first edges of the classes of a state's edges, in order, and what is noted of each of its edges.
#[derive(Drop)]
pub(crate) struct FoldedEdges {
    pub kept: Sequence<Edge>,
    pub folds: Sequence<Fold>,
}

/// One edge for each class of edges.
fn folded_edges(alloc: Global, edges: &[Edge]) -> Result<FoldedEdges, Memory>
    ensures { IfOk result (λ answer. IsFoldedList edges.now answer.kept answer.folds) }
{
    let mut classes = IndexSet::new(alloc);
    let mut folds = Sequence::new(alloc);
    for edge in edges {
        let (place, _) = classes.insert_full(EdgeClass { edge })?;
        folds.push(Fold {
            lo: edge.lo,
            hi: edge.hi,
            place,
        })?;
    }
    let kept = first_edges(alloc, classes.as_slice())?;
    Ok(FoldedEdges { kept, folds })
}

/// A state with one edge for each class, and what is noted of each of its edges.
#[derive(Drop)]
pub(crate) struct FoldedState {
    pub state: State,
    pub folds: Sequence<Fold>,
}

/// One edge for each class of a state's edges.
fn folded_state(alloc: Global, state: &State) -> Result<FoldedState, Memory>
    ensures { IfOk result (λ answer. IsFoldedState state.now answer.state answer.folds) }
{
    let folded = folded_edges(alloc, state.edges.as_slice())?;
    let state = State {
        edges: folded.kept,
        accept: copied_accept(alloc, &state.accept)?,
        leave: copied_ops(alloc, state.leave.as_slice())?,
    };
    Ok(FoldedState {
        state,
        folds: folded.folds,
    })
}

/// States with one edge for each class, and for each state what is noted of its edges.
#[derive(Drop)]
pub(crate) struct FoldedStates {
    pub states: Sequence<State>,
    pub lists: Sequence<Sequence<Fold>>,
}

/// One edge for each class of each state's edges.
fn folded_states(alloc: Global, states: &[State]) -> Result<FoldedStates, Memory>
    ensures { IfOk result (λ answer. AreFoldedStates states.now answer.states answer.lists) }
{
    let mut kept = Sequence::new(alloc);
    let mut lists = Sequence::new(alloc);
    for state in states {
        let folded = folded_state(alloc, state)?;
        kept.push(folded.state)?;
        lists.push(folded.folds)?;
    }
    Ok(FoldedStates {
        states: kept,
        lists,
    })
}

/// An automaton with one edge for each class of each state's edges, and for each state what is noted of its edges.
#[derive(Drop)]
pub(crate) struct Folding {
    pub auto: Auto,
    pub lists: Sequence<Sequence<Fold>>,
}

/// The automaton in which each state keeps, of its edges, the first of each class, in order.
pub(crate) fn folded(alloc: Global, auto: Auto) -> Result<Folding, Memory>
    requires { IsAuto auto }
    ensures formed { IfOk result (λ folding. IsAuto folding.auto) }
    ensures folding { IfOk result (λ folding. IsFolding auto folding.auto folding.lists) }
{
    let folded = folded_states(alloc, auto.states.as_slice())?;
    Ok(Folding {
        auto: Auto {
            states: folded.states,
            regs: auto.regs,
            mregs: auto.mregs,
        },
        lists: folded.lists,
    })
}

/// The edge of which this was noted, where these edges were kept.
fn unfolded_edge(alloc: Global, kept: &[Edge], fold: Fold) -> Result<Edge, Memory>
    requires { fold.place < length kept.now }
    ensures { IfOk result (λ edge. edge ≡ unfolded_edge kept.now fold) }
{
    let edge = &kept[fold.place];
    Ok(Edge {
        lo: fold.lo,
        hi: fold.hi,
        ops: copied_ops(alloc, edge.ops.as_slice())?,
        to: edge.to,
    })
}

/// The same of all edges of a state.
fn unfolded_edges(alloc: Global, kept: &[Edge], folds: &[Fold]) -> Result<Sequence<Edge>, Memory>
    requires { AreFolded kept.now folds.now }
    ensures { IfOk result (λ edges. edges ≡ map (unfolded_edge kept.now) folds.now) }
{
    let mut edges = Sequence::new(alloc);
    for fold in folds {
        edges.push(unfolded_edge(alloc, kept, *fold)?)?;
    }
    Ok(edges)
}

/// The state with all its edges.
fn unfolded_state(alloc: Global, state: &State, folds: &[Fold]) -> Result<State, Memory>
    requires { AreFolded state.now.edges folds.now }
    ensures { IfOk result (λ answer. answer ≡ unfolded_state state.now folds.now) }
{
    Ok(State {
        edges: unfolded_edges(alloc, state.edges.as_slice(), folds)?,
        accept: copied_accept(alloc, &state.accept)?,
        leave: copied_ops(alloc, state.leave.as_slice())?,
    })
}

/// The same of all states.
fn unfolded_states(
    alloc: Global,
    states: &[State],
    lists: &[Sequence<Fold>],
) -> Result<Sequence<State>, Memory>
    requires count { length lists.now ≡ length states.now }
    requires folded { (number : ℕ) → AreFolded (state_of states.now number).edges (folds_at lists.now number) }
    ensures { IfOk result (λ answer. answer ≡ unfolded_states states.now lists.now) }
{
    let mut answer = Sequence::new(alloc);
    for (number, state) in states.iter().enumerate() {
        answer.push(unfolded_state(alloc, state, lists[number].as_slice())?)?;
    }
    Ok(answer)
}

/// The automaton with all edges of its states, of which this was noted.
pub(crate) fn unfolded(alloc: Global, auto: &Auto, lists: &[Sequence<Fold>]) -> Result<Auto, Memory>
    requires count { length lists.now ≡ length auto.now.states }
    requires folded { (number : ℕ) → AreFolded (state_of auto.now.states number).edges (folds_at lists.now number) }
    ensures { IfOk result (λ answer. answer ≡ unfolded_auto auto.now lists.now) }
{
    Ok(Auto {
        states: unfolded_states(alloc, auto.states.as_slice(), lists)?,
        regs: auto.regs,
        mregs: auto.mregs,
    })
}
