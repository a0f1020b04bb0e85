//! The transition classes of a state: edges that lead to one state by one list of operations are one class.
ghost use Rattle.std.specs.Cmp.{and_equiv, nat_eq_equiv, on_equiv, partial_equiv_from_equiv, unsigned_Decides};
ghost use Rattle.std.specs.Cmp.Lexicographic.{lists_equiv, pointwise};
ghost use Rattle.std.specs.Hash as fed;
ghost use Rattle.std.specs.Hash.{and-Alike, items_Alike, on_Alike, same_Alike};
ghost use Rattle.std.specs.Ordering.{eq_of_both, on};
ghost use Rattle.std.specs.Prelude.{◌≡◌, ◌++◌, IfOk, nat_eq};
ghost use Rattle.lx_auto.specs.contracts.ops.OpEq.TheImpl.Laws.{laws-law};
ghost use Rattle.lx_auto.specs.contracts.ops.OpHash.TheImpl.{hash_input-value};
ghost use Rattle.lx_auto.specs.contracts.ops.OpHash.TheImpl.Laws.{respects_eq-law};
ghost use Rattle.lx_auto.specs.contracts.ops.OpPartialEq.TheImpl.{eq-value};
ghost use Rattle.lx_dispatch.specs.TransitionClasses.{class_place, transition_classes};
ghost use Rattle.lx_dispatch.specs.Views.{class_list, seen_classes};

use indexmap::IndexSet;
use lx_auto::Edge;
use lx_base::Memory;
use std::alloc::Global;
use std::hash::{Hash, Hasher};

/// How many edges are compared one by one, without a hash: most states have no more.
const FEW: usize = 8;

/// A transition class: the first edge of it. Two are equal where their edges are of one class.
#[derive(Clone, Copy)]
pub struct TransitionClass<'a> {
    pub edge: &'a Edge,
}

impl PartialEq for TransitionClass<'_> {
    ghost eq = { eq_of_both (on (λ class. class.edge.now.to) nat_eq) (on (λ class. class.edge.now.ops) (pointwise eq-value.it)) };

    ghost laws = { partial_equiv_from_equiv (and_equiv (on_equiv (λ class. class.edge.now.to) nat_eq_equiv) (on_equiv (λ class. class.edge.now.ops) (lists_equiv laws-law))) };

    fn eq(&self, other: &Self) -> bool {
        self.edge.to == other.edge.to && self.edge.ops.as_slice() == other.edge.ops.as_slice()
    }
}

impl Eq for TransitionClass<'_> {
    ghost laws = { and_equiv (on_equiv (λ class. class.edge.now.to) nat_eq_equiv) (on_equiv (λ class. class.edge.now.ops) (lists_equiv laws-law)) };
}

impl Hash for TransitionClass<'_> {
    ghost hash_input = { λ class. fed.u32 class.edge.now.to ++ fed.slice hash_input-value.it class.edge.now.ops };

    ghost respects_eq = { (and-Alike (on_Alike (λ class. class.edge.now.to) (same_Alike fed.u32 unsigned_Decides)) (on_Alike (λ class. class.edge.now.ops) (items_Alike (record { fed = respects_eq-law })))).fed };

    fn hash<H: Hasher>(&self, state: &mut H) {
        self.edge.to.hash(state);
        self.edge.ops.as_slice().hash(state);
    }
}

/// Different transition classes, in the order in which they are found. The place of one is told in time linear in its operations,
/// whatever the number of classes, as far as hashes differ.
#[derive(Drop)]
pub enum TransitionClasses<'a> {
    /// Those of few edges.
    Few(Vec<TransitionClass<'a>>),
    Many(Box<IndexSet<TransitionClass<'a>>>),
}

impl<'a> TransitionClasses<'a> {
    pub fn as_slice(&self) -> &[TransitionClass<'a>]
        ensures { result.now ≡ class_list self.now }
    {
        match self {
            Self::Few(classes) => classes.as_slice(),
            Self::Many(classes) => classes.as_slice(),
        }
    }
}

/// The place of an edge's class among some, counted from 0, or how many these are.
fn place_among(classes: &[TransitionClass<'_>], edge: &Edge) -> usize
    ensures { result ≡ class_place (seen_classes classes.now) edge.now }
{
    let wanted = TransitionClass { edge };
    for (place, class) in classes.iter().enumerate() {
        if wanted == *class {
            return place;
        }
    }
    classes.len()
}

/// The place of an edge's class among classes, counted from 0, or how many classes there are.
pub fn class_place(classes: &TransitionClasses<'_>, edge: &Edge) -> usize
    ensures { result ≡ class_place (seen_classes (class_list classes.now)) edge.now }
{
    match classes {
        TransitionClasses::Few(classes) => place_among(classes, edge),
        TransitionClasses::Many(classes) => match classes.get_index_of(&TransitionClass { edge }) {
            Some(place) => place,
            None => classes.len(),
        },
    }
}

/// The transition classes of few edges, in the order in which they are found.
fn few_classes<'a>(alloc: Global, edges: &'a [Edge]) -> Result<Vec<TransitionClass<'a>>, Memory>
    ensures { IfOk result (λ classes. seen_classes classes.items ≡ transition_classes edges.now) }
{
    let mut classes = Vec::new(alloc);
    for edge in edges {
        if classes.len() <= place_among(&classes, edge) {
            classes.push(TransitionClass { edge })?;
        }
    }
    Ok(classes)
}

/// The transition classes of many edges, in the order in which they are found.
fn many_classes<'a>(
    alloc: Global,
    edges: &'a [Edge],
) -> Result<IndexSet<TransitionClass<'a>>, Memory>
    ensures { IfOk result (λ classes. seen_classes classes.keys ≡ transition_classes edges.now) }
{
    let mut classes = IndexSet::new(alloc);
    for edge in edges {
        classes.insert(TransitionClass { edge })?;
    }
    Ok(classes)
}

/// The transition classes of edges, in the order in which they are found.
pub fn transition_classes<'a>(
    alloc: Global,
    edges: &'a [Edge],
) -> Result<TransitionClasses<'a>, Memory>
    ensures { IfOk result (λ classes. seen_classes (class_list classes) ≡ transition_classes edges.now) }
{
    if edges.len() <= FEW {
        return Ok(TransitionClasses::Few(few_classes(alloc, edges)?));
    }
    let classes = Box::new(alloc, many_classes(alloc, edges)?)?;
    Ok(TransitionClasses::Many(classes))
}
