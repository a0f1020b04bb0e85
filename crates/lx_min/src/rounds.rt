//! Rounds of refinement: states of one class with different signatures get different classes (Moore 1956).
ghost use Rattle.std.specs.Prelude.{◌≡◌, ◌<◌, IfOk, OnOk, length};
ghost use Rattle.lx_min.specs.Joined.{class_in};
ghost use Rattle.lx_min.specs.Rounds.{AreMarked, AreOwn, IsRefined, Takes};
ghost use Rattle.lx_min.specs.Signatures.{AreChosen, HasSign};

use crate::looks::Look;
use crate::partitions::Partition;
use crate::signatures::{Signature, signature_of};
use indexmap::IndexSet;
use lx_base::Memory;
use std::alloc::Global;

/// The signatures of a round, and for each the state that is chosen for its class, which has the number of the signature's place.
#[derive(Drop)]
struct Round {
    signatures: IndexSet<Signature>,
    chosen: Vec<u32>,
}

impl Round {
    /// The class of the states with the signature of this one. If there is no such class yet, the state is chosen for a new one.
    fn class_of(
        &mut self,
        alloc: Global,
        classes: &[u32],
        looks: &[Look],
        state: u32,
    ) -> Result<u32, Memory>
        requires few { length looks.now < 4294967295 }
        requires within { state < length looks.now }
        requires chosen { AreChosen (class_in classes.now) looks.now self.old.signatures.keys self.old.chosen.items }
        ensures chosen { OnOk result (AreChosen (class_in classes.now) looks.now self.new.signatures.keys self.new.chosen.items) }
        ensures signed { IfOk result (λ class. HasSign (class_in classes.now) looks.now self.new.signatures.keys class state) }
        ensures takes { OnOk result (Takes self.old self.new state) }
    {
        let look = &looks[state as usize];
        let signature = signature_of(alloc, classes, look, state)?;
        let (place, is_new) = self.signatures.insert_full(signature)?;
        if is_new {
            self.chosen.push(state)?;
        }
        Ok(place as u32)
    }

    /// The classes of states, 0 for those to which no walk comes. If there is no class yet for a state, it is chosen for a new one.
    fn classes_of(
        &mut self,
        alloc: Global,
        met: &[bool],
        looks: &[Look],
        given: &Partition,
    ) -> Result<Vec<u32>, Memory>
        requires few { length looks.now < 4294967295 }
        requires fit { length met.now ≡ length looks.now }
        requires marked { AreMarked met.now given.now.chosen.items }
        requires chosen { AreChosen (class_in given.now.class.items) looks.now self.old.signatures.keys self.old.chosen.items }
        requires same { self.old.chosen.items ≡ given.now.chosen.items }
        ensures { IfOk result (λ class.
            IsRefined met.now looks.now given.now (record { class = class; chosen = self.new.chosen })) }
    {
        let mut class = Vec::with_capacity(alloc, met.len())?;
        for (state, is_met) in met.iter().enumerate() {
            if *is_met {
                class.push(self.class_of(alloc, given.class.as_slice(), looks, state as u32)?)?;
            } else {
                class.push(0)?;
            }
        }
        Ok(class)
    }

    /// The round in which the states that were chosen are chosen for the same classes.
    fn of(alloc: Global, looks: &[Look], given: &Partition) -> Result<Round, Memory>
        requires few { length looks.now < 4294967295 }
        requires own { AreOwn looks.now given.now }
        ensures chosen { IfOk result (λ round.
            AreChosen (class_in given.now.class.items) looks.now round.signatures.keys round.chosen.items) }
        ensures same { IfOk result (λ round. round.chosen.items ≡ given.now.chosen.items) }
    {
        let mut round = Round {
            signatures: IndexSet::new(alloc),
            chosen: Vec::new(alloc),
        };
        for state in given.chosen.as_slice() {
            round.class_of(alloc, given.class.as_slice(), looks, *state)?;
        }
        Ok(round)
    }
}

/// The partition of the states to which walks come by their signatures. States that were chosen are chosen again for the same classes.
pub(crate) fn refined(
    alloc: Global,
    met: &[bool],
    looks: &[Look],
    given: &Partition,
) -> Result<Partition, Memory>
    requires few { length looks.now < 4294967295 }
    requires fit { length met.now ≡ length looks.now }
    requires own { AreOwn looks.now given.now }
    requires marked { AreMarked met.now given.now.chosen.items }
    ensures { IfOk result (IsRefined met.now looks.now given.now) }
{
    let mut round = Round::of(alloc, looks, given)?;
    let class = round.classes_of(alloc, met, looks, given)?;
    Ok(Partition {
        class,
        chosen: round.chosen,
    })
}
