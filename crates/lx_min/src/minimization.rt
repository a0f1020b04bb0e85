//! The automaton of which no two states do the same.
ghost use Rattle.std.specs.Prelude.{ℕ, ◌<◌, Contains, IfOk, IsTrue, false, length};
ghost use Rattle.lx_auto.specs.Automaton.{IsAuto};
ghost use Rattle.lx_auto.specs.Live.{AllInterfere, EachTargetIsRead};
ghost use Rattle.lx_auto.specs.MetStates.{AreMet};
ghost use Rattle.lx_auto.specs.Points.{IsMet};
ghost use Rattle.lx_auto.specs.SameRun.{HasSameRun};
ghost use Rattle.lx_auto.specs.Shapes.{StaysWithin};
ghost use Rattle.lx_auto.specs.ToldApart.{AllAreToldApart};
ghost use Rattle.lx_min.specs.Distances.{AllDiffer, TellApart};
ghost use Rattle.lx_min.specs.Numberings.{IsNumbering};

use crate::distances::{all_differ, distances_of};
use crate::looks::looks_of;
use crate::merging::merged;
use crate::numbering::{Numbering, numbering_of};
use crate::partitions::partition_of;
use lx_auto::{Auto, met_states};
use lx_base::Memory;
use std::alloc::Global;

/// Whether walks come to all states, and each has a distance of its own: then nothing is to be merged.
fn are_apart(alloc: Global, met: &[bool], distances: &[u32]) -> Result<bool, Memory>
    ensures met { IfOk result (λ apart. IsTrue apart → ¬ Contains met.now false) }
    ensures apart { IfOk result (λ apart. IsTrue apart → AllDiffer distances.now) }
{
    if met.contains(&false) {
        return Ok(false);
    }
    all_differ(alloc, distances)
}

/// The classes of states that do the same, by the states to which walks come and by how far each is from an accepting one.
fn classes_of(
    alloc: Global,
    auto: &Auto,
    met: &[bool],
    distances: Vec<u32>,
) -> Result<Numbering, Memory>
    requires formed { IsAuto auto.now }
    requires met { AreMet auto.now met.now }
    requires apart { TellApart auto.now distances.items }
    ensures { IfOk result (λ numbering. IsNumbering auto.now numbering) }
{
    let looks = looks_of(alloc, auto)?;
    let partition = partition_of(alloc, auto, met, &looks, distances)?;
    numbering_of(alloc, auto, partition)
}

/// The automaton with as few states as its registers and operations allow: a word tells any two states that are left apart, and some walk
/// comes to each (Moore 1956, over effects on registers as Trofimovich 2017 compares them).
///
/// Lists of operations are compared by what they do to each register, so that a copy of a register to itself tells nothing apart. `Memory`
/// may be answered, and no clause ties it to a cause.
pub fn minimize(alloc: Global, auto: Auto) -> Result<Auto, Memory>
    requires { IsAuto auto }
    ensures formed { IfOk result IsAuto }
    ensures run { IfOk result (λ answer. HasSameRun answer auto) }
    ensures within { IfOk result (λ answer. StaysWithin auto answer) }
    ensures apart { IfOk result AllAreToldApart }
    ensures met { IfOk result (λ answer. (state : ℕ) → state < length answer.states → IsMet answer state) }
    ensures read { IfOk result (λ answer. EachTargetIsRead auto → EachTargetIsRead answer) }
    ensures interfere { IfOk result (λ answer. AllInterfere auto → AllInterfere answer) }
{
    let met = met_states(alloc, &auto)?;
    let distances = distances_of(alloc, &auto)?;
    if are_apart(alloc, &met, &distances)? {
        return Ok(auto);
    }
    let numbering = classes_of(alloc, &auto, &met, distances)?;
    merged(alloc, auto, &numbering)
}
