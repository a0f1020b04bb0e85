//! Edges as steps to classes, where neighbours that do the same are one.
ghost use Rattle.std.specs.Prelude.{◌≡◌, ◌++◌, ◌∷◌, List, IfOk, map, option_to_list};
ghost use Rattle.lx_min.specs.Joined.{class_in, continues, joined, step_of};
ghost use Rattle.lx_min.specs.declared.joined.Step.{Step as StepValue};

use crate::looks::Way;
use lx_base::Memory;
use std::alloc::Global;

/// What happens on each unit of a range, and the class of the state behind it.
#[derive(Clone, Copy, PartialEq, Eq, Hash)]
pub(crate) struct Step {
    /// The least unit.
    pub lo: u32,
    /// The greatest unit.
    pub hi: u32,
    /// The number of what happens where the state is left.
    pub leave: usize,
    /// The number of what happens on the edge.
    pub ops: usize,
    /// The class of the state to which it leads.
    pub class: u32,
}

/// The class of a state, or 0 where there is no such state.
pub(crate) fn class_in(classes: &[u32], state: u32) -> u32
    ensures { result ≡ class_in classes.now state }
{
    match classes.get(state as usize) {
        Some(class) => *class,
        None => 0,
    }
}

/// An edge as a step.
fn step_of(classes: &[u32], way: &Way) -> Step
    ensures { result ≡ step_of (class_in classes.now) way.now }
{
    Step {
        lo: way.lo,
        hi: way.hi,
        leave: way.leave,
        ops: way.ops,
        class: class_in(classes, way.to),
    }
}

/// Whether the second step begins where the first one ends, and does the same.
fn continues(step: Step, next: Step) -> bool
    ensures { result ≡ continues step next }
{
    u64::from(step.hi) + 1 == u64::from(next.lo)
        && step.leave == next.leave
        && step.ops == next.ops
        && step.class == next.class
}

/// The step that is last, once one more follows; the one before it is appended where they are not one.
fn follow(steps: &mut Vec<Step>, last: Option<Step>, step: Step) -> Result<Step, Memory>
    ensures { IfOk result (λ behind. (rest : List StepValue)
        → steps.new.items ++ joined (behind ∷ rest) ≡ steps.old.items ++ joined (option_to_list last ++ step ∷ rest)) }
{
    match last {
        None => Ok(step),
        Some(before) => {
            if continues(before, step) {
                return Ok(Step {
                    lo: before.lo,
                    ..step
                });
            }
            steps.push(before)?;
            Ok(step)
        }
    }
}

/// Edges as steps, where neighbours that do the same are one.
pub(crate) fn joined(alloc: Global, classes: &[u32], ways: &[Way]) -> Result<Vec<Step>, Memory>
    ensures { IfOk result (λ steps. steps.items ≡ joined (map (step_of (class_in classes.now)) ways.now)) }
{
    let mut steps = Vec::with_capacity(alloc, ways.len())?;
    let mut last = None;
    for way in ways {
        last = Some(follow(&mut steps, last, step_of(classes, way))?);
    }
    if let Some(step) = last {
        steps.push(step)?;
    }
    Ok(steps)
}
