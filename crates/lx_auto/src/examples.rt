//! Worked examples of runs, of lists, and of what is live.
ghost use Rattle.lx_auto.specs.Examples.{ListsActAtOnce, ListsHaveEffects, LiveInDotted, RunsOfDotted};

/// The examples of `specs/Examples.antt` are right.
pub fn examples_hold()
    ensures runs { RunsOfDotted }
    ensures lists { ListsActAtOnce }
    ensures effects { ListsHaveEffects }
    ensures live { LiveInDotted }
{}
