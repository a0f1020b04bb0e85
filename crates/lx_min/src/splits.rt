//! The class that a round split, parted by how far its states are from those of other classes.
//!
//! A chain of states that all do the same but for the last one loses a state a round. By their distances all of them are told apart at once.
ghost use Rattle.std.specs.Prelude.{◌≤◌, ◌<◌, IfOk, IsTrue, length};
ghost use Rattle.lx_auto.specs.Automaton.{IsAuto};
ghost use Rattle.lx_auto.specs.MetStates.{AreMet};
ghost use Rattle.lx_min.specs.Looks.{AreLooks};
ghost use Rattle.lx_min.specs.Rounds.{IsPartition};

use crate::distances::distances_from;
use crate::joined::class_in;
use crate::looks::Look;
use crate::partitions::{Partition, first_partition};
use lx_auto::Auto;
use lx_base::Memory;
use std::alloc::Global;

/// How many states are in each class.
fn sizes_of(alloc: Global, partition: &Partition) -> Result<Vec<u32>, Memory> {
    let mut sizes = vec![in alloc; 0u32; partition.chosen.len()]?;
    for class in partition.class.as_slice() {
        if let Some(size) = sizes.get_mut(*class as usize) {
            *size = size.saturating_add(1);
        }
    }
    Ok(sizes)
}

/// The one with the most states of the classes that a round split.
fn split_class(alloc: Global, before: &Partition, after: &Partition) -> Result<u32, Memory> {
    let sizes = sizes_of(alloc, after)?;
    let mut greatest = 0;
    let mut split = 0;
    for place in before.chosen.len()..after.chosen.len() {
        if let Some(state) = after.chosen.get(place).copied() {
            let class = class_in(before.class.as_slice(), state);
            let size = class_in(sizes.as_slice(), class);
            if size > greatest {
                greatest = size;
                split = class;
            }
        }
    }
    Ok(split)
}

/// When a class is to be parted: not in the first rounds, and seldomer where that did not help.
pub(crate) struct Turns {
    /// How many rounds there were.
    rounds: u32,
    /// The round in which a class may be parted.
    due: u32,
}

impl Drop for Turns {
    fn drop(self) {
        let Self { rounds: _, due: _ } = self;
    }
}

impl Turns {
    /// No round yet.
    pub(crate) fn new() -> Turns {
        Turns { rounds: 0, due: 4 }
    }

    /// Notes a round. A class is to be parted where the round is due and told few classes apart, at most a quarter more than there were,
    /// and there is a number for each.
    fn pass(&mut self, before: &Partition, after: &Partition) -> bool
        ensures { IsTrue result → length after.now.chosen.items < 4294967295 }
    {
        let many = before.chosen.len();
        let count = after.chosen.len();
        self.rounds = self.rounds.saturating_add(1);
        self.rounds >= self.due && count < 4294967295 && count <= many.saturating_add(many / 4)
    }

    /// Waits until there were twice as many rounds.
    fn wait(&mut self) {
        self.due = self.rounds.saturating_mul(2);
    }
}

/// Whether some state is at least eight steps from those of other classes, so that by distances more is told than by a few rounds.
fn are_far(distances: &[u32], step: u32) -> bool {
    let bound = step.saturating_mul(8);
    let far = step.saturating_mul(distances.len().min(4294967295) as u32);
    for distance in distances {
        if *distance >= bound && *distance <= far {
            return true;
        }
    }
    false
}

/// Where a round told few classes apart, the partition by how far the states of one that it split are from those of others, if there
/// are more classes by it.
pub(crate) fn parted(
    alloc: Global,
    auto: &Auto,
    met: &[bool],
    looks: &[Look],
    turns: &mut Turns,
    before: &Partition,
    after: Partition,
) -> Result<Partition, Memory>
    requires formed { IsAuto auto.now }
    requires met { AreMet auto.now met.now }
    requires looks { AreLooks auto.now looks.now }
    requires partition { IsPartition auto.now after }
    ensures partition { IfOk result (IsPartition auto.now) }
    ensures more { IfOk result (λ answer. length after.chosen.items ≤ length answer.chosen.items) }
{
    if !turns.pass(before, &after) {
        return Ok(after);
    }
    let step = after.chosen.len() as u32;
    let wide = split_class(alloc, before, &after)?;
    let numbers = distances_from(alloc, auto, after.class.as_slice(), wide, step)?;
    if !are_far(numbers.as_slice(), step) {
        turns.wait();
        return Ok(after);
    }
    let next = first_partition(alloc, auto, met, looks, numbers)?;
    if next.chosen.len() > after.chosen.len() {
        return Ok(next);
    }
    turns.wait();
    Ok(after)
}
