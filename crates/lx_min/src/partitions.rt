//! The partition of states into classes of which no word tells the states apart (Moore 1956; Hopcroft 1971).
ghost use Rattle.std.specs.Prelude.{IfOk};
ghost use Rattle.lx_auto.specs.Automaton.{IsAuto};
ghost use Rattle.lx_auto.specs.MetStates.{AreMet};
ghost use Rattle.lx_min.specs.Distances.{TellApart};
ghost use Rattle.lx_min.specs.Looks.{AreLooks};
ghost use Rattle.lx_min.specs.Partitions.{IsMinimal};
ghost use Rattle.lx_min.specs.Rounds.{IsPartition};

use crate::looks::Look;
use crate::rounds::refined;
use crate::splits::{Turns, parted};
use lx_auto::Auto;
use lx_base::Memory;
use std::alloc::Global;

/// Classes of states, numbered from 0.
#[derive(Drop)]
pub(crate) struct Partition {
    /// The class of each state; of a state to which no walk comes it says nothing.
    pub class: Vec<u32>,
    /// The state that is chosen for each class.
    pub chosen: Vec<u32>,
}

/// The partition of the states to which walks come by what they do and by numbers that tell them apart: a round over the numbers as
/// classes, of which state 0 alone is chosen.
pub(crate) fn first_partition(
    alloc: Global,
    auto: &Auto,
    met: &[bool],
    looks: &[Look],
    distances: Vec<u32>,
) -> Result<Partition, Memory>
    requires formed { IsAuto auto.now }
    requires met { AreMet auto.now met.now }
    requires looks { AreLooks auto.now looks.now }
    requires apart { TellApart auto.now distances.items }
    ensures { IfOk result (IsPartition auto.now) }
{
    let start = Partition {
        class: distances,
        chosen: vec![in alloc; 0]?,
    };
    refined(alloc, met, looks, &start)
}

/// The partition of the states to which walks come. State 0 is chosen for its class.
pub(crate) fn partition_of(
    alloc: Global,
    auto: &Auto,
    met: &[bool],
    looks: &[Look],
    distances: Vec<u32>,
) -> Result<Partition, Memory>
    requires formed { IsAuto auto.now }
    requires met { AreMet auto.now met.now }
    requires looks { AreLooks auto.now looks.now }
    requires apart { TellApart auto.now distances.items }
    ensures { IfOk result (λ partition. IsMinimal auto.now partition) }
{
    let mut turns = Turns::new();
    let mut partition = first_partition(alloc, auto, met, looks, distances)?;
    loop {
        let next = refined(alloc, met, looks, &partition)?;
        if next.chosen.len() == partition.chosen.len() {
            return Ok(partition);
        }
        let finer = parted(alloc, auto, met, looks, &mut turns, &partition, next)?;
        partition = finer;
    }
}
