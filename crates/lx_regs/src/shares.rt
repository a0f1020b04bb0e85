//! Numbers of a graph that share colours.
ghost use Rattle.std.specs.Prelude.{◌≡◌, ℕ, ◌<◌, ◌≤◌, Contains, length, map, slice_index, IfOk, OnOk};
ghost use Rattle.lx_regs.specs.Colours.{IsMerged, IsSharing};
ghost use Rattle.lx_regs.specs.Graphs.{IsGraph, JoinsEach, size_of};

use crate::colours::{colours_by_partners, first_fit};
use crate::graphs::Graph;
use lx_base::Memory;
use std::alloc::Global;

/// Makes a colour a neighbour of the colours of some numbers.
fn join_colours(
    merged: &mut Graph,
    colours: &[u32],
    colour: u32,
    numbers: &[u32],
) -> Result<(), Memory>
    requires graph { IsGraph merged.old }
    requires colour { colour < size_of merged.old }
    requires numbers { (number : ℕ) → Contains numbers.now number → number < length colours.now }
    requires colours { (number : ℕ) → number < length colours.now → slice_index colours.now number < size_of merged.old }
    ensures { OnOk result (JoinsEach merged.old merged.new colour (map (slice_index colours.now) numbers.now)) }
{
    for number in numbers {
        merged.join(colour, colours[*number as usize])?;
    }
    Ok(())
}

/// The graph of the colours of a graph.
fn merged_by(alloc: Global, graph: &Graph, colours: &[u32]) -> Result<Graph, Memory>
    requires graph { IsGraph graph.now }
    requires count { length colours.now ≡ size_of graph.now }
    requires few { (number : ℕ) → number < length colours.now → slice_index colours.now number ≤ number }
    ensures { IfOk result (IsMerged graph.now colours.now) }
{
    let mut merged = Graph::new(alloc, graph.size())?;
    for number in 0..graph.size() {
        join_colours(
            &mut merged,
            colours,
            colours[number],
            graph.neighbours_of(number),
        )?;
    }
    Ok(merged)
}

/// For each number the second colour of its first colour.
fn second_colours(alloc: Global, first: &[u32], second: &[u32]) -> Result<Vec<u32>, Memory>
    requires { (number : ℕ) → number < length first.now → slice_index first.now number < length second.now }
    ensures { IfOk result (λ colours. colours.items ≡ map (slice_index second.now) first.now) }
{
    let mut colours = Vec::new(alloc);
    for colour in first {
        colours.push(second[*colour as usize])?;
    }
    Ok(colours)
}

/// Colours for the numbers of a graph, so that neighbours differ and no two colours can be joined. Numbers get the colour of a partner
/// where that is possible, and then the least colours for these colours are found.
pub(crate) fn shared_colours(
    alloc: Global,
    graph: &Graph,
    partners: &Graph,
) -> Result<Vec<u32>, Memory>
    requires graph { IsGraph graph.now }
    requires small { size_of graph.now < 4294967296 }
    ensures { IfOk result (λ colours. IsSharing graph.now colours.items) }
{
    let first = colours_by_partners(alloc, graph, partners)?;
    let merged = merged_by(alloc, graph, &first)?;
    let second = first_fit(alloc, &merged)?;
    second_colours(alloc, &first, &second)
}
