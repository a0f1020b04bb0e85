//! The longest walks to the next check.
ghost use Rattle.std.specs.Prelude.{◌≡◌, ℕ, ◌<◌, All, IfOk, length, map, slice_index, if◌then◌else◌};
ghost use Rattle.lx_auto.specs.Automaton.{IsAuto};
ghost use Rattle.lx_auto.specs.declared.automaton.Edge.{Edge as EdgeValue};
ghost use Rattle.lx_fill.specs.Checks.{graph_of};
ghost use Rattle.lx_fill.specs.Search.{IsChoice, chosen_at};
ghost use Rattle.lx_fill.specs.Longest.{AreLongest, most_units};

use crate::search::edges_of;
use lx_auto::{Auto, Edge};
use lx_base::Memory;
use std::alloc::Global;

/// The most units that are read from a state with these edges to the next check, by those from the states to which they lead.
fn most_units(edges: &[Edge], chosen: &[bool], known: &[u32]) -> u32
    requires chosen { All (λ (edge : EdgeValue). edge.to < length chosen.now) edges.now }
    requires known { All (λ (edge : EdgeValue). edge.to < length known.now) edges.now }
    requires small { (state : ℕ) → slice_index known.now state < 4294967295 }
    ensures { result ≡ most_units chosen.now known.now (map (λ (edge : EdgeValue). edge.to) edges.now) }
{
    let mut most = 0;
    for edge in edges {
        let next = edge.to as usize;
        let units = if chosen[next] { 1 } else { known[next] + 1 };
        most = units.max(most);
    }
    most
}

/// For each state the most units that are read from it to the next check, where states come in the order in which a search closed them.
pub(crate) fn longest_walks(
    alloc: Global,
    auto: &Auto,
    chosen: &[bool],
    order: &[u32],
) -> Result<Vec<u32>, Memory>
    requires formed { IsAuto auto.now }
    requires choice { IsChoice (graph_of auto.now) (length auto.now.states) chosen.now order.now }
    ensures { IfOk result (λ known. AreLongest (graph_of auto.now) (length auto.now.states) chosen.now known.items) }
{
    let mut known = vec![in alloc; 0; auto.states.as_slice().len()]?;
    for state in order {
        let units = most_units(edges_of(auto, *state), chosen, &known);
        known[*state as usize] = units;
    }
    Ok(known)
}

/// The same numbers at the chosen states, and 0 at the others.
pub(crate) fn keep_chosen(mut numbers: Vec<u32>, chosen: &[bool]) -> Vec<u32>
    requires { length numbers.items ≡ length chosen.now }
    ensures fit { length result.items ≡ length chosen.now }
    ensures numbers { (state : ℕ) → slice_index result.items state ≡ (if chosen_at chosen.now state then slice_index numbers.items state else 0) }
{
    for (place, kept) in chosen.iter().enumerate() {
        if !*kept {
            numbers[place] = 0;
        }
    }
    numbers
}
