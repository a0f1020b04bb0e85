//! Edges in ascending order.
ghost use Rattle.std.specs.Prelude.{◌∷◌, [], ◌++◌, OnOk, IsTrue};
ghost use Rattle.lx_auto.specs.Automaton.{AreApart};
ghost use Rattle.lx_tdfa.specs.Edges.{AreSameEdges, GoesOn};

use lx_auto::Edge;
use lx_base::Memory;

/// Whether the second edge goes on with the units, the state and the operations of the first.
fn goes_on(edge: &Edge, next: &Edge) -> bool
    ensures { IsTrue result → GoesOn edge.now next.now }
{
    next.lo > 0
        && edge.hi == next.lo - 1
        && edge.to == next.to
        && edge.ops.as_slice() == next.ops.as_slice()
}

/// Appends an edge, or makes the last one longer where the edge goes on with it. Its only error is want of memory.
pub fn push_edge(edges: &mut Vec<Edge>, edge: Edge) -> Result<(), Memory>
    requires { AreApart (edges.old.items ++ edge ∷ []) }
    ensures { OnOk result (AreSameEdges (edges.old.items ++ edge ∷ []) edges.new.items) }
{
    match edges.pop() {
        None => edges.push(edge)?,
        Some(mut last) => {
            if goes_on(&last, &edge) {
                last.hi = edge.hi;
                edges.push(last)?;
            } else {
                edges.push(last)?;
                edges.push(edge)?;
            }
        }
    }
    Ok(())
}
