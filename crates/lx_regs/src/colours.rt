//! Colours for the numbers of a graph.
ghost use Rattle.std.specs.Prelude.{◌≡◌, ℕ, ◌<◌, ◌≤◌, ◌↔◌, true, false, length, replicate, slice_index, IfOk, IfSome, IsTrue};
ghost use Rattle.lx_regs.specs.Colours.{AreColours, HasColour, IsFirstFit, IsLeastFree, IsTaken, mark_at, mark_each, mark_one};
ghost use Rattle.lx_regs.specs.Graphs.{IsGraph, size_of};

use crate::graphs::Graph;
use lx_base::Memory;
use std::alloc::Global;

/// So many marks that are not set.
fn no_marks(alloc: Global, count: usize) -> Result<Vec<bool>, Memory>
    ensures { IfOk result (λ marks. marks.items ≡ replicate count false) }
{
    let mut marks = Vec::new(alloc);
    for _ in 0..count {
        marks.push(false)?;
    }
    Ok(marks)
}

/// Marks the colour of a number, if it has one.
fn mark_one(marks: &mut Vec<bool>, colours: &[u32], number: u32)
    ensures { marks.new.items ≡ mark_one colours.now marks.old.items number }
{
    if let Some(colour) = colours.get(number as usize) {
        let colour = *colour as usize;
        if colour < marks.len() {
            marks[colour] = true;
        }
    }
}

/// Marks the colours of numbers.
fn mark_each(marks: &mut Vec<bool>, colours: &[u32], numbers: &[u32])
    ensures { marks.new.items ≡ mark_each colours.now marks.old.items numbers.now }
{
    for number in numbers {
        mark_one(marks, colours, *number);
    }
}

/// The least number without a mark.
fn least_unmarked(marks: &[bool]) -> usize
    ensures free { mark_at marks.now result ≡ false }
    ensures least { (colour : ℕ) → colour < result → mark_at marks.now colour ≡ true }
{
    for (colour, marked) in marks.iter().enumerate() {
        if !*marked {
            return colour;
        }
    }
    marks.len()
}

/// The least colour that none of the neighbours has.
fn least_free(alloc: Global, neighbours: &[u32], colours: &[u32]) -> Result<u32, Memory>
    requires { length colours.now < 4294967296 }
    ensures least { IfOk result (λ colour. IsLeastFree colours.now neighbours.now colour) }
    ensures few { IfOk result (λ colour. colour ≤ length colours.now) }
{
    let mut marks = no_marks(alloc, neighbours.len())?;
    mark_each(&mut marks, colours, neighbours);
    Ok(least_unmarked(&marks) as u32)
}

/// Whether a number has this colour.
fn has_colour(colours: &[u32], number: u32, colour: u32) -> bool
    ensures { IsTrue result ↔ HasColour colours.now colour number }
{
    match colours.get(number as usize) {
        Some(known) => *known == colour,
        None => false,
    }
}

/// Whether one of the neighbours has this colour.
fn is_taken(neighbours: &[u32], colours: &[u32], colour: u32) -> bool
    ensures { IsTrue result ↔ IsTaken colours.now neighbours.now colour }
{
    for other in neighbours {
        if has_colour(colours, *other, colour) {
            return true;
        }
    }
    false
}

/// The colour of the first of these numbers whose colour none of the neighbours has.
fn shared_colour(partners: &[u32], neighbours: &[u32], colours: &[u32]) -> Option<u32>
    ensures free { IfSome result (λ colour. IsTaken colours.now neighbours.now colour → ⊥) }
    ensures known { IfSome result (λ colour. (other : ℕ) × (other < length colours.now) × (slice_index colours.now other ≡ colour)) }
{
    for other in partners {
        if let Some(colour) = colours.get(*other as usize) {
            if !is_taken(neighbours, colours, *colour) {
                return Some(*colour);
            }
        }
    }
    None
}

/// The colour of a partner where none of the neighbours has it, and else a new one.
fn colour_of(partners: &[u32], neighbours: &[u32], colours: &[u32]) -> u32
    requires small { length colours.now < 4294967296 }
    requires few { (other : ℕ) → other < length colours.now → slice_index colours.now other ≤ other }
    ensures free { IsTaken colours.now neighbours.now result → ⊥ }
    ensures few { result ≤ length colours.now }
{
    match shared_colour(partners, neighbours, colours) {
        Some(colour) => colour,
        None => colours.len() as u32,
    }
}

/// Colours for all numbers of a graph in order: a number gets that of a partner where no neighbour has it, and else a new one.
pub(crate) fn colours_by_partners(
    alloc: Global,
    graph: &Graph,
    partners: &Graph,
) -> Result<Vec<u32>, Memory>
    requires graph { IsGraph graph.now }
    requires small { size_of graph.now < 4294967296 }
    ensures count { IfOk result (λ colours. length colours.items ≡ size_of graph.now) }
    ensures colours { IfOk result (λ colours. AreColours graph.now colours.items) }
{
    let mut colours = Vec::new(alloc);
    for number in 0..graph.size() {
        let likely = partners.neighbours_of(number);
        let colour = colour_of(likely, graph.neighbours_of(number), &colours);
        colours.push(colour)?;
    }
    Ok(colours)
}

/// The least free colours for all numbers of a graph in order.
pub(crate) fn first_fit(alloc: Global, graph: &Graph) -> Result<Vec<u32>, Memory>
    requires graph { IsGraph graph.now }
    requires small { size_of graph.now < 4294967296 }
    ensures count { IfOk result (λ colours. length colours.items ≡ size_of graph.now) }
    ensures fit { IfOk result (λ colours. IsFirstFit graph.now colours.items) }
{
    let mut colours = Vec::new(alloc);
    for number in 0..graph.size() {
        let colour = least_free(alloc, graph.neighbours_of(number), &colours)?;
        colours.push(colour)?;
    }
    Ok(colours)
}
