//! Graphs over numbers.
ghost use Rattle.std.specs.Prelude.{◌≡◌, ℕ, ◌<◌, length, IfOk, OnOk};
ghost use Rattle.lx_regs.specs.Graphs.{AreNeighbours, IsGraph, Joins, list_at, put_at, size_of};

use crate::joined_pairs::JoinedPairs;
use crate::lists::empty_lists;
use lx_base::{Memory, Sequence};
use std::alloc::Global;

/// A graph over the numbers from 0 to below a bound.
pub(crate) struct Graph {
    /// The pairs of neighbours, the lesser one first.
    pairs: JoinedPairs,
    /// The neighbours of each number.
    neighbours: Vec<Sequence<u32>>,
}

impl Drop for Graph {
    fn drop(self) {
        let Self {
            pairs: _,
            neighbours: _,
        } = self;
    }
}

/// Puts an item at the end of the list with this number.
fn put(lists: &mut Vec<Sequence<u32>>, number: u32, item: u32) -> Result<(), Memory>
    requires { number < length lists.old.items }
    ensures { OnOk result (lists.new.items ≡ put_at lists.old.items number item) }
{
    lists[number as usize].push(item)?;
    Ok(())
}

impl Graph {
    /// The graph of so many numbers in which no two are neighbours.
    pub(crate) fn new(alloc: Global, size: usize) -> Result<Graph, Memory>
        ensures graph { IfOk result IsGraph }
        ensures size { IfOk result (λ graph. size_of graph ≡ size) }
        ensures empty { IfOk result (λ graph. (number other : ℕ) → AreNeighbours graph number other → ⊥) }
    {
        Ok(Graph {
            pairs: JoinedPairs::new(alloc, size)?,
            neighbours: empty_lists(alloc, size)?,
        })
    }

    /// How many numbers there are.
    pub(crate) fn size(&self) -> usize
        ensures { result ≡ size_of self.now }
    {
        self.neighbours.len()
    }

    /// The neighbours of a number; it has none where it is not below the bound.
    pub(crate) fn neighbours_of(&self, number: usize) -> &[u32]
        ensures { result.now ≡ list_at self.now.neighbours.items number }
    {
        match self.neighbours.get(number) {
            Some(list) => list.as_slice(),
            None => &[],
        }
    }

    /// Makes two numbers neighbours, of which the first is the lesser one, or both are one.
    fn join_ordered(&mut self, first: u32, second: u32) -> Result<(), Memory>
        requires graph { IsGraph self.old }
        requires first { first < size_of self.old }
        requires second { second < size_of self.old }
        ensures { OnOk result (Joins self.old self.new first second) }
    {
        if self.pairs.note(first, second)? {
            put(&mut self.neighbours, first, second)?;
            put(&mut self.neighbours, second, first)?;
        }
        Ok(())
    }

    /// Makes two numbers neighbours.
    pub(crate) fn join(&mut self, first: u32, second: u32) -> Result<(), Memory>
        requires graph { IsGraph self.old }
        requires first { first < size_of self.old }
        requires second { second < size_of self.old }
        ensures { OnOk result (Joins self.old self.new first second) }
    {
        if second < first {
            self.join_ordered(second, first)
        } else {
            self.join_ordered(first, second)
        }
    }
}
