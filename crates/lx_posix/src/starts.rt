//! From where and at which levels a search begins, in order, in time linear in how many starts there are.
//!
//! A start waits at its level as long as the numbers of later places are greater than the level. Then it comes behind those of greater
//! levels that wait, and behind those of its level that began to wait before it.
ghost use Rattle.std.specs.Prelude.{◌≡◌, ℕ, List, [], ◌∷◌, ◌++◌, ◌+◌, ◌-◌, ◌^◌, ◌<◌, ◌≤◌, length, map, replicate, IfOk, OnOk};
ghost use Rattle.lx_posix.specs.Beginnings.{AreBeginnings, AreByRule};
ghost use Rattle.lx_posix.specs.Comparing.{Ranked};
ghost use Rattle.lx_posix.specs.Starts.{level_starts};
ghost use Rattle.lx_posix.specs.Sweeps.{AreStartsOf, emptied_above, level_at, number_at, shown_start, starts_above, starts_at, with_place};
ghost use Rattle.lx_tnfa.specs.Tnfa.{Tnfa};

use crate::points::Beginning;
use lx_base::Memory;
use std::alloc::Global;
use std::marker::Model;

/// From where and at which level a search begins: the index of a beginning, and the level.
#[derive(Clone, Copy)]
pub(crate) struct Start {
    /// The index of the beginning.
    pub from: u32,
    /// The level.
    pub level: u32,
}

/// The places that wait at a level, in ascending order. Contracts see it as a list.
#[derive(Drop)]
struct Waiting {
    places: Vec<u32>,
}

impl Model for Waiting {
    ghost use Rattle.std.specs.Prelude.{List, ℕ};

    ghost Value = { List ℕ };

    ghost view = { λ waiting. waiting.places.items };
}

impl Waiting {
    /// No place. It takes no memory.
    fn new(alloc: Global) -> Waiting
        ensures { result ≡ [] }
    {
        Waiting {
            places: Vec::new(alloc),
        }
    }

    /// Appends a place.
    fn push(&mut self, place: u32) -> Result<(), Memory>
        ensures { OnOk result (self.new ≡ self.old ++ place ∷ []) }
    {
        self.places.push(place)?;
        Ok(())
    }

    /// Appends the starts at this level from the places, and takes these out. It keeps their memory.
    fn take(&mut self, level: u32, found: &mut Vec<Start>) -> Result<(), Memory>
        ensures found { OnOk result (found.new.items ≡ found.old.items ++ starts_at level self.old) }
        ensures none { OnOk result (self.new ≡ []) }
    {
        append_starts(found, level, self.places.as_slice())?;
        self.places.clear();
        Ok(())
    }
}

/// Appends the starts at this level from some places.
fn append_starts(found: &mut Vec<Start>, level: u32, places: &[u32]) -> Result<(), Memory>
    ensures { OnOk result (found.new.items ≡ found.old.items ++ starts_at level places.now) }
{
    for place in places {
        found.push(Start {
            from: *place,
            level,
        })?;
    }
    Ok(())
}

/// So many levels, at which no place waits.
fn empty_levels(alloc: Global, count: usize) -> Result<Vec<Waiting>, Memory>
    ensures { IfOk result (λ levels. levels.items ≡ replicate count []) }
{
    let mut levels = Vec::new(alloc);
    for _ in 0..count {
        levels.push(Waiting::new(alloc))?;
    }
    Ok(levels)
}

/// Lets a place wait at the first levels, of which there are so many.
fn wait(levels: &mut [Waiting], place: u32, count: usize) -> Result<(), Memory>
    requires { count ≤ length levels.old }
    ensures { OnOk result (levels.new ≡ with_place levels.old place count) }
{
    for level in 0..count {
        levels[level].push(place)?;
    }
    Ok(())
}

/// Appends the starts that wait below the level `end` and not below `lowest`, those of the greatest level first, and takes them out.
fn take_above(
    levels: &mut [Waiting],
    lowest: usize,
    end: usize,
    found: &mut Vec<Start>,
) -> Result<(), Memory>
    requires within { end ≤ length levels.old }
    requires small { end ≤ 2 ^ 32 }
    ensures found { OnOk result (found.new.items ≡ found.old.items ++ starts_above levels.old lowest (end - lowest)) }
    ensures levels { OnOk result (levels.new ≡ emptied_above levels.old lowest (end - lowest)) }
{
    for level in (lowest..end).rev() {
        levels[level].take(level as u32, found)?;
    }
    Ok(())
}

/// The greatest level from the beginning with this index.
fn level_at(beginnings: &[Beginning], index: usize) -> u32
    ensures { result ≡ level_at beginnings.now index }
{
    match beginnings.get(index) {
        Some(beginning) => beginning.open.min(beginning.depth),
        None => 0,
    }
}

/// The number of the beginning with this index; behind the last one 0.
fn number_at(beginnings: &[Beginning], index: usize) -> u32
    ensures { result ≡ number_at beginnings.now index }
{
    match beginnings.get(index) {
        Some(beginning) => beginning.number,
        None => 0,
    }
}

/// More than each level from a beginning.
fn level_count(beginnings: &[Beginning]) -> usize
    ensures { (index : ℕ) → level_at beginnings.now index < result }
{
    let mut count: usize = 1;
    for index in 0..beginnings.len() {
        count = count.max(level_at(beginnings, index) as usize + 1);
    }
    count
}

/// From where and at which levels a search begins, in order.
pub(crate) fn starts(alloc: Global, beginnings: &[Beginning]) -> Result<Vec<Start>, Memory>
    requires { length beginnings.now < 2 ^ 32 }
    ensures each { IfOk result (λ starts. AreStartsOf beginnings.now starts.items) }
    ensures all { IfOk result (λ starts. (tnfa : Tnfa) (deep : ℕ → ℕ) (ranks : List Ranked)
        → AreBeginnings tnfa deep beginnings.now ranks → AreByRule ranks
        → map shown_start starts.items ≡ level_starts deep ranks) }
{
    let mut levels = empty_levels(alloc, level_count(beginnings))?;
    let mut found = Vec::new(alloc);
    let mut used: usize = 0;
    for index in 0..beginnings.len() {
        let count = level_at(beginnings, index) as usize + 1;
        wait(&mut levels, index as u32, count)?;
        let end = used.max(count);
        let lowest = number_at(beginnings, index + 1) as usize;
        take_above(&mut levels, lowest, end, &mut found)?;
        used = end.min(lowest);
    }
    Ok(found)
}
