//! Pairs of numbers.
ghost use Rattle.std.specs.Prelude.{◌≡◌, ◌⊎◌, ℕ, false, true, IfOk, OnOk};
ghost use Rattle.lx_regs.specs.JoinedPairs.{IsNoted, is_marked_at};

use indexmap::IndexSet;
use lx_base::Memory;
use std::alloc::Global;

/// How many places the row of a number has. Graphs of no more numbers have rows, of at most four mebibytes together.
const ROW_LENGTH: usize = 2048;

/// Pairs of numbers below a bound. Where they are few, each number has a row with a place for each other one, so that a pair is found
/// without a hash.
pub(crate) struct JoinedPairs {
    /// The rows, one behind another; none where there are too many numbers.
    marks: Vec<bool>,
    /// The pairs, where there are no rows.
    others: IndexSet<(u32, u32)>,
}

impl Drop for JoinedPairs {
    fn drop(self) {
        let Self {
            marks: _,
            others: _,
        } = self;
    }
}

/// How many places the rows of so many numbers have together.
fn place_count(size: usize) -> usize {
    if size <= ROW_LENGTH {
        size * ROW_LENGTH
    } else {
        0
    }
}

/// Marks a place, if it is there, and tells whether it was not marked.
fn mark(marks: &mut Vec<bool>, place: usize) -> bool
    ensures told { result ≡ false → is_marked_at marks.old.items place ≡ true }
    ensures only { (other : ℕ) → is_marked_at marks.new.items other ≡ true → (is_marked_at marks.old.items other ≡ true) ⊎ (place ≡ other) }
{
    if place >= marks.len() {
        return true;
    }
    let fresh = !marks[place];
    marks[place] = true;
    fresh
}

impl JoinedPairs {
    /// No pairs of so many numbers.
    pub(crate) fn new(alloc: Global, size: usize) -> Result<JoinedPairs, Memory>
        ensures { IfOk result (λ pairs. (number other : ℕ) → IsNoted pairs number other → ⊥) }
    {
        Ok(JoinedPairs {
            marks: vec![in alloc; false; place_count(size)]?,
            others: IndexSet::new(alloc),
        })
    }

    /// Notes a pair, and tells whether it was not noted before.
    pub(crate) fn note(&mut self, first: u32, second: u32) -> Result<bool, Memory>
        ensures told { IfOk result (λ fresh. fresh ≡ false → IsNoted self.old first second) }
        ensures only { OnOk result ((number other : ℕ) → IsNoted self.new number other
            → IsNoted self.old number other ⊎ ((number ≡ first) × (other ≡ second))) }
    {
        let place = first as usize * ROW_LENGTH + second as usize;
        if (second as usize) < ROW_LENGTH && place < self.marks.len() {
            return Ok(mark(&mut self.marks, place));
        }
        let fresh = self.others.insert((first, second))?;
        Ok(fresh)
    }
}
