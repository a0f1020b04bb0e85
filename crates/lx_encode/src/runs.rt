//! Runs of numbers that lead to one residual each: what stands for the edges of a residual, and for a
//! class whose points have been spelled in part.
ghost use Rattle.std.proofs.Common.{rules};
ghost use Rattle.std.specs.Cmp.Rules.{hashing};
ghost use Rattle.std.specs.Hash as fed;
ghost use Rattle.std.specs.Prelude.{◌≡◌, ℕ, ◌+◌, ◌<◌, ◌≤◌, ◌⊎◌, ◌↔◌, [], ◌∷◌, ◌++◌, IfOk, OnOk};
ghost use Rattle.lx_class.specs.Ranges.{InRanges, IsCanonical};
ghost use Rattle.lx_encode.specs.Runs.{AreSorted, IsRow, LeadsShifted, LeadsTo, cuts_of, target_of};

use lx_base::Memory;
use lx_class::Range;
use std::alloc::Global;
use std::hash::{Hash, Hasher};

/// The numbers from `lo` to `hi`, both among them, and where they lead.
#[derive(Clone, Copy, PartialEq, Eq)]
pub struct Run {
    pub lo: u32,
    pub hi: u32,
    pub to: u32,
}

impl Hash for Run {
    ghost hash_input = { λ run. fed.u32 run.lo ++ fed.u32 run.hi ++ fed.u32 run.to };

    ghost respects_eq = { Prim.search (hashing, rules) };

    fn hash<H: Hasher>(&self, state: &mut H) {
        self.lo.hash(state);
        self.hi.hash(state);
        self.to.hash(state);
    }
}

/// Appends a run, which begins behind those that are there. One that touches the last run and
/// leads to the same target is joined to it.
pub(crate) fn append_run(row: &mut Vec<Run>, run: Run) -> Result<(), Memory>
    requires row { IsRow row.old.items }
    requires ordered { run.lo ≤ run.hi }
    requires bounded { run.hi ≤ 0x10FFFF }
    requires behind { (number target : ℕ) → LeadsTo row.old.items number target → number < run.lo }
    ensures row { OnOk result (IsRow row.new.items) }
    ensures leads { OnOk result ((number target : ℕ) → LeadsTo row.new.items number target ↔
        (LeadsTo row.old.items number target ⊎ LeadsTo (run ∷ []) number target)) }
{
    if let Some(last) = row.pop() {
        if last.hi + 1 == run.lo && last.to == run.to {
            row.push(Run {
                lo: last.lo,
                hi: run.hi,
                to: run.to,
            })?;
            return Ok(());
        }
        row.push(last)?;
    }
    row.push(run)?;
    Ok(())
}

/// Appends the numbers from `from` to `to`, counted on from `unit`.
pub(crate) fn append_shifted(
    row: &mut Vec<Run>,
    runs: &[Run],
    from: u32,
    to: u32,
    unit: u32,
) -> Result<(), Memory>
    requires row { IsRow row.old.items }
    requires runs { AreSorted runs.now }
    requires bounded { unit + to ≤ 0x10FFFF + from }
    requires behind { (number target : ℕ) → LeadsTo row.old.items number target → number < unit }
    ensures row { OnOk result (IsRow row.new.items) }
    ensures leads { OnOk result ((number target : ℕ) → LeadsTo row.new.items number target ↔
        (LeadsTo row.old.items number target ⊎ LeadsShifted runs.now from to unit number target)) }
{
    for run in runs {
        let lo = run.lo.max(from);
        let hi = run.hi.min(to);
        if lo <= hi {
            let shifted = Run {
                lo: lo - from + unit,
                hi: hi - from + unit,
                to: run.to,
            };
            append_run(row, shifted)?;
        }
    }
    Ok(())
}

/// The points of a set, which lead to residual 0.
pub(crate) fn point_runs(alloc: Global, ranges: &[Range]) -> Result<Vec<Run>, Memory>
    requires { IsCanonical ranges.now }
    ensures sorted { IfOk result (λ runs. AreSorted runs.items) }
    ensures leads { IfOk result (λ runs. (number target : ℕ) →
        LeadsTo runs.items number target ↔ (InRanges ranges.now number × (0 ≡ target))) }
{
    let mut runs = Vec::new(alloc);
    for range in ranges {
        runs.push(Run {
            lo: range.lo,
            hi: range.hi,
            to: 0,
        })?;
    }
    Ok(runs)
}

/// Where a number leads, by binary search.
pub(crate) fn target_at(runs: &[Run], number: u32) -> Option<u32>
    requires { AreSorted runs.now }
    ensures { result ≡ target_of runs.now number }
{
    let (mut low, mut high) = (0, runs.len());
    while low < high {
        let middle = low + (high - low) / 2;
        let run = runs[middle];
        if number < run.lo {
            high = middle;
        } else if run.hi < number {
            low = middle + 1;
        } else {
            return Some(run.to);
        }
    }
    None
}

/// The numbers at which the answers of a row may change.
pub(crate) fn cuts(alloc: Global, runs: &[Run]) -> Result<Vec<u32>, Memory>
    requires { AreSorted runs.now }
    ensures { IfOk result (λ cuts. cuts.items ≡ cuts_of runs.now) }
{
    let mut cuts = Vec::new(alloc);
    let mut next = 0;
    for run in runs {
        if run.lo != next {
            cuts.push(run.lo)?;
        }
        next = run.hi + 1;
        cuts.push(next)?;
    }
    Ok(cuts)
}
