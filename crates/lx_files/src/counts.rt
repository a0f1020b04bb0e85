//! Counts of faults, and the plan of calls that fail.
ghost use Rattle.std.specs.Prelude.{◌≡◌, ◌+◌, ◌≤◌, ◌↔◌, min, [], ◌∷◌, ◌++◌, IsTrue, OnOk, OnErr, Contains};
ghost use Rattle.lx_files.specs.Counts.{Rose};

use lx_base::Memory;
use std::alloc::Global;
use std::marker::Model;

/// The count after one more fault; it stays at its last value once it is there.
pub fn one_more(count: u64) -> u64
    ensures rose { Rose count result }
    ensures never_falls { count ≤ result }
{
    count.saturating_add(1)
}

/// The calls of an object in memory: which fail, by their numbers from 0, and which is next.
#[derive(Drop)]
pub struct Calls {
    failing: Vec<u64>,
    next: u64,
}

impl Model for Calls {
    ghost use Rattle.lx_files.specs.CallPlan.{CallPlan};

    ghost Value = { CallPlan };

    ghost view = { λ calls. record { failing = calls.failing.items; next = calls.next } };
}

impl Calls {
    /// No call fails, and the next is call 0.
    pub fn new(alloc: Global) -> Calls
        ensures { result ≡ record { failing = []; next = 0 } }
    {
        Calls {
            failing: Vec::new(alloc),
            next: 0,
        }
    }

    /// Lets call `n` fail. Where memory runs out nothing changed.
    pub fn fail(&mut self, n: u64) -> Result<(), Memory>
        ensures failing { OnOk result (self.new ≡ record { failing = self.old.failing ++ n ∷ []; next = self.old.next }) }
        ensures kept { OnErr result (self.new ≡ self.old) }
    {
        self.failing.push(n)?;
        Ok(())
    }

    /// Counts a call, and tells whether it fails.
    pub fn begin(&mut self) -> bool
        ensures fails { IsTrue result ↔ Contains self.old.failing self.old.next }
        ensures counted { self.new ≡ record { failing = self.old.failing; next = min (self.old.next + 1) 18446744073709551615 } }
    {
        let fails = self.failing.contains(&self.next);
        self.next = self.next.saturating_add(1);
        fails
    }
}
