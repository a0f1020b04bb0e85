//! Sinks in memory.
ghost use Rattle.std.specs.Prelude.{◌≡◌, ◌+◌, ◌≤◌, ◌↔◌, min, List, [], ◌∷◌, ◌++◌, Some, IsTrue, IfOk, IfErr, IsErrOf, OnOk, OnErr, Contains};
ghost use Rattle.lx_files.specs.Taking.{Takes, RefusesPut, WantsMemory};

use crate::counts::{Calls, one_more};
use crate::sinks::{PutAnswer, Sink};
use lx_base::Memory;
use std::alloc::Global;
use std::marker::Model;

/// Takes all the bytes, or none where memory runs out.
fn take_all(given: &mut Vec<u8>, bytes: &[u8]) -> Result<usize, PutAnswer>
    ensures takes { IfOk result (Takes (Some given.old.items) (Some given.new.items) bytes.now) }
    ensures refuses { IfErr result (λ answer. answer ≡ PutAnswer.Memory) }
    ensures kept { OnErr result (given.new.items ≡ given.old.items) }
{
    match given.extend_from_slice(bytes) {
        Ok(()) => Ok(bytes.len()),
        Err(_) => Err(PutAnswer::Memory),
    }
}

/// A list of bytes that takes what is put to it, and of which chosen calls fail, and no others. Puts are counted from 0, whatever they
/// answer; the number of the next one stays at its last value once it is there.
#[derive(Drop)]
pub struct MemSink {
    given: Vec<u8>,
    calls: Calls,
    faults: u64,
    wants: u64,
}

impl Model for MemSink {
    ghost use Rattle.lx_files.specs.MemorySink.{MemorySink};

    ghost Value = { MemorySink };

    ghost view = { λ sink. record {
      given = sink.given.items;
      calls = sink.calls;
      faults = sink.faults;
      wants = sink.wants;
    } };
}

impl MemSink {
    /// An empty list, and no call that fails.
    pub fn new(alloc: Global) -> MemSink
        ensures { result ≡ record { given = []; calls = record { failing = []; next = 0 }; faults = 0; wants = 0 } }
    {
        MemSink {
            given: Vec::new(alloc),
            calls: Calls::new(alloc),
            faults: 0,
            wants: 0,
        }
    }

    /// Lets call `n` of `put` fail, counted from 0. Where memory runs out nothing changed.
    pub fn fail_call(&mut self, n: u64) -> Result<(), Memory>
        ensures failing { OnOk result (self.new ≡ record self.old { calls = record { failing = self.old.calls.failing ++ n ∷ []; next = self.old.calls.next } }) }
        ensures kept { OnErr result (self.new ≡ self.old) }
    {
        self.calls.fail(n)
    }

    /// What was given so far.
    pub fn bytes(&self) -> &[u8]
        ensures { result.now ≡ self.now.given }
    {
        self.given.as_slice()
    }
}

impl Sink for MemSink {
    ghost given = { λ sink. Some sink.given };

    ghost faults = { λ sink. sink.faults };

    ghost wants = { λ sink. sink.wants };

    fn put(&mut self, bytes: &[u8]) -> Result<usize, PutAnswer>
        ensures takes { IfOk result (Takes (Some self.old.given) (Some self.new.given) bytes.now) }
        ensures refuses { IfErr result (RefusesPut self.old.faults self.new.faults) }
        ensures lacks { IfErr result (WantsMemory self.old.wants self.new.wants) }
        ensures calm { OnOk result (self.new.faults ≡ self.old.faults) }
        ensures kept { OnErr result (Some self.new.given ≡ Some self.old.given) }
        ensures never_falls { self.old.faults ≤ self.new.faults }
        ensures wants_never_fall { self.old.wants ≤ self.new.wants }
        ensures fails { IsErrOf result PutAnswer.Failed ↔ Contains self.old.calls.failing self.old.calls.next }
        ensures counted { self.new.calls ≡ record { failing = self.old.calls.failing; next = min (self.old.calls.next + 1) 18446744073709551615 } }
    {
        if self.calls.begin() {
            self.faults = one_more(self.faults);
            return Err(PutAnswer::Failed);
        }
        match take_all(&mut self.given, bytes) {
            Ok(count) => Ok(count),
            Err(_) => {
                self.wants = one_more(self.wants);
                Err(PutAnswer::Memory)
            }
        }
    }
}

/// A list of bytes that takes what is put to it, and of which no call fails. Its count of wants stands at its last value.
#[derive(Drop)]
pub struct QuietSink {
    given: Vec<u8>,
}

impl Model for QuietSink {
    ghost use Rattle.std.specs.Prelude.{List, ℕ};

    ghost Value = { List ℕ };

    ghost view = { λ sink. sink.given.items };
}

impl QuietSink {
    /// An empty list.
    pub fn new(alloc: Global) -> QuietSink
        ensures { result ≡ [] }
    {
        QuietSink {
            given: Vec::new(alloc),
        }
    }

    /// What was given so far.
    pub fn bytes(&self) -> &[u8]
        ensures { result.now ≡ self.now }
    {
        self.given.as_slice()
    }
}

impl Sink for QuietSink {
    ghost given = { λ sink. Some sink };

    ghost faults = { λ _. 0 };

    ghost wants = { λ _. 18446744073709551615 };

    fn put(&mut self, bytes: &[u8]) -> Result<usize, PutAnswer> {
        take_all(&mut self.given, bytes)
    }
}
