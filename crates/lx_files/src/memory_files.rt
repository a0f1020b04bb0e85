//! Files in memory.
ghost use Rattle.std.specs.Prelude.{◌≡◌, ℕ, ◌+◌, ◌-◌, ◌≤◌, ◌↔◌, min, List, [], ◌∷◌, ◌++◌, Some, None, IsTrue, IfOk, IfErr, IsErrOf, OnOk, OnErr, MatchOption, Contains};
ghost use Rattle.lx_files.specs.declared.files.HeldFile.{HeldFile};
ghost use Rattle.lx_files.specs.Held.{bytes_of, Binds, WhereTold};
ghost use Rattle.lx_files.specs.Reading.{Gives, RefusesRead, RefusesWrite};

use crate::counts::{Calls, one_more};
use crate::files::{Files, HeldFile, ReadAnswer, WriteAnswer};
use lx_base::{ByteText, FileName, Memory};
use std::alloc::Global;
use std::marker::Model;

/// Bindings of names to bytes, the newest first.
#[derive(Drop)]
struct Bindings {
    files: Vec<HeldFile>,
}

impl Model for Bindings {
    ghost use Rattle.std.specs.Prelude.{List};
    ghost use Rattle.lx_files.specs.declared.files.HeldFile.{HeldFile};

    ghost Value = { List HeldFile };

    ghost view = { λ bindings. bindings.files.items };
}

impl Bindings {
    fn new(alloc: Global) -> Bindings
        ensures { result ≡ [] }
    {
        Bindings {
            files: Vec::new(alloc),
        }
    }

    fn find(&self, name: &str) -> Option<&[u8]>
        ensures { MatchOption result (bytes_of self.now name.now ≡ None) (λ bytes. bytes_of self.now name.now ≡ Some bytes.now) }
    {
        for file in self.files.iter() {
            if file.name.as_str() == name {
                return Some(file.bytes.as_slice());
            }
        }
        None
    }

    fn read(&self, alloc: Global, name: &str) -> Result<Vec<u8>, ReadAnswer>
        ensures gives { IfOk result (λ bytes. Gives (Some self.now) name.now bytes.items) }
        ensures refuses { IfErr result (λ answer. (before after : ℕ) → RefusesRead (Some self.now) name.now before after answer) }
        ensures never_fails { IsErrOf result ReadAnswer.Failed → ⊥ }
    {
        match self.find(name) {
            None => Err(ReadAnswer::Missing),
            Some(bytes) => Vec::from_slice(alloc, bytes).map_err(|_| ReadAnswer::Memory),
        }
    }

    fn bind(&mut self, name: &str, bytes: &[u8]) -> Result<(), Memory>
        ensures bound { OnOk result (Binds self.old self.new name.now bytes.now) }
        ensures kept { OnErr result (self.new ≡ self.old) }
    {
        let alloc = *self.files.allocator();
        let name = FileName::from_string(String::from_str(alloc, name)?);
        let bytes = ByteText::copy_of(alloc, bytes)?;
        self.files.insert(0, HeldFile { name, bytes })?;
        Ok(())
    }
}

/// Files in memory of which chosen calls fail, and no others. Reads and writes are counted together from 0, whatever they answer; the
/// number of the next call stays at its last value once it is there.
#[derive(Drop)]
pub struct MemFiles {
    bindings: Bindings,
    calls: Calls,
    faults: u64,
    write_faults: u64,
}

impl Model for MemFiles {
    ghost use Rattle.lx_files.specs.MemoryFiles.{MemoryFiles};

    ghost Value = { MemoryFiles };

    ghost view = { λ files. record {
      held = files.bindings;
      calls = files.calls;
      faults = files.faults;
      write_faults = files.write_faults;
    } };
}

impl MemFiles {
    /// No file, and no call that fails.
    pub fn new(alloc: Global) -> MemFiles
        ensures { result ≡ record { held = []; calls = record { failing = []; next = 0 }; faults = 0; write_faults = 0 } }
    {
        MemFiles {
            bindings: Bindings::new(alloc),
            calls: Calls::new(alloc),
            faults: 0,
            write_faults: 0,
        }
    }

    /// Puts the bytes under the name, and counts as no call. Where memory runs out nothing changed.
    pub fn add(&mut self, name: &str, bytes: &[u8]) -> Result<(), Memory>
        ensures bound { OnOk result (Binds self.old.held self.new.held name.now bytes.now) }
        ensures others { OnOk result (self.new ≡ record self.old { held = self.new.held }) }
        ensures kept { OnErr result (self.new ≡ self.old) }
    {
        self.bindings.bind(name, bytes)
    }

    /// Lets call `n` fail, reads and writes counted together from 0. Where memory runs out nothing changed.
    pub fn fail_call(&mut self, n: u64) -> Result<(), Memory>
        ensures failing { OnOk result (self.new ≡ record self.old { calls = record { failing = self.old.calls.failing ++ n ∷ []; next = self.old.calls.next } }) }
        ensures kept { OnErr result (self.new ≡ self.old) }
    {
        self.calls.fail(n)
    }
}

impl Files for MemFiles {
    ghost held = { λ files. Some files.held };

    ghost faults = { λ files. files.faults };

    ghost write_faults = { λ files. files.write_faults };

    fn read(&mut self, alloc: Global, name: &str) -> Result<Vec<u8>, ReadAnswer>
        ensures gives { IfOk result (λ bytes. Gives (Some self.old.held) name.now bytes.items) }
        ensures refuses { IfErr result (RefusesRead (Some self.old.held) name.now self.old.faults self.new.faults) }
        ensures calm { OnOk result (self.new.faults ≡ self.old.faults) }
        ensures never_falls { self.old.faults ≤ self.new.faults }
        ensures held_stays { Some self.new.held ≡ Some self.old.held }
        ensures write_faults_stay { self.new.write_faults ≡ self.old.write_faults }
        ensures fails { IsErrOf result ReadAnswer.Failed ↔ Contains self.old.calls.failing self.old.calls.next }
        ensures counted { self.new.calls ≡ record { failing = self.old.calls.failing; next = min (self.old.calls.next + 1) 18446744073709551615 } }
    {
        if self.calls.begin() {
            self.faults = one_more(self.faults);
            return Err(ReadAnswer::Failed);
        }
        self.bindings.read(alloc, name)
    }

    fn write(&mut self, name: &str, bytes: &[u8]) -> Result<(), WriteAnswer>
        ensures binds { OnOk result (WhereTold (Some self.old.held) (Some self.new.held) (λ files files'. Binds files files' name.now bytes.now)) }
        ensures refuses { IfErr result (RefusesWrite (Some self.old.held) (Some self.new.held) name.now bytes.now self.old.write_faults self.new.write_faults) }
        ensures calm { OnOk result (self.new.write_faults ≡ self.old.write_faults) }
        ensures never_falls { self.old.write_faults ≤ self.new.write_faults }
        ensures faults_stay { self.new.faults ≡ self.old.faults }
        ensures fails { IsErrOf result WriteAnswer.Failed ↔ Contains self.old.calls.failing self.old.calls.next }
        ensures counted { self.new.calls ≡ record { failing = self.old.calls.failing; next = min (self.old.calls.next + 1) 18446744073709551615 } }
    {
        if self.calls.begin() {
            self.write_faults = one_more(self.write_faults);
            return Err(WriteAnswer::Failed);
        }
        self.bindings.bind(name, bytes)?;
        Ok(())
    }
}

/// Files in memory of which no call fails.
#[derive(Drop)]
pub struct QuietFiles {
    bindings: Bindings,
}

impl Model for QuietFiles {
    ghost use Rattle.std.specs.Prelude.{List};
    ghost use Rattle.lx_files.specs.declared.files.HeldFile.{HeldFile};

    ghost Value = { List HeldFile };

    ghost view = { λ files. files.bindings };
}

impl QuietFiles {
    /// No file.
    pub fn new(alloc: Global) -> QuietFiles
        ensures { result ≡ [] }
    {
        QuietFiles {
            bindings: Bindings::new(alloc),
        }
    }

    /// Puts the bytes under the name. Where memory runs out nothing changed.
    pub fn add(&mut self, name: &str, bytes: &[u8]) -> Result<(), Memory>
        ensures bound { OnOk result (Binds self.old self.new name.now bytes.now) }
        ensures kept { OnErr result (self.new ≡ self.old) }
    {
        self.bindings.bind(name, bytes)
    }
}

impl Files for QuietFiles {
    ghost held = { λ files. Some files };

    ghost faults = { λ _. 0 };

    ghost write_faults = { λ _. 0 };

    fn read(&mut self, alloc: Global, name: &str) -> Result<Vec<u8>, ReadAnswer> {
        self.bindings.read(alloc, name)
    }

    fn write(&mut self, name: &str, bytes: &[u8]) -> Result<(), WriteAnswer> {
        self.bindings.bind(name, bytes)?;
        Ok(())
    }
}
