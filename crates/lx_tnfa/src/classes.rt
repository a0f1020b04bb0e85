//! The classes of leaves, each with its graph.
ghost use Rattle.std.specs.Prelude.{◌≡◌, ◌+◌, ◌<◌, ◌^◌, length, IfOk, IfSome, IsTrue, OnOk, slice_get};
ghost use Rattle.lx_encode.specs.Policy.{FitsEncoding};
ghost use Rattle.lx_tnfa.specs.Classes.{AreClasses, HasClass, Adds};

use lx_base::{Enc, Memory};
use lx_class::{ClassSet, Range};
use lx_encode::UnitGraph;
use std::alloc::Global;
use std::collections::HashMap;

/// How many classes are compared one by one, without a digest.
const FEW: usize = 8;

/// A class and its graph.
pub(crate) struct ClassGraph {
    pub set: ClassSet,
    pub graph: UnitGraph,
}

impl Drop for ClassGraph {
    fn drop(self) {
        let Self { set: _, graph: _ } = self;
    }
}

/// The classes that were met, each once but for those whose digests collide.
#[derive(Drop)]
pub(crate) struct Classes {
    /// The encoding of the graphs.
    pub enc: Enc,
    /// The classes, by their numbers.
    pub list: Vec<ClassGraph>,
    /// For a digest the number of a class that has it, but for the first few ones.
    pub numbers: HashMap<u64, u32>,
}

/// A number by which classes are told apart quickly.
fn digest(ranges: &[Range]) -> u64 {
    let mut digest: u64 = 0xCBF2_9CE4_8422_2325;
    for range in ranges {
        digest = (digest ^ u64::from(range.lo)).wrapping_mul(0x100_0000_01B3);
        digest = (digest ^ u64::from(range.hi)).wrapping_mul(0x100_0000_01B3);
    }
    digest
}

/// Whether the class with this number is this one.
fn has_class(list: &[ClassGraph], number: u32, set: &ClassSet) -> bool
    ensures { IsTrue result → HasClass list.now number set.now }
{
    match list.get(number as usize) {
        Some(class) => class.set.ranges() == set.ranges(),
        None => false,
    }
}

/// The number of a class among the first few ones, if it is one of them.
fn first_number(list: &[ClassGraph], set: &ClassSet) -> Option<u32>
    ensures { IfSome result (λ number. HasClass list.now number set.now) }
{
    for number in 0..list.len().min(FEW) {
        if has_class(list, number as u32, set) {
            return Some(number as u32);
        }
    }
    None
}

impl Classes {
    /// The number of a class that was met before, as far as digests tell.
    fn known_number(&self, set: &ClassSet) -> Option<u32>
        ensures { IfSome result (λ number. HasClass self.now.list.items number set.now) }
    {
        if let Some(number) = first_number(&self.list, set) {
            return Some(number);
        }
        if self.list.len() <= FEW {
            return None;
        }
        match self.numbers.get(&digest(set.ranges())) {
            Some(number) if has_class(&self.list, *number, set) => Some(*number),
            _ => None,
        }
    }

    /// Notes the number of a class for its digest, unless the class is one of the first few.
    fn note(&mut self, digest: u64, number: u32) -> Result<(), Memory>
        ensures enc { self.new.enc ≡ self.old.enc }
        ensures list { self.new.list.items ≡ self.old.list.items }
    {
        if number as usize >= FEW {
            self.numbers.insert(digest, number)?;
        }
        Ok(())
    }

    /// The number of a class, whose graph is made where it was not met before.
    pub fn number_of(&mut self, alloc: Global, set: &ClassSet) -> Result<u32, Memory>
        requires fits { FitsEncoding self.old.enc set.now }
        requires are_classes { AreClasses self.old.enc self.old.list.items }
        requires room { length self.old.list.items < 2 ^ 32 }
        ensures adds { OnOk result (Adds self.old self.new 1) }
        ensures are_classes { OnOk result (AreClasses self.new.enc self.new.list.items) }
        ensures number { IfOk result (λ number. HasClass self.new.list.items number set.now) }
    {
        if let Some(number) = self.known_number(set) {
            return Ok(number);
        }
        let graph = UnitGraph::of(alloc, self.enc, set)?;
        let number = self.list.len() as u32;
        let digest = digest(set.ranges());
        let set = set.copy(alloc)?;
        self.list.push(ClassGraph { set, graph })?;
        self.note(digest, number)?;
        Ok(number)
    }
}
