//! What a search has found, which is its own work list.
ghost use Rattle.std.specs.Prelude.{◌≡◌, ◌↔◌, ◌<◌, [], Contains, IsTrue, OnOk, length, slice_index_or};
ghost use Rattle.std.specs.List.{IsDistinct};
ghost use Rattle.lx_regs.specs.Growth.{Grows, TellsEqual};

use indexmap::IndexSet;
use lx_base::Memory;
use std::alloc::Global;
use std::hash::Hash;
use std::marker::Model;

/// Different items, in the order in which they were found. Whether one is among them is told in constant time, as far as hashes
/// differ. Contracts see them as a list.
pub(crate) struct Found<T: Eq + Hash + Drop> {
    items: IndexSet<T>,
}

impl<T: Eq + Hash + Drop> Drop for Found<T> {
    fn drop(self) {
        let Self { items: _ } = self;
    }
}

impl<T: Eq + Hash + Drop> Model for Found<T> {
    ghost use Rattle.std.specs.Prelude.{List};

    ghost Value = { List T };

    ghost view = { λ found. found.items.keys };
}

impl<T: Eq + Hash + Drop> Found<T> {
    /// No item. It takes no memory.
    pub(crate) fn new(alloc: Global) -> Found<T>
        ensures { result ≡ [] }
    {
        Found {
            items: IndexSet::new(alloc),
        }
    }

    /// How many items there are. It takes no memory.
    pub(crate) fn len(&self) -> usize
        ensures count { result ≡ length self.now }
        ensures distinct { IsDistinct T.eq self.now }
    {
        self.items.len()
    }

    /// The items, in the order in which they were found. It takes no memory.
    pub(crate) fn as_slice(&self) -> &[T]
        ensures { result.now ≡ self.now }
    {
        self.items.as_slice()
    }

    /// The item at a place. It takes no memory.
    pub(crate) fn at(&self, place: usize) -> T
    where
        T: Copy,
        requires { place < length self.now }
        ensures { slice_index_or self.now place result ≡ result }
    {
        self.items.as_slice()[place]
    }

    /// Whether an item is among them. It takes no memory.
    pub(crate) fn has(&self, item: &T) -> bool
        ensures { TellsEqual T.eq → IsTrue result ↔ Contains self.now item.now }
    {
        self.items.contains(item)
    }

    /// Adds an item, if it is not there yet.
    pub(crate) fn add(&mut self, item: T) -> Result<(), Memory>
        ensures { TellsEqual T.eq → OnOk result (Grows (λ other. other ≡ item) self.old self.new) }
    {
        self.items.insert(item)?;
        Ok(())
    }
}
