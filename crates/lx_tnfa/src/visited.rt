//! What was visited, in order.
ghost use Rattle.std.specs.Prelude.{◌≡◌, [], ◌∷◌, ◌++◌, Contains, IfOk};
ghost use Rattle.std.specs.Bool.{MatchBool};
ghost use Rattle.lx_tnfa.specs.Equality.{TellsEqual};

use indexmap::IndexSet;
use lx_base::Memory;
use std::alloc::Global;
use std::hash::Hash;
use std::marker::Model;

/// Different items, in the order in which they were visited. Whether one is among them is told in constant time, as far as
/// hashes differ. Contracts see them as a list.
pub struct Visited<T: Eq + Hash + Drop> {
    items: IndexSet<T>,
}

impl<T: Eq + Hash + Drop> Drop for Visited<T> {
    fn drop(self) {
        let Self { items: _ } = self;
    }
}

impl<T: Eq + Hash + Drop> Model for Visited<T> {
    ghost use Rattle.std.specs.Prelude.{List};

    ghost Value = { List T };

    ghost view = { λ visited. visited.items.keys };
}

impl<T: Eq + Hash + Drop> Visited<T> {
    /// No item. It takes no memory.
    pub fn new(alloc: Global) -> Visited<T>
        ensures { result ≡ [] }
    {
        Visited {
            items: IndexSet::new(alloc),
        }
    }

    /// Takes all items out, in time linear in how many there are, and keeps the memory.
    pub fn clear(&mut self)
        ensures { self.new ≡ [] }
    {
        while self.items.pop().is_some() {}
    }

    /// Visits an item, and says whether it was not visited before.
    pub fn add(&mut self, item: T) -> Result<bool, Memory>
        ensures { TellsEqual T.eq → IfOk result (λ new. MatchBool new
            (¬ Contains self.old item × (self.new ≡ self.old ++ item ∷ []))
            (Contains self.old item × (self.new ≡ self.old))) }
    {
        let new = self.items.insert(item)?;
        Ok(new)
    }
}
