//! Sets of names, in which each is found without a look at all others.
ghost use Rattle.std.specs.Prelude.{◌≡◌, ◌<◌, None, [], ◌∷◌, ◌++◌, true, false, IfOk, IfSome, OnErr, OnOk, length};
ghost use Rattle.std.specs.Bool.{MatchBool};
ghost use Rattle.std.specs.List.{list_any};
ghost use Rattle.lx_base.specs.Letters.{equal_words};
ghost use Rattle.lx_ccode.specs.NameSets.{first_place};

use indexmap::IndexSet;
use lx_base::Memory;
use std::alloc::Global;
use std::marker::Model;

/// Different names, in the order in which they came. Contracts see them as a list.
pub struct NameSet {
    names: IndexSet<Vec<u8>>,
}

impl Drop for NameSet {
    fn drop(self) {
        let Self { names: _ } = self;
    }
}

impl Model for NameSet {
    ghost use Rattle.std.specs.Prelude.{List, ℕ, map};

    ghost Value = { List (List ℕ) };

    ghost view = { λ set. map (λ name. name.items) set.names.keys };
}

impl NameSet {
    /// No names. It takes no memory.
    pub fn new(alloc: Global) -> NameSet
        ensures { result ≡ [] }
    {
        NameSet {
            names: IndexSet::new(alloc),
        }
    }

    /// Whether the name is one of them. It takes no memory.
    pub fn contains(&self, name: &[u8]) -> bool
        ensures { result ≡ list_any (equal_words name.now) self.now }
    {
        self.names.contains(name)
    }

    /// The place of a name, counted from 0, if it is one of them. It takes no memory.
    pub fn place_of(&self, name: &[u8]) -> Option<usize>
        ensures place { result ≡ first_place self.now name.now }
        ensures within { IfSome result (λ place. place < length self.now) }
    {
        self.names.get_index_of(name)
    }

    /// Appends a copy of a name, if it is none of them, and says whether it did. Where memory runs out the set
    /// stays as it was.
    pub fn add(&mut self, alloc: Global, name: &[u8]) -> Result<bool, Memory>
        ensures added { IfOk result (λ new. MatchBool new
            ((list_any (equal_words name.now) self.old ≡ false) × (self.new ≡ self.old ++ name.now ∷ []))
            ((list_any (equal_words name.now) self.old ≡ true) × (self.new ≡ self.old))) }
        ensures placed { first_place self.old name.now ≡ None → OnOk result (self.new ≡ self.old ++ name.now ∷ []) }
        ensures kept { OnErr result (self.new ≡ self.old) }
    {
        let name = Vec::from_slice(alloc, name)?;
        let new = self.names.insert(name)?;
        Ok(new)
    }
}
