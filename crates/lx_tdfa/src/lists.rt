//! Lists of places, each with a number.
ghost use Rattle.std.specs.Bool.{MatchBool};
ghost use Rattle.std.specs.Prelude.{◌≡◌, ◌<◌, [], ◌∷◌, ◌++◌, length, Contains, IfOk, OnErr, Some, slice_get};
ghost use Rattle.lx_tnfa.specs.Equality.{TellsEqual};

use indexmap::IndexSet;
use lx_base::Memory;
use std::alloc::Global;
use std::hash::Hash;
use std::marker::Model;

/// Lists of places, or of places with what else is kept of them, all different, each by its number. A list is found by its places in
/// constant time, as far as hashes differ. Contracts see them as a list of lists.
pub struct Lists<P: Eq + Hash + Drop> {
    lists: IndexSet<Vec<P>>,
}

impl<P: Eq + Hash + Drop> Drop for Lists<P> {
    fn drop(self) {
        let Self { lists: _ } = self;
    }
}

impl<P: Eq + Hash + Drop> Model for Lists<P> {
    ghost use Rattle.std.specs.Prelude.{List};
    ghost use Rattle.lx_tdfa.specs.Making.{lists_of};

    ghost Value = { List (List P) };

    ghost view = { λ lists. lists_of lists.lists.keys };
}

impl<P: Eq + Hash + Drop> Lists<P> {
    /// One list. Its only error is want of memory.
    pub fn of(alloc: Global, list: Vec<P>) -> Result<Lists<P>, Memory>
        ensures { IfOk result (λ lists. lists ≡ list.items ∷ []) }
    {
        let mut lists = IndexSet::new(alloc);
        lists.insert(list)?;
        Ok(Lists { lists })
    }

    /// How many lists there are. It takes no memory.
    pub fn len(&self) -> usize
        ensures { result ≡ length self.now }
    {
        self.lists.len()
    }

    /// The list with this number. It takes no memory.
    pub fn get(&self, number: usize) -> &[P]
        requires { number < length self.now }
        ensures { Some result.now ≡ slice_get self.now number }
    {
        match self.lists.get_index(number) {
            Some(list) => list.as_slice(),
            None => unreachable!(),
        }
    }

    /// The number of a list, and whether the list is new: then it comes behind the others. Its only error is want of memory.
    pub fn put(&mut self, list: Vec<P>) -> Result<(usize, bool), Memory>
        ensures lists { IfOk result (λ put. MatchBool put.1 (self.new ≡ self.old ++ list.items ∷ []) (self.new ≡ self.old)) }
        ensures told { TellsEqual P.eq → IfOk result (λ put. MatchBool put.1 (¬ Contains self.old list.items) (Contains self.old list.items)
            × (slice_get self.new put.0 ≡ Some list.items)) }
        ensures kept { OnErr result (self.new ≡ self.old) }
    {
        let put = self.lists.insert_full(list)?;
        Ok(put)
    }
}
