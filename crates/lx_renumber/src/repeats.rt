//! Lists of which some items are the first one.
ghost use Rattle.std.specs.Prelude.{◌≡◌, ◌<◌, [], ◌∷◌, ◌++◌, OnOk, Some, length, option_copied, slice_get};

use lx_base::Memory;
use std::alloc::Global;
use std::marker::Model;

/// A list of which some items are the first one, which is held once. Contracts see the list of the items.
#[derive(Drop)]
pub struct Repeats<T> {
    items: Vec<Option<T>>,
}

impl<T> Model for Repeats<T> {
    ghost use Rattle.std.specs.Prelude.{List};
    ghost use Rattle.lx_renumber.specs.Repeated.{BeginsSome, seen_items};

    ghost Value = { List T };

    ghost view = { λ list. seen_items list.items.items };

    ghost invariant = { λ list. BeginsSome list.items.items };
}

impl<T> Repeats<T> {
    /// The empty list. It takes no memory.
    pub fn new(alloc: Global) -> Self
        ensures { result ≡ [] }
    {
        Repeats {
            items: Vec::new(alloc),
        }
    }

    /// Appends an item.
    pub fn push(&mut self, item: T) -> Result<(), Memory>
    where
        T: Drop,
        ensures { OnOk result (self.new ≡ self.old ++ item ∷ []) }
    {
        self.items.push(Some(item))?;
        Ok(())
    }

    /// Appends the first item once more.
    pub fn repeat_first(&mut self) -> Result<(), Memory>
    where
        T: Drop,
        requires { 0 < length self.old }
        ensures { (first : T) → slice_get self.old 0 ≡ Some first → OnOk result (self.new ≡ self.old ++ first ∷ []) }
    {
        self.items.push(None)?;
        Ok(())
    }

    /// How many items there are. It takes no memory.
    pub fn len(&self) -> usize
        ensures { result ≡ length self.now }
    {
        self.items.len()
    }

    /// The first item, if there is one. It takes no memory.
    pub fn first(&self) -> Option<&T>
        ensures { option_copied result ≡ slice_get self.now 0 }
    {
        match self.items.first() {
            Some(Some(item)) => Some(item),
            _ => None,
        }
    }

    /// The item at a place. It takes no memory.
    pub fn get(&self, place: usize) -> &T
        requires { place < length self.now }
        ensures { slice_get self.now place ≡ Some result.now }
    {
        match &self.items[place] {
            Some(item) => item,
            None => match self.first() {
                Some(item) => item,
                None => unreachable!(),
            },
        }
    }
}
