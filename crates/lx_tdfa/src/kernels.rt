//! The limits on lists of places.
ghost use Rattle.std.specs.Prelude.{◌≡◌, ◌<◌, [], ◌∷◌, ◌++◌, length, Contains, IfOk, MatchResult, Some, slice_get};
ghost use Rattle.lx_tdfa.specs.Making.{Adds, AreMany, IsWithin, StopsBy, most_places};
ghost use Rattle.lx_tnfa.specs.Equality.{TellsEqual};

use crate::lists::Lists;
use lx_base::limits::{KERNEL_LIMIT, PLACE_LIMIT};
use lx_base::{Fault, Memory, Pos, Stop};
use std::alloc::Global;
use std::hash::Hash;
use std::marker::Model;

/// Lists within the limits of an automaton. Contracts see them as a list of lists.
pub struct Kernels<P: Eq + Hash + Drop> {
    lists: Lists<P>,
    /// How many places all of them have together.
    places: usize,
    /// How many places the longest one has.
    most: usize,
}

impl<P: Eq + Hash + Drop> Drop for Kernels<P> {
    fn drop(self) {
        let Self {
            lists: _,
            places: _,
            most: _,
        } = self;
    }
}

impl<P: Eq + Hash + Drop> Model for Kernels<P> {
    ghost use Rattle.std.specs.Prelude.{List, ◌≡◌, length, sum_by};
    ghost use Rattle.lx_tdfa.specs.Making.{most_places};

    ghost Value = { List (List P) };

    ghost view = { λ kernels. kernels.lists };

    ghost invariant = { λ kernels. (kernels.places ≡ sum_by length kernels.lists) × (kernels.most ≡ most_places kernels.lists) };
}

impl<P: Eq + Hash + Drop> Kernels<P> {
    /// One list. Its only error is want of memory.
    pub fn of(alloc: Global, places: Vec<P>) -> Result<Kernels<P>, Memory>
        ensures { IfOk result (λ kernels. kernels ≡ places.items ∷ []) }
    {
        let count = places.len();
        Ok(Kernels {
            lists: Lists::of(alloc, places)?,
            places: count,
            most: count,
        })
    }

    /// How many lists there are. It takes no memory.
    pub fn len(&self) -> usize
        ensures { result ≡ length self.now }
    {
        self.lists.len()
    }

    /// How many places the longest list has. It takes no memory.
    pub fn most(&self) -> usize
        ensures { result ≡ most_places self.now }
    {
        self.most
    }

    /// The list with this number. It takes no memory.
    pub fn get(&self, number: usize) -> &[P]
        requires { number < length self.now }
        ensures { Some result.now ≡ slice_get self.now number }
    {
        self.lists.get(number)
    }

    /// The number of a list, which is appended where it is not there yet. Where that makes more than 4,096 lists, or more than
    /// 1,048,576 places in them, it answers `TooManyStates` with this place.
    pub fn add(&mut self, places: Vec<P>, at: Pos) -> Result<usize, Stop>
        requires { IsWithin self.old }
        ensures { TellsEqual P.eq → MatchResult result
            (λ number. Adds self.old places.items self.new × (slice_get self.new number ≡ Some places.items) × IsWithin self.new)
            (StopsBy at (AreMany (self.old ++ places.items ∷ []) × ¬ Contains self.old places.items)) }
    {
        let count = places.len();
        let (number, is_new) = self.lists.put(places)?;
        if is_new {
            self.places += count;
            self.most = self.most.max(count);
            if self.lists.len() > KERNEL_LIMIT || self.places > PLACE_LIMIT {
                return Err(Stop::Fault(Fault::TooManyStates { at }));
            }
        }
        Ok(number)
    }
}
