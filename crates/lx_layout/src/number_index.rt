//! Places by numbers.
ghost use Rattle.std.specs.Prelude.{◌≡◌, ℕ, None, OnOk};
ghost use Rattle.lx_layout.specs.NumberIndexes.{noted_place, place_among, with_place};

use indexmap::IndexMap;
use lx_base::Memory;
use std::alloc::Global;

/// How many numbers are looked at one by one, without a hash: most scanners have no more rules.
const FEW: usize = 8;

/// A number and its place.
#[derive(Clone, Copy)]
pub struct NotedPlace {
    pub number: u32,
    pub place: usize,
}

/// Places in a list by numbers.
pub struct NumberIndex {
    /// The place of the first number that got one: small scanners have no other rule, and need no list.
    pub first: Option<NotedPlace>,
    /// The places of the next numbers that got one, which are few.
    pub few: Vec<NotedPlace>,
    /// The places of the other numbers that have one.
    pub others: IndexMap<u32, usize>,
}

impl Drop for NumberIndex {
    fn drop(self) {
        let Self {
            first: _,
            few: _,
            others: _,
        } = self;
    }
}

/// The place of a number among some that have one.
fn place_among(noted: &[NotedPlace], number: u32) -> Option<usize>
    ensures { result ≡ place_among noted.now number }
{
    for one in noted {
        if one.number == number {
            return Some(one.place);
        }
    }
    None
}

impl NumberIndex {
    /// No places.
    pub fn new(alloc: Global) -> Self
        ensures { (number : ℕ) → noted_place result number ≡ None }
    {
        NumberIndex {
            first: None,
            few: Vec::new(alloc),
            others: IndexMap::new(alloc),
        }
    }

    /// The place of a number, if it has one.
    pub fn find(&self, number: u32) -> Option<usize>
        ensures { result ≡ noted_place self.now number }
    {
        match self.first {
            Some(first) if first.number == number => return Some(first.place),
            _ => {}
        }
        match place_among(&self.few, number) {
            Some(place) => Some(place),
            None if self.others.is_empty() => None,
            None => self.others.get(&number).copied(),
        }
    }

    /// Notes the place of a number that has none.
    fn append(&mut self, number: u32, place: usize) -> Result<(), Memory>
        requires { noted_place self.old number ≡ None }
        ensures { OnOk result ((other : ℕ) → noted_place self.new other ≡ with_place (noted_place self.old other) number place other) }
    {
        if self.first.is_none() {
            self.first = Some(NotedPlace { number, place });
        } else if self.few.len() < FEW {
            self.few.push(NotedPlace { number, place })?;
        } else {
            self.others.insert(number, place)?;
        }
        Ok(())
    }

    /// Notes the place of a number, unless it has one.
    pub fn note(&mut self, number: u32, place: usize) -> Result<(), Memory>
        ensures { OnOk result ((other : ℕ) → noted_place self.new other ≡ with_place (noted_place self.old other) number place other) }
    {
        if self.find(number).is_none() {
            self.append(number, place)?;
        }
        Ok(())
    }
}
