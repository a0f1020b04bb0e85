//! What was given to tags and groups.
ghost use Rattle.std.specs.Prelude.{◌≡◌, ℕ, ◌/◌, ◌<◌, ◌≤◌, List, [], Option, length, option_map, replicate, slice_get, take, IfOk};
ghost use Rattle.lx_step.specs.Given.{Given, nothing_given, with_end, with_item};

use crate::answers::Group;
use lx_base::{Memory, Sequence};
use std::alloc::Global;
use std::marker::Model;

/// What is kept of the values that were given: those of tags by the tags' numbers.
pub(crate) struct Slots {
    offsets: Vec<Option<u64>>,
    histories: Vec<Sequence<Option<u64>>>,
    entries: Vec<Group>,
    groups: u64,
}

impl Drop for Slots {
    fn drop(self) {
        let Self {
            offsets: _,
            histories: _,
            entries: _,
            groups: _,
        } = self;
    }
}

impl Model for Slots {
    ghost use Rattle.std.specs.Prelude.{◌≤◌, length};
    ghost use Rattle.lx_step.specs.Given.{Given};

    ghost Value = { Given };

    ghost view = { λ slots. record {
      offsets = slots.offsets.items;
      histories = slots.histories.items;
      entries = slots.entries.items;
      groups = slots.groups;
    } };

    ghost invariant = { λ slots. slots.groups ≤ length slots.entries.items };
}

impl Slots {
    /// Those of so many tags, with room for so many groups.
    pub(crate) fn new(alloc: Global, tags: usize, groups: u64) -> Result<Slots, Memory>
        ensures { (names : List (List ℕ)) → length names ≡ tags → IfOk result (λ slots. slots ≡ nothing_given names groups) }
    {
        Ok(Slots {
            offsets: vec![in alloc; None; tags]?,
            histories: empty_histories(alloc, tags)?,
            entries: vec![in alloc; Group {
                from: None,
                to: None
            }; groups as usize]?,
            groups: 0,
        })
    }

    /// How many tags there are.
    pub(crate) fn tags(&self) -> u64
        ensures { result ≡ length self.now.offsets }
    {
        self.offsets.len() as u64
    }

    /// For how many groups there is room.
    pub(crate) fn room(&self) -> u64
        ensures { result ≡ length self.now.entries }
    {
        self.entries.len() as u64
    }

    /// The last offset of a tag, by its number.
    pub(crate) fn offset(&self, number: usize) -> Option<Option<u64>>
        ensures { result ≡ slice_get self.now.offsets number }
    {
        self.offsets.get(number).copied()
    }

    /// The last history of a tag, by its number.
    pub(crate) fn history(&self, number: usize) -> Option<&[Option<u64>]>
        ensures { option_map (λ entries. entries.now) result ≡ slice_get self.now.histories number }
    {
        let history = self.histories.get(number)?;
        Some(history.as_slice())
    }

    /// The groups of the rule that was matched last.
    pub(crate) fn groups(&self) -> &[Group]
        ensures groups { result.now ≡ take self.now.groups self.now.entries }
        ensures count { length result.now ≡ self.now.groups }
    {
        &self.entries[..self.groups as usize]
    }

    /// Gives a tag an offset, by its number.
    pub(crate) fn give_offset(&mut self, number: Option<usize>, value: Option<u64>)
        ensures { self.new ≡ record self.old { offsets = with_item number value self.old.offsets } }
    {
        if let Some(number) = number
            && number < self.offsets.len()
        {
            self.offsets[number] = value;
        }
    }

    /// Gives a tag a history, by its number.
    pub(crate) fn give_history(&mut self, number: Option<usize>, value: Sequence<Option<u64>>)
        ensures { self.new ≡ record self.old { histories = with_item number value self.old.histories } }
    {
        if let Some(number) = number
            && number < self.histories.len()
        {
            self.histories[number] = value;
        }
    }

    /// Sets the count of groups.
    pub(crate) fn count(&mut self, groups: u32)
        requires { groups ≤ length self.old.entries }
        ensures { self.new ≡ record self.old { groups = groups } }
    {
        self.groups = u64::from(groups);
    }

    /// Sets the end of a group.
    pub(crate) fn set_end(&mut self, place: u32, value: Option<u64>)
        requires { place / 2 < length self.old.entries }
        ensures { self.new ≡ record self.old { entries = with_end place value self.old.entries } }
    {
        let entry = &mut self.entries[place as usize / 2];
        if place % 2 == 0 {
            entry.from = value;
        } else {
            entry.to = value;
        }
    }
}

/// So many empty histories.
fn empty_histories(alloc: Global, count: usize) -> Result<Vec<Sequence<Option<u64>>>, Memory>
    ensures { IfOk result (λ histories. histories.items ≡ replicate count []) }
{
    let mut histories = Vec::with_capacity(alloc, count)?;
    for _ in 0..count {
        histories.push(Sequence::new(alloc))?;
    }
    Ok(histories)
}
