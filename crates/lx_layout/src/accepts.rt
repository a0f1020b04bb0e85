//! The rules by which states accept, and by which a match can fall back to a state.
ghost use Rattle.std.specs.Prelude.{◌≡◌, ◌∷◌, [], ◌++◌, IfOk, OnOk};
ghost use Rattle.lx_layout.specs.Layout.{rule_place, with_accept};
ghost use Rattle.lx_layout.specs.Halting.{ended_accept, ended_accepts, saved_accepts};
ghost use Rattle.lx_layout.specs.Halting as halting;
ghost use Rattle.lx_layout.specs.Marks.{seen_marks};
ghost use Rattle.lx_layout.specs.Plans.{AreIndexed, rule_index, seen_accepts};

use crate::halting::Marks;
use crate::number_index::NumberIndex;
use lx_auto::{Accept, State};
use lx_base::Memory;
use std::alloc::Global;

/// The first accept by a rule.
#[derive(Clone, Copy)]
pub(crate) struct First<'a> {
    pub accept: &'a Accept,
}

/// The first accepts by rules, in the order in which they are found.
#[derive(Drop)]
pub(crate) struct Firsts<'a> {
    pub list: Vec<First<'a>>,
    /// The places of rules in the list, by their numbers.
    pub places: NumberIndex,
}

impl<'a> Firsts<'a> {
    /// No accepts.
    fn new(alloc: Global) -> Self
        ensures none { seen_accepts result.list.items ≡ [] }
        ensures indexed { AreIndexed result }
    {
        Firsts {
            list: Vec::new(alloc),
            places: NumberIndex::new(alloc),
        }
    }

    /// The place of a rule among those of the accepts, counted from 0, if it is there.
    fn find(&self, rule: u32) -> Option<usize>
        requires { AreIndexed self.now }
        ensures { result ≡ rule_index (seen_accepts self.now.list.items) rule }
    {
        self.places.find(rule)
    }

    /// The place of a rule among those of the accepts, counted from 0, or how many accepts there are.
    pub fn rule_place(&self, rule: u32) -> usize
        requires { AreIndexed self.now }
        ensures { result ≡ rule_place (seen_accepts self.now.list.items) rule }
    {
        match self.find(rule) {
            Some(place) => place,
            None => self.list.len(),
        }
    }

    /// Appends the first accept by a rule.
    fn push(&mut self, accept: &'a Accept) -> Result<(), Memory>
        requires { AreIndexed self.old }
        ensures pushed { OnOk result (seen_accepts self.new.list.items ≡ seen_accepts self.old.list.items ++ accept.now ∷ []) }
        ensures indexed { OnOk result (AreIndexed self.new) }
    {
        let place = self.list.len();
        self.list.push(First { accept })?;
        self.places.note(accept.rule, place)?;
        Ok(())
    }

    /// Appends an accept, unless one of these is by the same rule.
    fn add(&mut self, accept: &'a Option<Accept>) -> Result<(), Memory>
        requires { AreIndexed self.old }
        ensures added { OnOk result (seen_accepts self.new.list.items ≡ with_accept (seen_accepts self.old.list.items) accept.now) }
        ensures indexed { OnOk result (AreIndexed self.new) }
    {
        if let Some(accept) = accept {
            if self.find(accept.rule).is_none() {
                self.push(accept)?;
            }
        }
        Ok(())
    }
}

/// Appends the accept of the state with this number, if a match can end by it and none of them is by the same rule.
fn add_ended<'a>(
    found: &mut Firsts<'a>,
    marks: &Marks,
    number: usize,
    state: &'a State,
) -> Result<(), Memory>
    requires { AreIndexed found.old }
    ensures added { OnOk result (seen_accepts found.new.list.items
        ≡ with_accept (seen_accepts found.old.list.items) (ended_accept (seen_marks marks.now) number state.now)) }
    ensures indexed { OnOk result (AreIndexed found.new) }
{
    if marks.halts(number) || marks.is_saved(state) {
        return found.add(&state.accept);
    }
    Ok(())
}

/// The first accept by each rule by which a match can end, in the order in which they are found.
pub(crate) fn ended_accepts<'a>(
    alloc: Global,
    marks: &Marks,
    states: &'a [State],
) -> Result<Firsts<'a>, Memory>
    ensures accepts { IfOk result (λ found. seen_accepts found.list.items ≡ ended_accepts (seen_marks marks.now) states.now) }
    ensures indexed { IfOk result AreIndexed }
{
    let mut found = Firsts::new(alloc);
    for (number, state) in states.iter().enumerate() {
        add_ended(&mut found, marks, number, state)?;
    }
    Ok(found)
}

/// Appends the accept of a state, if the state is saved and none of them is by the same rule.
fn add_restored<'a>(found: &mut Firsts<'a>, marks: &Marks, state: &'a State) -> Result<(), Memory>
    requires { AreIndexed found.old }
    ensures added { OnOk result (seen_accepts found.new.list.items
        ≡ with_accept (seen_accepts found.old.list.items) (halting.saved_accept (seen_marks marks.now) 0 state.now)) }
    ensures indexed { OnOk result (AreIndexed found.new) }
{
    if marks.is_saved(state) {
        return found.add(&state.accept);
    }
    Ok(())
}

/// The first accept by each rule to which a match can fall back, in the order in which they are found.
pub(crate) fn saved_accepts<'a>(
    alloc: Global,
    marks: &Marks,
    states: &'a [State],
) -> Result<Firsts<'a>, Memory>
    ensures accepts { IfOk result (λ found. seen_accepts found.list.items ≡ saved_accepts (seen_marks marks.now) states.now) }
    ensures indexed { IfOk result AreIndexed }
{
    let mut found = Firsts::new(alloc);
    for state in states {
        add_restored(&mut found, marks, state)?;
    }
    Ok(found)
}
