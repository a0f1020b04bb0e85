//! The statements that give a value to something of the user's.
ghost use Rattle.std.specs.Prelude.{◌≡◌, ◌<◌, ◌≤◌, ◌/◌, ℕ, List, Option, [], length, map, IfOk, OnErr, true, false};
ghost use Rattle.lx_ccode.specs.NameSets.{first_place};
ghost use Rattle.lx_ccode.specs.declared.piece.CondCase.{CondCase};
ghost use Rattle.lx_ccode.specs.declared.piece.Stmt.TheVariants as stmt;
ghost use Rattle.lx_ccode.specs.Validity.{NamesOneOf};
ghost use Rattle.lx_step.specs.Numbers.{place_of};
ghost use Rattle.lx_step.specs.Steps.{IsStep, KeepsTables, given_after, machine_of};

use crate::conds::cond_number;
use crate::scanner::{Going, Scanner};
use crate::slots::Slots;
use lx_base::Memory;
use lx_ccode::CondCase;
use lx_shared::SharedText;
use std::alloc::Global;

impl Scanner {
    /// Sets the condition, which is one of these.
    pub(crate) fn set_cond(&mut self, conds: &[CondCase], cond: &SharedText) -> Going
        requires { NamesOneOf (map (λ case. case.cond) conds.now) (stmt.Cond cond.now) }
        ensures { (stream : List ℕ) (eof : Option ℕ) (table : List ℕ) → IsStep stream eof table conds.now (stmt.Cond cond.now) self.old self.new result }
    {
        self.cond = cond_number(conds, cond.as_slice());
        Going::Next
    }

    /// Gives a tag, by its number, the content of a register.
    pub(crate) fn give_offset(
        &self,
        slots: &mut Slots,
        number: Option<usize>,
        register: u32,
    ) -> Going
        requires { place_of self.now.numbering.registers.keys register < length self.now.registers.items }
        ensures step { (stream : List ℕ) (eof : Option ℕ) (table : List ℕ) (conds : List CondCase) (name : List ℕ) → IsStep stream eof table conds (stmt.Tag name false register) self.now self.now result }
        ensures given { (conds : List CondCase) (names : List (List ℕ)) (name : List ℕ) → number ≡ first_place names name → slots.new ≡ given_after names (stmt.Tag name false register) (machine_of conds self.now []) slots.old }
    {
        slots.give_offset(number, self.content(register));
        Going::Next
    }

    /// Gives a tag, by its number, the content of a history.
    pub(crate) fn give_history(
        &self,
        alloc: Global,
        slots: &mut Slots,
        number: Option<usize>,
        history: u32,
    ) -> Result<Going, Memory>
        requires { place_of self.now.numbering.histories.keys history < length self.now.histories }
        ensures step { IfOk result (λ going. (stream : List ℕ) (eof : Option ℕ) (table : List ℕ) (conds : List CondCase) (name : List ℕ) → IsStep stream eof table conds (stmt.Tag name true history) self.now self.now going) }
        ensures given { IfOk result (λ going. (conds : List CondCase) (names : List (List ℕ)) (name : List ℕ) → number ≡ first_place names name → slots.new ≡ given_after names (stmt.Tag name true history) (machine_of conds self.now []) slots.old) }
        ensures kept { OnErr result (slots.new ≡ slots.old) }
    {
        let entries = self
            .histories
            .entries(alloc, self.place_of_history(history))?;
        slots.give_history(number, entries);
        Ok(Going::Next)
    }

    /// Sets the count of groups.
    pub(crate) fn count(&self, slots: &mut Slots, groups: u32) -> Going
        requires { groups ≤ length slots.old.entries }
        ensures step { (stream : List ℕ) (eof : Option ℕ) (table : List ℕ) (conds : List CondCase) → IsStep stream eof table conds (stmt.Count groups) self.now self.now result }
        ensures given { (conds : List CondCase) (names : List (List ℕ)) → slots.new ≡ given_after names (stmt.Count groups) (machine_of conds self.now []) slots.old }
    {
        slots.count(groups);
        Going::Next
    }

    /// Sets the end of a group.
    pub(crate) fn set_end(&self, slots: &mut Slots, place: u32, register: u32) -> Going
        requires register { place_of self.now.numbering.registers.keys register < length self.now.registers.items }
        requires place { place / 2 < length slots.old.entries }
        ensures step { (stream : List ℕ) (eof : Option ℕ) (table : List ℕ) (conds : List CondCase) → IsStep stream eof table conds (stmt.End place register) self.now self.now result }
        ensures given { (conds : List CondCase) (names : List (List ℕ)) → slots.new ≡ given_after names (stmt.End place register) (machine_of conds self.now []) slots.old }
    {
        slots.set_end(place, self.content(register));
        Going::Next
    }
}
