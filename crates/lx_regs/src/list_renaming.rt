//! Whether lists of operations do the same where registers have other names, which may be one name for several.
//!
//! All registers are looked at, not only those that are live, so that it need not be known which are.
ghost use Rattle.std.specs.Prelude.{◌≡◌, ℕ, ◌<◌, ◌≤◌, All, IfOk, IfSome, IsSome, IsTrue, OnOk, length, slice_index_or};
ghost use Rattle.lx_auto.specs.Effects.{renamed_effect};
ghost use Rattle.lx_auto.specs.declared.automaton.Held.TheVariants.{MReg};
ghost use Rattle.lx_auto.specs.declared.ops.Op.TheVariants.{Here};
ghost use Rattle.lx_regs.specs.EffectIndexes.{single_effect};
ghost use Rattle.lx_regs.specs.ListRenamings.{AreFixedNames, AreMembers, IsFixedName, IsKept, IsListKept, IsNoted, IsRenaming, members_at, names_by};
ghost use Rattle.lx_regs.specs.NameTables.{fixed_name};
ghost use Rattle.lx_regs.specs.OrderedOps.{Ascend, number_of};

use crate::effects::Single;
use crate::lists::empty_lists;
use crate::name_tables::NameTable;
use crate::ordered::{ascend, number_of, place_from, single_near};
use lx_auto::{Auto, Held, Op};
use lx_base::{Memory, Sequence};
use std::alloc::Global;

/// Names of registers.
pub(crate) struct ListRenaming {
    /// The name of each register.
    names: Vec<u32>,
    /// For each name the registers that have it.
    members: Vec<Sequence<u32>>,
}

impl Drop for ListRenaming {
    fn drop(self) {
        let Self {
            names: _,
            members: _,
        } = self;
    }
}

/// The places at which a register and its name are looked for first in two lists. They may be wrong.
#[derive(Clone, Copy)]
struct Near {
    /// In the given list.
    given: usize,
    /// In that of the answer.
    answer: usize,
}

/// Notes that a register has a name, where the name is below how many there are.
fn note_member(members: &mut Vec<Sequence<u32>>, name: u32, reg: u32) -> Result<(), Memory>
    ensures { OnOk result (IsNoted members.old.items members.new.items name reg) }
{
    if let Some(registers) = members.get_mut(name as usize) {
        registers.push(reg)?;
    }
    Ok(())
}

/// For each name below a count the registers that have it.
fn members_of(alloc: Global, names: &[u32], count: usize) -> Result<Vec<Sequence<u32>>, Memory>
    requires { length names.now ≤ 4294967295 }
    ensures { IfOk result (λ members. AreMembers (length names.now) count names.now members.items) }
{
    let mut members = empty_lists(alloc, count)?;
    for (reg, name) in names.iter().enumerate() {
        note_member(&mut members, *name, reg as u32)?;
    }
    Ok(members)
}

impl ListRenaming {
    /// The renaming by which registers have these names, of which those from a count on are none.
    pub(crate) fn of(alloc: Global, names: Vec<u32>, count: usize) -> Result<ListRenaming, Memory>
        requires { length names.items ≤ 4294967295 }
        ensures names { IfOk result (λ renaming. renaming.names.items ≡ names.items) }
        ensures members { IfOk result (λ renaming. AreMembers (length names.items) count names.items renaming.members.items) }
    {
        let members = members_of(alloc, &names, count)?;
        Ok(ListRenaming { names, members })
    }

    /// Whether a register by its new name gets what it got before.
    fn is_alike(&self, ours: Single, given: Single) -> bool
        ensures { IsTrue result → single_effect ours ≡ renamed_effect (names_by self.now.names.items) (single_effect given) }
    {
        match (ours, given) {
            (Single::Now, Single::Now) | (Single::Never, Single::Never) => true,
            (Single::From(name), Single::From(reg)) => match self.names.get(reg as usize) {
                Some(other) => name == *other,
                None => false,
            },
            _ => false,
        }
    }

    /// Where a register of a greater number is looked for first in two lists.
    fn reach(&self, near: Near, ops: &[Op], others: &[Op], reg: u32) -> Near {
        match self.names.get(reg as usize) {
            Some(name) => Near {
                given: place_from(ops, near.given, reg),
                answer: place_from(others, near.answer, *name),
            },
            None => near,
        }
    }

    /// The same of the first one of some registers.
    fn reach_first(&self, near: Near, ops: &[Op], others: &[Op], registers: &[u32]) -> Near {
        match registers.first() {
            Some(reg) => self.reach(near, ops, others, *reg),
            None => near,
        }
    }

    /// Whether two lists do the same to a register.
    fn keeps(&self, ops: &[Op], others: &[Op], reg: u32, near: Near) -> bool
        requires order { Ascend ops.now }
        requires also { Ascend others.now }
        ensures { IsTrue result → IsKept self.now.names.items ops.now others.now reg }
    {
        match self.names.get(reg as usize) {
            Some(name) => {
                let ours = single_near(others, *name, near.answer);
                self.is_alike(ours, single_near(ops, reg, near.given))
            }
            None => false,
        }
    }

    /// Whether two lists do the same to the registers that the first one writes.
    fn keeps_written(&self, ops: &[Op], others: &[Op]) -> bool
        requires order { Ascend ops.now }
        requires also { Ascend others.now }
        ensures { IsTrue result → (place : ℕ) → place < length ops.now
            → IsKept self.now.names.items ops.now others.now (number_of (slice_index_or ops.now place (Here 0))) }
    {
        let mut near = Near {
            given: 0,
            answer: 0,
        };
        for op in ops {
            let reg = number_of(*op);
            near = self.reach(near, ops, others, reg);
            if !self.keeps(ops, others, reg, near) {
                return false;
            }
        }
        true
    }

    /// Whether two lists do the same to registers.
    fn keeps_all(&self, ops: &[Op], others: &[Op], registers: &[u32], near: Near) -> bool
        requires order { Ascend ops.now }
        requires also { Ascend others.now }
        ensures { IsTrue result → All (IsKept self.now.names.items ops.now others.now) registers.now }
    {
        for reg in registers {
            if !self.keeps(ops, others, *reg, near) {
                return false;
            }
        }
        true
    }

    /// Whether two lists do the same to the registers that have the name of one that the second list writes.
    fn keeps_members(&self, ops: &[Op], others: &[Op]) -> bool
        requires order { Ascend ops.now }
        requires also { Ascend others.now }
        ensures { IsTrue result → (place : ℕ) → place < length others.now
            → All (IsKept self.now.names.items ops.now others.now)
            (members_at self.now.members.items (number_of (slice_index_or others.now place (Here 0)))) }
    {
        let mut near = Near {
            given: 0,
            answer: 0,
        };
        for op in others {
            let Some(registers) = self.members.get(number_of(*op) as usize) else {
                return false;
            };
            near = self.reach_first(near, ops, others, registers.as_slice());
            if !self.keeps_all(ops, others, registers.as_slice(), near) {
                return false;
            }
        }
        true
    }

    /// Whether two lists do the same to all registers that have a name.
    pub(crate) fn keeps_list(&self, ops: &[Op], others: &[Op]) -> bool
        ensures { IsTrue result → IsListKept self.now.names.items self.now.members.items ops.now others.now }
    {
        ascend(ops)
            && ascend(others)
            && self.keeps_written(ops, others)
            && self.keeps_members(ops, others)
    }

    /// The same of two pairs of lists: those on leaving a state, and those of an edge.
    pub(crate) fn keeps_both(
        &self,
        leave: &[Op],
        new_leave: &[Op],
        ops: &[Op],
        others: &[Op],
    ) -> bool
        ensures leave { IsTrue result → IsListKept self.now.names.items self.now.members.items leave.now new_leave.now }
        ensures edge { IsTrue result → IsListKept self.now.names.items self.now.members.items ops.now others.now }
    {
        self.keeps_list(leave, new_leave) && self.keeps_list(ops, others)
    }
}

/// The name of a register, if it has one at all states that is below a count.
fn fixed_name(table: &NameTable, reg: u32, count: usize) -> Option<u32>
    ensures { IfSome result (IsFixedName table.now count reg) }
{
    match table.fixed(Held::Reg(reg)) {
        Some(Held::Reg(name)) if (name as usize) < count => Some(name),
        _ => None,
    }
}

/// The names of so many registers, if each has one at all states that is below a count.
fn fixed_names(
    alloc: Global,
    table: &NameTable,
    regs: u32,
    count: usize,
) -> Result<Option<Vec<u32>>, Memory>
    ensures { IfOk result (λ found. IfSome found (λ names. AreFixedNames table.now count regs names.items)) }
{
    let mut names = Vec::new(alloc);
    for reg in 0..regs {
        match fixed_name(table, reg, count) {
            Some(name) => names.push(name)?,
            None => return Ok(None),
        }
    }
    Ok(Some(names))
}

/// Whether so many m-registers have one name each at all states.
fn all_are_fixed(table: &NameTable, mregs: u32) -> bool
    ensures { IsTrue result → (mreg : ℕ) → mreg < mregs → IsSome (fixed_name table.now (MReg mreg)) }
{
    for mreg in 0..mregs {
        if table.fixed(Held::MReg(mreg)).is_none() {
            return false;
        }
    }
    true
}

/// The renaming by a table of the registers of an automaton, if each register has one name at all states, below a count, and each
/// m-register one name.
pub(crate) fn renaming_of(
    alloc: Global,
    given: &Auto,
    table: &NameTable,
    count: usize,
) -> Result<Option<ListRenaming>, Memory>
    ensures { IfOk result (λ found. IfSome found (IsRenaming given.now table.now)) }
{
    if !all_are_fixed(table, given.mregs) {
        return Ok(None);
    }
    match fixed_names(alloc, table, given.regs, count)? {
        Some(names) => Ok(Some(ListRenaming::of(alloc, names, count)?)),
        None => Ok(None),
    }
}
