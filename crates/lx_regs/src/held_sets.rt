//! Sets of registers and m-registers.
ghost use Rattle.std.specs.Prelude.{◌≡◌, ◌&&◌, ◌||◌, false, IfOk, OnOk};
ghost use Rattle.std.specs.List.{list_any};
ghost use Rattle.lx_auto.specs.declared.automaton.Held.{Held as HeldValue};
ghost use Rattle.lx_regs.specs.HeldSets.{IsAdded, has, is_same};

use lx_auto::Held;
use lx_base::Memory;
use std::alloc::Global;
use std::collections::BTreeSet;

/// A set of registers and m-registers.
#[derive(Drop)]
pub(crate) struct HeldSet {
    regs: BTreeSet<u32>,
    mregs: BTreeSet<u32>,
}

impl HeldSet {
    /// The empty set. It takes no memory.
    pub(crate) fn new(alloc: Global) -> HeldSet
        ensures { (held : HeldValue) → has result held ≡ false }
    {
        HeldSet {
            regs: BTreeSet::new(alloc),
            mregs: BTreeSet::new(alloc),
        }
    }

    /// Adds one.
    pub(crate) fn insert(&mut self, held: Held) -> Result<(), Memory>
        ensures { OnOk result (IsAdded self.old self.new held) }
    {
        match held {
            Held::Reg(reg) => {
                self.regs.insert(reg)?;
            }
            Held::MReg(mreg) => {
                self.mregs.insert(mreg)?;
            }
        }
        Ok(())
    }

    /// Whether it is in the set. It takes no memory.
    pub(crate) fn contains(&self, held: Held) -> bool
        ensures { result ≡ has self.now held }
    {
        match held {
            Held::Reg(reg) => self.regs.contains(&reg),
            Held::MReg(mreg) => self.mregs.contains(&mreg),
        }
    }

    /// The set of those in a list that are in another set.
    pub(crate) fn of_both(
        alloc: Global,
        items: &[Held],
        others: &HeldSet,
    ) -> Result<HeldSet, Memory>
        ensures { IfOk result (λ set. (held : HeldValue) → has set held ≡ (has others.now held && list_any (is_same held) items.now)) }
    {
        let mut set = HeldSet::new(alloc);
        for held in items {
            set.insert_shared(others, *held)?;
        }
        Ok(set)
    }

    /// Adds one, if it is in another set.
    pub(crate) fn insert_shared(&mut self, others: &HeldSet, held: Held) -> Result<(), Memory>
        ensures { OnOk result ((other : HeldValue) → has self.new other
            ≡ (has self.old other || (has others.now other && is_same other held))) }
    {
        if others.contains(held) {
            self.insert(held)?;
        }
        Ok(())
    }
}
