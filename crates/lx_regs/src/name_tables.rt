//! Names for the registers of an automaton, which may differ from state to state.
ghost use Rattle.std.specs.Prelude.{◌≡◌, ◌+◌, ◌*◌, None, nat_eq, OnOk, option_map};
ghost use Rattle.indexmap.specs.IndexMap.{get};
ghost use Rattle.lx_auto.specs.Effects.{renamed};
ghost use Rattle.lx_regs.specs.NameTables.{first_name, fixed_name, fixed_names, names_at};

use indexmap::IndexMap;
use lx_auto::Held;
use lx_base::Memory;
use std::alloc::Global;

/// Names for registers: some have one name at all states, others a name at each state. Who has none keeps its number.
pub(crate) struct NameTable {
    /// The names of registers at all states.
    pub(crate) fixed_regs: IndexMap<u32, u32>,
    /// The names of m-registers at all states.
    pub(crate) fixed_mregs: IndexMap<u32, u32>,
    /// The names of registers, by state and number.
    pub(crate) regs: IndexMap<u64, u32>,
    /// The names of m-registers, by state and number.
    pub(crate) mregs: IndexMap<u64, u32>,
}

impl Drop for NameTable {
    fn drop(self) {
        let Self {
            fixed_regs: _,
            fixed_mregs: _,
            regs: _,
            mregs: _,
        } = self;
    }
}

/// Where the name of a register at a state is kept.
fn key_of(state: u32, number: u32) -> u64
    ensures { result ≡ state * 4294967296 + number }
{
    state as u64 * 4294967296 + number as u64
}

/// The name in two maps: that of all states, else that at the state.
fn name_in(fixed: &IndexMap<u32, u32>, chosen: &IndexMap<u64, u32>, state: u32, number: u32) -> u32
    ensures { result ≡ first_name (get nat_eq fixed.now number) (get nat_eq chosen.now (state * 4294967296 + number)) number }
{
    if let Some(name) = fixed.get(&number) {
        return *name;
    }
    match chosen.get(&key_of(state, number)) {
        Some(name) => *name,
        None => number,
    }
}

impl NameTable {
    /// The table in which each register keeps its number.
    pub(crate) fn new(alloc: Global) -> NameTable {
        NameTable {
            fixed_regs: IndexMap::new(alloc),
            fixed_mregs: IndexMap::new(alloc),
            regs: IndexMap::new(alloc),
            mregs: IndexMap::new(alloc),
        }
    }

    /// The name of a register at a state.
    pub(crate) fn reg(&self, state: u32, reg: u32) -> u32
        ensures { result ≡ (names_at self.now state).regs reg }
    {
        name_in(&self.fixed_regs, &self.regs, state, reg)
    }

    /// The name of an m-register at a state.
    pub(crate) fn mreg(&self, state: u32, mreg: u32) -> u32
        ensures { result ≡ (names_at self.now state).mregs mreg }
    {
        name_in(&self.fixed_mregs, &self.mregs, state, mreg)
    }

    /// The name of what is held somewhere, at a state.
    pub(crate) fn name(&self, state: u32, held: Held) -> Held
        ensures { result ≡ renamed (names_at self.now state) held }
    {
        match held {
            Held::Reg(reg) => Held::Reg(self.reg(state, reg)),
            Held::MReg(mreg) => Held::MReg(self.mreg(state, mreg)),
        }
    }

    /// The name that it has at all states, if it has one.
    pub(crate) fn fixed(&self, held: Held) -> Option<Held>
        ensures { result ≡ option_map (λ name. renamed (fixed_names self.now) held) (fixed_name self.now held) }
    {
        match held {
            Held::Reg(reg) => match self.fixed_regs.get(&reg) {
                Some(name) => Some(Held::Reg(*name)),
                None => None,
            },
            Held::MReg(mreg) => match self.fixed_mregs.get(&mreg) {
                Some(name) => Some(Held::MReg(*name)),
                None => None,
            },
        }
    }

    /// Gives a name for all states.
    pub(crate) fn fix(&mut self, held: Held, name: u32) -> Result<(), Memory> {
        match held {
            Held::Reg(reg) => self.fixed_regs.insert(reg, name)?,
            Held::MReg(mreg) => self.fixed_mregs.insert(mreg, name)?,
        };
        Ok(())
    }

    /// Gives a name at a state.
    pub(crate) fn choose(&mut self, state: u32, held: Held, name: u32) -> Result<(), Memory> {
        match held {
            Held::Reg(reg) => self.regs.insert(key_of(state, reg), name)?,
            Held::MReg(mreg) => self.mregs.insert(key_of(state, mreg), name)?,
        };
        Ok(())
    }
}
