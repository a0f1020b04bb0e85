//! Graphs over the registers and the m-registers of an automaton.
ghost use Rattle.std.specs.Prelude.{◌≡◌, ◌-◌, ◌<◌, Contains, IfOk, OnOk};
ghost use Rattle.lx_auto.specs.Effects.{Writes, target_of};
ghost use Rattle.lx_auto.specs.declared.automaton.Held.{Held as HeldValue};
ghost use Rattle.lx_auto.specs.declared.automaton.Held.TheVariants.{Reg as RegValue, MReg as MRegValue};
ghost use Rattle.lx_regs.specs.Graphs.{size_of};
ghost use Rattle.lx_regs.specs.HeldGraphs.{AreAmong, AreBeside, AreJoined, AreThese, IsHeldGraph, IsThere, Notes, read_each};

use crate::graphs::Graph;
use crate::reads::read_of;
use lx_auto::{Held, Op};
use lx_base::Memory;
use std::alloc::Global;

/// A graph over registers, and one over m-registers.
#[derive(Drop)]
pub(crate) struct HeldGraph {
    /// The graph of the registers.
    pub regs: Graph,
    /// The graph of the m-registers, each by a number that is one less: m-register 0 is aside.
    pub mregs: Graph,
}

/// What an operation writes. It takes no memory.
fn target_of(op: Op) -> Held
    ensures { result ≡ target_of op }
{
    match op {
        Op::Here(target) | Op::Null(target) | Op::Copy(target, _) => Held::Reg(target),
        Op::MHere(target) | Op::MNull(target) | Op::MCopy(target, _) => Held::MReg(target),
    }
}

/// What a list reads for some registers.
pub(crate) fn read_each(alloc: Global, ops: &[Op], live: &[Held]) -> Result<Vec<Held>, Memory>
    ensures { IfOk result (λ reads. reads.items ≡ read_each ops.now live.now) }
{
    let mut reads = Vec::new(alloc);
    for held in live {
        if let Some(read) = read_of(ops, *held) {
            reads.push(read)?;
        }
    }
    Ok(reads)
}

impl HeldGraph {
    /// The graph of so many registers and m-registers in which no two are neighbours.
    pub(crate) fn new(alloc: Global, regs: u32, mregs: u32) -> Result<HeldGraph, Memory>
        ensures graph { IfOk result IsHeldGraph }
        ensures reg_count { IfOk result (λ graph. size_of graph.regs ≡ regs) }
        ensures mreg_count { IfOk result (λ graph. size_of graph.mregs ≡ mregs - 1) }
        ensures empty { IfOk result (λ graph. (held other : HeldValue) → AreJoined graph held other → ⊥) }
    {
        Ok(HeldGraph {
            regs: Graph::new(alloc, regs as usize)?,
            mregs: Graph::new(alloc, mregs.saturating_sub(1) as usize)?,
        })
    }

    /// Makes two registers neighbours, if they are two.
    fn note_regs(&mut self, reg: u32, other: u32) -> Result<(), Memory>
        requires graph { IsHeldGraph self.old }
        requires reg { IsThere self.old (RegValue reg) }
        requires other { IsThere self.old (RegValue other) }
        ensures { OnOk result (Notes (AreThese (RegValue reg) (RegValue other)) self.old self.new) }
    {
        if reg != other {
            self.regs.join(reg, other)?;
        }
        Ok(())
    }

    /// Makes two m-registers neighbours, if they are two and none of them is m-register 0.
    fn note_mregs(&mut self, mreg: u32, other: u32) -> Result<(), Memory>
        requires graph { IsHeldGraph self.old }
        requires mreg { IsThere self.old (MRegValue mreg) }
        requires other { IsThere self.old (MRegValue other) }
        ensures { OnOk result (Notes (AreThese (MRegValue mreg) (MRegValue other)) self.old self.new) }
    {
        if mreg != 0 && other != 0 && mreg != other {
            self.mregs.join(mreg - 1, other - 1)?;
        }
        Ok(())
    }

    /// Makes two registers or two m-registers neighbours.
    pub(crate) fn note(&mut self, held: Held, other: Held) -> Result<(), Memory>
        requires graph { IsHeldGraph self.old }
        requires held { IsThere self.old held }
        requires other { IsThere self.old other }
        ensures { OnOk result (Notes (AreThese held other) self.old self.new) }
    {
        match held {
            Held::Reg(reg) => match other {
                Held::Reg(other) => self.note_regs(reg, other),
                Held::MReg(_) => Ok(()),
            },
            Held::MReg(mreg) => match other {
                Held::Reg(_) => Ok(()),
                Held::MReg(other) => self.note_mregs(mreg, other),
            },
        }
    }

    /// Makes a register a neighbour of some others.
    fn note_each(&mut self, held: Held, others: &[Held]) -> Result<(), Memory>
        requires graph { IsHeldGraph self.old }
        requires held { IsThere self.old held }
        requires others { (other : HeldValue) → Contains others.now other → IsThere self.old other }
        ensures { OnOk result (Notes (AreAmong held others.now) self.old self.new) }
    {
        for other in others {
            self.note(held, *other)?;
        }
        Ok(())
    }

    /// Makes each register that a list writes a neighbour of what is live behind the list.
    pub(crate) fn note_beside(&mut self, ops: &[Op], live: &[Held]) -> Result<(), Memory>
        requires graph { IsHeldGraph self.old }
        requires ops { (held : HeldValue) → Writes ops.now held → IsThere self.old held }
        requires live { (held : HeldValue) → Contains live.now held → IsThere self.old held }
        ensures { OnOk result (Notes (AreBeside ops.now live.now) self.old self.new) }
    {
        for op in ops {
            self.note_each(target_of(*op), live)?;
        }
        Ok(())
    }
}
