//! What lists of operations do to registers, by halves or by an index where a list is long.
ghost use Rattle.std.specs.Prelude.{◌≡◌, ℕ, [], ◌∷◌, ◌++◌, if◌then◌else◌, IfOk, nat_eq, OnOk};
ghost use Rattle.lx_auto.specs.Effects.{effect_after, effect_behind, effect_of, held_by, mark_by, marks_by, origin_after, origin_behind};
ghost use Rattle.lx_auto.specs.declared.automaton.Held.TheVariants.{Reg};
ghost use Rattle.lx_regs.specs.EffectIndexes.{AreIndexed, CanLook, effect_in, marks_in, origin_in, single_effect};

use crate::ordered::{ascend, single_by_halves};
use indexmap::IndexMap;
use lx_auto::Op;
use lx_base::{Memory, Sequence};
use std::alloc::Global;
use std::marker::Model;

/// The most operations of a list without an index.
const SHORT: usize = 8;

/// What a list does to a register: it gets the offset, or nothing, or what a register held.
#[derive(Clone, Copy)]
pub(crate) enum Single {
    Now,
    Never,
    From(u32),
}

/// What a list does, by registers.
struct Index {
    /// What each register gets that is written.
    singles: IndexMap<u32, Single>,
    /// Whose history each m-register gets that is copied into.
    origins: IndexMap<u32, u32>,
    /// The marks that are put at the ends of m-registers.
    marks: IndexMap<u32, Sequence<bool>>,
}

impl Drop for Index {
    fn drop(self) {
        let Self {
            singles: _,
            origins: _,
            marks: _,
        } = self;
    }
}

/// How it is found what a list does to a register.
#[derive(Drop)]
enum Look {
    /// By a look at each operation of a short list.
    Each,
    /// By halves, in a list in ascending order.
    Halves,
    /// By an index.
    Indexed(Index),
}

/// Operations that act at once: what they do to a register is told without a look at all of them, where they are many. Contracts see the
/// list.
#[derive(Drop)]
pub(crate) struct Effects<'a> {
    ops: &'a [Op],
    look: Look,
}

impl<'a> Model for Effects<'a> {
    ghost use Rattle.std.specs.Prelude.{List};
    ghost use Rattle.lx_auto.specs.declared.ops.Op.{Op};
    ghost use Rattle.lx_regs.specs.EffectIndexes.{CanLook};

    ghost Value = { List Op };

    ghost view = { λ effects. effects.ops.now };

    ghost invariant = { λ effects. CanLook effects.ops.now effects.look };
}

/// What a list does to a register.
pub(crate) fn single_of(ops: &[Op], reg: u32) -> Single
    ensures { single_effect result ≡ effect_of ops.now (Reg reg) }
{
    let mut single = Single::From(reg);
    for op in ops {
        single = single_behind(*op, reg, single);
    }
    single
}

/// What a register has behind one more operation.
pub(crate) fn single_behind(op: Op, reg: u32, single: Single) -> Single
    ensures { single_effect result ≡ effect_behind op reg (single_effect single) }
{
    match op {
        Op::Here(target) if target == reg => Single::Now,
        Op::Null(target) if target == reg => Single::Never,
        Op::Copy(target, source) if target == reg => Single::From(source),
        _ => single,
    }
}

/// Whose history an m-register has behind a list.
pub(crate) fn origin_of(ops: &[Op], mreg: u32) -> u32
    ensures { result ≡ origin_after ops.now mreg mreg }
{
    let mut origin = mreg;
    for op in ops {
        if let Op::MCopy(target, source) = *op
            && target == mreg
        {
            origin = source;
        }
    }
    origin
}

/// Appends the marks that a list puts at the end of an m-register.
fn push_marks(marks: &mut Sequence<bool>, ops: &[Op], mreg: u32) -> Result<(), Memory>
    ensures { OnOk result (marks.new ≡ marks.old ++ marks_by ops.now mreg) }
{
    for op in ops {
        match *op {
            Op::MHere(target) if target == mreg => marks.push(true)?,
            Op::MNull(target) if target == mreg => marks.push(false)?,
            _ => {}
        }
    }
    Ok(())
}

/// Appends marks.
fn push_all(marks: &mut Sequence<bool>, others: &[bool]) -> Result<(), Memory>
    ensures { OnOk result (marks.new ≡ marks.old ++ others.now) }
{
    for mark in others {
        marks.push(*mark)?;
    }
    Ok(())
}

/// Notes in an index what an operation does to a register.
fn note_single(index: &mut IndexMap<u32, Single>, op: Op) -> Result<(), Memory>
    ensures { OnOk result ((reg : ℕ) → effect_in index.new reg ≡ effect_behind op reg (effect_in index.old reg)) }
{
    match op {
        Op::Here(target) => index.insert(target, Single::Now)?,
        Op::Null(target) => index.insert(target, Single::Never)?,
        Op::Copy(target, source) => index.insert(target, Single::From(source))?,
        Op::MHere(_) | Op::MNull(_) | Op::MCopy(_, _) => None,
    };
    Ok(())
}

/// What a list does to the registers that it writes.
fn singles_of(alloc: Global, ops: &[Op]) -> Result<IndexMap<u32, Single>, Memory>
    ensures { IfOk result (λ index. (reg : ℕ) → effect_in index reg ≡ effect_after ops.now reg (held_by reg)) }
{
    let mut index = IndexMap::new(alloc);
    for op in ops {
        note_single(&mut index, *op)?;
    }
    Ok(index)
}

/// Notes in an index whose history an m-register gets by an operation.
fn note_origin(index: &mut IndexMap<u32, u32>, op: Op) -> Result<(), Memory>
    ensures { OnOk result ((mreg : ℕ) → origin_in index.new mreg ≡ origin_behind op mreg (origin_in index.old mreg)) }
{
    if let Op::MCopy(target, source) = op {
        index.insert(target, source)?;
    }
    Ok(())
}

/// Whose histories the m-registers get that a list copies into.
fn origins_of(alloc: Global, ops: &[Op]) -> Result<IndexMap<u32, u32>, Memory>
    ensures { IfOk result (λ index. (mreg : ℕ) → origin_in index mreg ≡ origin_after ops.now mreg mreg) }
{
    let mut index = IndexMap::new(alloc);
    for op in ops {
        note_origin(&mut index, *op)?;
    }
    Ok(index)
}

/// Puts a mark behind those that are kept of an m-register.
fn add_mark(
    alloc: Global,
    index: &mut IndexMap<u32, Sequence<bool>>,
    mreg: u32,
    mark: bool,
) -> Result<(), Memory>
    ensures { OnOk result ((other : ℕ) → marks_in index.new other
        ≡ (if nat_eq other mreg then marks_in index.old other ++ mark ∷ [] else marks_in index.old other)) }
{
    let mut marks = match index.swap_remove(&mreg) {
        Some(marks) => marks,
        None => Sequence::new(alloc),
    };
    marks.push(mark)?;
    index.insert(mreg, marks)?;
    Ok(())
}

/// Notes in an index the mark that an operation puts at the end of an m-register.
fn note_mark(alloc: Global, index: &mut IndexMap<u32, Sequence<bool>>, op: Op) -> Result<(), Memory>
    ensures { OnOk result ((mreg : ℕ) → marks_in index.new mreg ≡ marks_in index.old mreg ++ mark_by op mreg) }
{
    match op {
        Op::MHere(target) => add_mark(alloc, index, target, true),
        Op::MNull(target) => add_mark(alloc, index, target, false),
        _ => Ok(()),
    }
}

/// The marks that a list puts at the ends of m-registers.
fn marks_of(alloc: Global, ops: &[Op]) -> Result<IndexMap<u32, Sequence<bool>>, Memory>
    ensures { IfOk result (λ index. (mreg : ℕ) → marks_in index mreg ≡ marks_by ops.now mreg) }
{
    let mut index = IndexMap::new(alloc);
    for op in ops {
        note_mark(alloc, &mut index, *op)?;
    }
    Ok(index)
}

/// The index of a list.
fn index_of(alloc: Global, ops: &[Op]) -> Result<Index, Memory>
    ensures { IfOk result (AreIndexed ops.now) }
{
    let singles = singles_of(alloc, ops)?;
    let origins = origins_of(alloc, ops)?;
    let marks = marks_of(alloc, ops)?;
    Ok(Index {
        singles,
        origins,
        marks,
    })
}

impl Index {
    /// What a register gets.
    fn single(&self, reg: u32) -> Single
        ensures { single_effect result ≡ effect_in self.now.singles reg }
    {
        match self.singles.get(&reg) {
            Some(single) => *single,
            None => Single::From(reg),
        }
    }

    /// Whose history an m-register gets.
    fn origin(&self, mreg: u32) -> u32
        ensures { result ≡ origin_in self.now.origins mreg }
    {
        match self.origins.get(&mreg) {
            Some(origin) => *origin,
            None => mreg,
        }
    }

    /// Appends the marks of an m-register.
    fn push_marks(&self, marks: &mut Sequence<bool>, mreg: u32) -> Result<(), Memory>
        ensures { OnOk result (marks.new ≡ marks.old ++ marks_in self.now.marks mreg) }
    {
        match self.marks.get(&mreg) {
            Some(others) => push_all(marks, others.as_slice()),
            None => Ok(()),
        }
    }
}

/// How it is found what a list does to registers.
fn look_of(alloc: Global, ops: &[Op]) -> Result<Look, Memory>
    ensures { IfOk result (CanLook ops.now) }
{
    if ops.len() <= SHORT {
        return Ok(Look::Each);
    }
    if ascend(ops) {
        return Ok(Look::Halves);
    }
    Ok(Look::Indexed(index_of(alloc, ops)?))
}

impl<'a> Effects<'a> {
    /// The effects of a list, in time linear in its operations.
    pub(crate) fn of(alloc: Global, ops: &'a [Op]) -> Result<Effects<'a>, Memory>
        ensures { IfOk result (λ effects. effects ≡ ops.now) }
    {
        let look = look_of(alloc, ops)?;
        Ok(Effects { ops, look })
    }

    /// The operations. It takes no memory.
    pub(crate) fn as_slice(&self) -> &'a [Op]
        ensures { result.now ≡ self.now }
    {
        self.ops
    }

    /// What the list does to a register.
    pub(crate) fn single(&self, reg: u32) -> Single
        ensures { single_effect result ≡ effect_of self.now (Reg reg) }
    {
        match &self.look {
            Look::Each => single_of(self.ops, reg),
            Look::Halves => single_by_halves(self.ops, reg),
            Look::Indexed(index) => index.single(reg),
        }
    }

    /// Whose history an m-register has behind the list.
    pub(crate) fn origin(&self, mreg: u32) -> u32
        ensures { result ≡ origin_after self.now mreg mreg }
    {
        match &self.look {
            Look::Each => origin_of(self.ops, mreg),
            Look::Halves => mreg,
            Look::Indexed(index) => index.origin(mreg),
        }
    }

    /// Appends the marks that the list puts at the end of an m-register.
    pub(crate) fn push_marks(&self, marks: &mut Sequence<bool>, mreg: u32) -> Result<(), Memory>
        ensures { OnOk result (marks.new ≡ marks.old ++ marks_by self.now mreg) }
    {
        match &self.look {
            Look::Each => push_marks(marks, self.ops, mreg),
            Look::Halves => Ok(()),
            Look::Indexed(index) => index.push_marks(marks, mreg),
        }
    }
}
