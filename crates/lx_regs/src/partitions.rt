//! Which registers hold the same wherever a walk stands.
//!
//! At first all registers of one sort are in one class; then, round by round, classes are split where some list does other things to
//! their members, until a round splits none. Nothing is proved of it but safety, since what is made from it is tested.
use crate::classes::at;
use crate::flows::number_of;
use crate::kept_lists::target_of;
use indexmap::IndexSet;
use lx_auto::{Auto, Held, Op, State};
use lx_base::Memory;
use std::alloc::Global;

/// The most rounds.
const ROUNDS: usize = 20;

/// What an operation does to the register that it writes, where those that it reads are told by their signs.
#[derive(Clone, Copy, PartialEq, Eq, Hash)]
enum Deed {
    Offset,
    Nothing,
    Copy(usize),
    Mark(bool),
    History(usize),
}

/// The sign of a register before an operation, and what that does to it.
#[derive(Clone, Copy, PartialEq, Eq, Hash)]
struct Step {
    sign: usize,
    deed: Deed,
}

/// The registers of one sort in classes.
pub(crate) struct Partition {
    /// The class of each register, by its number.
    pub(crate) of: Vec<usize>,
    /// The first register of each class.
    pub(crate) firsts: Vec<u32>,
    /// How many registers are written by some list.
    written: usize,
    /// How many classes these have.
    kept: usize,
}

impl Drop for Partition {
    fn drop(self) {
        let Self {
            of: _,
            firsts: _,
            written: _,
            kept: _,
        } = self;
    }
}

impl Partition {
    /// Counts a register that is written, which may be the first of its class.
    fn note_written(&mut self, is_first: bool) {
        self.written = self.written.saturating_add(1);
        if is_first {
            self.kept = self.kept.saturating_add(1);
        }
    }

    /// Puts the register with a number into a class, of which it may be the first.
    fn put(&mut self, number: usize, class: usize, is_first: bool) -> Result<(), Memory> {
        self.of.push(class)?;
        if is_first {
            self.firsts.push(narrow(number))?;
        }
        Ok(())
    }

    /// Puts registers into one class for each sign, by first occurrence. Signs from a number on are those of registers that are written.
    fn put_all(
        &mut self,
        seen: &mut IndexSet<usize>,
        signs: &[usize],
        from: usize,
    ) -> Result<(), Memory> {
        for (number, sign) in signs.iter().enumerate() {
            let (class, is_new) = seen.insert_full(*sign)?;
            self.put(number, class, is_new)?;
            if from <= *sign {
                self.note_written(is_new);
            }
        }
        Ok(())
    }
}

/// Registers and m-registers in classes.
pub(crate) struct Partitions {
    pub(crate) regs: Partition,
    pub(crate) mregs: Partition,
}

impl Drop for Partitions {
    fn drop(self) {
        let Self { regs: _, mregs: _ } = self;
    }
}

/// A number as one of 32 bits, or the greatest of these.
pub(crate) fn narrow(number: usize) -> u32 {
    if number < 4294967295 {
        number as u32
    } else {
        4294967295
    }
}

/// So many zeros.
fn zeros(alloc: Global, count: u32) -> Result<Vec<usize>, Memory> {
    let mut numbers = Vec::new(alloc);
    for _ in 0..count {
        numbers.push(0)?;
    }
    Ok(numbers)
}

/// One class for each sign, by first occurrence. Signs from a number on are those of registers that are written.
fn partition_of(alloc: Global, signs: &[usize], from: usize) -> Result<Partition, Memory> {
    let mut partition = Partition {
        of: Vec::new(alloc),
        firsts: Vec::new(alloc),
        written: 0,
        kept: 0,
    };
    let mut seen = IndexSet::new(alloc);
    partition.put_all(&mut seen, signs, from)?;
    Ok(partition)
}

impl Partitions {
    /// How many classes there are.
    fn count(&self) -> usize {
        self.regs
            .firsts
            .len()
            .saturating_add(self.mregs.firsts.len())
    }

    /// Whether of the registers that are written at most three quarters are left where those of a class are one.
    fn are_few(&self) -> bool {
        let written = self.regs.written.saturating_add(self.mregs.written);
        let kept = self.regs.kept.saturating_add(self.mregs.kept);
        0 < kept && kept.saturating_mul(4) <= written.saturating_mul(3)
    }

    /// The class of a register.
    pub(crate) fn class(&self, held: Held) -> usize {
        match held {
            Held::Reg(reg) => at(self.regs.of.as_slice(), reg as usize),
            Held::MReg(mreg) => at(self.mregs.of.as_slice(), mreg as usize),
        }
    }

    /// Whether a register is the first of its class.
    pub(crate) fn is_first(&self, held: Held) -> bool {
        let class = self.class(held);
        let first = match held {
            Held::Reg(_) => self.regs.firsts.get(class),
            Held::MReg(_) => self.mregs.firsts.get(class),
        };
        match first {
            Some(first) => *first == number_of(held),
            None => false,
        }
    }
}

/// Puts a sign at a place, if it is there.
fn put(signs: &mut Vec<usize>, place: usize, sign: usize) {
    if let Some(kept) = signs.get_mut(place) {
        *kept = sign;
    }
}

/// A round over the lists of an automaton.
struct Round<'a> {
    alloc: Global,
    /// The classes before the round.
    partitions: &'a Partitions,
    /// The signs of registers, by which they are told so far. Those of one sign are of one class.
    regs: Vec<usize>,
    mregs: Vec<usize>,
    /// More than all signs that were given before the current list.
    next: usize,
}

impl Drop for Round<'_> {
    fn drop(self) {
        let Self {
            alloc: _,
            partitions: _,
            regs: _,
            mregs: _,
            next: _,
        } = self;
    }
}

impl<'a> Round<'a> {
    /// The sign of a register.
    fn sign(&self, held: Held) -> usize {
        match held {
            Held::Reg(reg) => at(self.regs.as_slice(), reg as usize),
            Held::MReg(mreg) => at(self.mregs.as_slice(), mreg as usize),
        }
    }

    /// Gives a register another sign.
    fn set(&mut self, held: Held, sign: usize) {
        match held {
            Held::Reg(reg) => put(&mut self.regs, reg as usize, sign),
            Held::MReg(mreg) => put(&mut self.mregs, mreg as usize, sign),
        }
    }

    /// What an operation does.
    fn deed(&self, op: Op) -> Deed {
        match op {
            Op::Here(_) => Deed::Offset,
            Op::Null(_) => Deed::Nothing,
            Op::Copy(_, source) => Deed::Copy(self.sign(Held::Reg(source))),
            Op::MHere(_) => Deed::Mark(true),
            Op::MNull(_) => Deed::Mark(false),
            Op::MCopy(_, source) => Deed::History(self.sign(Held::MReg(source))),
        }
    }

    /// What the operations of a list do.
    fn deeds(&self, ops: &[Op]) -> Result<Vec<Deed>, Memory> {
        let mut deeds = Vec::with_capacity(self.alloc, ops.len())?;
        for op in ops {
            deeds.push(self.deed(*op))?;
        }
        Ok(deeds)
    }

    /// Gives the target of an operation the sign of what was done to it.
    fn note(&mut self, steps: &mut IndexSet<Step>, op: Op, deed: Deed) -> Result<(), Memory> {
        let target = target_of(op);
        let sign = self.sign(target);
        let (place, _) = steps.insert_full(Step { sign, deed })?;
        self.set(target, self.next.saturating_add(place));
        Ok(())
    }

    /// Tells registers apart by a list. The signs of what it reads are read before any of it is noted, so that what was told by the lists
    /// before counts in this round.
    fn split(&mut self, ops: &[Op]) -> Result<(), Memory> {
        let deeds = self.deeds(ops)?;
        let mut steps = IndexSet::with_capacity(self.alloc, ops.len())?;
        for (place, op) in ops.iter().enumerate() {
            if let Some(deed) = deeds.get(place) {
                self.note(&mut steps, *op, *deed)?;
            }
        }
        self.next = self.next.saturating_add(steps.len());
        Ok(())
    }

    /// The same by the lists of a state.
    fn split_by_state(&mut self, state: &State) -> Result<(), Memory> {
        self.split(state.leave.as_slice())?;
        for edge in state.edges.as_slice() {
            self.split(edge.ops.as_slice())?;
        }
        match &state.accept {
            Some(accept) => self.split(accept.ops.as_slice()),
            None => Ok(()),
        }
    }

    /// The same by the lists of all states.
    fn split_by_states(&mut self, states: &[State]) -> Result<(), Memory> {
        for state in states {
            self.split_by_state(state)?;
        }
        Ok(())
    }

    /// The classes behind the round.
    fn classes(&self) -> Result<Partitions, Memory> {
        let from = self.partitions.count();
        let regs = partition_of(self.alloc, self.regs.as_slice(), from)?;
        let mregs = partition_of(self.alloc, self.mregs.as_slice(), from)?;
        Ok(Partitions { regs, mregs })
    }
}

/// A round before which registers are told by their classes.
fn round_of(alloc: Global, partitions: &Partitions) -> Result<Round<'_>, Memory> {
    let regs = Vec::from_slice(alloc, partitions.regs.of.as_slice())?;
    let mregs = Vec::from_slice(alloc, partitions.mregs.of.as_slice())?;
    Ok(Round {
        alloc,
        partitions,
        regs,
        mregs,
        next: partitions.count(),
    })
}

/// The classes behind a round.
fn classes_behind(
    alloc: Global,
    auto: &Auto,
    partitions: &Partitions,
) -> Result<Partitions, Memory> {
    let mut round = round_of(alloc, partitions)?;
    round.split_by_states(auto.states.as_slice())?;
    round.classes()
}

/// Splits classes until they are told. The answer is whether that is so soon, and at most three quarters of what is written are left.
fn settle(alloc: Global, auto: &Auto, partitions: &mut Partitions) -> Result<bool, Memory> {
    for _ in 0..ROUNDS {
        let count = partitions.count();
        let next = classes_behind(alloc, auto, partitions)?;
        *partitions = next;
        if !partitions.are_few() {
            return Ok(false);
        }
        if partitions.count() == count {
            return Ok(true);
        }
    }
    Ok(false)
}

/// As many registers as there are, in one class.
fn one_class(alloc: Global, count: u32) -> Result<Partition, Memory> {
    let signs = zeros(alloc, count)?;
    partition_of(alloc, signs.as_slice(), 1)
}

/// All registers of a sort in one class.
fn one_class_each(alloc: Global, auto: &Auto) -> Result<Partitions, Memory> {
    let regs = one_class(alloc, auto.regs)?;
    let mregs = one_class(alloc, auto.mregs)?;
    Ok(Partitions { regs, mregs })
}

/// The registers in classes of which the members hold the same, if rounds tell them soon and at most three quarters of what is written
/// are left.
pub(crate) fn partitions_of(alloc: Global, auto: &Auto) -> Result<Option<Partitions>, Memory> {
    let mut partitions = one_class_each(alloc, auto)?;
    if settle(alloc, auto, &mut partitions)? {
        return Ok(Some(partitions));
    }
    Ok(None)
}
