//! What happens to registers, and lists of it.
ghost use Rattle.std.specs.Prelude.{◌≡◌, ◌<◌, [], ◌∷◌, ◌++◌, length, IsOk, OnOk, OnErr};
ghost use Rattle.lx_auto.specs.declared.ops.Op.TheVariants.{Null};

use lx_base::Memory;
use smallvec::SmallVec;
use std::alloc::Global;
use std::marker::Model;

/// What happens to a register or an m-register.
///
/// A register holds an offset or none. An m-register holds a history, which is a list of such values. Both are counted
/// from 0, each sort by itself. The m-register 0 is never written, so its history is always empty.
#[derive(Clone, Copy, PartialEq, Eq, Hash)]
pub enum Op {
    /// The register with this number gets the offset.
    Here(u32),
    /// The register with this number gets none.
    Null(u32),
    /// The register with the first number gets what the one with the second number holds.
    Copy(u32, u32),
    /// The offset is put at the end of the m-register with this number.
    MHere(u32),
    /// None is put at the end of the m-register with this number.
    MNull(u32),
    /// The m-register with the first number gets the history of the one with the second number.
    MCopy(u32, u32),
}

/// What stands in the unused places of a list. It never acts.
impl Default for Op {
    fn default() -> Op
        ensures { result ≡ Null 0 }
    {
        Op::Null(0)
    }
}

/// Operations that act at once, which contracts see as a list. Up to four of them take no memory.
///
/// Each operation reads what registers held before the list acts. Where several write one register the last of them
/// counts, and so it is with copies into an m-register. What the list puts at the end of an m-register follows behind
/// such a copy, in the order of the list.
#[derive(Drop)]
pub struct Ops {
    places: SmallVec<Op, 4>,
}

impl Model for Ops {
    ghost use Rattle.std.specs.Prelude.{List, ◌≤◌};
    ghost use Rattle.lx_auto.specs.declared.ops.Op.{Op};

    ghost Value = { List Op };

    ghost view = { λ ops. ops.places.items };

    ghost invariant = { λ ops. 4 ≤ ops.places.capacity };
}

impl Ops {
    /// The empty list. It takes no memory.
    pub fn new(alloc: Global) -> Self
        ensures { result ≡ [] }
    {
        Ops {
            places: SmallVec::new(alloc),
        }
    }

    /// The operations, in order. It takes no memory.
    pub fn as_slice(&self) -> &[Op]
        ensures { result.now ≡ self.now }
    {
        self.places.as_slice()
    }

    /// Appends an operation. Where memory runs out the list stays as it was.
    pub fn push(&mut self, op: Op) -> Result<(), Memory>
        ensures pushed { OnOk result (self.new ≡ self.old ++ op ∷ []) }
        ensures kept { OnErr result (self.new ≡ self.old) }
        ensures inline { length self.old < 4 → IsOk result }
    {
        self.places.push(op)?;
        Ok(())
    }
}
