//! What is read of an expression and not yet put together: values, and differences whose holes are not yet taken out.
//!
//! A difference that is an operand of another one is put off, so that what is taken from a class in a chain of differences is gathered,
//! and taken out of it once.
ghost use Rattle.std.specs.Prelude.{◌≡◌};

use crate::sets::Collected;
use crate::values::{Content, Room, Value, sum};
use lx_base::Memory;
use lx_class::ClassSet;
use lx_regex::Expr;
use std::alloc::Global;

/// A class, and what is to be taken out of it. 2^40 stands for itself and for more in its numbers.
#[derive(Drop)]
pub struct Holed {
    whole: ClassSet,
    holes: Collected,
    pub nesting: u64,
    /// How many groups it has.
    pub groups: u64,
    /// How many tags its item has up to its end, two for each group.
    pub tags: u64,
}

/// What is read of an operand.
pub enum Operand {
    /// All of it.
    Whole(Value),
    /// A difference that is put off.
    Holed(Holed),
}

impl Drop for Operand {
    fn drop(self) {
        match self {
            Self::Whole(_) => {}
            Self::Holed(_) => {}
        }
    }
}

impl Holed {
    ghost use Rattle.std.specs.Prelude.{◌≡◌, List, None, IfNone, IfOk, IfSome};
    ghost use Rattle.lx_class.specs.Ranges.{IsCanonical, IsDifference};
    ghost use Rattle.lx_regex.specs.declared.rules.Tag.{Tag as tag_type};
    ghost use Rattle.lx_exprs.specs.Defined.{Meaning, meant_class};
    ghost use Rattle.lx_exprs.specs.Operands.{IsHoled, IsHoledBy, IsOneClass};
    ghost use Rattle.lx_exprs.specs.Values.{HasValueKinds, IsBounded, IsRoom, IsValue};

    /// The set of the points that are left.
    pub fn into_set(self, alloc: Global) -> Result<ClassSet, Memory>
        ensures canonical { IfOk result IsCanonical }
        ensures points { IfOk result (IsDifference self.whole self.holes) }
    {
        let holes = self.holes.into_set(alloc)?;
        self.whole.minus(alloc, &holes)
    }

    /// The same without another class, if that is one.
    pub fn without(self, alloc: Global, right: Value) -> Result<Option<Holed>, Memory>
        ensures class { (room : Room) (first second : Meaning) → IsHoled first self → IsValue room second right
            → IfOk result (λ found. IfSome found (IsHoledBy first second)) }
        ensures none { (room : Room) (second : Meaning) → IsValue room second right
            → IfOk result (λ found. IfNone found (meant_class second ≡ None)) }
    {
        let nesting = self.nesting.max(right.nesting);
        let groups = sum(self.groups, right.groups);
        let tags = self.tags.max(right.tags);
        let Some(more) = right.into_ranges(alloc)? else {
            return Ok(None);
        };
        let holes = self.holes.beside(alloc, more)?;
        Ok(Some(Holed {
            whole: self.whole,
            holes,
            nesting,
            groups,
            tags,
        }))
    }

    /// Its value.
    fn settled(self, alloc: Global, room: Room) -> Result<Value, Memory>
        requires { IsRoom room }
        ensures stands { (meaning : Meaning) → IsHoled meaning self → IsOneClass meaning → IfOk result (IsValue room meaning) }
        ensures bounded { IfOk result IsBounded }
        ensures kinds { (tags : List tag_type) → IfOk result (HasValueKinds tags) }
    {
        let (nesting, groups, tags) = (self.nesting, self.groups, self.tags);
        let set = self.into_set(alloc)?;
        let content = Content::One(Expr::Class(set));
        Value::limited(alloc, room, content, 1, nesting, groups, tags)
    }
}

impl Operand {
    ghost use Rattle.std.specs.Prelude.{◌≡◌, List, None, IfNone, IfOk, IfSome};
    ghost use Rattle.lx_regex.specs.declared.rules.Tag.{Tag as tag_type};
    ghost use Rattle.lx_exprs.specs.Defined.{Meaning, meant_class};
    ghost use Rattle.lx_exprs.specs.Operands.{HasOperandKinds, IsBoundedOperand, IsHoled, IsOperand};
    ghost use Rattle.lx_exprs.specs.Values.{HasValueKinds, IsBounded, IsRoom, IsValue};

    /// The class that it is, if it is one.
    pub fn into_holed(self, alloc: Global) -> Result<Option<Holed>, Memory>
        ensures class { (room : Room) (meaning : Meaning) → IsOperand room meaning self → IfOk result (λ found. IfSome found (IsHoled meaning)) }
        ensures none { (room : Room) (meaning : Meaning) → IsOperand room meaning self
            → IfOk result (λ found. IfNone found (meant_class meaning ≡ None)) }
    {
        match self {
            Operand::Whole(value) => {
                let (nesting, groups, tags) = (value.nesting, value.groups, value.tags);
                let Some(whole) = value.into_class(alloc)? else {
                    return Ok(None);
                };
                Ok(Some(Holed {
                    whole,
                    holes: Collected::none(alloc),
                    nesting,
                    groups,
                    tags,
                }))
            }
            Operand::Holed(holed) => Ok(Some(holed)),
        }
    }

    /// Its value.
    pub fn settled(self, alloc: Global, room: Room) -> Result<Value, Memory>
        requires { IsRoom room }
        ensures stands { (meaning : Meaning) → IsOperand room meaning self → IfOk result (IsValue room meaning) }
        ensures bounded { IsBoundedOperand self → IfOk result IsBounded }
        ensures kinds { (tags : List tag_type) → HasOperandKinds tags self → IfOk result (HasValueKinds tags) }
    {
        match self {
            Operand::Whole(value) => Ok(value),
            Operand::Holed(holed) => holed.settled(alloc, room),
        }
    }
}
