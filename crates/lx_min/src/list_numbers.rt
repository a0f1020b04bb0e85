//! Numbers of lists of operations: two lists have one number exactly if they do the same.
ghost use Rattle.std.specs.Prelude.{◌≡◌, [], IfOk, OnOk};
ghost use Rattle.lx_min.specs.Numbers.{AreDistinct, IsListNumber, Keeps};

use crate::canonical::canonical_ops;
use indexmap::{IndexMap, IndexSet};
use lx_auto::Op;
use lx_base::Memory;
use std::alloc::Global;
use std::marker::Model;

/// Canonical lists, all different, which contracts see in the order of their numbers. The number of a list that was met before is
/// found by its operations in time linear in them, as far as hashes differ.
pub(crate) struct ListNumbers<'a> {
    /// The canonical lists, by their numbers.
    lists: IndexSet<Vec<Op>>,
    /// The number of each list that was met.
    numbers: IndexMap<&'a [Op], usize>,
}

impl Drop for ListNumbers<'_> {
    fn drop(self) {
        let Self {
            lists: _,
            numbers: _,
        } = self;
    }
}

impl<'a> Model for ListNumbers<'a> {
    ghost use Rattle.std.specs.Cmp.Lexicographic.{pointwise};
    ghost use Rattle.std.specs.Prelude.{List};
    ghost use Rattle.indexmap.specs.IndexMap.{get};
    ghost use Rattle.lx_auto.specs.contracts.ops.OpPartialEq.TheImpl.{eq-value};
    ghost use Rattle.lx_auto.specs.declared.ops.Op.{Op};
    ghost use Rattle.lx_min.specs.Numbers.{AreDistinct, AreListNumbers, seen_lists};

    ghost Value = { List (List Op) };

    ghost view = { λ numbers. seen_lists numbers.lists.keys };

    ghost invariant = { λ numbers. AreDistinct (seen_lists numbers.lists.keys)
        × AreListNumbers (seen_lists numbers.lists.keys) (get (λ ops other. pointwise eq-value.it ops.now other.now) numbers.numbers) };
}

impl<'a> ListNumbers<'a> {
    /// No list. It takes no memory.
    pub(crate) fn new(alloc: Global) -> Self
        ensures { result ≡ [] }
    {
        ListNumbers {
            lists: IndexSet::new(alloc),
            numbers: IndexMap::new(alloc),
        }
    }

    /// The number of a list.
    pub(crate) fn number(&mut self, alloc: Global, ops: &'a [Op]) -> Result<usize, Memory>
        ensures number { IfOk result (IsListNumber self.new ops.now) }
        ensures keeps { OnOk result (Keeps self.old self.new) }
        ensures distinct { OnOk result (AreDistinct self.new) }
    {
        if let Some(number) = self.numbers.get(&ops) {
            return Ok(*number);
        }
        let list = canonical_ops(alloc, ops)?;
        let (number, _) = self.lists.insert_full(list)?;
        self.numbers.insert(ops, number)?;
        Ok(number)
    }
}
