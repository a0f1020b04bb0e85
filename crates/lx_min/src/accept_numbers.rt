//! Numbers of what states accept: two states have one number exactly if they accept the same.
ghost use Rattle.std.specs.Prelude.{◌≡◌, [], IfOk, OnOk, Some, slice_get};
ghost use Rattle.lx_min.specs.Numbers.{AreDistinct, IsNumbered, Keeps, seen_accept};

use crate::list_numbers::ListNumbers;
use indexmap::IndexSet;
use lx_auto::{Accept, Held};
use lx_base::Memory;
use std::alloc::Global;
use std::marker::Model;

/// What a state accepts, where its list of operations has a number.
#[derive(Clone, Copy, PartialEq, Eq, Hash)]
pub(crate) struct AcceptKey<'a> {
    /// The number of the rule.
    pub rule: u32,
    /// The number of the list of operations.
    pub ops: usize,
    /// What holds the values of the rule's tags.
    pub values: &'a [Held],
}

/// What states accept, all different, which contracts see in the order of their numbers.
pub(crate) struct AcceptNumbers<'a> {
    keys: IndexSet<Option<AcceptKey<'a>>>,
}

impl Drop for AcceptNumbers<'_> {
    fn drop(self) {
        let Self { keys: _ } = self;
    }
}

impl<'a> Model for AcceptNumbers<'a> {
    ghost use Rattle.std.specs.Prelude.{List, Option};
    ghost use Rattle.lx_min.specs.Numbers.{AreDistinct, NumberedAccept, seen_accepts};

    ghost Value = { List (Option NumberedAccept) };

    ghost view = { λ numbers. seen_accepts numbers.keys.keys };

    ghost invariant = { λ numbers. AreDistinct (seen_accepts numbers.keys.keys) };
}

/// What a state accepts, with the number of its list.
pub(crate) fn accept_key<'a>(
    alloc: Global,
    lists: &mut ListNumbers<'a>,
    accept: &'a Option<Accept>,
) -> Result<Option<AcceptKey<'a>>, Memory>
    ensures numbered { IfOk result (λ key. IsNumbered lists.new accept.now (seen_accept key)) }
    ensures keeps { OnOk result (Keeps lists.old lists.new) }
{
    match accept {
        Some(accept) => Ok(Some(AcceptKey {
            rule: accept.rule,
            ops: lists.number(alloc, accept.ops.as_slice())?,
            values: accept.values.as_slice(),
        })),
        None => Ok(None),
    }
}

impl<'a> AcceptNumbers<'a> {
    /// Nothing. It takes no memory.
    pub(crate) fn new(alloc: Global) -> Self
        ensures { result ≡ [] }
    {
        AcceptNumbers {
            keys: IndexSet::new(alloc),
        }
    }

    /// The number of what a state accepts.
    pub(crate) fn number(&mut self, key: Option<AcceptKey<'a>>) -> Result<usize, Memory>
        ensures number { IfOk result (λ number. slice_get self.new number ≡ Some (seen_accept key.entry)) }
        ensures keeps { OnOk result (Keeps self.old self.new) }
        ensures distinct { OnOk result (AreDistinct self.new) }
    {
        let (number, _) = self.keys.insert_full(key)?;
        Ok(number)
    }
}
