//! Operations that bring the values of tags from place to place.
ghost use Rattle.std.specs.Prelude.{◌≡◌, ◌+◌, ◌*◌, ◌<◌, ◌≤◌, ◌^◌, ◌∷◌, [], ◌++◌, All, OnOk, None, Some, length, suc, option_map, ℕ};
ghost use Rattle.lx_tdfa.specs.Registers.{all_tag_ops, copy_ops, first_of, history_copy_ops, history_mark_ops, last_mark, single_ops, tag_ops};

use crate::marks::{gather_marks, mark_at};
use lx_auto::{Op, Ops};
use lx_base::Memory;
use lx_tnfa::Event;

/// From which register to which one values go, where they go anywhere: at first nothing is held.
#[derive(Clone, Copy)]
pub(crate) struct Transfer {
    pub is_first: bool,
    pub source: u32,
    pub target: u32,
}

/// Appends the operation that gives a register its value after a step, where it does not hold that already.
fn push_single(ops: &mut Ops, transfer: Transfer, mark: Option<bool>) -> Result<(), Memory>
    ensures { OnOk result (ops.new ≡ ops.old ++ single_ops transfer.is_first transfer.source transfer.target mark) }
{
    match mark {
        Some(true) => ops.push(Op::Here(transfer.target)),
        Some(false) => ops.push(Op::Null(transfer.target)),
        None if transfer.is_first => ops.push(Op::Null(transfer.target)),
        None if transfer.source == transfer.target => Ok(()),
        None => ops.push(Op::Copy(transfer.target, transfer.source)),
    }
}

/// Appends the copy of a history to the operations. M-registers have the numbers behind those of registers.
fn push_history(ops: &mut Ops, transfer: Transfer) -> Result<(), Memory>
    requires { (transfer.source + 1 < 2 ^ 32) × (transfer.target + 1 < 2 ^ 32) }
    ensures { OnOk result (ops.new ≡ ops.old ++ history_copy_ops transfer.is_first transfer.source transfer.target) }
{
    if transfer.is_first {
        ops.push(Op::MCopy(transfer.target + 1, 0))
    } else if transfer.source == transfer.target {
        Ok(())
    } else {
        ops.push(Op::MCopy(transfer.target + 1, transfer.source + 1))
    }
}

/// Appends the operations that enter the events of a tag in its history.
fn push_marks(ops: &mut Ops, target: u32, tag: u32, events: &[Event]) -> Result<(), Memory>
    requires { target + 1 < 2 ^ 32 }
    ensures { OnOk result (ops.new ≡ ops.old ++ history_mark_ops target tag events.now) }
{
    for event in events {
        match event {
            Event::Set(other) if *other == tag => ops.push(Op::MHere(target + 1))?,
            Event::Unset(other) if *other == tag => ops.push(Op::MNull(target + 1))?,
            Event::Set(_) | Event::Unset(_) => {}
        }
    }
    Ok(())
}

/// Appends the operations of one tag, of which `many` tells the kind, and `mark` what events do last to it.
fn push_tag(
    ops: &mut Ops,
    transfer: Transfer,
    tag: u32,
    events: &[Event],
    mark: Option<bool>,
    many: bool,
) -> Result<(), Memory>
    requires within { (transfer.source + 1 < 2 ^ 32) × (transfer.target + 1 < 2 ^ 32) }
    requires last { mark ≡ last_mark tag events.now None }
    ensures { OnOk result (ops.new ≡ ops.old ++ tag_ops transfer.is_first transfer.source transfer.target tag events.now many) }
{
    if many {
        push_history(ops, transfer)?;
        push_marks(ops, transfer.target, tag, events)
    } else {
        push_single(ops, transfer, mark)
    }
}

/// Appends the operations of all tags of a rule, of these kinds; `transfer` is that of its first tag. In `marks` it is gathered what
/// events do last to tags.
pub(crate) fn push_tags(
    ops: &mut Ops,
    marks: &mut Vec<Option<bool>>,
    transfer: Transfer,
    events: &[Event],
    kinds: &[bool],
) -> Result<(), Memory>
    requires { (transfer.source + length kinds.now < 2 ^ 32) × (transfer.target + length kinds.now < 2 ^ 32) }
    ensures { OnOk result (ops.new ≡ ops.old ++ all_tag_ops transfer.is_first transfer.source transfer.target 0 events.now kinds.now) }
{
    gather_marks(marks, events, kinds.len())?;
    for (tag, many) in kinds.iter().enumerate() {
        let tag = tag as u32;
        let transfer = Transfer {
            is_first: transfer.is_first,
            source: transfer.source + tag,
            target: transfer.target + tag,
        };
        let mark = mark_at(marks.as_slice(), tag);
        push_tag(ops, transfer, tag, events, mark, *many)?;
    }
    Ok(())
}
