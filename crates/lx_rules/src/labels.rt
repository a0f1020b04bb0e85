//! The labels of conditions beside those of blocks, in text of format 3.
ghost use Rattle.std.specs.Prelude.{◌≡◌, ◌↔◌, IfOk, IsTrue};
ghost use Rattle.std.specs.List.{list_any};
ghost use Rattle.lx_rules.specs.Blocks.{LabelsDiffer, begins_block_label, is_labeled_as_block};
ghost use Rattle.lx_rules.specs.Conditions.{cond_names};

use crate::conditions::Conditions;
use lx_base::letters::{Letters, after_letters, begins_with, front_letters};
use lx_base::names::label_prefix;
use lx_base::{Format, Memory, Names};
use std::alloc::Global;

/// Whether a label begins as the label of a block of some piece: by `yy`, a number and `_`.
fn begins_block_label(label: &[u8]) -> bool
    ensures { result ≡ begins_block_label label.now }
{
    if !begins_with(label, b"yy") {
        return false;
    }
    let number = &label[2..];
    let digits = front_letters(number, Letters::Digits);
    !digits.is_empty() && begins_with(after_letters(number, Letters::Digits), b"_")
}

/// Whether the label of a condition begins so; the one condition without a name has none.
fn is_labeled_as_block(alloc: Global, names: &Names, cond: &[u8]) -> Result<bool, Memory>
    ensures { IfOk result (λ is. is ≡ is_labeled_as_block names.now cond.now) }
{
    if cond.is_empty() {
        return Ok(false);
    }
    let mut label = Vec::from_slice(alloc, label_prefix(names))?;
    label.extend_from_slice(cond)?;
    Ok(begins_block_label(label.as_slice()))
}

/// Whether the label of one of the conditions begins so.
fn any_is_labeled_as_block(alloc: Global, names: &Names, conds: &Conditions) -> Result<bool, Memory>
    ensures { IfOk result (λ any. any ≡ list_any (is_labeled_as_block names.now) (cond_names conds.now)) }
{
    for number in 0..conds.len() {
        if is_labeled_as_block(alloc, names, conds.name_at(number))? {
            return Ok(true);
        }
    }
    Ok(false)
}

/// Whether in text of format 3 the label of no condition begins as the label of a block.
pub(crate) fn labels_differ(
    alloc: Global,
    names: &Names,
    format: Format,
    conds: &Conditions,
) -> Result<bool, Memory>
    ensures { IfOk result (λ differ. IsTrue differ ↔ LabelsDiffer format names.now (cond_names conds.now)) }
{
    match format {
        Format::Two => Ok(true),
        Format::Three => Ok(!any_is_labeled_as_block(alloc, names, conds)?),
    }
}
