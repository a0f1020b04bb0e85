//! The rules of a scanner, as copies of those that are kept.
ghost use Rattle.std.specs.Prelude.{◌≡◌, ◌≤◌, IfOk, IfSome, map};
ghost use Rattle.lx_base.specs.declared.limits.TheConstants.{TAG_LIMIT};
ghost use Rattle.std.specs.List.{AllByRecursion, AllZip};
ghost use Rattle.lx_rules.specs.Finishing.{IsBuilt, IsCopyOf};

use crate::kept::KeptRule;
use lx_base::{ByteText, Memory, Sequence};
use lx_exprs::copies::copy;
use lx_exprs::tags::{SharedTags, TagNames};
use lx_regex::{Rule, Tag};
use std::alloc::Global;

/// Copies of tags.
fn copies_of(alloc: Global, tags: &[Tag]) -> Result<Sequence<Tag>, Memory>
    ensures { IfOk result (λ copies. copies ≡ tags.now) }
{
    let mut copies = Vec::new(alloc);
    for tag in tags {
        copies.push(Tag {
            name: ByteText::copy_of(alloc, tag.name.as_slice())?,
            many: tag.many,
        })?;
    }
    Ok(Sequence::from_vec(copies))
}

/// Copies of all tags of a rule.
fn tag_copies(alloc: Global, tags: &SharedTags) -> Result<Sequence<Tag>, Memory>
    ensures { IfOk result (λ copies. copies ≡ tags.now) }
{
    let mut held = TagNames::new(alloc);
    tags.copy_to(alloc, &mut held)?;
    copies_of(alloc, held.tags())
}

/// The number of the tag of a trailing context.
fn number_of(slash: Option<u64>) -> Option<u32>
    requires { IfSome slash (λ number. number ≤ TAG_LIMIT) }
    ensures { result ≡ slash }
{
    match slash {
        Some(number) => Some(number as u32),
        None => None,
    }
}

/// The rule of a scanner.
fn rule_copy(alloc: Global, held: &KeptRule) -> Result<Rule, Memory>
    requires { IsBuilt held.now }
    ensures { IfOk result (IsCopyOf held.now) }
{
    let Some(expr) = &held.expr else {
        unreachable!()
    };
    Ok(Rule {
        number: held.number,
        kind: held.kind,
        expr: copy(alloc, expr, 0, 0)?,
        tags: tag_copies(alloc, &held.tags)?,
        slash: number_of(held.slash),
        groups: held.groups as u32,
    })
}

/// The rules of a scanner.
pub(crate) fn rule_copies(alloc: Global, held: &[&KeptRule]) -> Result<Vec<Rule>, Memory>
    requires { AllByRecursion IsBuilt (map (λ one. one.now) held.now) }
    ensures { IfOk result (λ rules. AllZip IsCopyOf (map (λ one. one.now) held.now) rules.items) }
{
    let mut rules = Vec::with_capacity(alloc, held.len())?;
    for one in held {
        rules.push(rule_copy(alloc, one)?)?;
    }
    Ok(rules)
}
