//! The code of the ends of rules: the tags in the order of their numbers, the groups, the trailing context, the condition, and the action.
ghost use Rattle.std.specs.Prelude.{◌≡◌, ℕ, ◌+◌, ◌≤◌, List, ◌∷◌, [], ◌++◌, IfOk, IfSome, OnOk, false, length};
ghost use Rattle.lx_auto.specs.Automaton.{AreHeld, IsHeld};
ghost use Rattle.lx_layout.specs.Endings.{action_code, back_code, cond_code, ending_code, ends_code, groups_code, is_slash, name_or_none, slash_held, tag_code, tags_code, unless};
ghost use Rattle.lx_layout.specs.RuleEnds.{AreEndsIndexed, HasEnd, IsToldRule, ending_of, endings_of};
ghost use Rattle.lx_layout.specs.Rules.{names_of};

use crate::rule_ends::{EndIndex, RuleEnd};
use lx_auto::Held;
use lx_base::{ByteText, Memory};
use lx_ccode::{LineMark, Stmt};
use lx_regex::Tag;
use lx_shared::{Shared, SharedText};
use std::alloc::Global;

/// The statement that gives a tag its value. Statements count registers from 1 and histories from 0.
fn tag_code(alloc: Global, held: Held, name: &ByteText) -> Result<Stmt, Memory>
    requires { IsHeld 1073741824 1073741824 held }
    ensures { IfOk result (λ stmt. stmt ≡ tag_code held name.now) }
{
    let name = SharedText::copy_of(alloc, name.as_slice())?;
    Ok(match held {
        Held::Reg(reg) => Stmt::Tag(name, false, reg + 1),
        Held::MReg(mreg) => Stmt::Tag(name, true, mreg),
    })
}

/// Whether the tag with this number is that of the trailing context.
fn is_slash(slash: Option<u32>, number: usize) -> bool
    ensures { result ≡ is_slash slash number }
{
    match slash {
        None => false,
        Some(slash) => number == slash as usize,
    }
}

/// Appends the statements of the ends of groups.
fn append_group_ends(stmts: &mut Vec<Stmt>, values: &[Held]) -> Result<(), Memory>
    requires held { AreHeld 1073741824 1073741824 values.now }
    requires few { length values.now ≤ 130 }
    ensures { OnOk result (stmts.new.items ≡ stmts.old.items ++ ends_code values.now 0 []) }
{
    for (place, held) in values.iter().enumerate() {
        if let Held::Reg(reg) = *held {
            stmts.push(Stmt::End(place as u32, reg + 1))?;
        }
    }
    Ok(())
}

/// Appends the statements of groups, if the rule has groups.
fn append_groups(stmts: &mut Vec<Stmt>, groups: u32, values: &[Held]) -> Result<(), Memory>
    requires held { AreHeld 1073741824 1073741824 values.now }
    requires few { length values.now ≤ 130 }
    ensures { OnOk result (stmts.new.items ≡ stmts.old.items ++ groups_code groups values.now []) }
{
    if groups == 0 {
        return Ok(());
    }
    stmts.push(Stmt::Count(groups))?;
    append_group_ends(stmts, values)
}

/// Appends the statement that gives a tag its value, unless the tag is that of the trailing context.
fn append_tag(
    alloc: Global,
    stmts: &mut Vec<Stmt>,
    is_slash: bool,
    tag: &Tag,
    held: Held,
) -> Result<(), Memory>
    requires { IsHeld 1073741824 1073741824 held }
    ensures { OnOk result (stmts.new.items ≡ stmts.old.items ++ unless is_slash (tag_code held tag.now.name) []) }
{
    if !is_slash {
        stmts.push(tag_code(alloc, held, &tag.name)?)?;
    }
    Ok(())
}

/// Appends the statements of the tags that have values, in the order of their numbers, and then those of the groups if each tag has one.
fn append_tags(
    alloc: Global,
    stmts: &mut Vec<Stmt>,
    end: &RuleEnd<'_>,
    values: &[Held],
) -> Result<(), Memory>
    requires held { AreHeld 1073741824 1073741824 values.now }
    requires few { length values.now ≤ length end.now.rule.now.tags + 130 }
    ensures { OnOk result (stmts.new.items ≡ stmts.old.items ++ tags_code (ending_of end.now) 0 (names_of end.now.rule.now.tags) values.now []) }
{
    let tags = end.rule.tags.as_slice();
    for (number, tag) in tags.iter().enumerate() {
        let Some(held) = values.get(number) else {
            return Ok(());
        };
        append_tag(alloc, stmts, is_slash(end.rule.slash, number), tag, *held)?;
    }
    append_groups(stmts, end.rule.groups, &values[tags.len()..])
}

/// What holds the value of the trailing context's tag.
fn slash_held(slash: Option<u32>, values: &[Held]) -> Option<Held>
    ensures { result ≡ slash_held slash values.now }
{
    match slash {
        None => None,
        Some(number) => values.get(number as usize).copied(),
    }
}

/// Appends the statement that moves the cursor back to the trailing context, if the rule has one.
fn append_back(stmts: &mut Vec<Stmt>, held: Option<Held>) -> Result<(), Memory>
    requires { IfSome held (IsHeld 1073741824 1073741824) }
    ensures { OnOk result (stmts.new.items ≡ stmts.old.items ++ back_code held []) }
{
    if let Some(Held::Reg(reg)) = held {
        stmts.push(Stmt::Back(reg + 1))?;
    }
    Ok(())
}

/// Appends the statement that sets the condition that a rule goes to, if it goes to one.
fn append_cond(stmts: &mut Vec<Stmt>, goes: &Option<SharedText>) -> Result<(), Memory>
    ensures { OnOk result (stmts.new.items ≡ stmts.old.items ++ cond_code goes.now []) }
{
    if let Some(cond) = goes {
        stmts.push(Stmt::Cond(cond.share()?))?;
    }
    Ok(())
}

/// Where an action stands, once more.
pub(crate) fn shared_line(line: &Option<LineMark>) -> Result<Option<LineMark>, Memory>
    ensures { IfOk result (λ same. same ≡ line.now) }
{
    match line {
        None => Ok(None),
        Some(mark) => Ok(Some(LineMark {
            line: mark.line,
            file: mark.file.share()?,
        })),
    }
}

/// The name, or the empty one.
fn name_or_none(alloc: Global, name: &Option<SharedText>) -> Result<SharedText, Memory>
    ensures { IfOk result (λ same. same ≡ name_or_none name.now) }
{
    match name {
        None => Shared::of(alloc, ByteText::new(alloc)),
        Some(name) => name.share(),
    }
}

/// The last statement of a rule: its action, or without one the jump to the condition.
fn action_code(alloc: Global, end: &RuleEnd<'_>) -> Result<Stmt, Memory>
    ensures { IfOk result (λ stmt. stmt ∷ [] ≡ action_code end.now.rule.now.number (ending_of end.now) end.now.action.now false) }
{
    match end.action {
        None => Ok(Stmt::Jump(name_or_none(alloc, end.goes)?, end.rule.number)),
        Some(action) => Ok(Stmt::Code(end.rule.number, shared_line(&end.line)?, action.share()?)),
    }
}

/// The statements of the end of a rule.
fn end_code(alloc: Global, end: &RuleEnd<'_>, values: &[Held]) -> Result<Vec<Stmt>, Memory>
    requires held { AreHeld 1073741824 1073741824 values.now }
    requires few { length values.now ≤ length end.now.rule.now.tags + 130 }
    ensures { IfOk result (λ stmts. stmts.items ≡ ending_code (λ number. ending_of end.now) end.now.rule.now.number values.now) }
{
    let fixed = if end.goes.is_some() { 3 } else { 1 };
    let mut stmts = Vec::with_capacity(alloc, values.len() + fixed)?;
    append_tags(alloc, &mut stmts, end, values)?;
    append_back(&mut stmts, slash_held(end.rule.slash, values))?;
    append_cond(&mut stmts, end.goes)?;
    stmts.push(action_code(alloc, end)?)?;
    Ok(stmts)
}

/// The statements of the end of a rule, where its values are held so.
pub(crate) fn ending_code(
    alloc: Global,
    index: &EndIndex<'_>,
    rule: u32,
    values: &[Held],
) -> Result<Vec<Stmt>, Memory>
    requires indexed { AreEndsIndexed index.now }
    requires held { AreHeld 1073741824 1073741824 values.now }
    requires told { IsToldRule index.now.ends.now rule values.now }
    ensures { IfOk result (λ stmts. stmts.items ≡ ending_code (endings_of index.now.ends.now) rule values.now) }
{
    let Some(end) = index.find(rule) else {
        unreachable!()
    };
    end_code(alloc, end, values)
}

/// The statements of the end of the rule at the end of the input, where no tag and no group has a value.
pub(crate) fn end_rule_code(
    alloc: Global,
    index: &EndIndex<'_>,
    rule: u32,
) -> Result<Vec<Stmt>, Memory>
    requires indexed { AreEndsIndexed index.now }
    requires told { HasEnd index.now.ends.now rule }
    ensures { IfOk result (λ stmts. stmts.items ≡ ending_code (endings_of index.now.ends.now) rule []) }
{
    let Some(end) = index.find(rule) else {
        unreachable!()
    };
    end_code(alloc, end, &[])
}
