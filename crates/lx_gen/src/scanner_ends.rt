//! What the rules of a scanner do at their ends, by what the block says.
ghost use Rattle.std.specs.Prelude.{◌≡◌, ◌<◌, ◌≤◌, All, IfOk, length, Some};
ghost use Rattle.lx_ccode.specs.Validity.{IsLine};
ghost use Rattle.lx_layout.specs.RuleEnds.{ending_of, endings_of};
ghost use Rattle.lx_regex.specs.declared.rules.Rule.{Rule as rule_type};
ghost use Rattle.lx_gen.specs.Generated.{act_ending, endings_by, mark_of};
ghost use Rattle.lx_rules.specs.Numbered.{numbered_act};
ghost use Rattle.lx_gen.specs.Seen.{HaveShortLines, seen_marks};

use lx_base::{Memory, Pos};
use lx_ccode::LineMark;
use lx_layout::RuleEnd;
use lx_regex::Rule;
use lx_rules::{Act, numbered_act};
use lx_shared::SharedText;
use std::alloc::Global;

/// The names of files, where the lines of actions are told.
#[derive(Clone, Copy)]
pub struct Marks<'a> {
    pub names: Option<&'a [SharedText]>,
}

/// The line where an action stands, if it is told.
fn mark_of(alloc: Global, marks: Marks<'_>, at: Pos) -> Result<Option<LineMark>, Memory>
    ensures mark { IfOk result (λ mark. mark ≡ mark_of (seen_marks marks.entry) at) }
    ensures line { IfOk result IsLine }
{
    match marks.names {
        None => Ok(None),
        Some(names) => Ok(Some(LineMark::of(alloc, names, at.file, at.line)?)),
    }
}

/// What a rule does at its end.
fn rule_end<'a>(
    alloc: Global,
    marks: Marks<'_>,
    rule: &'a Rule,
    act: &'a Act,
) -> Result<RuleEnd<'a>, Memory>
    ensures rule { IfOk result (λ end. end.rule.now ≡ rule.now) }
    ensures ending { IfOk result (λ end. ending_of end ≡ act_ending (seen_marks marks.entry) rule.now (Some act.now)) }
    ensures line { IfOk result (λ end. IsLine end.line) }
{
    Ok(RuleEnd {
        rule,
        goes: &act.goes,
        action: &act.code,
        line: mark_of(alloc, marks, act.at)?,
    })
}

/// What the rules of a scanner do at their ends; each has an act.
pub fn rule_ends<'a>(
    alloc: Global,
    marks: Marks<'_>,
    rules: &'a [Rule],
    acts: &'a [Act],
) -> Result<Vec<RuleEnd<'a>>, Memory>
    requires { All (λ (rule : rule_type). (0 < rule.number) × (rule.number ≤ length acts.now)) rules.now }
    ensures endings { IfOk result (λ ends. endings_of ends.items ≡ endings_by (seen_marks marks.entry) acts.now rules.now) }
    ensures lines { IfOk result (λ ends. HaveShortLines (endings_of ends.items)) }
{
    let mut ends = Vec::with_capacity(alloc, rules.len())?;
    for rule in rules {
        let Some(act) = numbered_act(acts, rule.number) else {
            unreachable!()
        };
        ends.push(rule_end(alloc, marks, rule, act)?)?;
    }
    Ok(ends)
}
