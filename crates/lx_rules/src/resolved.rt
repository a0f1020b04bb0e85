//! What a block resolves to.
ghost use Rattle.std.specs.Prelude.{◌≡◌, option_copied};
ghost use Rattle.lx_regex.specs.Pattern.{end_rule, patterns_of};
ghost use Rattle.lx_rules.specs.Numbered.{numbered_act};

use lx_base::{Names, Pos, Sequence};
use lx_regex::{Kind, Rule, RuleSet};
use lx_shared::SharedText;

/// A scanner: the rules that stand under one condition, or all rules of a block where conditions are not in use.
pub struct Scanner {
    /// The name of the condition.
    pub cond: Option<SharedText>,
    pub set: RuleSet,
}

impl Drop for Scanner {
    fn drop(self) {
        let Self { cond: _, set: _ } = self;
    }
}

/// What a rule does where it is entered.
pub struct Act {
    /// The number of the rule, which is its place in the block, from 1.
    pub number: u32,
    /// The condition that it goes to.
    pub goes: Option<SharedText>,
    /// Its action with the braces, as it stands in the source.
    pub code: Option<SharedText>,
    /// The place of the action's `{`, or that of `:=>`.
    pub at: Pos,
}

impl Drop for Act {
    fn drop(self) {
        let Self {
            number: _,
            goes: _,
            code: _,
            at: _,
        } = self;
    }
}

/// What the rule with a number does, if there is one; rules are numbered from 1, in the order of their actions.
pub fn numbered_act(acts: &[Act], number: u32) -> Option<&Act>
    ensures { option_copied result ≡ numbered_act acts.now number }
{
    match number.checked_sub(1) {
        None => None,
        Some(place) => acts.get(place as usize),
    }
}

/// The number of the rule `$`, which stands at the end of the input, if there is one.
pub fn end_rule(rules: &[Rule]) -> Option<u32>
    ensures { result ≡ end_rule (patterns_of rules.now) }
{
    for rule in rules {
        if rule.kind == Kind::Eof {
            return Some(rule.number);
        }
    }
    None
}

/// The configuration that holds for a block.
#[derive(Drop)]
pub struct Config {
    /// The seventeen spellings.
    pub names: Names,
    /// The code unit that stands at the end of the input, if there is one.
    pub eof: Option<u32>,
    /// Whether refills are asked for.
    pub fill: bool,
}

/// What a block resolves to.
#[derive(Drop)]
pub struct Resolved {
    /// The scanners in the order in which their conditions first appear; none where the block has no rule.
    pub scanners: Sequence<Scanner>,
    /// What the rules of the block do, in their order.
    pub acts: Sequence<Act>,
    pub config: Config,
}
