//! Making the automaton of a rule list, rule by rule.
ghost use Rattle.std.specs.Prelude.{◌≡◌, ◌++◌, [], ◌∷◌, length, replicate, IfOk, None, OnOk, Some};
ghost use Rattle.std.specs.Bool.{OnFalse};
ghost use Rattle.lx_regex.specs.Pattern.{is_end, pattern_of, sorts_of};
ghost use Rattle.lx_regex.specs.Values.{group_ends};
ghost use Rattle.lx_tnfa.specs.Classes.{AreClasses};
ghost use Rattle.lx_tnfa.specs.Making.{AddsRule, CanAdd};
ghost use Rattle.lx_tnfa.specs.declared.states.State.TheVariants.{Moves};

use crate::building::{Building, Site, build};
use crate::classes::Classes;
use crate::shape::shape_of;
use crate::states::{State, one_move};
use crate::tnfa::RuleTags;
use lx_base::{Enc, Memory, Sequence};
use lx_regex::{Kind, Rule};
use std::alloc::Global;
use std::collections::HashMap;

/// An automaton that is made: its states, and of its rules the parts, the tags and the beginnings.
#[derive(Drop)]
pub(crate) struct Making {
    pub building: Building,
    /// For each part the index of its rule; none for the rule list itself.
    pub owners: Vec<Option<u32>>,
    pub rules: Vec<RuleTags>,
    /// The states at the beginnings of rules.
    pub begins: Vec<u32>,
}

/// Appends the index of a rule, so many times.
fn push_owners(owners: &mut Vec<Option<u32>>, index: u32, count: u32) -> Result<(), Memory>
    ensures { OnOk result (owners.new.items ≡ owners.old.items ++ replicate count (Some index)) }
{
    for _ in 0..count {
        owners.push(Some(index))?;
    }
    Ok(())
}

/// Appends the kinds of the ends of so many groups: none is an m-tag.
fn push_group_ends(many: &mut Vec<bool>, groups: u32) -> Result<(), Memory>
    ensures { OnOk result (many.new.items ≡ many.old.items ++ group_ends groups) }
{
    for _ in 0..groups {
        many.push(false)?;
        many.push(false)?;
    }
    Ok(())
}

/// The number of a rule and the kinds of its tags.
fn rule_tags(alloc: Global, rule: &Rule) -> Result<RuleTags, Memory>
    ensures number { IfOk result (λ tags. tags.number ≡ rule.now.number) }
    ensures many { IfOk result (λ tags. tags.many.items ≡ sorts_of (pattern_of rule.now)) }
{
    let mut many = Vec::new(alloc);
    for tag in rule.tags.as_slice() {
        many.push(tag.many)?;
    }
    push_group_ends(&mut many, rule.groups)?;
    Ok(RuleTags {
        number: rule.number,
        many,
    })
}

impl Making {
    /// The rule list itself, which is part 0, without rules.
    pub fn start(alloc: Global, enc: Enc) -> Result<Making, Memory>
        ensures states { IfOk result (λ making. making.building.states.items ≡ Moves [] ∷ Moves [] ∷ []) }
        ensures enc { IfOk result (λ making. making.building.classes.enc ≡ enc) }
        ensures classes { IfOk result (λ making. making.building.classes.list.items ≡ []) }
        ensures owners { IfOk result (λ making. making.owners.items ≡ None ∷ []) }
        ensures rules { IfOk result (λ making. making.rules.items ≡ []) }
        ensures begins { IfOk result (λ making. making.begins.items ≡ []) }
    {
        let mut states = Vec::new(alloc);
        states.push(State::Moves(Sequence::new(alloc)))?;
        states.push(State::Moves(Sequence::new(alloc)))?;
        let classes = Classes {
            enc,
            list: Vec::new(alloc),
            numbers: HashMap::new(alloc),
        };
        let mut owners = Vec::new(alloc);
        owners.push(None)?;
        Ok(Making {
            building: Building { states, classes },
            owners,
            rules: Vec::new(alloc),
            begins: Vec::new(alloc),
        })
    }

    /// Appends a rule; the rule `$` has no states.
    pub fn add_rule(&mut self, alloc: Global, rule: &Rule) -> Result<(), Memory>
        requires are_classes { AreClasses self.old.building.classes.enc self.old.building.classes.list.items }
        requires can { OnFalse (is_end rule.now.kind) (CanAdd self.old rule.now) }
        ensures { OnOk result (AddsRule self.old self.new rule.now) }
    {
        let index = self.rules.len();
        self.rules.push(rule_tags(alloc, rule)?)?;
        match rule.kind {
            Kind::Eof => Ok(()),
            Kind::Plain | Kind::Default => {
                let tags = rule.tags.as_slice().len() as u32;
                let part = self.owners.len() as u32;
                let shape = shape_of(alloc, tags, &rule.expr)?;
                let site = Site { tags, part };
                self.begins.push(2 * part)?;
                let exits = one_move(alloc, 0, None)?;
                build(alloc, &mut self.building, site, &rule.expr, &shape, exits)?;
                let owner = index as u32;
                push_owners(&mut self.owners, owner, shape.parts)
            }
        }
    }
}
