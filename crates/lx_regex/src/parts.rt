//! The parts of a rule list: each occurrence of a form in it, in preorder.
ghost use Rattle.std.specs.Prelude.{◌≡◌, ℕ, ◌+◌, ◌*◌, ◌<◌, ◌^◌, ◌++◌, ◌∷◌, [], map, length, IfOk, OnErr, OnOk};
ghost use Rattle.std.specs.Bool.{OnFalse};
ghost use Rattle.lx_regex.specs.Expr.{members_of, term_of};
ghost use Rattle.lx_regex.specs.Limits.{IsWithinLimits};
ghost use Rattle.lx_regex.specs.PartList.{own_sort, shown, shown_parts, shown_sort};
ghost use Rattle.lx_regex.specs.Parts.{copied_parts, parts_among, parts_in, parts_of_rules};
ghost use Rattle.lx_regex.specs.Pattern.{is_end, pattern_of, patterns_of};
ghost use Rattle.lx_regex.specs.Term.{copies, parts, parts_of_all};

use crate::expr::Expr;
use crate::rules::{Kind, Rule, RuleSet};
use lx_base::Memory;
use lx_class::ClassSet;
use std::alloc::Global;
use std::marker::Model;

/// What stands at a part.
#[derive(Drop)]
pub enum PartSort {
    /// The rule list itself, which is part 0.
    Rules,
    /// The empty word.
    Empty,
    /// One of these code points.
    Class(ClassSet),
    /// Any one code unit.
    AnyUnit,
    /// A sequence.
    Cat,
    /// An alternation.
    Alt,
    /// A repetition, with its minimum and its bound.
    Rep(u32, Option<u32>),
    /// The tag with this number.
    Tag(u32),
    /// The group with this number.
    Group(u32),
}

/// An occurrence of a form in a rule list. Parts are numbered from 0, by their places in `Parts`.
#[derive(Drop)]
pub struct Part {
    /// The number of its rule; 0 for part 0.
    pub rule: u32,
    /// The part directly around it; 0 for part 0.
    pub up: u32,
    /// Its place among the parts directly inside `up`, from 0: for a rule's own part the place of the rule in the list, and 0
    /// for part 0.
    pub child: u32,
    /// What it is.
    pub sort: PartSort,
}

/// The parts of a rule list: first the list itself, then each rule's own part and what stands in it, from left to right. A
/// repetition has so many copies of its body as its bound says, or without a bound as its minimum and at least one. The rule
/// `$` has no part.
#[derive(Drop)]
pub struct Parts {
    parts: Vec<Part>,
}

impl Model for Parts {
    ghost use Rattle.std.specs.Prelude.{List};
    ghost use Rattle.lx_regex.specs.declared.parts.Part.{Part};

    ghost Value = { List Part };

    ghost view = { λ list. list.parts.items };
}

/// The part in which others stand, and its rule.
#[derive(Clone, Copy)]
struct Around {
    rule: u32,
    part: u32,
}

/// What an expression itself is.
fn sort_of(alloc: Global, expr: &Expr) -> Result<PartSort, Memory>
    ensures { IfOk result (λ sort. (tags : ℕ) → sort ≡ shown_sort tags (own_sort (term_of tags expr.now))) }
{
    let sort = match expr {
        Expr::Empty => PartSort::Empty,
        Expr::Class(set) => PartSort::Class(set.copy(alloc)?),
        Expr::AnyUnit => PartSort::AnyUnit,
        Expr::Cat(_) => PartSort::Cat,
        Expr::Alt(_) => PartSort::Alt,
        Expr::Rep(_, low, high) => PartSort::Rep(*low, *high),
        Expr::STag(number) | Expr::MTag(number) => PartSort::Tag(*number),
        Expr::Group(number, _) => PartSort::Group(*number),
    };
    Ok(sort)
}

/// How many copies of its body a repetition has.
pub fn copies(low: u32, high: Option<u32>) -> u32
    ensures { result ≡ copies low high }
{
    high.unwrap_or(low.max(1))
}

/// Appends the parts of members.
#[cycle(append)]
fn append_members(
    alloc: Global,
    list: &mut Vec<Part>,
    around: Around,
    members: &[Expr],
) -> Result<(), Memory>
    requires { (tags : ℕ) → length list.old.items + parts_of_all (members_of (map (term_of tags) members.now)) < 2 ^ 32 }
    ensures { OnOk result ((tags : ℕ) → list.new.items ≡ list.old.items
        ++ map (shown tags) (parts_among around.rule around.part 0 (length list.old.items) (members_of (map (term_of tags) members.now)))) }
{
    for (child, member) in members.iter().enumerate() {
        append(alloc, list, around, child as u32, member)?;
    }
    Ok(())
}

/// Appends the parts of so many copies of a body.
#[cycle(append)]
fn append_copies(
    alloc: Global,
    list: &mut Vec<Part>,
    around: Around,
    body: &Expr,
    count: u32,
) -> Result<(), Memory>
    requires { (tags : ℕ) → length list.old.items + count * parts (term_of tags body.now) < 2 ^ 32 }
    ensures { OnOk result ((tags : ℕ) → list.new.items ≡ list.old.items
        ++ map (shown tags) (copied_parts (λ number copy. parts_in around.rule around.part number copy (term_of tags body.now))
        (parts (term_of tags body.now)) count 0 (length list.old.items))) }
{
    for child in 0..count {
        append(alloc, list, around, child, body)?;
    }
    Ok(())
}

/// Appends the parts of an expression.
#[cycle(append)]
fn append(
    alloc: Global,
    list: &mut Vec<Part>,
    around: Around,
    child: u32,
    expr: &Expr,
) -> Result<(), Memory>
    requires { (tags : ℕ) → length list.old.items + parts (term_of tags expr.now) < 2 ^ 32 }
    ensures { OnOk result ((tags : ℕ) → list.new.items ≡ list.old.items
        ++ map (shown tags) (parts_in around.rule around.part child (length list.old.items) (term_of tags expr.now))) }
{
    let inside = Around {
        rule: around.rule,
        part: list.len() as u32,
    };
    list.push(Part {
        rule: around.rule,
        up: around.part,
        child,
        sort: sort_of(alloc, expr)?,
    })?;
    match expr {
        Expr::Cat(members) | Expr::Alt(members) => append_members(alloc, list, inside, members),
        Expr::Rep(body, low, high) => {
            append_copies(alloc, list, inside, body, copies(*low, *high))
        }
        Expr::Group(_, body) => append(alloc, list, inside, 0, body),
        Expr::Empty | Expr::Class(_) | Expr::AnyUnit | Expr::STag(_) | Expr::MTag(_) => Ok(()),
    }
}

/// Appends the parts of a rule that stands at this place in its list; the rule `$` has none.
fn append_rule(alloc: Global, list: &mut Vec<Part>, place: u32, rule: &Rule) -> Result<(), Memory>
    requires { OnFalse (is_end rule.now.kind) ((tags : ℕ) → length list.old.items + parts (term_of tags rule.now.expr) < 2 ^ 32) }
    ensures { OnOk result (list.new.items ≡ list.old.items
        ++ map (shown (length rule.now.tags)) (parts_of_rules place (length list.old.items) (pattern_of rule.now ∷ []))) }
{
    match rule.kind {
        Kind::Eof => Ok(()),
        Kind::Plain | Kind::Default => {
            let rules = Around {
                rule: rule.number,
                part: 0,
            };
            append(alloc, list, rules, place, &rule.expr)
        }
    }
}

impl Parts {
    /// The parts of a rule list within the limits of a scanner.
    pub fn of(alloc: Global, set: &RuleSet) -> Result<Parts, Memory>
        requires { IsWithinLimits set.now.rules }
        ensures { IfOk result (λ parts. parts ≡ shown_parts (patterns_of set.now.rules)) }
    {
        let mut parts = Vec::new(alloc);
        parts.push(Part {
            rule: 0,
            up: 0,
            child: 0,
            sort: PartSort::Rules,
        })?;
        for (place, rule) in set.rules.as_slice().iter().enumerate() {
            append_rule(alloc, &mut parts, place as u32, rule)?;
        }
        Ok(Parts { parts })
    }

    /// The empty list. It takes no memory.
    pub fn new(alloc: Global) -> Self
        ensures { result ≡ [] }
    {
        Parts {
            parts: Vec::new(alloc),
        }
    }

    /// The parts, in order. It takes no memory.
    pub fn as_slice(&self) -> &[Part]
        ensures { result.now ≡ self.now }
    {
        self.parts.as_slice()
    }

    /// Appends a part. Where memory runs out the list stays as it was, and the part is dropped.
    pub fn push(&mut self, part: Part) -> Result<(), Memory>
        ensures pushed { OnOk result (self.new ≡ self.old ++ part ∷ []) }
        ensures kept { OnErr result (self.new ≡ self.old) }
    {
        self.parts.push(part)?;
        Ok(())
    }
}
