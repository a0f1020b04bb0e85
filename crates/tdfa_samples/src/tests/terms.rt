//! Two rule lists of the greatest size, made by hand: in no body are there alternatives of 128 members, or 2,000 in one another.
ghost use Rattle.std.specs.Prelude.{◌≡◌, ℕ, [], ◌∷◌, IfOk, length, map};
ghost use Rattle.lx_base.specs.declared.settings.Enc.TheVariants.{Utf8};
ghost use Rattle.lx_regex.specs.ClassLimits.{AllClassesFit, ClassesFit};
ghost use Rattle.lx_regex.specs.Expr.{members_of, term_of};
ghost use Rattle.lx_regex.specs.Limits.{HasLongSequences, IsWithinLimits, numbers_from};
ghost use Rattle.lx_regex.specs.Pattern.{patterns_of, terms_of};
ghost use Rattle.lx_regex.specs.Script.{tags_in};
ghost use Rattle.lx_regex.specs.Term.{alt, cons, empty, nil, repeat, tag};

use lx_base::{Memory, Sequence};
use lx_regex::{Expr, Kind, Rule, RuleSet, Tag, size};
use std::alloc::Global;
use std::test::Fail;

/// One of some members.
fn choice(members: Vec<Expr>) -> Expr
    ensures { (tags : ℕ) → term_of tags result ≡ alt (members_of (map (term_of tags) members.items)) }
{
    Expr::Alt(members)
}

/// The s-tag with a number.
fn s_tag(number: u32) -> Expr
    ensures { (tags : ℕ) → term_of tags result ≡ tag number }
{
    Expr::STag(number)
}

/// So many s-tags, numbered from 0.
fn marks(alloc: Global, count: u32) -> Result<Vec<Expr>, Memory>
    ensures { IfOk result (λ list. (tags : ℕ) → map (term_of tags) list.items ≡ map tag (numbers_from 0 count)) }
{
    let mut list = Vec::new(alloc);
    for number in 0..count {
        let next = s_tag(number);
        list.push(next)?;
    }
    Ok(list)
}

/// One of so many s-tags, numbered from 0.
fn any_mark(alloc: Global, count: u32) -> Result<Expr, Memory>
    ensures { IfOk result (λ e. (tags : ℕ) → term_of tags e ≡ alt (members_of (map tag (numbers_from 0 count)))) }
{
    let members = marks(alloc, count)?;
    let expr = choice(members);
    Ok(expr)
}

/// An expression repeated.
fn repetition(alloc: Global, body: Expr, low: u32, high: Option<u32>) -> Result<Expr, Memory>
    ensures { IfOk result (λ e. (tags : ℕ) → term_of tags e ≡ repeat (term_of tags body) low high) }
{
    Ok(Expr::Rep(Box::new(alloc, body)?, low, high))
}

/// An expression, or nothing.
fn or_nothing(alloc: Global, first: Expr) -> Result<Expr, Memory>
    ensures { IfOk result (λ e. (tags : ℕ) → term_of tags e ≡ alt (cons (term_of tags first) (cons empty nil))) }
{
    let mut members = Vec::new(alloc);
    members.push(first)?;
    members.push(Expr::Empty)?;
    Ok(Expr::Alt(members))
}

/// So many s-tags without names.
fn unnamed(alloc: Global, count: u32) -> Result<Sequence<Tag>, Memory>
    ensures { IfOk result (λ list. length list ≡ count) }
{
    let mut list = Sequence::new(alloc);
    for _ in 0..count {
        list.push(Tag {
            name: Sequence::new(alloc),
            many: false,
        })?;
    }
    Ok(list)
}

/// The rule list of one rule, whose expression has so many s-tags.
fn one(alloc: Global, expr: Expr, count: u32) -> Result<RuleSet, Fail>
    requires { (tags : ℕ) → HasLongSequences (term_of tags expr) × (tags_in (term_of tags expr) ≡ numbers_from 0 count)
        × ClassesFit Utf8 (term_of tags expr) }
    ensures { IfOk result (λ set. IsWithinLimits set.rules × AllClassesFit Utf8 (terms_of (patterns_of set.rules))) }
{
    let size = size(&expr);
    if size > 4096 || count > 128 {
        return Err("the rule is past a limit")?;
    }
    let tags = unnamed(alloc, count)?;
    let mut rules = Sequence::new(alloc);
    rules.push(Rule {
        number: 1,
        kind: Kind::Plain,
        expr,
        tags,
        slash: None,
        groups: 0,
    })?;
    Ok(RuleSet { rules })
}

/// One of 128 tags, 31 times: each of 3,968 moves unsets all tags but one.
pub(super) fn tags_apart(alloc: Global) -> Result<RuleSet, Fail>
    ensures { IfOk result (λ set. IsWithinLimits set.rules × AllClassesFit Utf8 (terms_of (patterns_of set.rules))) }
{
    let body = any_mark(alloc, 128)?;
    let expr = repetition(alloc, body, 31, Some(31))?;
    one(alloc, expr, 128)
}

/// A tag, or nothing, or nothing, 2,000 times in one another.
fn nested_choice(alloc: Global) -> Result<Expr, Memory>
    ensures { IfOk result (λ e. (tags : ℕ) → HasLongSequences (term_of tags e) × (tags_in (term_of tags e) ≡ 0 ∷ [])
        × ClassesFit Utf8 (term_of tags e)) }
{
    let mut expr = s_tag(0);
    for _ in 0..2000 {
        expr = or_nothing(alloc, expr)?;
    }
    Ok(expr)
}

/// The rule list of that.
pub(super) fn nested(alloc: Global) -> Result<RuleSet, Fail>
    ensures { IfOk result (λ set. IsWithinLimits set.rules × AllClassesFit Utf8 (terms_of (patterns_of set.rules))) }
{
    let expr = nested_choice(alloc)?;
    one(alloc, expr, 1)
}
