//! The expressions of rules, as they are read.
ghost use Rattle.std.specs.Prelude.{◌≡◌, ◌<◌, ◌≤◌, ◌⊎◌, ◌+◌, ◌++◌, ◌∷◌, ℕ, suc, List, IfNone, IfOk, IfSome, Some, false, true, if◌then◌else◌};
ghost use Rattle.lx_base.specs.declared.limits.TheConstants.{TAG_LIMIT};
ghost use Rattle.lx_exprs.specs.Defined.{Meaning, is_built, kept, term_of_meaning};
ghost use Rattle.lx_exprs.specs.Values.{HasTagsBelow, HasValueKinds, IsBounded, IsValue};
ghost use Rattle.lx_exprs.specs.declared.values.Room.{Room};
ghost use Rattle.lx_regex.specs.Term.{cat, cons, nil, tag};
ghost use Rattle.lx_regex.specs.Expr.{size_of, term_of};
ghost use Rattle.lx_regex.specs.Kinds.{HasKind, kinds_of};
ghost use Rattle.lx_regex.specs.declared.rules.Tag.{Tag as tag_type};
ghost use Rattle.lx_rules.specs.Items.{in_whole};
ghost use Rattle.lx_rules.specs.Kept.{HasExprKinds};

use lx_base::Memory;
use lx_exprs::expressions::Reading;
use lx_exprs::tags::SharedTags;
use lx_exprs::values::{Room, Value, sum};
use lx_regex::Expr;
use std::alloc::Global;

/// What is read of the expression of a rule. 2^40 stands for itself and for more in its numbers.
#[derive(Drop)]
pub(crate) struct RuleExpr {
    pub size: u64,
    pub nesting: u64,
    /// Its tags, in order.
    pub tags: SharedTags,
    /// How many groups it has, the whole match among them.
    pub groups: u64,
    /// How many tags it has, two for each group but the whole match.
    pub count: u64,
    /// The number of the tag of its trailing context, if it has one.
    pub slash: Option<u64>,
    /// The expression, where it is built.
    pub expr: Option<Expr>,
}

/// An expression as that of a rule: where there are groups, it is group 0.
fn in_whole(alloc: Global, is_group: bool, expr: Expr) -> Result<Expr, Memory>
    ensures term { IfOk result (λ whole. term_of 0 whole ≡ in_whole is_group (term_of 0 expr)) }
    ensures size { IfOk result (λ whole. size_of whole ≡ size_of expr) }
    ensures tags { (bound : ℕ) → HasTagsBelow 1 bound (term_of 0 expr) → IfOk result (λ whole. HasTagsBelow 0 bound (term_of 0 whole)) }
    ensures kinds { IfOk result (λ whole. kinds_of whole ≡ kinds_of expr) }
{
    if !is_group {
        return Ok(expr);
    }
    Ok(Expr::Group(0, Box::new(alloc, expr)?))
}

/// The sequence of an expression, which is group 0 where there are groups, the tag of a slash, and what stands behind it.
fn around_slash(
    alloc: Global,
    is_group: bool,
    front: Expr,
    number: u32,
    back: Expr,
) -> Result<Expr, Memory>
    ensures term { IfOk result (λ expr. term_of 0 expr
        ≡ cat (cons (in_whole is_group (term_of 0 front)) (cons (tag number) (cons (term_of 0 back) nil)))) }
    ensures size { IfOk result (λ expr. size_of expr ≡ size_of front + 1 + size_of back) }
    ensures tags { (bound : ℕ) → HasTagsBelow 1 bound (term_of 0 front) → HasTagsBelow 1 bound (term_of 0 back) → number < bound
        → IfOk result (λ expr. HasTagsBelow 0 bound (term_of 0 expr)) }
    ensures kinds { IfOk result (λ expr. kinds_of expr ≡ kinds_of front ++ (number, false) ∷ kinds_of back) }
{
    let front = in_whole(alloc, is_group, front)?;
    let members = vec![in alloc; front, Expr::STag(number), back]?;
    Ok(Expr::Cat(members))
}

/// The expression of a rule with a trailing context behind a slash whose tag has this number, where it fits the limits.
fn trailing_expr(
    alloc: Global,
    fits: bool,
    is_group: bool,
    first: Value,
    number: u64,
    second: Value,
) -> Result<Option<Expr>, Memory>
    requires { fits ≡ true → number < TAG_LIMIT }
    ensures built { (room : Room) (meaning later : Meaning) → IsValue room meaning first → IsValue room later second
        → IfOk result (λ found. IfSome found (λ expr. term_of 0 expr
        ≡ cat (cons (in_whole is_group (term_of_meaning meaning)) (cons (tag number) (cons (term_of_meaning later) nil))))) }
    ensures past { (room : Room) (meaning later : Meaning) → IsValue room meaning first → IsValue room later second
        → IfOk result (λ found. IfNone found ((fits ≡ false) ⊎ ((is_built room meaning ≡ false) ⊎ (is_built room later ≡ false)))) }
    ensures within { IfOk result (λ found. IfSome found (λ expr. fits ≡ true)) }
    ensures size { IsBounded first → IsBounded second → IfOk result (λ found. IfSome found (λ expr. size_of expr ≤ first.size + 1 + second.size)) }
    ensures tags { (bound : ℕ) → IsBounded first → IsBounded second → first.tags ≤ bound → second.tags ≤ bound → number < bound
        → IfOk result (λ found. IfSome found (λ expr. HasTagsBelow 0 bound (term_of 0 expr))) }
    ensures kinds { (tags : List tag_type) → HasValueKinds tags first → HasValueKinds tags second → (number < TAG_LIMIT → HasKind tags (number, false))
        → IfOk result (HasExprKinds tags (Some number)) }
{
    if !fits {
        return Ok(None);
    }
    let Some(front) = first.into_expr() else {
        return Ok(None);
    };
    let Some(back) = second.into_expr() else {
        return Ok(None);
    };
    let expr = around_slash(alloc, is_group, front, number as u32, back)?;
    Ok(Some(expr))
}

/// How many groups a rule has whose expression has so many: where there are groups, the whole match is one of them.
fn with_whole(is_group: bool, groups: u64) -> u64
    ensures { result ≡ (if is_group then kept (suc groups) else 0) }
{
    if is_group { sum(groups, 1) } else { 0 }
}

impl RuleExpr {
    ghost use Rattle.std.specs.Prelude.{◌≡◌, ◌<◌, ◌≤◌, IfOk, None, length, false, true};
    ghost use Rattle.lx_base.specs.declared.limits.TheConstants.{TAG_LIMIT};
    ghost use Rattle.lx_exprs.specs.Defined.{Meaning, count_of, is_built, kept};
    ghost use Rattle.lx_exprs.specs.Expressions.{IsReadAs, IsReadAsBehind};
    ghost use Rattle.lx_exprs.specs.Values.{HasValueKinds, IsBounded, IsRoom, IsValue};
    ghost use Rattle.lx_regex.specs.Kinds.{HasKind};
    ghost use Rattle.lx_exprs.specs.declared.values.Room.{Room};
    ghost use Rattle.lx_rules.specs.Items.{any_meaning, as_rule, behind_slash, end_meaning, trailing};
    ghost use Rattle.lx_rules.specs.Keeping.{HasReadKinds, IsBoundedExpr, IsRuleExpr};

    /// What stands in the place of an expression of `$`, which has none.
    pub fn none(alloc: Global) -> RuleExpr
        ensures means { IsRuleExpr true end_meaning None result }
        ensures bounded { IsBoundedExpr result }
        ensures kinds { HasReadKinds result }
    {
        RuleExpr {
            size: 1,
            nesting: 0,
            tags: SharedTags::new(alloc),
            groups: 0,
            count: 0,
            slash: None,
            expr: Some(Expr::Empty),
        }
    }

    /// The expression of `*`.
    pub fn any(alloc: Global, is_group: bool) -> Result<RuleExpr, Memory>
        ensures means { IfOk result (IsRuleExpr true (as_rule is_group any_meaning) None) }
        ensures bounded { IfOk result IsBoundedExpr }
        ensures kinds { IfOk result HasReadKinds }
    {
        Ok(RuleExpr {
            size: 1,
            nesting: 0,
            tags: SharedTags::new(alloc),
            groups: with_whole(is_group, 0),
            count: 0,
            slash: None,
            expr: Some(in_whole(alloc, is_group, Expr::AnyUnit)?),
        })
    }

    /// What is read of an expression, as that of a rule.
    pub fn of(alloc: Global, is_group: bool, reading: Reading) -> Result<RuleExpr, Memory>
        ensures means { (room : Room) (meaning : Meaning) → IsReadAs room meaning reading → IfOk result (IsRuleExpr (is_built room meaning) (as_rule is_group meaning) None) }
        ensures bounded { IsBounded reading.value → IfOk result IsBoundedExpr }
        ensures kinds { HasValueKinds reading.tags reading.value → IfOk result HasReadKinds }
    {
        let Reading { value, tags } = reading;
        let (size, nesting, count) = (value.size, value.nesting, value.tags);
        let groups = with_whole(is_group, value.groups);
        let expr = match value.into_expr() {
            Some(expr) => Some(in_whole(alloc, is_group, expr)?),
            None => None,
        };
        Ok(RuleExpr {
            size,
            nesting,
            tags,
            groups,
            count,
            slash: None,
            expr,
        })
    }

    /// What is read of an expression, and of another one behind a slash whose tag has this number, as that of a rule. It is built only
    /// where it is within the room.
    pub fn trailing(
        alloc: Global,
        room: Room,
        is_group: bool,
        first: Value,
        number: u64,
        second: Reading,
    ) -> Result<RuleExpr, Memory>
        requires room { IsRoom room }
        requires slash { second.value.tags ≤ TAG_LIMIT → number < second.value.tags }
        ensures means { (meaning later : Meaning) → IsValue room meaning first
            → meaning.count ≡ count_of (record { tags = meaning.tags; groups = meaning.groups }) → number ≡ kept (length meaning.tags)
            → IsReadAsBehind room (behind_slash meaning) later second
            → IfOk result (IsRuleExpr (is_built room (trailing is_group meaning later).means) (trailing is_group meaning later).means (trailing is_group meaning later).slash) }
        ensures bounded { IsBounded first → IsBounded second.value → first.tags ≤ second.value.tags → IfOk result IsBoundedExpr }
        ensures kinds { HasValueKinds second.tags first → HasValueKinds second.tags second.value
            → (number < TAG_LIMIT → HasKind second.tags (number, false)) → IfOk result HasReadKinds }
    {
        let Reading { value, tags } = second;
        let size = sum(sum(first.size, 1), value.size);
        let nesting = first.nesting.max(value.nesting);
        let groups = with_whole(is_group, sum(first.groups, value.groups));
        let count = value.tags;
        let fits = room.fits(size, nesting, count);
        let expr = trailing_expr(alloc, fits, is_group, first, number, value)?;
        Ok(RuleExpr {
            size,
            nesting,
            tags,
            groups,
            count,
            slash: Some(number),
            expr,
        })
    }
}
