//! Expressions, their size, and whether one matches the empty word.
ghost use Rattle.std.specs.Prelude.{◌≡◌, ℕ, ◌+◌, ◌^◌, ◌↔◌, min, map, sum, [], IsTrue};
ghost use Rattle.lx_base.specs.declared.settings.Enc.{Enc};
ghost use Rattle.lx_regex.specs.Expr.{members_of, size_of, term_of};
ghost use Rattle.lx_regex.specs.Least.{HasEmptyChoice, HasEmptyRow, HasTree};
ghost use Rattle.lx_regex.specs.Term.{IsAtMost};

use lx_class::ClassSet;

/// An expression. `term_of` in `specs/Expr.antt` says which term it stands for, and so what it matches.
pub enum Expr {
    /// Matches the empty word.
    Empty,
    /// Matches the spelling of any one of these code points.
    Class(ClassSet),
    /// Matches any one code unit.
    AnyUnit,
    /// Matches its members one behind another.
    Cat(Vec<Expr>),
    /// Matches one of its members; an earlier one is preferred to a later one.
    Alt(Vec<Expr>),
    /// Matches its body as often as the first number at least and, if there is one, the second at most.
    Rep(Box<Expr>, u32, Option<u32>),
    /// Matches the empty word, and gives the s-tag with this number the offset.
    STag(u32),
    /// Matches the empty word, and puts the offset to the m-tag with this number.
    MTag(u32),
    /// Matches its body, and gives the two ends of the group with this number their offsets.
    Group(u32, Box<Expr>),
}

impl Drop for Expr {
    fn drop(self) {
        match self {
            Self::Empty => {}
            Self::Class(_) => {}
            Self::AnyUnit => {}
            Self::Cat(_) => {}
            Self::Alt(_) => {}
            Self::Rep(_, _, _) => {}
            Self::STag(_) => {}
            Self::MTag(_) => {}
            Self::Group(_, _) => {}
        }
    }
}

/// The size that stands for itself and every greater one, 2^40.
pub const GREATEST_SIZE: u64 = 1 << 40;

/// The sum of the sizes of members, up to the limit.
#[cycle(size)]
fn sum_of_sizes(members: &[Expr]) -> u64
    ensures { result ≡ min (sum (map size_of members.now)) (2 ^ 40) }
{
    let mut total = 0;
    for member in members {
        total = GREATEST_SIZE.min(total + size(member));
    }
    total
}

/// The size of an expression, by which scanners are limited: that of a sequence is the sum over its members, that of an
/// alternation 1 more; that of a repetition is 1 and its body's, as often as the greatest of 1 and its bounds says; that of a
/// group is 2 more than its body's, but for group 0, which counts as its body; and that of each other form is 1. What is
/// greater than 2^40 counts as 2^40. It takes no memory.
#[cycle(size)]
pub fn size(expr: &Expr) -> u64
    ensures { result ≡ min (size_of expr.now) (2 ^ 40) }
{
    match expr {
        Expr::Empty | Expr::Class(_) | Expr::AnyUnit | Expr::STag(_) | Expr::MTag(_) => 1,
        Expr::Cat(members) => sum_of_sizes(members),
        Expr::Alt(members) => GREATEST_SIZE.min(sum_of_sizes(members) + 1),
        Expr::Rep(body, low, high) => {
            let times = u64::from((*low).max(high.unwrap_or(1)).max(1));
            GREATEST_SIZE.min(GREATEST_SIZE.min(size(body).saturating_mul(times)) + 1)
        }
        Expr::Group(number, body) => {
            let ends = if *number == 0 { 0 } else { 2 };
            GREATEST_SIZE.min(size(body) + ends)
        }
    }
}

/// Whether all members match the empty word.
#[cycle(nullable)]
fn all_nullable(members: &[Expr]) -> bool
    ensures { (enc : Enc) (tags part : ℕ) → IsTrue result ↔ HasEmptyRow enc part (members_of (map (term_of tags) members.now)) }
{
    for member in members {
        if !nullable(member) {
            return false;
        }
    }
    true
}

/// Whether some member matches the empty word.
#[cycle(nullable)]
fn some_nullable(members: &[Expr]) -> bool
    ensures { (enc : Enc) (tags part : ℕ) → IsTrue result ↔ HasEmptyChoice enc part (members_of (map (term_of tags) members.now)) }
{
    for member in members {
        if nullable(member) {
            return true;
        }
    }
    false
}

/// Whether some number of iterations lies within the bounds.
fn are_bounds(low: u32, high: Option<u32>) -> bool
    ensures { IsTrue result ↔ IsAtMost low high }
{
    high.is_none_or(|most| low <= most)
}

/// Whether an expression matches the empty word: whether it has a tree without units. It takes no memory.
#[cycle(nullable)]
pub fn nullable(expr: &Expr) -> bool
    ensures { (enc : Enc) (tags part : ℕ) → IsTrue result ↔ HasTree enc part (term_of tags expr.now) [] }
{
    match expr {
        Expr::Empty | Expr::STag(_) | Expr::MTag(_) => true,
        Expr::Class(_) | Expr::AnyUnit => false,
        Expr::Cat(members) => all_nullable(members),
        Expr::Alt(members) => some_nullable(members),
        Expr::Rep(body, low, high) => are_bounds(*low, *high) && (*low == 0 || nullable(body)),
        Expr::Group(_, body) => nullable(body),
    }
}
