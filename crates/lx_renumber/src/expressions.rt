//! Whether expressions are the same.
ghost use Rattle.std.specs.Prelude.{◌≡◌, ℕ, IsTrue, map};
ghost use Rattle.lx_regex.specs.Expr.{term_of};
ghost use Rattle.lx_regex.specs.Kinds.{kinds_of};

use lx_regex::Expr;

/// Whether expressions are the same ones in the same order.
#[cycle(is_same)]
fn are_same(members: &[Expr], others: &[Expr]) -> bool
    ensures terms { IsTrue result → (tags : ℕ) → map (term_of tags) others.now ≡ map (term_of tags) members.now }
    ensures kinds { IsTrue result → map kinds_of others.now ≡ map kinds_of members.now }
{
    if members.len() != others.len() {
        return false;
    }
    for (place, member) in members.iter().enumerate() {
        if !is_same(member, &others[place]) {
            return false;
        }
    }
    true
}

/// Whether an expression is the same as another one, form by form. It takes no memory.
#[cycle(is_same)]
pub(crate) fn is_same(expr: &Expr, other: &Expr) -> bool
    ensures term { IsTrue result → (tags : ℕ) → term_of tags other.now ≡ term_of tags expr.now }
    ensures kinds { IsTrue result → kinds_of other.now ≡ kinds_of expr.now }
{
    match (expr, other) {
        (Expr::Empty, Expr::Empty) | (Expr::AnyUnit, Expr::AnyUnit) => true,
        (Expr::Class(set), Expr::Class(also)) => set.ranges() == also.ranges(),
        (Expr::Cat(members), Expr::Cat(others)) => are_same(members, others),
        (Expr::Alt(members), Expr::Alt(others)) => are_same(members, others),
        (Expr::Rep(body, low, high), Expr::Rep(same, least, most)) => {
            low == least && high == most && is_same(body, same)
        }
        (Expr::STag(number), Expr::STag(same)) | (Expr::MTag(number), Expr::MTag(same)) => {
            number == same
        }
        (Expr::Group(number, body), Expr::Group(same, inner)) => {
            number == same && is_same(body, inner)
        }
        _ => false,
    }
}
