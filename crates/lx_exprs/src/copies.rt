//! Copies of expressions.
ghost use Rattle.std.specs.Prelude.{◌≡◌, ◌≤◌, ◌⊎◌, IfOk, map};
ghost use Rattle.lx_regex.specs.Expr.{members_of, size_of, term_of};
ghost use Rattle.lx_regex.specs.Kinds.{kinds_of};
ghost use Rattle.lx_exprs.specs.Meanings.{moved, shifted};
ghost use Rattle.lx_exprs.specs.Values.{HasTagsBelow, HaveTagsBelow};

use lx_base::Memory;
use lx_regex::Expr;
use std::alloc::Global;

/// Expressions with the same terms, in the same order, but for the numbers of their tags, which are greater by one number, and of
/// their groups, which are greater by another.
#[cycle(copy)]
fn copy_members(alloc: Global, members: &[Expr], by: u32, groups: u32) -> Result<Vec<Expr>, Memory>
    requires by { by ≤ 128 }
    requires groups { groups ≤ 128 }
    requires tags { HaveTagsBelow 0 128 (members_of (map (term_of 0) members.now)) }
    ensures terms { IfOk result (λ copies. map (term_of 0) copies.items ≡ map (λ member. shifted by groups (term_of 0 member)) members.now) }
    ensures sizes { (groups ≡ 0) ⊎ HaveTagsBelow 1 128 (members_of (map (term_of 0) members.now)) → IfOk result (λ copies. map size_of copies.items ≡ map size_of members.now) }
    ensures kinds { IfOk result (λ copies. map kinds_of copies.items ≡ map (λ member. moved by (kinds_of member)) members.now) }
{
    let mut copies = Vec::new(alloc);
    for member in members {
        copies.push(copy(alloc, member, by, groups)?)?;
    }
    Ok(copies)
}

/// An expression with the same term, but for the numbers of its tags, which are greater by one number, and of its groups, which
/// are greater by another.
#[cycle(copy)]
pub fn copy(alloc: Global, expr: &Expr, by: u32, groups: u32) -> Result<Expr, Memory>
    requires by { by ≤ 128 }
    requires groups { groups ≤ 128 }
    requires tags { HasTagsBelow 0 128 (term_of 0 expr.now) }
    ensures term { IfOk result (λ copy. term_of 0 copy ≡ shifted by groups (term_of 0 expr.now)) }
    ensures size { (groups ≡ 0) ⊎ HasTagsBelow 1 128 (term_of 0 expr.now) → IfOk result (λ copy. size_of copy ≡ size_of expr.now) }
    ensures kinds { IfOk result (λ copy. kinds_of copy ≡ moved by (kinds_of expr.now)) }
{
    match expr {
        Expr::Empty => Ok(Expr::Empty),
        Expr::Class(set) => Ok(Expr::Class(set.copy(alloc)?)),
        Expr::AnyUnit => Ok(Expr::AnyUnit),
        Expr::Cat(members) => Ok(Expr::Cat(copy_members(alloc, members, by, groups)?)),
        Expr::Alt(members) => Ok(Expr::Alt(copy_members(alloc, members, by, groups)?)),
        Expr::Rep(body, low, high) => {
            let body = Box::new(alloc, copy(alloc, body, by, groups)?)?;
            Ok(Expr::Rep(body, *low, *high))
        }
        Expr::STag(number) => Ok(Expr::STag(*number + by)),
        Expr::MTag(number) => Ok(Expr::MTag(*number + by)),
        Expr::Group(number, body) => {
            let body = Box::new(alloc, copy(alloc, body, by, groups)?)?;
            Ok(Expr::Group(*number + groups, body))
        }
    }
}
