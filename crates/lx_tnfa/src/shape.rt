//! The shapes of expressions: how many parts they have and which tags, gathered once for all that stands in them.
ghost use Rattle.std.specs.Prelude.{◌≡◌, ◌∷◌, [], ◌+◌, ◌^◌, min, map, IfOk};
ghost use Rattle.lx_regex.specs.Expr.{members_of, term_of};
ghost use Rattle.lx_tnfa.specs.Ends.{EndsFit, EndsFitAmong};
ghost use Rattle.lx_tnfa.specs.Shapes.{HasShape, IsAround, HaveShapes, parts_together, tags_together};

use crate::tags::{merge_tags, put_tag};
use lx_base::Memory;
use lx_regex::Expr;
use lx_regex::parts::copies;
use std::alloc::Global;

/// The number of parts that stands for itself and every greater one.
const PARTS_LIMIT: u64 = 1 << 31;

/// What the states of an expression need of all that stands in it.
#[derive(Drop)]
pub(crate) struct Shape {
    /// How many parts it has, each copy of a body apart, up to the limit.
    pub parts: u32,
    /// Its tags and group ends, ascending.
    pub tags: Vec<u32>,
    /// The shapes of its members, or of its body.
    pub members: Vec<Shape>,
}

/// A number of parts up to the limit.
fn capped(parts: u64) -> u32
    ensures { result ≡ min parts (2 ^ 31) }
{
    PARTS_LIMIT.min(parts) as u32
}

/// The number of parts of members together, up to the limit.
fn parts_together(members: &[Shape]) -> u32
    ensures { result ≡ min (parts_together members.now) (2 ^ 31) }
{
    let mut parts = 0;
    for member in members {
        parts = capped(parts as u64 + member.parts as u64);
    }
    parts
}

/// The tags of members together.
fn tags_together(alloc: Global, members: &[Shape]) -> Result<Vec<u32>, Memory>
    ensures { IfOk result (λ tags. tags.items ≡ tags_together members.now) }
{
    let mut tags = Vec::new(alloc);
    for member in members {
        merge_tags(&mut tags, &member.tags)?;
    }
    Ok(tags)
}

/// The shape of one part with members in it.
fn around(alloc: Global, members: Vec<Shape>) -> Result<Shape, Memory>
    ensures { IfOk result (IsAround members.items) }
{
    let parts = capped(1 + parts_together(&members) as u64);
    let tags = tags_together(alloc, &members)?;
    Ok(Shape {
        parts,
        tags,
        members,
    })
}

/// A list of one shape.
fn only(alloc: Global, shape: Shape) -> Result<Vec<Shape>, Memory>
    ensures { IfOk result (λ list. list.items ≡ shape ∷ []) }
{
    let mut list = Vec::new(alloc);
    list.push(shape)?;
    Ok(list)
}

/// The shapes of members.
#[cycle(shape)]
fn shapes_of(alloc: Global, tags: u32, members: &[Expr]) -> Result<Vec<Shape>, Memory>
    requires { EndsFitAmong (members_of (map (term_of tags) members.now)) }
    ensures { IfOk result (λ shapes. HaveShapes (members_of (map (term_of tags) members.now)) shapes.items) }
{
    let mut shapes = Vec::new(alloc);
    for member in members {
        shapes.push(shape_of(alloc, tags, member)?)?;
    }
    Ok(shapes)
}

/// The shape of an expression. Behind so many tags the group ends are numbered.
#[cycle(shape)]
pub(crate) fn shape_of(alloc: Global, tags: u32, expr: &Expr) -> Result<Shape, Memory>
    requires { EndsFit (term_of tags expr.now) }
    ensures { IfOk result (HasShape (term_of tags expr.now)) }
{
    match expr {
        Expr::Empty | Expr::Class(_) | Expr::AnyUnit => around(alloc, Vec::new(alloc)),
        Expr::Cat(members) | Expr::Alt(members) => around(alloc, shapes_of(alloc, tags, members)?),
        Expr::Rep(body, low, high) => {
            let inner = shape_of(alloc, tags, body)?;
            Ok(Shape {
                parts: capped(1 + copies(*low, *high) as u64 * inner.parts as u64),
                tags: Vec::from_slice(alloc, &inner.tags)?,
                members: only(alloc, inner)?,
            })
        }
        Expr::STag(number) | Expr::MTag(number) => {
            let mut own = Vec::new(alloc);
            own.push(*number)?;
            Ok(Shape {
                parts: 1,
                tags: own,
                members: Vec::new(alloc),
            })
        }
        Expr::Group(number, body) => {
            let opening = tags + 2 * *number;
            let inner = shape_of(alloc, tags, body)?;
            let mut all = Vec::from_slice(alloc, &inner.tags)?;
            put_tag(&mut all, opening + 1)?;
            put_tag(&mut all, opening)?;
            Ok(Shape {
                parts: capped(1 + inner.parts as u64),
                tags: all,
                members: only(alloc, inner)?,
            })
        }
    }
}
