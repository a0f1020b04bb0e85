//! What is read of an expression.
ghost use Rattle.std.specs.Prelude.{◌≡◌, ◌++◌, ℕ, ◌+◌, ◌^◌, IfOk, List, Option, map, min};
ghost use Rattle.lx_base.specs.declared.limits.TheConstants.{BOUND_LIMIT, SIZE_LIMIT};
ghost use Rattle.lx_regex.specs.Expr.{members_of, size_of, term_of};
ghost use Rattle.lx_regex.specs.Expr as regex;
ghost use Rattle.lx_exprs.specs.Defined.{both_classes, class_in, classes_in};
ghost use Rattle.lx_exprs.specs.Values.{HasPoints};

use crate::sets::Collected;
use lx_base::Memory;
use lx_base::limits::{NESTING_LIMIT, TAG_LIMIT};
use lx_class::ClassSet;
use lx_regex::Expr;
use lx_token::Repeat;
use std::alloc::Global;

/// Where kept sizes end: 2^40 stands for itself and for more.
const MOST_KEPT: u64 = 1 << 40;

/// What an expression may have at most so that it is built.
#[derive(Clone, Copy)]
pub struct Room {
    pub size: u64,
    pub tags: u64,
}

impl Room {
    ghost use Rattle.std.specs.Prelude.{◌≡◌};
    ghost use Rattle.lx_exprs.specs.Defined.{fits};

    /// Whether an expression of this size and nesting, with so many tags up to its end, two for each group, is built.
    pub fn fits(self, size: u64, nesting: u64, tags: u64) -> bool
        ensures { result ≡ fits self size nesting tags }
    {
        size <= self.size && nesting <= NESTING_LIMIT && tags <= self.tags
    }
}

/// What stands in an expression.
pub enum Content {
    /// One expression.
    One(Expr),
    /// Expressions one behind another.
    Row(Vec<Expr>),
    /// Alternatives.
    Choice(Vec<Expr>),
    /// What is past a limit and not built: the ranges of its class, if it is one, and whether it has alternatives.
    Past(Option<Collected>, bool),
}

impl Drop for Content {
    fn drop(self) {
        match self {
            Self::One(_) => {}
            Self::Row(_) => {}
            Self::Choice(_) => {}
            Self::Past(_, _) => {}
        }
    }
}

/// What is read of an expression. 2^40 stands for itself and for more in its numbers.
#[derive(Drop)]
pub struct Value {
    content: Content,
    pub size: u64,
    pub nesting: u64,
    /// How many groups it has.
    pub groups: u64,
    /// How many tags its item has up to its end, two for each group.
    pub tags: u64,
}

/// The sum of two numbers, as far as it is kept.
pub fn sum(number: u64, other: u64) -> u64
    ensures { result ≡ min (2 ^ 40) (number + other) }
{
    MOST_KEPT.min(number.saturating_add(other))
}

/// How often the body of a repetition counts.
fn times(bounds: Repeat) -> u64
    ensures { result ≡ regex.times bounds.min bounds.max }
{
    match bounds.max {
        Some(most) => bounds.min.max(most).max(1),
        None => bounds.min.max(1),
    }
}

/// The points of two classes, if both are some.
fn both_classes(
    alloc: Global,
    class: Option<Collected>,
    other: Option<Collected>,
) -> Result<Option<Collected>, Memory>
    ensures { (ranges others : Option (List (ℕ × ℕ))) → HasPoints class ranges → HasPoints other others → IfOk result (λ both. HasPoints both (both_classes ranges others)) }
{
    let Some(class) = class else {
        return Ok(None);
    };
    let Some(other) = other else {
        return Ok(None);
    };
    let both = class.beside(alloc, other)?;
    Ok(Some(both))
}

/// The points of all of some expressions, if each is a class.
#[cycle(class_of)]
fn class_of_all(alloc: Global, members: &[Expr]) -> Result<Option<Collected>, Memory>
    ensures { IfOk result (λ class. HasPoints class (classes_in (members_of (map (term_of 0) members.now)))) }
{
    let mut all = Some(Collected::none(alloc));
    for member in members {
        let class = class_of(alloc, member)?;
        all = both_classes(alloc, all, class)?;
    }
    Ok(all)
}

/// The class that an expression is, if it is one, or an alternation of classes.
#[cycle(class_of)]
pub fn class_of(alloc: Global, expr: &Expr) -> Result<Option<Collected>, Memory>
    ensures { IfOk result (λ class. HasPoints class (class_in (term_of 0 expr.now))) }
{
    match expr {
        Expr::Class(set) => Ok(Some(Collected::of_set(alloc, set)?)),
        Expr::Alt(members) => class_of_all(alloc, members),
        Expr::Empty
        | Expr::AnyUnit
        | Expr::Cat(_)
        | Expr::Rep(..)
        | Expr::STag(_)
        | Expr::MTag(_)
        | Expr::Group(..) => Ok(None),
    }
}

/// Some expressions, and others behind them.
fn joined(front: Vec<Expr>, back: Vec<Expr>) -> Result<Vec<Expr>, Memory>
    ensures { IfOk result (λ all. all.items ≡ front.items ++ back.items) }
{
    let mut all = front;
    for expr in back {
        all.push(expr)?;
    }
    Ok(all)
}

impl Content {
    ghost use Rattle.std.specs.Prelude.{◌≡◌, ◌<◌, ◌≤◌, ◌+◌, ◌*◌, ℕ, suc, Bool, List, IfOk, IfSome, IfNone, false, not, true, map, sum};
    ghost use Rattle.std.specs.Option.{option_map};
    ghost use Rattle.lx_base.specs.declared.limits.TheConstants.{TAG_LIMIT};
    ghost use Rattle.lx_regex.specs.Expr.{members_of, size_of, term_of, times};
    ghost use Rattle.lx_exprs.specs.Defined.{IsTermKept, Meaning, kept, meant_class, term_of_meaning};
    ghost use Rattle.lx_exprs.specs.FitDefinitions.{FitsKept, HasKeptKinds};
    ghost use Rattle.lx_exprs.specs.Meanings.{alternated, enclosed, followed, grouped, in_choice, in_row, repeated_by};
    ghost use Rattle.lx_exprs.specs.Values.{AreTagsBelow, HasKinds, HasPoints, HasTagsBelow, HaveTagsBelow, IsContent, content_kinds, content_size, is_choice_content, is_past};
    ghost use Rattle.lx_regex.specs.Kinds.{joined, kinds_of};
    ghost use Rattle.lx_regex.specs.declared.rules.Tag.{Tag as tag_type};

    /// Whether it is built.
    fn is_built(&self) -> bool
        ensures { result ≡ not (is_past self.now) }
    {
        !matches!(self, Content::Past(..))
    }

    /// Whether alternatives stand there.
    fn is_choice(&self) -> bool
        ensures { result ≡ is_choice_content self.now }
    {
        match self {
            Content::One(_) | Content::Row(_) => false,
            Content::Choice(_) => true,
            Content::Past(_, alternatives) => *alternatives,
        }
    }

    /// The class that it is, if it is one.
    fn into_class(self, alloc: Global) -> Result<Option<Collected>, Memory>
        ensures { (is_built : Bool) (meaning : Meaning) → IsContent is_built meaning self → IfOk result (λ class. HasPoints class (meant_class meaning)) }
    {
        match self {
            Content::One(expr) => class_of(alloc, &expr),
            Content::Row(_members) => Ok(None),
            Content::Choice(members) => class_of_all(alloc, &members),
            Content::Past(class, _) => Ok(class),
        }
    }

    /// The expression, where it is built.
    fn into_expr(self) -> Option<Expr>
        ensures built { (is_built : Bool) (meaning : Meaning) → IsContent is_built meaning self
            → IfSome result (λ expr. term_of 0 expr ≡ term_of_meaning meaning) }
        ensures past { IfNone result (is_past self ≡ true) }
        ensures kept { IfSome result (λ expr. is_past self ≡ false) }
        ensures size { IfSome result (λ expr. size_of expr ≡ content_size self) }
        ensures tags { (bound : ℕ) → AreTagsBelow bound self → IfSome result (λ expr. HasTagsBelow 1 bound (term_of 0 expr)) }
        ensures kinds { IfSome result (λ expr. kinds_of expr ≡ content_kinds self) }
    {
        match self {
            Content::One(expr) => Some(expr),
            Content::Row(members) => Some(Expr::Cat(members)),
            Content::Choice(members) => Some(Expr::Alt(members)),
            Content::Past(_class, _) => None,
        }
    }

    /// What is kept of it for a definition: the expression, where it is built, and else its class, if it is one.
    fn into_kept(self, alloc: Global) -> Result<Option<Expr>, Memory>
        ensures term { (is_built : Bool) (meaning : Meaning) → IsContent is_built meaning self → is_past self ≡ not is_built
            → IfOk result (λ found. IsTermKept is_built meaning (option_map (term_of 0) found)) }
        ensures kept { (size tags : ℕ) → 1 ≤ size → content_size self ≤ size → AreTagsBelow tags self → IfOk result (λ found. FitsKept 1 found size tags) }
        ensures kinds { (tags : List tag_type) → HasKinds tags self → IfOk result (HasKeptKinds tags) }
    {
        match self {
            Content::Past(class, _) => match class {
                Some(collected) => Ok(Some(Expr::Class(collected.into_set(alloc)?))),
                None => Ok(None),
            },
            content => Ok(content.into_expr()),
        }
    }

    /// What stands in a sequence, where it is built.
    fn into_row(self, alloc: Global) -> Result<Option<Vec<Expr>>, Memory>
        ensures built { (is_built : Bool) (meaning : Meaning) → IsContent is_built meaning self
            → IfOk result (λ row. IfSome row (λ members. map (term_of 0) members.items ≡ in_row meaning.shape)) }
        ensures past { IfOk result (λ row. IfNone row (is_past self ≡ true)) }
        ensures size { IfOk result (λ row. IfSome row (λ members. sum (map size_of members.items) ≤ content_size self)) }
        ensures tags { (bound : ℕ) → AreTagsBelow bound self
            → IfOk result (λ row. IfSome row (λ members. HaveTagsBelow 1 bound (members_of (map (term_of 0) members.items)))) }
        ensures kinds { IfOk result (λ row. IfSome row (λ members. joined (map kinds_of members.items) ≡ content_kinds self)) }
    {
        match self {
            Content::Row(members) => Ok(Some(members)),
            content => match content.into_expr() {
                Some(expr) => Ok(Some(vec![in alloc; expr]?)),
                None => Ok(None),
            },
        }
    }

    /// What stands in an alternation, where it is built.
    fn into_choice(self, alloc: Global) -> Result<Option<Vec<Expr>>, Memory>
        ensures built { (is_built : Bool) (meaning : Meaning) → IsContent is_built meaning self
            → IfOk result (λ choice. IfSome choice (λ members. map (term_of 0) members.items ≡ in_choice meaning.shape)) }
        ensures past { IfOk result (λ choice. IfNone choice (is_past self ≡ true)) }
        ensures size { IfOk result (λ choice. IfSome choice (λ members. sum (map size_of members.items) ≤ content_size self)) }
        ensures choice { is_choice_content self ≡ true → IfOk result (λ choice. IfSome choice (λ members. sum (map size_of members.items) + 1 ≤ content_size self)) }
        ensures tags { (bound : ℕ) → AreTagsBelow bound self
            → IfOk result (λ choice. IfSome choice (λ members. HaveTagsBelow 1 bound (members_of (map (term_of 0) members.items)))) }
        ensures kinds { IfOk result (λ choice. IfSome choice (λ members. joined (map kinds_of members.items) ≡ content_kinds self)) }
    {
        match self {
            Content::Choice(members) => Ok(Some(members)),
            content => match content.into_expr() {
                Some(expr) => Ok(Some(vec![in alloc; expr]?)),
                None => Ok(None),
            },
        }
    }

    /// This, and another alternative.
    fn beside(self, alloc: Global, right: Content) -> Result<Content, Memory>
        ensures stands { (is_left_built is_right_built is_built : Bool) (first second : Meaning) → IsContent is_left_built first self
            → IsContent is_right_built second right → (is_left_built ≡ false → is_built ≡ false) → (is_right_built ≡ false → is_built ≡ false)
            → IfOk result (IsContent is_built (alternated first second)) }
        ensures size { IfOk result (λ both. content_size both ≤ content_size self + 1 + content_size right) }
        ensures choice { is_choice_content self ≡ true → IfOk result (λ both. content_size both ≤ content_size self + content_size right) }
        ensures tags { (bound : ℕ) → AreTagsBelow bound self → AreTagsBelow bound right → IfOk result (AreTagsBelow bound) }
        ensures kinds { (tags : List tag_type) → HasKinds tags self → HasKinds tags right → IfOk result (HasKinds tags) }
    {
        if !self.is_built() || !right.is_built() {
            let class = self.into_class(alloc)?;
            let other = right.into_class(alloc)?;
            let both = both_classes(alloc, class, other)?;
            return Ok(Content::Past(both, true));
        }
        let members = self.into_choice(alloc)?;
        let Some(members) = members else {
            unreachable!()
        };
        let Some(expr) = right.into_expr() else {
            unreachable!()
        };
        let mut members = members;
        members.push(expr)?;
        Ok(Content::Choice(members))
    }

    /// This, and something behind it.
    fn followed_by(self, alloc: Global, back: Content) -> Result<Content, Memory>
        ensures stands { (is_front_built is_back_built is_built : Bool) (first second : Meaning) → IsContent is_front_built first self
            → IsContent is_back_built second back → (is_front_built ≡ false → is_built ≡ false) → (is_back_built ≡ false → is_built ≡ false)
            → IfOk result (IsContent is_built (followed first second)) }
        ensures size { IfOk result (λ both. content_size both ≤ content_size self + content_size back) }
        ensures tags { (bound : ℕ) → AreTagsBelow bound self → AreTagsBelow bound back → IfOk result (AreTagsBelow bound) }
        ensures kinds { (tags : List tag_type) → HasKinds tags self → HasKinds tags back → IfOk result (HasKinds tags) }
    {
        if !self.is_built() || !back.is_built() {
            return Ok(Content::Past(None, false));
        }
        let front = self.into_row(alloc)?;
        let Some(front) = front else { unreachable!() };
        let back = back.into_row(alloc)?;
        let Some(back) = back else { unreachable!() };
        Ok(Content::Row(joined(front, back)?))
    }

    /// The same, repeated.
    fn repeated(self, alloc: Global, bounds: Repeat) -> Result<Content, Memory>
        requires least { bounds.min ≤ BOUND_LIMIT }
        requires most { IfSome bounds.max (λ most. most ≤ BOUND_LIMIT) }
        ensures stands { (is_built is_built_around : Bool) (meaning : Meaning) → IsContent is_built meaning self
            → (is_built ≡ false → is_built_around ≡ false) → IfOk result (IsContent is_built_around (repeated_by bounds meaning)) }
        ensures size { IfOk result (λ around. content_size around ≤ content_size self * times bounds.min bounds.max + 1) }
        ensures tags { (bound : ℕ) → AreTagsBelow bound self → IfOk result (AreTagsBelow bound) }
        ensures kinds { (tags : List tag_type) → HasKinds tags self → IfOk result (HasKinds tags) }
    {
        let Some(body) = self.into_expr() else {
            return Ok(Content::Past(None, false));
        };
        let high = match bounds.max {
            Some(most) => Some(most as u32),
            None => None,
        };
        let body = Box::new(alloc, body)?;
        Ok(Content::One(Expr::Rep(body, bounds.min as u32, high)))
    }

    /// The same in parentheses that are no group.
    fn enclosed(self) -> Content
        ensures stands { (is_built is_built_around : Bool) (meaning : Meaning) → IsContent is_built meaning self
            → (is_built ≡ false → is_built_around ≡ false) → IsContent is_built_around (enclosed meaning) result }
        ensures size { content_size result ≤ content_size self }
        ensures tags { (bound : ℕ) → AreTagsBelow bound self → AreTagsBelow bound result }
        ensures kinds { (tags : List tag_type) → HasKinds tags self → HasKinds tags result }
    {
        match self {
            Content::One(expr) => Content::One(expr),
            Content::Row(members) => Content::One(Expr::Cat(members)),
            Content::Choice(members) => Content::One(Expr::Alt(members)),
            Content::Past(class, _) => Content::Past(class, false),
        }
    }

    /// The same in parentheses that are a group, behind so many others. One that is past the limit is not built.
    fn grouped(self, alloc: Global, before: u64) -> Result<Content, Memory>
        ensures stands { (is_built is_built_around : Bool) (meaning : Meaning) → IsContent is_built meaning self
            → (is_built ≡ false → is_built_around ≡ false) → (TAG_LIMIT ≤ before → is_built_around ≡ false)
            → IfOk result (IsContent is_built_around (grouped (kept (suc before)) meaning)) }
        ensures size { IfOk result (λ around. content_size around ≤ content_size self + 2) }
        ensures tags { (bound : ℕ) → AreTagsBelow bound self → (before < TAG_LIMIT → 2 * suc before ≤ bound) → IfOk result (AreTagsBelow bound) }
        ensures kinds { (tags : List tag_type) → HasKinds tags self → IfOk result (HasKinds tags) }
    {
        if before >= TAG_LIMIT {
            return Ok(Content::Past(None, false));
        }
        let Some(body) = self.into_expr() else {
            return Ok(Content::Past(None, false));
        };
        let body = Box::new(alloc, body)?;
        Ok(Content::One(Expr::Group(before as u32 + 1, body)))
    }
}

impl Value {
    ghost use Rattle.std.specs.Prelude.{◌≡◌, ◌≤◌, suc, List, IfNone, IfOk, IfSome, false};
    ghost use Rattle.std.specs.Option.{option_map};
    ghost use Rattle.lx_regex.specs.Expr.{size_of, term_of};
    ghost use Rattle.lx_exprs.specs.Defined.{HasClass, IsTermKept, Meaning, is_built, kept, meant_class, term_of_meaning, whole_room};
    ghost use Rattle.lx_exprs.specs.Meanings.{alternated, enclosed, followed, grouped, repeated_by};
    ghost use Rattle.lx_exprs.specs.Values.{AreTagsBelow, HasKinds, HasPoints, HasValueKinds, IsContent, IsCounted, IsBounded, IsRoom, IsValue, content_size};
    ghost use Rattle.lx_exprs.specs.FitDefinitions.{FitsKept, HasKeptKinds};
    ghost use Rattle.lx_regex.specs.declared.rules.Tag.{Tag as tag_type};

    /// What is read, where these are its numbers: past a limit only its class is kept.
    pub fn limited(
        alloc: Global,
        room: Room,
        content: Content,
        size: u64,
        nesting: u64,
        groups: u64,
        tags: u64,
    ) -> Result<Value, Memory>
        requires { IsRoom room }
        ensures stands { (meaning : Meaning) → IsCounted meaning size nesting groups tags → IsContent (is_built room meaning) meaning content → IfOk result (IsValue room meaning) }
        ensures bounded { 1 ≤ size → (size ≤ SIZE_LIMIT → content_size content ≤ size) → AreTagsBelow tags content → IfOk result IsBounded }
        ensures kinds { (all : List tag_type) → HasKinds all content → IfOk result (HasValueKinds all) }
        ensures groups { IfOk result (λ value. value.groups ≡ groups) }
    {
        if room.fits(size, nesting, tags) {
            return Ok(Value {
                content,
                size,
                nesting,
                groups,
                tags,
            });
        }
        let alternatives = content.is_choice();
        let class = content.into_class(alloc)?;
        Ok(Value {
            content: Content::Past(class, alternatives),
            size,
            nesting,
            groups,
            tags,
        })
    }

    /// This in parentheses that are no group.
    pub fn enclosed(self, alloc: Global, room: Room) -> Result<Value, Memory>
        requires { IsRoom room }
        ensures stands { (meaning : Meaning) → IsValue room meaning self → IfOk result (IsValue room (enclosed meaning)) }
        ensures bounded { IsBounded self → IfOk result IsBounded }
        ensures kinds { (tags : List tag_type) → HasValueKinds tags self → IfOk result (HasValueKinds tags) }
    {
        let (size, groups, tags) = (self.size, self.groups, self.tags);
        let nesting = sum(self.nesting, 1);
        let content = self.content.enclosed();
        Value::limited(alloc, room, content, size, nesting, groups, tags)
    }

    /// This in parentheses that are a group, behind so many others.
    pub fn grouped(self, alloc: Global, room: Room, before: u64) -> Result<Value, Memory>
        requires { IsRoom room }
        ensures stands { (meaning : Meaning) → IsValue room meaning self → IfOk result (IsValue room (grouped (kept (suc before)) meaning)) }
        ensures bounded { IsBounded self → IfOk result IsBounded }
        ensures kinds { (tags : List tag_type) → HasValueKinds tags self → IfOk result (HasValueKinds tags) }
    {
        let size = sum(self.size, 2);
        let nesting = sum(self.nesting, 1);
        let groups = sum(self.groups, 1);
        let number = sum(before, 1);
        let tags = self.tags.max(sum(number, number));
        let content = self.content.grouped(alloc, before)?;
        Value::limited(alloc, room, content, size, nesting, groups, tags)
    }

    /// This, repeated.
    pub fn repeated(self, alloc: Global, room: Room, bounds: Repeat) -> Result<Value, Memory>
        requires room { IsRoom room }
        requires least { bounds.min ≤ BOUND_LIMIT }
        requires most { IfSome bounds.max (λ most. most ≤ BOUND_LIMIT) }
        ensures stands { (meaning : Meaning) → IsValue room meaning self → IfOk result (IsValue room (repeated_by bounds meaning)) }
        ensures bounded { IsBounded self → IfOk result IsBounded }
        ensures kinds { (tags : List tag_type) → HasValueKinds tags self → IfOk result (HasValueKinds tags) }
    {
        let size = sum(MOST_KEPT.min(self.size.saturating_mul(times(bounds))), 1);
        let nesting = sum(self.nesting, 1);
        let (groups, tags) = (self.groups, self.tags);
        let content = self.content.repeated(alloc, bounds)?;
        Value::limited(alloc, room, content, size, nesting, groups, tags)
    }

    /// This, and something behind it.
    pub fn followed_by(self, alloc: Global, room: Room, back: Value) -> Result<Value, Memory>
        requires { IsRoom room }
        ensures stands { (first second : Meaning) → IsValue room first self → IsValue room second back → IfOk result (IsValue room (followed first second)) }
        ensures bounded { IsBounded self → IsBounded back → IfOk result IsBounded }
        ensures kinds { (tags : List tag_type) → HasValueKinds tags self → HasValueKinds tags back → IfOk result (HasValueKinds tags) }
    {
        let size = sum(self.size, back.size);
        let nesting = self.nesting.max(back.nesting);
        let groups = sum(self.groups, back.groups);
        let tags = self.tags.max(back.tags);
        let content = self.content.followed_by(alloc, back.content)?;
        Value::limited(alloc, room, content, size, nesting, groups, tags)
    }

    /// This, or something else.
    pub fn beside(self, alloc: Global, room: Room, right: Value) -> Result<Value, Memory>
        requires { IsRoom room }
        ensures stands { (first second : Meaning) → IsValue room first self → IsValue room second right → IfOk result (IsValue room (alternated first second)) }
        ensures bounded { IsBounded self → IsBounded right → IfOk result IsBounded }
        ensures kinds { (tags : List tag_type) → HasValueKinds tags self → HasValueKinds tags right → IfOk result (HasValueKinds tags) }
    {
        let more = if self.content.is_choice() { 0 } else { 1 };
        let size = sum(sum(self.size, more), right.size);
        let nesting = self.nesting.max(right.nesting);
        let groups = sum(self.groups, right.groups);
        let tags = self.tags.max(right.tags);
        let content = self.content.beside(alloc, right.content)?;
        Value::limited(alloc, room, content, size, nesting, groups, tags)
    }

    /// The ranges of the class that it is, if it is one.
    pub fn into_ranges(self, alloc: Global) -> Result<Option<Collected>, Memory>
        ensures { (room : Room) (meaning : Meaning) → IsValue room meaning self → IfOk result (λ ranges. HasPoints ranges (meant_class meaning)) }
    {
        self.content.into_class(alloc)
    }

    /// The class that it is, if it is one.
    pub fn into_class(self, alloc: Global) -> Result<Option<ClassSet>, Memory>
        ensures { (room : Room) (meaning : Meaning) → IsValue room meaning self → IfOk result (λ class. HasClass class (meant_class meaning)) }
    {
        match self.content.into_class(alloc)? {
            Some(collected) => Ok(Some(collected.into_set(alloc)?)),
            None => Ok(None),
        }
    }

    /// What is kept of it for a definition: the expression, where it is built, and else its class, if it is one.
    pub fn into_kept(self, alloc: Global) -> Result<Option<Expr>, Memory>
        ensures term { (meaning : Meaning) → IsValue whole_room meaning self
            → IfOk result (λ found. IsTermKept (is_built whole_room meaning) meaning (option_map (term_of 0) found)) }
        ensures kept { IsBounded self → IfOk result (λ found. FitsKept 1 found self.size self.tags) }
        ensures kinds { (tags : List tag_type) → HasValueKinds tags self → IfOk result (HasKeptKinds tags) }
    {
        self.content.into_kept(alloc)
    }

    /// The expression, where it is built.
    pub fn into_expr(self) -> Option<Expr>
        ensures built { (room : Room) (meaning : Meaning) → IsValue room meaning self
            → IfSome result (λ expr. term_of 0 expr ≡ term_of_meaning meaning) }
        ensures past { (room : Room) (meaning : Meaning) → IsValue room meaning self → IfNone result (is_built room meaning ≡ false) }
        ensures kept { IsBounded self → FitsKept 1 result self.size self.tags }
        ensures kinds { (tags : List tag_type) → HasValueKinds tags self → HasKeptKinds tags result }
    {
        self.content.into_expr()
    }
}
