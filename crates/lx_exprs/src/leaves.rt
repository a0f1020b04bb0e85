//! Reads the tokens of an expression that are no signs between others.
ghost use Rattle.std.specs.Prelude.{◌≡◌, ◌≤◌, ◌∷◌, ◌++◌, ◌^◌, ◌+◌, ℕ, Bool, true, false, List, Some, None, [], IfOk, MatchResult, length, map, max, min, suc, if◌then◌else◌};
ghost use Rattle.lx_base.specs.declared.limits.TheConstants.{SIZE_LIMIT};
ghost use Rattle.lx_base.specs.declared.faults.Fault.TheVariants.{EmptyClass, UnknownName};
ghost use Rattle.lx_base.specs.declared.places.Pos.{Pos};
ghost use Rattle.lx_base.specs.declared.settings.Options.{Options};
ghost use Rattle.lx_class.specs.Ranges.{InRanges, IsCanonical};
ghost use Rattle.lx_regex.specs.Expr.{members_of, size_of, term_of};
ghost use Rattle.lx_regex.specs.Kinds.{kinds_of};
ghost use Rattle.lx_regex.specs.Term.{cat};
ghost use Rattle.lx_regex.specs.declared.rules.Tag.{Tag as tag_type};
ghost use Rattle.lx_exprs.specs.Checks.{IsFilled, PointsAre, StopsAt};
ghost use Rattle.lx_exprs.specs.Defined.{Before, Definition, and_more, count_of, is_built, kept};
ghost use Rattle.lx_forms.specs.Lexemes as lexical;
ghost use Rattle.lx_forms.specs.Lexemes.{points_in};
ghost use Rattle.lx_exprs.specs.Meanings.{IsSetOf, character_set, class_meaning, copied, meaning_of_string, set_term, string_meaning, tag_meaning};
ghost use Rattle.lx_exprs.specs.Points.{singles};
ghost use Rattle.lx_exprs.specs.Reading.{IsLeafRead, IsLeafResult};
ghost use Rattle.lx_exprs.specs.Seen.{AreCodePoints, IsStop, definition_view, scope_view, points_of};
ghost use Rattle.lx_forms.specs.Seen.{lexeme_view};
ghost use Rattle.lx_exprs.specs.FitDefinitions.{ScopeFits, IsFitDefinition};
ghost use Rattle.lx_exprs.specs.Values.{AreTagsBelow, HasKinds, HasValueKinds, IsContent, IsBounded, IsRoom, IsValue, content_size, is_past};
ghost use Rattle.lx_token.specs.declared.kinds.TokenKind.TheVariants as kind;

use crate::copies::copy;
use crate::definitions::{Kept, Scope};
use crate::points::points_fault;
use crate::sets::{character_set, class_set, line_set, ranges_of, single_ranges};
use crate::tags::{SeenTags, repeated_tag, tag_name};
use crate::values::{Content, Room, Value, class_of, sum};
use lx_base::limits::{SIZE_LIMIT, TAG_LIMIT};
use lx_base::{ByteText, EmptyPolicy, Fault, Memory, Options, Pos, Stop, SurPolicy};
use lx_class::ClassSet;
use lx_forms::lexemes::Lexeme;
use lx_regex::Expr;
use lx_token::{Character, TokenKind, characters_of, class_of as written_class};
use std::alloc::Global;

/// What does not change while an expression is read.
#[derive(Clone, Copy)]
pub struct Reader<'r, 'd> {
    pub options: &'r Options,
    pub scope: Scope<'d>,
    /// What the expression may have; a greater one is read to its end and not built.
    pub room: Room,
}

/// The characters of a string, one behind another.
fn sequence(
    alloc: Global,
    policy: SurPolicy,
    is_caseless: bool,
    characters: &[Character],
) -> Result<Expr, Memory>
    requires { AreCodePoints characters.now }
    ensures term { IfOk result (λ expr. term_of 0 expr ≡ cat (members_of (map set_term (map (character_set policy is_caseless) (points_of characters.now))))) }
    ensures size { IfOk result (λ expr. size_of expr ≡ length characters.now) }
    ensures kinds { IfOk result (λ expr. kinds_of expr ≡ []) }
{
    let mut members = Vec::new(alloc);
    for character in characters {
        let set = character_set(alloc, policy, is_caseless, character.point)?;
        members.push(Expr::Class(set))?;
    }
    Ok(Expr::Cat(members))
}

/// What stands in a string. A long one is not built.
fn string_content(
    alloc: Global,
    policy: SurPolicy,
    is_caseless: bool,
    characters: &[Character],
) -> Result<Content, Memory>
    requires { AreCodePoints characters.now }
    ensures stands { (is_built : Bool) (count : ℕ) → (SIZE_LIMIT + 1 ≤ length characters.now → is_built ≡ false)
        → IfOk result (IsContent is_built (string_meaning count (map (character_set policy is_caseless) (points_of characters.now)))) }
    ensures size { IfOk result (λ content. content_size content ≤ max 1 (length characters.now)) }
    ensures tags { (bound : ℕ) → IfOk result (AreTagsBelow bound) }
    ensures kinds { (tags : List tag_type) → IfOk result (HasKinds tags) }
{
    match characters {
        [] => Ok(Content::One(Expr::Empty)),
        [character] => {
            let set = character_set(alloc, policy, is_caseless, character.point)?;
            Ok(Content::One(Expr::Class(set)))
        }
        _ if characters.len() as u64 <= SIZE_LIMIT => {
            let expr = sequence(alloc, policy, is_caseless, characters)?;
            Ok(Content::One(expr))
        }
        _ => Ok(Content::Past(None, false)),
    }
}

/// A class. One that is no operand of a difference and has no point is the empty word, where empty classes match that.
fn class_content(policy: EmptyPolicy, is_operand: bool, set: ClassSet) -> Content
    ensures stands { (is_built : Bool) (nesting groups count : ℕ) (tags : List tag_type) → IsContent is_built (class_meaning is_operand policy nesting tags groups count set) result }
    ensures size { content_size result ≡ 1 }
    ensures tags { (bound : ℕ) → AreTagsBelow bound result }
    ensures kinds { (tags : List tag_type) → HasKinds tags result }
{
    if !is_operand && policy == EmptyPolicy::MatchEmpty && set.ranges().is_empty() {
        return Content::One(Expr::Empty);
    }
    Content::One(Expr::Class(set))
}

/// How many tags these are, two for each group; 2^40 stands for itself and for more.
fn count_of(tags: u64, groups: u64) -> u64
    ensures { result ≡ min (2 ^ 40) (tags + min (2 ^ 40) (groups + groups)) }
{
    sum(tags, sum(groups, groups))
}

/// A copy of the expression of a definition, behind so many tags and groups. A definition without one is past a limit, and so is
/// each expression that names it: what stands for it here is dropped when the value is limited.
fn kept_content(alloc: Global, definition: &Kept, by: u64, groups: u64) -> Result<Content, Memory>
    requires { IsFitDefinition definition.now }
    ensures stands { (is_built : Bool) (before : Before) → by ≡ kept (length before.tags) → groups ≡ before.groups
        → (128 + 1 ≤ count_of (and_more before definition.now.tags definition.now.groups) → is_built ≡ false)
        → IfOk result (IsContent is_built (copied before (definition_view [] definition.now))) }
    ensures size { IfOk result (λ content. content_size content ≤ definition.now.size) }
    ensures tags { (before : Before) → by ≡ kept (length before.tags) → groups ≡ before.groups
        → IfOk result (AreTagsBelow (min (2 ^ 40) (count_of (and_more before definition.now.tags definition.now.groups)))) }
    ensures kinds { (before : List tag_type) → by ≡ kept (length before) → IfOk result (HasKinds (before ++ definition.now.tags)) }
{
    let Some(expr) = &definition.expr else {
        return Ok(Content::One(Expr::Empty));
    };
    let tags = sum(by, definition.tags.len());
    if count_of(tags, sum(groups, definition.groups)) > TAG_LIMIT {
        let class = class_of(alloc, expr)?;
        return Ok(Content::Past(class, false));
    }
    Ok(Content::One(copy(alloc, expr, by as u32, groups as u32)?))
}

/// The fault of a name that has no definition.
fn unknown(alloc: Global, lexeme: &Lexeme<'_>) -> Stop
    ensures { IsStop (Some (UnknownName lexeme.now.at lexeme.now.text.now)) result }
{
    match ByteText::copy_of(alloc, lexeme.text) {
        Ok(name) => Stop::Fault(Fault::UnknownName {
            at: lexeme.at,
            name,
        }),
        Err(_) => Stop::Memory,
    }
}

/// Reads a string behind so many tags.
fn read_string(
    alloc: Global,
    reader: Reader<'_, '_>,
    count: u64,
    lexeme: &Lexeme<'_>,
    is_caseless: bool,
) -> Result<Value, Stop>
    requires { IsRoom reader.room }
    ensures read { (definitions : List Definition) (before : ℕ) → count ≡ kept before → MatchResult result
        (λ value. PointsAre reader.entry.options.now definitions (lexeme_view lexeme.now) (singles (points_in (lexeme_view lexeme.now))) None
        × IsValue reader.entry.room (meaning_of_string reader.entry.options.now definitions is_caseless before (lexeme_view lexeme.now)) value)
        (StopsAt (PointsAre reader.entry.options.now definitions (lexeme_view lexeme.now) (singles (points_in (lexeme_view lexeme.now))))) }
    ensures bounded { IfOk result IsBounded }
    ensures kinds { (tags : List tag_type) → IfOk result (HasValueKinds tags) }
{
    let options = reader.options;
    let characters = characters_of(alloc, lexeme.text)?;
    let characters = characters.as_slice();
    let ranges = single_ranges(alloc, characters)?;
    if let Some(fault) = points_fault(options.enc, options.surrogates, lexeme.at, &ranges) {
        return Err(Stop::Fault(fault));
    }
    let content = string_content(alloc, options.surrogates, is_caseless, characters)?;
    let size = sum((characters.len() as u64).max(1), 0);
    Ok(Value::limited(alloc, reader.room, content, size, 0, 0, count)?)
}

/// Whether a class is refused since it is empty.
fn is_refused(policy: EmptyPolicy, is_operand: bool, set: &ClassSet) -> bool
    ensures refused { (options : Options) (definitions : List Definition) (at : Pos) → result ≡ true
        → IsFilled options definitions policy is_operand at (InRanges set.now) (Some (EmptyClass at)) }
    ensures taken { (options : Options) (definitions : List Definition) (at : Pos) → result ≡ false
        → IsFilled options definitions policy is_operand at (InRanges set.now) None }
{
    policy == EmptyPolicy::Error && !is_operand && set.ranges().is_empty()
}

/// A class of this nesting, with so many groups and at this place, behind so many tags. One that has no point may be refused.
pub fn read_set(
    alloc: Global,
    reader: Reader<'_, '_>,
    count: u64,
    set: ClassSet,
    is_operand: bool,
    nesting: u64,
    groups: u64,
    at: Pos,
) -> Result<Value, Stop>
    requires { IsRoom reader.room }
    ensures read { (definitions : List Definition) (depth all : ℕ) (tags : List tag_type) → nesting ≡ kept depth → count ≡ kept all → MatchResult result
        (λ value. IsFilled reader.entry.options.now definitions reader.entry.options.now.empty is_operand at (InRanges set) None
        × IsValue reader.entry.room (class_meaning is_operand reader.entry.options.now.empty depth tags groups all set) value)
        (StopsAt (IsFilled reader.entry.options.now definitions reader.entry.options.now.empty is_operand at (InRanges set))) }
    ensures bounded { IfOk result IsBounded }
    ensures kinds { (tags : List tag_type) → IfOk result (HasValueKinds tags) }
{
    let policy = reader.options.empty;
    if is_refused(policy, is_operand, &set) {
        return Err(Stop::Fault(Fault::EmptyClass { at }));
    }
    let content = class_content(policy, is_operand, set);
    Ok(Value::limited(alloc, reader.room, content, 1, nesting, groups, count)?)
}

/// Reads a class behind so many tags.
fn read_class(
    alloc: Global,
    reader: Reader<'_, '_>,
    count: u64,
    lexeme: &Lexeme<'_>,
    is_operand: bool,
) -> Result<Value, Stop>
    requires room { IsRoom reader.room }
    requires sort { (lexeme_view lexeme.now).kind ≡ kind.Class }
    ensures read { (before : Before) → count ≡ kept (count_of before)
        → IsLeafResult reader.entry.options.now (scope_view reader.entry.scope) reader.entry.room is_operand before (lexeme_view lexeme.now) before.tags result }
    ensures bounded { IfOk result IsBounded }
    ensures kinds { (tags : List tag_type) → IfOk result (HasValueKinds tags) }
{
    let options = reader.options;
    let class = written_class(alloc, lexeme.text)?;
    let ranges = ranges_of(alloc, class.ranges.as_slice())?;
    if let Some(fault) = points_fault(options.enc, options.surrogates, lexeme.at, &ranges) {
        return Err(Stop::Fault(fault));
    }
    let set = class_set(alloc, options, class.is_negated, &ranges)?;
    read_set(alloc, reader, count, set, is_operand, 0, 0, lexeme.at)
}

/// Reads `.`, which is all code points but the line feed, behind so many tags.
fn read_line(
    alloc: Global,
    reader: Reader<'_, '_>,
    count: u64,
    is_operand: bool,
) -> Result<Value, Memory>
    requires { IsRoom reader.room }
    ensures read { let definitions = scope_view reader.entry.scope in
        (before : Before) (lexeme : lexical.Lexeme) → count ≡ kept (count_of before) → lexeme.kind ≡ kind.Signs
        → IfOk result (IsLeafRead reader.entry.options.now definitions reader.entry.room is_operand before lexeme before.tags) }
    ensures bounded { IfOk result IsBounded }
    ensures kinds { (tags : List tag_type) → IfOk result (HasValueKinds tags) }
{
    let set = line_set(alloc, reader.options)?;
    let content = class_content(reader.options.empty, is_operand, set);
    Value::limited(alloc, reader.room, content, 1, 0, 0, count)
}

/// Reads a name behind so many groups: a copy of what is kept of its definition, whose tags come behind those that were seen before.
fn read_name(
    alloc: Global,
    reader: Reader<'_, '_>,
    seen: &mut SeenTags,
    groups: u64,
    lexeme: &Lexeme<'_>,
) -> Result<Value, Stop>
    requires sort { (lexeme_view lexeme.now).kind ≡ kind.Name }
    requires room { IsRoom reader.room }
    requires fit { ScopeFits reader.scope }
    ensures read { (is_operand : Bool)
        → IsLeafResult reader.entry.options.now (scope_view reader.entry.scope) reader.entry.room is_operand (record { tags = seen.old; groups = groups }) (lexeme_view lexeme.now) seen.new result }
    ensures bounded { IfOk result IsBounded }
    ensures kinds { IfOk result (HasValueKinds seen.new) }
{
    let Some(kept) = reader.scope.get(lexeme.text) else {
        return Err(unknown(alloc, lexeme));
    };
    if let Some(fault) = repeated_tag(alloc, lexeme.at, &kept.tags, seen)? {
        return Err(Stop::Fault(fault));
    }
    let by = seen.len();
    seen.add(alloc, &kept.tags)?;
    let content = kept_content(alloc, kept, by, groups)?;
    let nesting = sum(kept.nesting, 1);
    let tags = count_of(seen.len(), sum(groups, kept.groups));
    let size = sum(kept.size, 0);
    Ok(Value::limited(
        alloc,
        reader.room,
        content,
        size,
        nesting,
        kept.groups,
        tags,
    )?)
}

/// A tag behind so many others. One that is past the limit is not built.
fn tag_content(number: u64, many: bool) -> Content
    ensures stands { (is_built : Bool) (before : Before) (named : tag_type) → number ≡ kept (length before.tags) → (128 + 1 ≤ suc (count_of before) → is_built ≡ false)
        → IsContent is_built (tag_meaning before named) result }
    ensures size { content_size result ≤ 1 }
    ensures tags { (before : Before) → number ≡ kept (length before.tags) → AreTagsBelow (kept (suc (count_of before))) result }
    ensures kinds { (before : List tag_type) (named : tag_type) → number ≡ kept (length before) → named.many ≡ many
        → HasKinds (before ++ named ∷ []) result }
{
    if number >= TAG_LIMIT {
        return Content::Past(None, false);
    }
    Content::One(if many {
        Expr::MTag(number as u32)
    } else {
        Expr::STag(number as u32)
    })
}

/// Reads a tag behind so many groups; `many` says whether it has all its values.
fn read_tag(
    alloc: Global,
    reader: Reader<'_, '_>,
    seen: &mut SeenTags,
    groups: u64,
    lexeme: &Lexeme<'_>,
    many: bool,
) -> Result<Value, Stop>
    requires sort { (lexeme_view lexeme.now).kind ≡ (if many then kind.MTag else kind.STag) }
    requires room { IsRoom reader.room }
    ensures read { (is_operand : Bool)
        → IsLeafResult reader.entry.options.now (scope_view reader.entry.scope) reader.entry.room is_operand (record { tags = seen.old; groups = groups }) (lexeme_view lexeme.now) seen.new result }
    ensures bounded { IfOk result IsBounded }
    ensures kinds { IfOk result (HasValueKinds seen.new) }
{
    if !reader.options.tags {
        return Err(Stop::Fault(Fault::TagsOff { at: lexeme.at }));
    }
    let name = tag_name(lexeme.text);
    if seen.contains(name) {
        let name = ByteText::copy_of(alloc, name)?;
        return Err(Stop::Fault(Fault::DuplicateTag {
            at: lexeme.at,
            name,
        }));
    }
    let number = seen.len();
    seen.push(alloc, name, many)?;
    let tags = sum(count_of(number, groups), 1);
    let content = tag_content(number, many);
    Ok(Value::limited(alloc, reader.room, content, 1, 0, 0, tags)?)
}

/// Reads a token that is no sign between others, behind the tags that were seen before and so many groups.
pub fn read_leaf(
    alloc: Global,
    reader: Reader<'_, '_>,
    seen: &mut SeenTags,
    groups: u64,
    lexeme: &Lexeme<'_>,
    is_operand: bool,
) -> Result<Value, Stop>
    requires room { IsRoom reader.room }
    requires fit { ScopeFits reader.scope }
    ensures read { IsLeafResult reader.entry.options.now (scope_view reader.entry.scope) reader.entry.room is_operand (record { tags = seen.old; groups = groups }) (lexeme_view lexeme.now) seen.new result }
    ensures bounded { IfOk result IsBounded }
    ensures kinds { IfOk result (HasValueKinds seen.new) }
{
    let count = count_of(seen.len(), groups);
    match lexeme.kind {
        TokenKind::Str => read_string(alloc, reader, count, lexeme, false),
        TokenKind::IStr => read_string(alloc, reader, count, lexeme, true),
        TokenKind::Class => read_class(alloc, reader, count, lexeme, is_operand),
        TokenKind::Signs => Ok(read_line(alloc, reader, count, is_operand)?),
        TokenKind::Name => read_name(alloc, reader, seen, groups, lexeme),
        TokenKind::STag => read_tag(alloc, reader, seen, groups, lexeme, false),
        TokenKind::MTag => read_tag(alloc, reader, seen, groups, lexeme, true),
        _ => Err(Stop::Fault(Fault::Syntax { at: lexeme.at })),
    }
}
