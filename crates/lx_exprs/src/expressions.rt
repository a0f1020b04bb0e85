//! Reads the expressions of definitions and rules.
ghost use Rattle.std.specs.Prelude.{◌≡◌, ◌<◌, ◌≤◌, ◌^◌, ℕ, List, IfOk, IfSome, MatchResult, None, Some, length, map};
ghost use Rattle.lx_base.specs.declared.limits.TheConstants.{BOUND_LIMIT};
ghost use Rattle.lx_base.specs.declared.settings.Options.{Options};
ghost use Rattle.lx_parse.specs.Expressions.{alt};
ghost use Rattle.lx_parse.specs.Ranges.{IsPart};
ghost use Rattle.lx_exprs.specs.Checks.{Finds, StopsAt, are_groups, bounds_at, bounds_fault, bounds_of, is_wrong};
ghost use Rattle.lx_exprs.specs.Defined.{Definition, Meaning};
ghost use Rattle.lx_exprs.specs.Expressions.{ExpressionChecks};
ghost use Rattle.lx_exprs.specs.Expressions.{ChecksBehind, IsRead, IsReadBehind};
ghost use Rattle.lx_forms.specs.Lexemes as lexical;
ghost use Rattle.lx_forms.specs.Lexemes.{sort_at, sorts_at};
ghost use Rattle.lx_exprs.specs.Reading.{AreBounded, AreInOrder, AreTaken, DifferenceChecks, HasOwnKinds, IsDifference, StopsReading, operands_behind, paired};
ghost use Rattle.lx_exprs.specs.Seen.{scope_view};
ghost use Rattle.lx_forms.specs.Seen.{lexeme_view, lexemes_view};
ghost use Rattle.lx_exprs.specs.FitDefinitions.{ScopeFits};
ghost use Rattle.lx_forms.specs.StepViews.{step_view};
ghost use Rattle.lx_exprs.specs.Operands.{HasOperandKinds, IsBoundedOperand, IsOperand};
ghost use Rattle.lx_exprs.specs.Values.{HasValueKinds, IsBounded, IsRoom, IsValue};
ghost use Rattle.lx_regex.specs.declared.rules.Tag.{Tag as tag_type};

use crate::leaves::{Reader, read_leaf, read_set};
use crate::operands::Operand;
use crate::tags::{SeenTags, SharedTags};
use crate::values::{Room, Value, sum};
use lx_base::limits::BOUND_LIMIT;
use lx_base::{Fault, Memory, Options, Pos, Stop};
use lx_forms::lexemes::{Lexeme, Lexemes};
use lx_forms::steps::{Step, StepSort, expression_steps};
use lx_parse::Sort;
use lx_token::{Repeat, repeat_of};
use std::alloc::Global;

/// What is read of an expression so far: operands that are not yet put together, in order, and all tags.
pub struct Operands {
    values: Vec<Operand>,
    seen: SeenTags,
    /// How many groups there are; 2^40 stands for itself and for more.
    groups: u64,
    /// How many groups there are before each one that is open, the innermost last.
    open_groups: Vec<u64>,
}

impl Drop for Operands {
    fn drop(self) {
        let Self {
            values: _,
            seen: _,
            groups: _,
            open_groups: _,
        } = self;
    }
}

/// What is read of a whole expression, with its tags, in order.
#[derive(Drop)]
pub struct Reading {
    pub value: Value,
    pub tags: SharedTags,
}

/// How two values are put together.
#[derive(Clone, Copy)]
enum Pairing {
    /// One behind the other.
    Sequence,
    /// The one or the other.
    Alternation,
}

/// How often a sign repeats what stands before it.
fn bounds_at(sign: &Lexeme<'_>) -> Repeat
    ensures { result ≡ bounds_at (sort_at (lexeme_view sign.now)) (lexeme_view sign.now) }
{
    match sign.sort() {
        Sort::Star => Repeat { min: 0, max: None },
        Sort::Plus => Repeat { min: 1, max: None },
        Sort::Question => Repeat {
            min: 0,
            max: Some(1),
        },
        _ => repeat_of(sign.text),
    }
}

/// Whether bounds are in the wrong order, or have a number over 4,096.
fn is_wrong(bounds: Repeat) -> bool
    ensures { result ≡ is_wrong bounds.min bounds.max }
{
    match bounds.max {
        Some(most) => bounds.min > BOUND_LIMIT || most > BOUND_LIMIT || most < bounds.min,
        None => bounds.min > BOUND_LIMIT,
    }
}

/// How often a sign repeats what stands before it, or the fault of its bounds.
fn checked_bounds(sign: &Lexeme<'_>) -> Result<Repeat, Fault>
    ensures bounds { MatchResult result
        (λ bounds. (bounds ≡ bounds_of (lexeme_view sign.now)) × (bounds_fault (lexeme_view sign.now) ≡ None))
        (λ fault. bounds_fault (lexeme_view sign.now) ≡ Some fault) }
    ensures least { IfOk result (λ bounds. bounds.min ≤ BOUND_LIMIT) }
    ensures most { IfOk result (λ bounds. IfSome bounds.max (λ most. most ≤ BOUND_LIMIT)) }
{
    let bounds = bounds_at(sign);
    if is_wrong(bounds) {
        return Err(Fault::Bounds {
            at: sign.at,
            min: bounds.min,
            max: bounds.max,
        });
    }
    Ok(bounds)
}

/// Whether parentheses are groups of captures.
pub fn are_groups(options: &Options) -> bool
    ensures { (definitions : List Definition) → result ≡ are_groups options.now definitions }
{
    options.captures || options.posix
}

/// The difference of two operands, whose sign stands at a place. One that is an operand of another is put off.
fn difference(
    alloc: Global,
    reader: Reader<'_, '_>,
    left: Operand,
    right: Value,
    is_operand: bool,
    at: Pos,
) -> Result<Operand, Stop>
    requires { IsRoom reader.room }
    ensures read { let definitions = scope_view reader.entry.scope in
        (first second : Meaning) (sign : lexical.Lexeme) → sign.at ≡ at → IsOperand reader.entry.room first left → IsValue reader.entry.room second right
        → MatchResult result
        (λ operand. DifferenceChecks reader.entry.options.now definitions is_operand first second sign None
        × ((meaning : Meaning) × IsDifference reader.entry.options.now definitions is_operand first second meaning × IsOperand reader.entry.room meaning operand))
        (StopsAt (DifferenceChecks reader.entry.options.now definitions is_operand first second sign)) }
    ensures bounded { IfOk result IsBoundedOperand }
    ensures kinds { (tags : List tag_type) → IfOk result (HasOperandKinds tags) }
{
    let Some(whole) = left.into_holed(alloc)? else {
        return Err(Stop::Fault(Fault::NotClass { at }));
    };
    let Some(holed) = whole.without(alloc, right)? else {
        return Err(Stop::Fault(Fault::NotClass { at }));
    };
    if is_operand {
        return Ok(Operand::Holed(holed));
    }
    let (nesting, groups, tags) = (holed.nesting, holed.groups, holed.tags);
    let set = holed.into_set(alloc)?;
    let value = read_set(alloc, reader, tags, set, is_operand, nesting, groups, at)?;
    Ok(Operand::Whole(value))
}

/// The sequence or the alternation of two values.
fn paired(
    alloc: Global,
    room: Room,
    pairing: Pairing,
    left: Value,
    right: Value,
) -> Result<Value, Memory>
    requires { IsRoom room }
    ensures stands { (first second : Meaning) → IsValue room first left → IsValue room second right → IfOk result (IsValue room (paired pairing first second)) }
    ensures bounded { IsBounded left → IsBounded right → IfOk result IsBounded }
    ensures kinds { (tags : List tag_type) → HasValueKinds tags left → HasValueKinds tags right → IfOk result (HasValueKinds tags) }
{
    match pairing {
        Pairing::Sequence => left.followed_by(alloc, room, right),
        Pairing::Alternation => left.beside(alloc, room, right),
    }
}

impl Operands {
    ghost use Rattle.std.specs.Prelude.{◌≡◌, ◌≤◌, ◌<◌, ◌++◌, ◌∷◌, [], OnOk, MatchResult, false, length, suc, true};
    ghost use Rattle.std.specs.Prelude.{ℕ, List};
    ghost use Rattle.lx_base.specs.declared.settings.Options.{Options};
    ghost use Rattle.lx_exprs.specs.Checks.{StopsAt};
    ghost use Rattle.lx_exprs.specs.Defined.{Definition};
    ghost use Rattle.lx_exprs.specs.Reading as reading;
    ghost use Rattle.lx_exprs.specs.Operands.{HasOperandKinds};
    ghost use Rattle.lx_exprs.specs.Reading.{AreBounded, AreOperands, HasOwnKinds, HaveOperandKinds, IsStepTaken, Needs, StepChecks, closed, depth_behind, in_place, opened, operands_behind, paired, with_both};
    ghost use Rattle.lx_regex.specs.declared.rules.Tag.{Tag as tag_type};
    ghost use Rattle.lx_exprs.specs.Seen.{scope_view};
    ghost use Rattle.lx_forms.specs.Seen.{lexeme_view, lexemes_view};
    ghost use Rattle.lx_exprs.specs.FitDefinitions.{ScopeFits};
    ghost use Rattle.lx_forms.specs.StepViews.{step_view};
    ghost use Rattle.lx_forms.specs.Steps.{reads, repeats, subtracts};
    ghost use Rattle.lx_exprs.specs.Values.{IsRoom};
    ghost use Rattle.lx_exprs.specs.declared.values.Room.{Room};

    /// All tags that are read.
    fn into_seen(self) -> SeenTags
        ensures { result ≡ self.seen }
    {
        let Self {
            values: _,
            seen,
            groups: _,
            open_groups: _,
        } = self;
        seen
    }

    /// Nothing is read behind some tags and so many groups.
    fn behind(alloc: Global, seen: SeenTags, groups: u64) -> Operands
        ensures stands { (room : Room) → AreOperands room (operands_behind (record { tags = seen; groups = groups })) result }
        ensures bounded { AreBounded result.values.items }
        ensures kinds { (tags : List tag_type) → HaveOperandKinds tags result.values.items }
        ensures none { result.values.items ≡ [] }
    {
        Operands {
            values: Vec::new(alloc),
            seen,
            groups,
            open_groups: Vec::new(alloc),
        }
    }

    /// Appends an operand.
    fn push(&mut self, operand: Operand) -> Result<(), Memory>
        ensures values { OnOk result (self.new.values.items ≡ self.old.values.items ++ operand ∷ []) }
        ensures kinds { (tags : List tag_type) → HaveOperandKinds tags self.old.values.items → HasOperandKinds tags operand
            → OnOk result (HaveOperandKinds tags self.new.values.items) }
        ensures seen { self.new.seen ≡ self.old.seen }
        ensures groups { self.new.groups ≡ self.old.groups }
        ensures open_groups { self.new.open_groups ≡ self.old.open_groups }
    {
        self.values.push(operand)?;
        Ok(())
    }

    /// The operand that was read last, which is taken away.
    fn pop(&mut self) -> Operand
        requires { 0 < length self.old.values.items }
        ensures values { self.old.values.items ≡ self.new.values.items ++ result ∷ [] }
        ensures kinds { (tags : List tag_type) → HaveOperandKinds tags self.old.values.items
            → HaveOperandKinds tags self.new.values.items × HasOperandKinds tags result }
        ensures seen { self.new.seen ≡ self.old.seen }
        ensures groups { self.new.groups ≡ self.old.groups }
        ensures open_groups { self.new.open_groups ≡ self.old.open_groups }
    {
        match self.values.pop() {
            Some(operand) => operand,
            None => unreachable!(),
        }
    }

    /// Reads a token that is no sign between others.
    fn read(
        &mut self,
        alloc: Global,
        reader: Reader<'_, '_>,
        lexeme: &Lexeme<'_>,
        is_operand: bool,
    ) -> Result<(), Stop>
        requires room { IsRoom reader.room }
        requires fit { ScopeFits reader.scope }
        ensures stands { let definitions = scope_view reader.entry.scope in
            (operands : reading.Operands) → AreOperands reader.entry.room operands self.old → MatchResult result
            (λ _. IsStepTaken reader.entry.options.now definitions reader.entry.room operands (reads is_operand (lexeme_view lexeme.now)) self.new)
            (StopsAt (StepChecks reader.entry.options.now definitions operands (reads is_operand (lexeme_view lexeme.now)))) }
        ensures bounded { AreBounded self.old.values.items → OnOk result (AreBounded self.new.values.items) }
        ensures kinds { HasOwnKinds self.old → OnOk result (HasOwnKinds self.new) }
        ensures depth { OnOk result (length self.new.values.items ≡ suc (length self.old.values.items)) }
    {
        let value = read_leaf(
            alloc,
            reader,
            &mut self.seen,
            self.groups,
            lexeme,
            is_operand,
        )?;
        self.groups = sum(self.groups, value.groups);
        self.push(Operand::Whole(value))?;
        Ok(())
    }

    /// Opens a parenthesis, which is a group or none.
    fn open(&mut self, is_group: bool) -> Result<(), Memory>
        ensures stands { (room : Room) (operands : reading.Operands) → AreOperands room operands self.old → OnOk result (AreOperands room (opened is_group operands) self.new) }
        ensures values { self.new.values ≡ self.old.values }
        ensures kinds { HasOwnKinds self.old → OnOk result (HasOwnKinds self.new) }
    {
        if is_group {
            self.open_groups.push(self.groups)?;
            self.groups = sum(self.groups, 1);
        }
        Ok(())
    }

    /// Closes a parenthesis that is no group.
    fn enclose(&mut self, alloc: Global, room: Room) -> Result<(), Memory>
        requires room { IsRoom room }
        requires depth { 1 ≤ length self.old.values.items }
        ensures stands { (operands : reading.Operands) → AreOperands room operands self.old → OnOk result (AreOperands room (closed false operands) self.new) }
        ensures bounded { AreBounded self.old.values.items → OnOk result (AreBounded self.new.values.items) }
        ensures kinds { HasOwnKinds self.old → OnOk result (HasOwnKinds self.new) }
        ensures depth { OnOk result (length self.new.values.items ≡ length self.old.values.items) }
    {
        let inner = self.pop().settled(alloc, room)?;
        let value = inner.enclosed(alloc, room)?;
        self.push(Operand::Whole(value))?;
        Ok(())
    }

    /// Closes a group.
    fn group(&mut self, alloc: Global, room: Room) -> Result<(), Memory>
        requires room { IsRoom room }
        requires depth { 1 ≤ length self.old.values.items }
        ensures stands { (operands : reading.Operands) → AreOperands room operands self.old → OnOk result (AreOperands room (closed true operands) self.new) }
        ensures bounded { AreBounded self.old.values.items → OnOk result (AreBounded self.new.values.items) }
        ensures kinds { HasOwnKinds self.old → OnOk result (HasOwnKinds self.new) }
        ensures depth { OnOk result (length self.new.values.items ≡ length self.old.values.items) }
    {
        let Some(before) = self.open_groups.pop() else {
            return Ok(());
        };
        let last = self.pop();
        let inner = last.settled(alloc, room)?;
        let value = inner.grouped(alloc, room, before)?;
        self.push(Operand::Whole(value))?;
        Ok(())
    }

    /// Closes a parenthesis, which is a group or none.
    fn close(&mut self, alloc: Global, room: Room, is_group: bool) -> Result<(), Memory>
        requires room { IsRoom room }
        requires depth { 1 ≤ length self.old.values.items }
        ensures stands { (operands : reading.Operands) → AreOperands room operands self.old → OnOk result (AreOperands room (closed is_group operands) self.new) }
        ensures bounded { AreBounded self.old.values.items → OnOk result (AreBounded self.new.values.items) }
        ensures kinds { HasOwnKinds self.old → OnOk result (HasOwnKinds self.new) }
        ensures depth { OnOk result (length self.new.values.items ≡ length self.old.values.items) }
    {
        if is_group {
            self.group(alloc, room)
        } else {
            self.enclose(alloc, room)
        }
    }

    /// Repeats what was read last.
    fn repeat(&mut self, alloc: Global, room: Room, sign: &Lexeme<'_>) -> Result<(), Stop>
        requires room { IsRoom room }
        requires depth { 1 ≤ length self.old.values.items }
        ensures stands { (options : Options) (definitions : List Definition) (operands : reading.Operands) → AreOperands room operands self.old → MatchResult result
            (λ _. IsStepTaken options definitions room operands (repeats (lexeme_view sign.now)) self.new)
            (StopsAt (StepChecks options definitions operands (repeats (lexeme_view sign.now)))) }
        ensures bounded { AreBounded self.old.values.items → OnOk result (AreBounded self.new.values.items) }
        ensures kinds { HasOwnKinds self.old → OnOk result (HasOwnKinds self.new) }
        ensures depth { OnOk result (length self.new.values.items ≡ length self.old.values.items) }
    {
        let bounds = match checked_bounds(sign) {
            Ok(bounds) => bounds,
            Err(fault) => return Err(Stop::Fault(fault)),
        };
        let body = self.pop().settled(alloc, room)?;
        let value = body.repeated(alloc, room, bounds)?;
        self.push(Operand::Whole(value))?;
        Ok(())
    }

    /// Replaces the last two operands by a sequence or an alternation of them.
    fn combine(&mut self, alloc: Global, room: Room, pairing: Pairing) -> Result<(), Memory>
        requires room { IsRoom room }
        requires depth { 2 ≤ length self.old.values.items }
        ensures stands { (operands : reading.Operands) → AreOperands room operands self.old
            → OnOk result (AreOperands room (in_place operands (with_both (paired pairing) operands.meanings)) self.new) }
        ensures bounded { AreBounded self.old.values.items → OnOk result (AreBounded self.new.values.items) }
        ensures kinds { HasOwnKinds self.old → OnOk result (HasOwnKinds self.new) }
        ensures depth { OnOk result (suc (length self.new.values.items) ≡ length self.old.values.items) }
    {
        let last = self.pop();
        let right = last.settled(alloc, room)?;
        let other = self.pop();
        let left = other.settled(alloc, room)?;
        let value = paired(alloc, room, pairing, left, right)?;
        self.push(Operand::Whole(value))?;
        Ok(())
    }

    /// Replaces the last two operands by their difference.
    fn subtract(
        &mut self,
        alloc: Global,
        reader: Reader<'_, '_>,
        sign: &Lexeme<'_>,
        is_operand: bool,
    ) -> Result<(), Stop>
        requires room { IsRoom reader.room }
        requires depth { 2 ≤ length self.old.values.items }
        ensures stands { let definitions = scope_view reader.entry.scope in
            (operands : reading.Operands) → AreOperands reader.entry.room operands self.old → MatchResult result
            (λ _. IsStepTaken reader.entry.options.now definitions reader.entry.room operands (subtracts is_operand (lexeme_view sign.now)) self.new)
            (StopsAt (StepChecks reader.entry.options.now definitions operands (subtracts is_operand (lexeme_view sign.now)))) }
        ensures bounded { AreBounded self.old.values.items → OnOk result (AreBounded self.new.values.items) }
        ensures kinds { HasOwnKinds self.old → OnOk result (HasOwnKinds self.new) }
        ensures depth { OnOk result (suc (length self.new.values.items) ≡ length self.old.values.items) }
    {
        let last = self.pop();
        let right = last.settled(alloc, reader.room)?;
        let left = self.pop();
        let operand = difference(alloc, reader, left, right, is_operand, sign.at)?;
        self.push(operand)?;
        Ok(())
    }

    /// Takes a step.
    fn take(
        &mut self,
        alloc: Global,
        reader: Reader<'_, '_>,
        lexemes: Lexemes<'_>,
        step: Step,
    ) -> Result<(), Stop>
        requires room { IsRoom reader.room }
        requires fit { ScopeFits reader.scope }
        requires needs { Needs (step_view (lexemes_view lexemes) step) (length self.old.values.items) }
        ensures stands { let definitions = scope_view reader.entry.scope in
            (operands : reading.Operands) → AreOperands reader.entry.room operands self.old → MatchResult result
            (λ _. IsStepTaken reader.entry.options.now definitions reader.entry.room operands (step_view (lexemes_view lexemes.entry) step) self.new)
            (StopsAt (StepChecks reader.entry.options.now definitions operands (step_view (lexemes_view lexemes.entry) step))) }
        ensures bounded { AreBounded self.old.values.items → OnOk result (AreBounded self.new.values.items) }
        ensures kinds { HasOwnKinds self.old → OnOk result (HasOwnKinds self.new) }
        ensures depth { OnOk result (length self.new.values.items ≡ depth_behind (step_view (lexemes_view lexemes.entry) step) (length self.old.values.items)) }
    {
        let lexeme = lexemes.at(step.place as usize);
        match step.sort {
            StepSort::Read => self.read(alloc, reader, &lexeme, step.is_operand),
            StepSort::Open => Ok(self.open(are_groups(reader.options))?),
            StepSort::Close => Ok(self.close(alloc, reader.room, are_groups(reader.options))?),
            StepSort::Repeat => self.repeat(alloc, reader.room, &lexeme),
            StepSort::Join => Ok(self.combine(alloc, reader.room, Pairing::Sequence)?),
            StepSort::Subtract => self.subtract(alloc, reader, &lexeme, step.is_operand),
            StepSort::Choose => Ok(self.combine(alloc, reader.room, Pairing::Alternation)?),
        }
    }
}

/// Takes steps in their order, behind some tags and so many groups.
fn take_steps(
    alloc: Global,
    reader: Reader<'_, '_>,
    lexemes: Lexemes<'_>,
    seen: SeenTags,
    groups: u64,
    steps: &[Step],
) -> Result<Operands, Stop>
    requires room { IsRoom reader.room }
    requires fit { ScopeFits reader.scope }
    requires order { AreInOrder 0 (map (step_view (lexemes_view lexemes)) steps.now) }
    ensures taken { let definitions = scope_view reader.entry.scope in
        MatchResult result
        (AreTaken reader.entry.options.now definitions reader.entry.room (operands_behind (record { tags = seen; groups = groups })) (map (step_view (lexemes_view lexemes.entry)) steps.now))
        (StopsReading reader.entry.options.now definitions (operands_behind (record { tags = seen; groups = groups })) (map (step_view (lexemes_view lexemes.entry)) steps.now)) }
    ensures bounded { IfOk result (λ operands. AreBounded operands.values.items) }
    ensures kinds { IfOk result HasOwnKinds }
    ensures one { IfOk result (λ operands. length operands.values.items ≡ 1) }
{
    let mut operands = Operands::behind(alloc, seen, groups);
    for step in steps {
        operands.take(alloc, reader, lexemes, *step)?;
    }
    Ok(operands)
}

/// Reads the expression that stands from one token up to another, behind some tags and so many groups. It is built only where it
/// is within the room.
pub fn read_behind(
    alloc: Global,
    reader: Reader<'_, '_>,
    lexemes: Lexemes<'_>,
    seen: SeenTags,
    groups: u64,
    from: usize,
    until: usize,
) -> Result<Reading, Stop>
    requires room { IsRoom reader.room }
    requires fit { ScopeFits reader.scope }
    requires part { IsPart (sorts_at (lexemes_view lexemes)) alt from until }
    requires few { until < 2 ^ 32 }
    ensures bounded { IfOk result (λ reading. IsBounded reading.value) }
    ensures kinds { IfOk result (λ reading. HasValueKinds reading.tags reading.value) }
    ensures read { let definitions = scope_view reader.entry.scope in
        MatchResult result (IsReadBehind reader.entry.options.now (lexemes_view lexemes.entry) definitions reader.entry.room (record { tags = seen; groups = groups }) from until)
        (StopsAt (ChecksBehind reader.entry.options.now (lexemes_view lexemes.entry) definitions seen from until)) }
{
    let steps = expression_steps(alloc, lexemes, from, until, are_groups(reader.options))?;
    let mut operands = take_steps(alloc, reader, lexemes, seen, groups, &steps)?;
    let value = operands.pop().settled(alloc, reader.room)?;
    let tags = operands.into_seen().into_shared(alloc)?;
    Ok(Reading { value, tags })
}

/// Reads the expression that stands from one token up to another. It is built only where it is within the room.
pub fn read_expression(
    alloc: Global,
    reader: Reader<'_, '_>,
    lexemes: Lexemes<'_>,
    from: usize,
    until: usize,
) -> Result<Reading, Stop>
    requires room { IsRoom reader.room }
    requires fit { ScopeFits reader.scope }
    requires part { IsPart (sorts_at (lexemes_view lexemes)) alt from until }
    requires few { until < 2 ^ 32 }
    ensures bounded { IfOk result (λ reading. IsBounded reading.value) }
    ensures kinds { IfOk result (λ reading. HasValueKinds reading.tags reading.value) }
    ensures read { let definitions = scope_view reader.entry.scope in
        MatchResult result (IsRead reader.entry.options.now (lexemes_view lexemes.entry) definitions reader.entry.room from until)
        (StopsAt (ExpressionChecks reader.entry.options.now (lexemes_view lexemes.entry) definitions from until)) }
{
    read_behind(alloc, reader, lexemes, SeenTags::new(alloc), 0, from, until)
}
