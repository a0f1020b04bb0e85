//! Reads the heads of rules.
ghost use Rattle.std.specs.Prelude.{◌≡◌, ℕ, suc, IfOk, MatchResult, None, map};
ghost use Rattle.lx_exprs.specs.Checks.{StopsAt};
ghost use Rattle.lx_exprs.specs.Expressions.{ContextChecks, IsRead};
ghost use Rattle.lx_exprs.specs.FitDefinitions.{ScopeFits};
ghost use Rattle.lx_exprs.specs.Seen.{scope_view};
ghost use Rattle.lx_exprs.specs.Values.{HasValueKinds, IsBounded, IsRoom};
ghost use Rattle.lx_parse.specs.Expressions.{alt};
ghost use Rattle.lx_parse.specs.Ranges.{HasExpressions, IsPart};
ghost use Rattle.lx_parse.specs.declared.items.Item.TheVariants as item;
ghost use Rattle.lx_parse.specs.declared.sorts.Sort.TheVariants.{Star, Dollar};
ghost use Rattle.lx_rules.specs.Conditions.{room_under};
ghost use Rattle.lx_rules.specs.Items.{State, twice};
ghost use Rattle.lx_rules.specs.Keeping.{HasReadKinds, Holds, IsBoundedExpr, IsBoundedHead, IsContextRead, IsHeadRead, StopsHead};
ghost use Rattle.lx_exprs.specs.Seen.{IsStop};
ghost use Rattle.lx_forms.specs.Lexemes.{nth_lexeme, sort_at, sorts_at};
ghost use Rattle.lx_forms.specs.Seen.{lexemes_view};
ghost use Rattle.lx_rules.specs.FitScanners.{HasFitDefinitions};

use crate::conditions::{Conds, FirstRule, Running, Standing};
use crate::items::{Block, Known};
use crate::kept::KeptRule;
use crate::rule_exprs::RuleExpr;
use lx_base::{Fault, Pos, Stop};
use lx_exprs::expressions::{Reading, are_groups, read_behind, read_expression};
use lx_exprs::leaves::Reader;
use lx_exprs::tags::SeenTags;
use lx_parse::Sort;
use lx_regex::Kind;
use std::alloc::Global;

/// The head of a rule.
pub(crate) enum Head {
    /// `*`
    Default(RuleExpr),
    /// `$`
    End,
    /// An expression.
    Plain(RuleExpr),
}

impl Drop for Head {
    fn drop(self) {
        match self {
            Self::Default(_) => {}
            Self::End => {}
            Self::Plain(_) => {}
        }
    }
}

impl Head {
    ghost use Rattle.std.specs.Prelude.{◌≡◌, None};
    ghost use Rattle.lx_rules.specs.Keeping.{IsHeadKept, standing_in};

    /// How its rule stands under its conditions, where its number and its place are these.
    pub fn standing(&self, number: u32, at: Pos) -> Standing
        ensures { result ≡ standing_in self.now number at }
    {
        let first = Some(FirstRule { number, at });
        match self {
            Head::Default(_) => Standing {
                running: Running::none(),
                first_default: first,
                first_end: None,
            },
            Head::End => Standing {
                running: Running::none(),
                first_default: None,
                first_end: first,
            },
            Head::Plain(read) => Standing {
                running: Running {
                    size: read.size,
                    nesting: read.nesting,
                    tags: read.count,
                },
                first_default: None,
                first_end: None,
            },
        }
    }

    /// The rule that has it at this place, with a number and conditions, and without a target.
    pub fn into_rule(self, alloc: Global, number: u32, conds: Conds, at: Pos) -> KeptRule
        ensures number { result.number ≡ number }
        ensures conds { result.conds ≡ conds }
        ensures at { result.at ≡ at }
        ensures target { result.target ≡ None }
        ensures head { IsHeadKept self result }
    {
        let (kind, read) = match self {
            Head::Default(read) => (Kind::Default, read),
            Head::End => (Kind::Eof, RuleExpr::none(alloc)),
            Head::Plain(read) => (Kind::Plain, read),
        };
        let RuleExpr {
            size,
            nesting,
            tags,
            groups,
            count,
            slash,
            expr,
        } = read;
        KeptRule {
            number,
            conds,
            kind,
            at,
            target: None,
            size,
            nesting,
            tags,
            groups,
            count,
            slash,
            expr,
        }
    }
}

/// Reads what stands behind the slash of a rule, whose expression before it was read.
fn read_context(
    alloc: Global,
    reader: Reader<'_, '_>,
    block: Block<'_>,
    first: Reading,
    slash: u32,
    until: u32,
) -> Result<RuleExpr, Stop>
    requires same { reader.options ≡ block.options }
    requires room { IsRoom reader.room }
    requires fit { ScopeFits reader.scope }
    requires part { IsPart (sorts_at (lexemes_view block.lexemes)) alt (suc slash) until }
    requires bounded { IsBounded first.value }
    ensures read { let options = block.entry.options.now in let lexemes = lexemes_view block.entry.lexemes in let definitions = scope_view reader.entry.scope in
        (from : ℕ) → IsRead options lexemes definitions reader.entry.room from slash first → MatchResult result
        (IsContextRead options lexemes definitions reader.entry.room from slash until)
        (StopsAt (ContextChecks options lexemes definitions from slash until)) }
    ensures bounded { (from : ℕ) → IsRead block.entry.options.now (lexemes_view block.entry.lexemes) (scope_view reader.entry.scope) reader.entry.room from slash first
        → IfOk result IsBoundedExpr }
    ensures kinds { HasValueKinds first.tags first.value → IfOk result HasReadKinds }
{
    let Reading { value, tags } = first;
    let number = tags.len();
    let groups = value.groups;
    let mut seen = SeenTags::behind(alloc, tags);
    seen.push(alloc, b"", false)?;
    let from = slash as usize + 1;
    let second = read_behind(
        alloc,
        reader,
        block.lexemes,
        seen,
        groups,
        from,
        until as usize,
    )?;
    let is_group = are_groups(block.options);
    let read = RuleExpr::trailing(alloc, reader.room, is_group, value, number, second)?;
    Ok(read)
}

/// Reads the expression of a rule of some conditions.
fn read_plain(
    alloc: Global,
    known: &Known,
    block: Block<'_>,
    conds: &[&[u8]],
    head: u32,
    slash: Option<u32>,
    until: u32,
) -> Result<Head, Stop>
    requires fit { HasFitDefinitions known.now }
    requires expressions { HasExpressions (sorts_at (lexemes_view block.lexemes)) (item.Rule head head slash until None None) }
    requires star { sort_at (nth_lexeme (lexemes_view block.lexemes) head) ≡ Star → ⊥ }
    requires dollar { sort_at (nth_lexeme (lexemes_view block.lexemes) head) ≡ Dollar → ⊥ }
    ensures read { (state : State) → Holds known.now state → MatchResult result
        (IsHeadRead block.entry.options.now (lexemes_view block.entry.lexemes) state (map (λ cond. cond.now) conds.now) head slash until
        (room_under known.now.conds (map (λ cond. cond.now) conds.now)))
        (StopsHead block.entry.options.now (lexemes_view block.entry.lexemes) state (map (λ cond. cond.now) conds.now) head slash until) }
    ensures bounded { IfOk result IsBoundedHead }
{
    let scope = known.scope();
    let reader = Reader {
        options: block.options,
        scope,
        room: known.conds.room(conds),
    };
    let reading = read_expression(
        alloc,
        reader,
        block.lexemes,
        head as usize,
        slash.unwrap_or(until) as usize,
    )?;
    match slash {
        Some(slash) => {
            let read = read_context(alloc, reader, block, reading, slash, until)?;
            Ok(Head::Plain(read))
        }
        None => {
            let read = RuleExpr::of(alloc, are_groups(block.options), reading)?;
            Ok(Head::Plain(read))
        }
    }
}

/// The head at a place, which is refused where there is a first one.
fn read_once(head: Head, at: Pos, first: Option<Pos>) -> Result<Head, Stop>
    ensures { MatchResult result (λ read. (first ≡ None) × (read ≡ head)) (IsStop (twice at first)) }
{
    match first {
        Some(first) => Err(Stop::Fault(Fault::Redefined { at, first })),
        None => Ok(head),
    }
}

/// Reads the head of a rule of some conditions.
pub(crate) fn read_head(
    alloc: Global,
    known: &Known,
    block: Block<'_>,
    conds: &[&[u8]],
    head: u32,
    slash: Option<u32>,
    until: u32,
) -> Result<Head, Stop>
    requires fit { HasFitDefinitions known.now }
    requires expressions { HasExpressions (sorts_at (lexemes_view block.lexemes)) (item.Rule head head slash until None None) }
    ensures read { (state : State) → Holds known.now state → MatchResult result
        (IsHeadRead block.entry.options.now (lexemes_view block.entry.lexemes) state (map (λ cond. cond.now) conds.now) head slash until
        (room_under known.now.conds (map (λ cond. cond.now) conds.now)))
        (StopsHead block.entry.options.now (lexemes_view block.entry.lexemes) state (map (λ cond. cond.now) conds.now) head slash until) }
    ensures bounded { IfOk result IsBoundedHead }
{
    let start = block.lexemes.at(head as usize);
    match start.sort() {
        Sort::Star => {
            let read = RuleExpr::any(alloc, are_groups(block.options))?;
            read_once(Head::Default(read), start.at, known.first_default(conds))
        }
        Sort::Dollar => read_once(Head::End, start.at, known.first_end(conds)),
        _ => read_plain(alloc, known, block, conds, head, slash, until),
    }
}
