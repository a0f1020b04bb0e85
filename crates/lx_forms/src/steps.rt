//! The steps in which an expression is read: what stands in a form comes before the form.
//!
//! This is operator precedence parsing by a shunting-yard (Dijkstra 1961). Repetitions bind tightest, then sequences, then `\`,
//! and `|` least. A pass from left to right gives the step of each token, with a stack of the parentheses that are open; a pass
//! from right to left marks what is an operand of a difference. No function calls itself, so parentheses may nest to any depth.
ghost use Rattle.std.specs.Prelude.{◌≡◌, ◌≤◌, ◌<◌, ◌-◌, ◌^◌, List, [], ◌∷◌, IfOk, OnOk, drop, false, length, map, reverse, take};
ghost use Rattle.lx_parse.specs.Expressions.{alt};
ghost use Rattle.lx_parse.specs.Ranges.{IsPart};
ghost use Rattle.lx_forms.specs.Forms.{Form, IsForm};
ghost use Rattle.lx_forms.specs.Lexemes as lexical;
ghost use Rattle.lx_forms.specs.Lexemes.{nth_lexeme, sorts_at};
ghost use Rattle.lx_forms.specs.Seen.{lexemes_view};
ghost use Rattle.lx_forms.specs.StepRuns.{first_mark, marked, marked_steps, marks_before, unmarked_steps};
ghost use Rattle.lx_forms.specs.StepViews.{step_view};
ghost use Rattle.lx_forms.specs.Steps.{steps_of};

use crate::lexemes::Lexemes;
use lx_base::Memory;
use lx_parse::Sort;
use std::alloc::Global;

/// What is done at a token of an expression.
#[derive(Clone, Copy, PartialEq, Eq)]
pub enum StepSort {
    /// A leaf is read: a string, a class, `.`, a name or a tag.
    Read,
    /// A parenthesis is opened.
    Open,
    /// A parenthesis is closed.
    Close,
    /// What was read last is repeated.
    Repeat,
    /// Of the last two things, one is put behind the other.
    Join,
    /// Of the last two things, the one is taken without the other.
    Subtract,
    /// Of the last two things, the one or the other is taken.
    Choose,
}

/// A step in the reading of an expression.
#[derive(Clone, Copy)]
pub struct Step {
    pub sort: StepSort,
    /// The place in the block's tokens of the leaf, of the opening parenthesis or of the sign; 0 where the step has none.
    pub place: u32,
    /// Whether what it gives is an operand of a difference; only leaves and differences know.
    pub is_operand: bool,
}

/// What is read behind a parenthesis that is open, or in no parenthesis.
#[derive(Clone, Copy)]
struct Level {
    /// The place of the parenthesis.
    opening: u32,
    /// Whether a part of the present sequence is read.
    has_part: bool,
    /// Whether it is the second part or a later one.
    owes_join: bool,
    /// The place of the `\` behind which the present sequence stands.
    sign: Option<u32>,
    /// Whether a `|` stands before.
    owes_choice: bool,
}

/// How far an expression is read.
#[derive(Drop)]
struct Progress {
    steps: Vec<Step>,
    /// The innermost level.
    level: Level,
    /// The levels around it, the outermost first.
    outer: Vec<Level>,
}

/// The level behind a parenthesis.
fn first_level(opening: u32) -> Level
    ensures { result ≡ record { opening = opening; has_part = false; owes_join = false; sign = None; owes_choice = false } }
{
    Level {
        opening,
        has_part: false,
        owes_join: false,
        sign: None,
        owes_choice: false,
    }
}

impl Progress {
    ghost use Rattle.std.specs.Prelude.{◌≡◌, List, [], ◌∷◌, OnOk, false};
    ghost use Rattle.lx_forms.specs.Lexemes as lexical;
    ghost use Rattle.lx_forms.specs.Lexemes.{nth_lexeme};
    ghost use Rattle.lx_forms.specs.StepRuns.{before_part, behind_alternatives, behind_backslash, behind_bar, behind_difference, behind_sequence, behind_steps, behind_token, inside, outside, owed};
    ghost use Rattle.lx_forms.specs.StepViews.{progress_view, step_of};

    /// Appends a step.
    fn put(&mut self, sort: StepSort, place: u32) -> Result<(), Memory>
        ensures { OnOk result ((lexemes : List lexical.Lexeme) → progress_view lexemes self.new ≡ behind_steps (step_of sort false (nth_lexeme lexemes place) ∷ []) (progress_view lexemes self.old)) }
    {
        self.steps.push(Step {
            sort,
            place,
            is_operand: false,
        })?;
        Ok(())
    }

    /// Appends a step that stands at no token, where it is owed.
    fn put_owed(&mut self, is_owed: bool, sort: StepSort) -> Result<(), Memory>
        ensures { OnOk result ((lexemes : List lexical.Lexeme) → progress_view lexemes self.new ≡ behind_steps (owed is_owed (step_of sort false (nth_lexeme lexemes 0))) (progress_view lexemes self.old)) }
    {
        if is_owed {
            self.put(sort, 0)?;
        }
        Ok(())
    }

    /// Begins one part more of a sequence.
    fn begin_part(&mut self) -> Result<(), Memory>
        ensures { OnOk result ((lexemes : List lexical.Lexeme) → progress_view lexemes self.new ≡ before_part (progress_view lexemes self.old)) }
    {
        self.put_owed(self.level.owes_join, StepSort::Join)?;
        self.level.owes_join = self.level.has_part;
        self.level.has_part = true;
        Ok(())
    }

    /// Ends a sequence.
    fn end_sequence(&mut self) -> Result<(), Memory>
        ensures { OnOk result ((lexemes : List lexical.Lexeme) → progress_view lexemes self.new ≡ behind_sequence (progress_view lexemes self.old)) }
    {
        self.put_owed(self.level.owes_join, StepSort::Join)?;
        self.level.has_part = false;
        self.level.owes_join = false;
        Ok(())
    }

    /// Ends a difference.
    fn end_difference(&mut self) -> Result<(), Memory>
        ensures { OnOk result ((lexemes : List lexical.Lexeme) → progress_view lexemes self.new ≡ behind_difference (progress_view lexemes self.old)) }
    {
        self.end_sequence()?;
        if let Some(sign) = self.level.sign {
            self.put(StepSort::Subtract, sign)?;
            self.level.sign = None;
        }
        Ok(())
    }

    /// Ends alternatives.
    fn end_alternatives(&mut self) -> Result<(), Memory>
        ensures { OnOk result ((lexemes : List lexical.Lexeme) → progress_view lexemes self.new ≡ behind_alternatives (progress_view lexemes self.old)) }
    {
        self.end_difference()?;
        self.put_owed(self.level.owes_choice, StepSort::Choose)?;
        self.level.owes_choice = false;
        Ok(())
    }

    /// Reads a `(`.
    fn open(&mut self, place: u32) -> Result<(), Memory>
        ensures { OnOk result ((lexemes : List lexical.Lexeme) → progress_view lexemes self.new ≡ inside (nth_lexeme lexemes place) (before_part (progress_view lexemes self.old))) }
    {
        self.begin_part()?;
        self.put(StepSort::Open, place)?;
        self.outer.push(self.level)?;
        self.level = first_level(place);
        Ok(())
    }

    /// Goes back to the next outer level, where there is one.
    fn leave(&mut self)
        ensures { (lexemes : List lexical.Lexeme) → progress_view lexemes self.new ≡ outside (progress_view lexemes self.old) }
    {
        if let Some(level) = self.outer.pop() {
            self.level = level;
        }
    }

    /// Reads a `)`.
    fn close(&mut self) -> Result<(), Memory>
        ensures { OnOk result ((lexemes : List lexical.Lexeme) → progress_view lexemes self.new ≡ behind_token Sort.Close (nth_lexeme lexemes 0) (progress_view lexemes self.old)) }
    {
        self.end_alternatives()?;
        self.put(StepSort::Close, self.level.opening)?;
        self.leave();
        Ok(())
    }

    /// Reads a `\`.
    fn read_backslash(&mut self, place: u32) -> Result<(), Memory>
        ensures { OnOk result ((lexemes : List lexical.Lexeme) → progress_view lexemes self.new ≡ behind_backslash (nth_lexeme lexemes place) (progress_view lexemes self.old)) }
    {
        self.end_difference()?;
        self.level.sign = Some(place);
        Ok(())
    }

    /// Reads a `|`.
    fn read_bar(&mut self) -> Result<(), Memory>
        ensures { OnOk result ((lexemes : List lexical.Lexeme) → progress_view lexemes self.new ≡ behind_bar (progress_view lexemes self.old)) }
    {
        self.end_alternatives()?;
        self.level.owes_choice = true;
        Ok(())
    }

    /// Reads a leaf.
    fn read_leaf(&mut self, place: u32) -> Result<(), Memory>
        ensures { OnOk result ((lexemes : List lexical.Lexeme) → progress_view lexemes self.new ≡ behind_token Sort.Dot (nth_lexeme lexemes place) (progress_view lexemes self.old)) }
    {
        self.begin_part()?;
        self.put(StepSort::Read, place)
    }

    /// Reads a token of this sort, which is a leaf if it is no sign.
    fn read(&mut self, sort: Sort, place: u32) -> Result<(), Memory>
        ensures { OnOk result ((lexemes : List lexical.Lexeme) → progress_view lexemes self.new ≡ behind_token sort (nth_lexeme lexemes place) (progress_view lexemes self.old)) }
    {
        match sort {
            Sort::Open => self.open(place),
            Sort::Close => self.close(),
            Sort::Backslash => self.read_backslash(place),
            Sort::Bar => self.read_bar(),
            Sort::Star | Sort::Plus | Sort::Question | Sort::Bounds => {
                self.put(StepSort::Repeat, place)
            }
            _ => self.read_leaf(place),
        }
    }
}

/// The steps of the expression that stands from one token up to another, with no operand marked.
fn unmarked_steps(
    alloc: Global,
    lexemes: Lexemes<'_>,
    from: usize,
    until: usize,
) -> Result<Vec<Step>, Memory>
    requires in_order { from ≤ until }
    requires within { until ≤ length (lexemes_view lexemes) }
    requires few { until < 2 ^ 32 }
    ensures { let texts = lexemes_view lexemes.entry in
        IfOk result (λ steps. map (step_view texts) steps.items ≡ unmarked_steps (nth_lexeme texts 0) (take (until - from) (drop from texts))) }
{
    let mut progress = Progress {
        steps: Vec::new(alloc),
        level: first_level(0),
        outer: Vec::new(alloc),
    };
    for place in from..until {
        progress.read(lexemes.at(place).sort(), place as u32)?;
    }
    progress.end_alternatives()?;
    Ok(progress.steps)
}

/// Takes the mark of what is to be taken next.
fn take_mark(marks: &mut Vec<bool>) -> bool
    ensures mark { result ≡ first_mark (reverse marks.old.items) }
    ensures rest { reverse marks.new.items ≡ drop 1 (reverse marks.old.items) }
{
    marks.pop().unwrap_or(false)
}

/// Marks two things more.
fn put_two(marks: &mut Vec<bool>, mark: bool) -> Result<(), Memory>
    ensures { OnOk result (reverse marks.new.items ≡ mark ∷ (mark ∷ reverse marks.old.items)) }
{
    marks.push(mark)?;
    marks.push(mark)?;
    Ok(())
}

/// A step with its mark, which is taken from the marks; those of what it takes are put there. What stands in parentheses has their
/// mark, unless they are a group.
fn marked(step: Step, marks: &mut Vec<bool>, are_groups: bool) -> Result<Step, Memory>
    ensures step { IfOk result (λ after. (lexemes : List lexical.Lexeme) → step_view lexemes after ≡ marked (first_mark (reverse marks.old.items)) (step_view lexemes step)) }
    ensures marks { OnOk result ((lexemes : List lexical.Lexeme) → reverse marks.new.items ≡ marks_before are_groups (step_view lexemes step) (reverse marks.old.items)) }
{
    let mut step = step;
    match step.sort {
        StepSort::Open => {}
        StepSort::Close => {
            let is_operand = take_mark(marks);
            marks.push(is_operand && !are_groups)?;
        }
        StepSort::Read => step.is_operand = take_mark(marks),
        StepSort::Repeat => {
            take_mark(marks);
            marks.push(false)?;
        }
        StepSort::Join => {
            take_mark(marks);
            put_two(marks, false)?;
        }
        StepSort::Subtract => {
            step.is_operand = take_mark(marks);
            put_two(marks, true)?;
        }
        StepSort::Choose => {
            let is_operand = take_mark(marks);
            put_two(marks, is_operand)?;
        }
    }
    Ok(step)
}

/// Marks the leaves and differences that are operands of a difference, in the steps of an expression that is none itself.
fn mark_operands(alloc: Global, steps: &mut [Step], are_groups: bool) -> Result<(), Memory>
    ensures { OnOk result ((lexemes : List lexical.Lexeme) → map (step_view lexemes) steps.new ≡ marked_steps are_groups (map (step_view lexemes) steps.old) (false ∷ [])) }
{
    let mut marks = Vec::new(alloc);
    marks.push(false)?;
    for index in (0..steps.len()).rev() {
        steps[index] = marked(steps[index], &mut marks, are_groups)?;
    }
    Ok(())
}

/// The steps of the expression that stands from one token up to another, where parentheses are groups or none.
pub fn expression_steps(
    alloc: Global,
    lexemes: Lexemes<'_>,
    from: usize,
    until: usize,
    are_groups: bool,
) -> Result<Vec<Step>, Memory>
    requires part { IsPart (sorts_at (lexemes_view lexemes)) alt from until }
    requires few { until < 2 ^ 32 }
    ensures { let texts = lexemes_view lexemes.entry in
        IfOk result (λ steps. (form : Form) → IsForm alt (drop from texts) (drop until texts) form
        → map (step_view texts) steps.items ≡ steps_of are_groups false form) }
{
    let mut steps = unmarked_steps(alloc, lexemes, from, until)?;
    mark_operands(alloc, &mut steps, are_groups)?;
    Ok(steps)
}
