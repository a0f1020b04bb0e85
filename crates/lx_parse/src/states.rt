//! The parser of a block as an automaton: it reads the sorts of tokens one by one, and counts the open parentheses.
ghost use Rattle.std.specs.Prelude.{◌≡◌, ◌+◌, ◌^◌, ◌<◌, ◌≤◌};
ghost use Rattle.lx_parse.specs.Automaton.{action, after_expression, after_text, between, config_end, depth_of, head_start, jump_target, list_next, list_start, named, next, on_equals, on_greater, on_name, operand, operator, target_code, text_end, when};

use crate::forms::Form;
use crate::items::Item;
use crate::sorts::Sort;

/// What an expression belongs to. All numbers are places of tokens.
#[derive(Clone, Copy)]
pub(crate) enum Goal {
    /// The definition of a name by an expression that begins at `from`.
    Define {
        name: u32,
        from: u32,
    },
    /// The head of a rule, or its trailing context behind a `/`.
    Head {
        first: u32,
        head: u32,
        slash: Option<u32>,
    },
}

/// A rule whose head is read. All numbers are places of tokens.
#[derive(Clone, Copy)]
pub(crate) struct RuleHead {
    pub first: u32,
    pub head: u32,
    pub slash: Option<u32>,
    pub until: u32,
}

/// Where in a block the parser stands. Beside depths, all numbers are places of tokens.
#[derive(Clone, Copy)]
pub(crate) enum State {
    /// Between items.
    Between { form: Form },
    /// Behind a name that begins a definition or the head of a rule.
    Named { name: u32 },
    /// Behind the `=` of a definition.
    Defined { name: u32 },
    /// Behind a configuration word.
    ConfigName { name: u32 },
    /// Behind the `=` of a configuration.
    ConfigValue { name: u32 },
    /// Behind the value of a configuration.
    ConfigEnd { name: u32, value: u32 },
    /// Behind the `<` of a list.
    List { first: u32 },
    /// Behind `<*`.
    ListStar { first: u32 },
    /// Behind a name of a list.
    ListName { first: u32 },
    /// Behind a comma of a list.
    ListComma { first: u32 },
    /// Behind a list.
    Listed { first: u32 },
    /// In an expression where an atom is wanted, behind so many open parentheses.
    Operand { goal: Goal, depth: u32 },
    /// In an expression behind an atom and what repeats it.
    Operator { goal: Goal, depth: u32 },
    /// Behind a head that is `*` or `$`.
    Action { first: u32, head: u32 },
    /// Behind the `=>` of a rule.
    Target { rule: RuleHead },
    /// Behind the target of a `=>`.
    TargetCode { rule: RuleHead, goes: u32 },
    /// Behind the `:=>` of a rule.
    JumpTarget { rule: RuleHead },
    /// Behind the word `format` or `separator`.
    TextWord { form: Form },
    /// Behind the `=` of a format or a separator.
    TextValue { form: Form },
    /// Behind the string of a format or a separator.
    TextEnd { form: Form, value: u32 },
}

/// What a token does to the parser.
#[derive(Clone, Copy)]
pub(crate) enum Step {
    /// No well-formed block goes on with it.
    Refuse,
    /// It goes on in an item.
    Go(State),
    /// It ends an item, and this is what may follow.
    Done(Item, Form),
}

/// On to the state if the test holds.
fn when(test: bool, state: State) -> Step
    ensures { result ≡ when test state }
{
    if test { Step::Go(state) } else { Step::Refuse }
}

/// On to the state with a `=`.
fn on_equals(sort: Sort, state: State) -> Step
    ensures { result ≡ on_equals sort state }
{
    match sort {
        Sort::Equals => Step::Go(state),
        _ => Step::Refuse,
    }
}

/// On to the state with a `>`.
fn on_greater(sort: Sort, state: State) -> Step
    ensures { result ≡ on_greater sort state }
{
    match sort {
        Sort::Greater => Step::Go(state),
        _ => Step::Refuse,
    }
}

/// On to the state with a name.
fn on_name(sort: Sort, state: State) -> Step
    ensures { result ≡ on_name sort state }
{
    match sort {
        Sort::Name => Step::Go(state),
        _ => Step::Refuse,
    }
}

/// Where an atom is wanted.
fn operand(goal: Goal, depth: u32, sort: Sort) -> Step
    requires { depth + 1 < 2 ^ 32 }
    ensures { result ≡ operand goal depth sort }
{
    match sort {
        Sort::Open => Step::Go(State::Operand {
            goal,
            depth: depth + 1,
        }),
        _ => when(sort.is_atom(), State::Operator { goal, depth }),
    }
}

/// Behind the head of a rule.
fn action(rule: RuleHead, sort: Sort) -> Step
    ensures { result ≡ action rule sort }
{
    match sort {
        Sort::Code => Step::Done(
            Item::Rule {
                first: rule.first,
                head: rule.head,
                slash: rule.slash,
                until: rule.until,
                goes: None,
                code: Some(rule.until),
            },
            Form::Items,
        ),
        Sort::Arrow => Step::Go(State::Target { rule }),
        Sort::Jump => Step::Go(State::JumpTarget { rule }),
        _ => Step::Refuse,
    }
}

/// Behind an expression that is read up to its end.
fn after_expression(goal: Goal, sort: Sort, at: u32) -> Step
    ensures { result ≡ after_expression goal sort at }
{
    match (goal, sort) {
        (Goal::Define { name, from }, Sort::Semicolon) => Step::Done(
            Item::Define {
                name,
                from,
                until: at,
            },
            Form::Items,
        ),
        (Goal::Define { .. }, _) => Step::Refuse,
        (
            Goal::Head {
                first,
                head,
                slash: None,
            },
            Sort::Slash,
        ) => Step::Go(State::Operand {
            goal: Goal::Head {
                first,
                head,
                slash: Some(at),
            },
            depth: 0,
        }),
        (Goal::Head { first, head, slash }, _) => action(
            RuleHead {
                first,
                head,
                slash,
                until: at,
            },
            sort,
        ),
    }
}

/// Behind an atom and what repeats it.
fn operator(goal: Goal, depth: u32, sort: Sort, at: u32) -> Step
    requires { depth + 1 < 2 ^ 32 }
    ensures { result ≡ operator goal depth sort at }
{
    match sort {
        Sort::Bar | Sort::Backslash => Step::Go(State::Operand { goal, depth }),
        Sort::Star | Sort::Plus | Sort::Question | Sort::Bounds => {
            Step::Go(State::Operator { goal, depth })
        }
        Sort::Open
        | Sort::Str
        | Sort::IStr
        | Sort::Class
        | Sort::Dot
        | Sort::Name
        | Sort::STag
        | Sort::MTag => operand(goal, depth, sort),
        Sort::Close if depth > 0 => Step::Go(State::Operator {
            goal,
            depth: depth - 1,
        }),
        _ if depth == 0 => after_expression(goal, sort, at),
        _ => Step::Refuse,
    }
}

/// Where the head of a rule is wanted.
fn head_start(first: u32, sort: Sort, at: u32) -> Step
    ensures { result ≡ head_start first sort at }
{
    match sort {
        Sort::Star | Sort::Dollar => Step::Go(State::Action { first, head: at }),
        _ => operand(
            Goal::Head {
                first,
                head: at,
                slash: None,
            },
            0,
            sort,
        ),
    }
}

/// Between items.
fn between(form: Form, sort: Sort, at: u32) -> Step
    ensures { result ≡ between form sort at }
{
    match (form, sort) {
        (Form::Items, Sort::Name) => Step::Go(State::Named { name: at }),
        (Form::Items, Sort::Config) => Step::Go(State::ConfigName { name: at }),
        (Form::Items, Sort::Less) => Step::Go(State::List { first: at }),
        (Form::Items, _) => head_start(at, sort, at),
        (Form::Format, Sort::Format) | (Form::Separator, Sort::Separator) => {
            Step::Go(State::TextWord { form })
        }
        _ => Step::Refuse,
    }
}

/// Behind a name that begins a definition or the head of a rule.
fn named(name: u32, sort: Sort, at: u32) -> Step
    ensures { result ≡ named name sort at }
{
    match sort {
        Sort::Equals => Step::Go(State::Defined { name }),
        _ => operator(
            Goal::Head {
                first: name,
                head: name,
                slash: None,
            },
            0,
            sort,
            at,
        ),
    }
}

/// Behind the value of a configuration.
fn config_end(name: u32, value: u32, sort: Sort) -> Step
    ensures { result ≡ config_end name value sort }
{
    match sort {
        Sort::Semicolon => Step::Done(Item::Configure { name, value }, Form::Items),
        _ => Step::Refuse,
    }
}

/// Behind the `<` of a list.
fn list_start(first: u32, sort: Sort) -> Step
    ensures { result ≡ list_start first sort }
{
    match sort {
        Sort::Star => Step::Go(State::ListStar { first }),
        _ => on_name(sort, State::ListName { first }),
    }
}

/// Behind a name of a list.
fn list_next(first: u32, sort: Sort) -> Step
    ensures { result ≡ list_next first sort }
{
    match sort {
        Sort::Comma => Step::Go(State::ListComma { first }),
        _ => on_greater(sort, State::Listed { first }),
    }
}

/// Behind the target of a `=>`.
fn target_code(rule: RuleHead, goes: u32, sort: Sort, at: u32) -> Step
    ensures { result ≡ target_code rule goes sort at }
{
    match sort {
        Sort::Code => Step::Done(
            Item::Rule {
                first: rule.first,
                head: rule.head,
                slash: rule.slash,
                until: rule.until,
                goes: Some(goes),
                code: Some(at),
            },
            Form::Items,
        ),
        _ => Step::Refuse,
    }
}

/// Behind the `:=>` of a rule.
fn jump_target(rule: RuleHead, sort: Sort, at: u32) -> Step
    ensures { result ≡ jump_target rule sort at }
{
    match sort {
        Sort::Name => Step::Done(
            Item::Rule {
                first: rule.first,
                head: rule.head,
                slash: rule.slash,
                until: rule.until,
                goes: Some(at),
                code: None,
            },
            Form::Items,
        ),
        _ => Step::Refuse,
    }
}

/// What may follow the format, or the separator.
fn after_text(form: Form) -> Form
    ensures { result ≡ after_text form }
{
    match form {
        Form::Format => Form::Separator,
        _ => Form::Nothing,
    }
}

/// Behind the string of a format or a separator.
fn text_end(form: Form, value: u32, sort: Sort) -> Step
    ensures { result ≡ text_end form value sort }
{
    match sort {
        Sort::Semicolon => Step::Done(Item::Text { value }, after_text(form)),
        _ => Step::Refuse,
    }
}

impl State {
    /// What the token at the place `at` does, by its sort.
    pub(crate) fn next(self, sort: Sort, at: u32) -> Step
        requires depth { depth_of self ≤ at }
        requires at { at + 1 < 2 ^ 32 }
        ensures step { result ≡ next self sort at }
    {
        match self {
            State::Between { form } => between(form, sort, at),
            State::Named { name } => named(name, sort, at),
            State::Defined { name } => operand(Goal::Define { name, from: at }, 0, sort),
            State::ConfigName { name } => on_equals(sort, State::ConfigValue { name }),
            State::ConfigValue { name } => {
                when(sort.is_value(), State::ConfigEnd { name, value: at })
            }
            State::ConfigEnd { name, value } => config_end(name, value, sort),
            State::List { first } => list_start(first, sort),
            State::ListStar { first } => on_greater(sort, State::Listed { first }),
            State::ListName { first } => list_next(first, sort),
            State::ListComma { first } => on_name(sort, State::ListName { first }),
            State::Listed { first } => head_start(first, sort, at),
            State::Operand { goal, depth } => operand(goal, depth, sort),
            State::Operator { goal, depth } => operator(goal, depth, sort, at),
            State::Action { first, head } => action(
                RuleHead {
                    first,
                    head,
                    slash: None,
                    until: at,
                },
                sort,
            ),
            State::Target { rule } => on_name(sort, State::TargetCode { rule, goes: at }),
            State::TargetCode { rule, goes } => target_code(rule, goes, sort, at),
            State::JumpTarget { rule } => jump_target(rule, sort, at),
            State::TextWord { form } => on_equals(sort, State::TextValue { form }),
            State::TextValue { form } => {
                when(sort.is_string(), State::TextEnd { form, value: at })
            }
            State::TextEnd { form, value } => text_end(form, value, sort),
        }
    }
}
