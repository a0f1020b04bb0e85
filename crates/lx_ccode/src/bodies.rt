//! Pieces without a scanner: what they hold, and how they are written.
ghost use Rattle.std.specs.Prelude.{◌≡◌, ◌++◌, [], ◌∷◌, map, IfOk, OnOk, codes};
ghost use Rattle.std.specs.Fmt.{decimal};
ghost use Rattle.lx_base.specs.Names.{condition_prefix, get_state};
ghost use Rattle.lx_base.specs.Text.{joined};
ghost use Rattle.lx_ccode.specs.Bodies.{body_piece_text, body_then, conditions_then, file_states_then, filled, list_then};
ghost use Rattle.lx_ccode.specs.Registers.{variable_text};
ghost use Rattle.lx_ccode.specs.Text.{start_then};

use crate::numerals::{append_number, append_word, variable_text};
use crate::piece::{CondCase, LineMark, StateCase};
use crate::printing::{append_begin, append_end};
use crate::sections::{append_default, append_state_case, append_state_head};
use lx_base::{ByteText, Memory, Names, Sequence, append_parts, names};
use std::alloc::Global;

/// How a directive asks for a list of registers or of histories.
#[derive(Drop)]
pub struct Format {
    /// The text of each, where every `@@` stands for its name.
    pub format: ByteText,
    /// What stands between two.
    pub separator: ByteText,
}

/// A state of some piece of the output.
#[derive(Drop)]
pub struct FileState {
    /// The number of that piece, counted from 1.
    pub number: u32,
    /// The state, and its block in that piece.
    pub case: StateCase,
}

/// What stands in a piece without a scanner. It may speak of all scanners of the output.
///
/// How each body is spelled is said in `specs/Bodies.antt`.
pub enum Body {
    /// That of a block without rules, of a block of rules to use, and around an included file.
    Empty,
    /// The greatest number of units that a check asks for.
    MaxFill(u64),
    /// The greatest number of groups.
    MaxGroups(u64),
    /// The registers with these numbers, counted from 1.
    Registers {
        format: Format,
        numbers: Sequence<u32>,
    },
    /// The histories with these numbers, counted from 0.
    Histories {
        format: Format,
        numbers: Sequence<u32>,
    },
    /// The conditions with these names.
    Conditions(Sequence<ByteText>),
    /// The switch over the states of all pieces. Without a stored state it goes to the start of the piece
    /// with the number `start`, which has these conditions.
    StateSwitch {
        states: Sequence<FileState>,
        start: u32,
        conds: Sequence<CondCase>,
    },
}

impl Drop for Body {
    fn drop(self) {
        match self {
            Self::Empty => {}
            Self::MaxFill(_) => {}
            Self::MaxGroups(_) => {}
            Self::Registers {
                format: _,
                numbers: _,
            } => {}
            Self::Histories {
                format: _,
                numbers: _,
            } => {}
            Self::Conditions(_) => {}
            Self::StateSwitch {
                states: _,
                start: _,
                conds: _,
            } => {}
        }
    }
}

/// The text of a body, by the spellings that hold at the end of the source.
pub fn print_body(alloc: Global, names: &Names, body: &Body) -> Result<ByteText, Memory>
    ensures { IfOk result (λ text. text ≡ body_then names.now body.now []) }
{
    let mut text = Vec::new(alloc);
    append_body(alloc, &mut text, names, body)?;
    Ok(ByteText::from_vec(text))
}

/// The text of a piece without a scanner, from its begin mark to its end mark. The number is the piece's,
/// counted from 1, and the line is the place in the source behind the block or the directive.
pub fn print_body_piece(
    alloc: Global,
    number: u32,
    names: &Names,
    body: &Body,
    line: &Option<LineMark>,
) -> Result<ByteText, Memory>
    ensures { IfOk result (λ text. text ≡ body_piece_text number names.now body.now line.now) }
{
    let mut text = Vec::new(alloc);
    append_begin(&mut text, number)?;
    append_body(alloc, &mut text, names, body)?;
    append_end(&mut text, line)?;
    Ok(ByteText::from_vec(text))
}

fn append_body(alloc: Global, text: &mut Vec<u8>, names: &Names, body: &Body) -> Result<(), Memory>
    ensures { OnOk result (text.new.items ≡ text.old.items ++ body_then names.now body.now []) }
{
    match body {
        Body::Empty => Ok(()),
        Body::MaxFill(units) => append_definition(text, b"YYMAXFILL", *units),
        Body::MaxGroups(groups) => append_definition(text, b"YYMAXNMATCH", *groups),
        Body::Registers { format, numbers } => {
            append_list(alloc, text, names, false, format, numbers.as_slice())
        }
        Body::Histories { format, numbers } => {
            append_list(alloc, text, names, true, format, numbers.as_slice())
        }
        Body::Conditions(conds) => append_enumeration(text, names, conds.as_slice()),
        Body::StateSwitch {
            states,
            start,
            conds,
        } => append_file_switch(text, names, states.as_slice(), *start, conds.as_slice()),
    }
}

/// Appends a macro with a number for its value.
fn append_definition(text: &mut Vec<u8>, name: &[u8], value: u64) -> Result<(), Memory>
    ensures { OnOk result (text.new.items ≡ text.old.items ++ joined (codes "#define " ∷ name.now ∷ codes " " ∷ decimal value ∷ codes "\n" ∷ []) []) }
{
    append_word(text, b"#define ", name, b" ")?;
    append_number(text, b"", value, b"\n")
}

/// Appends histories where `history` says so, else registers, each in the format.
fn append_list(
    alloc: Global,
    text: &mut Vec<u8>,
    names: &Names,
    history: bool,
    format: &Format,
    numbers: &[u32],
) -> Result<(), Memory>
    ensures { OnOk result (text.new.items ≡ text.old.items ++ list_then format.now (map (variable_text names.now history) numbers.now) []) }
{
    let Some((first, others)) = numbers.split_first() else {
        return Ok(());
    };
    append_variable(alloc, text, names, history, format, *first)?;
    for number in others {
        text.extend_from_slice(format.separator.as_slice())?;
        append_variable(alloc, text, names, history, format, *number)?;
    }
    text.push(b'\n')?;
    Ok(())
}

/// Appends a history where `history` says so, else a register, in the format.
fn append_variable(
    alloc: Global,
    text: &mut Vec<u8>,
    names: &Names,
    history: bool,
    format: &Format,
    number: u32,
) -> Result<(), Memory>
    ensures { OnOk result (text.new.items ≡ text.old.items ++ filled (variable_text names.now history number) format.now.format) }
{
    let word = variable_text(alloc, names, history, number)?;
    append_filled(text, &word, format.format.as_slice())
}

/// Appends the format with the word in the place of each `@@`.
fn append_filled(text: &mut Vec<u8>, word: &[u8], format: &[u8]) -> Result<(), Memory>
    ensures { OnOk result (text.new.items ≡ text.old.items ++ filled word.now format.now) }
{
    let mut rest = format;
    while let Some((letter, tail)) = rest.split_first() {
        match rest.strip_prefix(b"@@") {
            Some(behind) => {
                text.extend_from_slice(word)?;
                rest = behind;
            }
            None => {
                text.push(*letter)?;
                rest = tail;
            }
        }
    }
    Ok(())
}

fn append_enumeration(text: &mut Vec<u8>, names: &Names, conds: &[ByteText]) -> Result<(), Memory>
    ensures { OnOk result (text.new.items ≡ text.old.items ++ joined (codes "enum YYCONDTYPE {\n" ∷ []) (conditions_then names.now conds.now (joined (codes "};\n" ∷ []) []))) }
{
    append_parts(text, &[b"enum YYCONDTYPE {\n"])?;
    append_conditions(text, names, conds)?;
    append_parts(text, &[b"};\n"])?;
    Ok(())
}

fn append_conditions(text: &mut Vec<u8>, names: &Names, conds: &[ByteText]) -> Result<(), Memory>
    ensures { OnOk result (text.new.items ≡ text.old.items ++ conditions_then names.now conds.now []) }
{
    for cond in conds {
        append_condition(text, names, cond)?;
    }
    Ok(())
}

fn append_condition(text: &mut Vec<u8>, names: &Names, cond: &ByteText) -> Result<(), Memory>
    ensures { OnOk result (text.new.items ≡ text.old.items ++ joined (codes "\t" ∷ (condition_prefix names.now ++ cond.now) ∷ codes ",\n" ∷ []) []) }
{
    let prefix = names::condition_prefix(names);
    append_parts(text, &[b"\t", prefix, cond.as_slice(), b",\n"])
}

fn append_file_switch(
    text: &mut Vec<u8>,
    names: &Names,
    states: &[FileState],
    start: u32,
    conds: &[CondCase],
) -> Result<(), Memory>
    ensures { OnOk result (text.new.items ≡ text.old.items ++ joined (codes "\tswitch (" ∷ get_state names.now ∷ codes "()) {\n" ∷ []) (file_states_then states.now (
        joined (codes "\tdefault: goto " ∷ []) (start_then start conds.now (joined (codes ";\n\t}\n" ∷ []) []))))) }
{
    append_state_head(text, names)?;
    append_file_states(text, states)?;
    append_default(text, start, conds)?;
    Ok(())
}

fn append_file_states(text: &mut Vec<u8>, states: &[FileState]) -> Result<(), Memory>
    ensures { OnOk result (text.new.items ≡ text.old.items ++ file_states_then states.now []) }
{
    for state in states {
        append_state_case(text, state.number, &state.case)?;
    }
    Ok(())
}
