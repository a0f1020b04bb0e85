//! What directives may ask of all pieces of an output.
ghost use Rattle.std.specs.Prelude.{◌≡◌, ◌≤◌, ◌^◌, ◌++◌, ◌&&◌, ◌==◌, not, All, IfOk, OnOk};
ghost use Rattle.std.specs.List.{list_any};
ghost use Rattle.lx_compile.specs.Facts.{conditions_of, file_states, greatest_in, groups_of, histories_of, history_count, is_marker_alone, last_register, piece_states, pieces_among, registers_of, spells_first, units_of, with_conditions};
ghost use Rattle.lx_compile.specs.Making.{AreAsked, AreFacts, asks, seen_conditions, seen_pieces, start_of};
ghost use Rattle.lx_compile.specs.Writing.{IsPrintable};
ghost use Rattle.lx_ccode.specs.declared.piece.Piece.{Piece as piece_type};

use crate::made::Made;
use crate::parts::Directive;
use indexmap::IndexSet;
use lx_base::{ByteText, Memory, Sequence};
use lx_ccode::{CondCase, FileState, Piece, mregs_of, regs_of};
use lx_fill::{CheckList, max_fill};
use lx_layout::{names_register_one, state_cases};
use lx_renumber::Repeats;
use std::alloc::Global;

/// The start of a piece.
#[derive(Drop)]
pub(crate) struct Start {
    /// The number of the piece.
    pub number: u32,
    /// Its conditions; none where it has block 0 as its start.
    pub conds: Sequence<CondCase>,
}

/// What directives may ask of all pieces of an output.
pub(crate) struct Facts {
    /// The greatest number of units that a check asks for, at least 1.
    pub units: u32,
    /// The greatest number of groups of a rule of the file's scanners, at least 1.
    pub groups: u32,
    /// The registers that are listed, counted from 1.
    pub registers: Sequence<u32>,
    /// The histories that are listed, counted from 0.
    pub histories: Sequence<u32>,
    /// The conditions, each once and in the order of their first scanners.
    pub conds: Sequence<ByteText>,
    /// The states of all pieces.
    pub states: Sequence<FileState>,
    /// The start of the first piece.
    pub start: Option<Start>,
}

impl Drop for Facts {
    fn drop(self) {
        let Self {
            units: _,
            groups: _,
            registers: _,
            histories: _,
            conds: _,
            states: _,
            start: _,
        } = self;
    }
}

/// The pieces of scanners.
fn pieces_among<'a>(alloc: Global, made: &'a [Made]) -> Result<Vec<&'a Piece>, Memory>
    ensures { IfOk result (λ pieces. seen_pieces pieces.items ≡ pieces_among made.now) }
{
    let mut pieces = Vec::new(alloc);
    for one in made {
        if let Made::Scanners { piece, .. } = one {
            pieces.push(piece)?;
        }
    }
    Ok(pieces)
}

/// The greatest number of units that checks ask for, or the least one that it may be.
fn greatest_in(least: u32, lists: &Repeats<CheckList>) -> u32
    ensures { result ≡ greatest_in least lists.now }
{
    let mut most = least;
    for place in 0..lists.len() {
        most = most.max(max_fill(lists.get(place)));
    }
    most
}

/// The greatest number of units that a check asks for, at least 1.
fn units_of(made: &[Made]) -> u32
    ensures { result ≡ units_of made.now }
{
    let mut most = 1;
    for one in made {
        if let Made::Scanners { checks, .. } = one {
            most = greatest_in(most, checks);
        }
    }
    most
}

/// The greatest number of groups of a rule of the file's scanners, at least 1.
fn groups_of(made: &[Made]) -> u32
    ensures { result ≡ groups_of made.now }
{
    let mut most = 1;
    for one in made {
        if let Made::Scanners { groups, .. } = one {
            most = most.max(*groups);
        }
    }
    most
}

/// The greatest number of a register, or 0.
fn last_register(pieces: &[&Piece]) -> u32
    ensures { result ≡ last_register (seen_pieces pieces.now) }
{
    let mut last = 0;
    for piece in pieces {
        last = last.max(regs_of(piece.blocks.as_slice()));
    }
    last
}

/// Whether a piece spells a register 1 by the prefix.
fn spells_first(piece: &Piece) -> bool
    ensures { result ≡ spells_first piece.now }
{
    !piece.ctx && names_register_one(piece.blocks.as_slice())
}

/// Whether some piece spells register 1 as the context marker.
fn has_marker(pieces: &[&Piece]) -> bool
    ensures { result ≡ list_any (λ (piece : piece_type). piece.ctx) (seen_pieces pieces.now) }
{
    for piece in pieces {
        if piece.ctx {
            return true;
        }
    }
    false
}

/// Whether some piece spells register 1 by the prefix.
fn has_first(pieces: &[&Piece]) -> bool
    ensures { result ≡ list_any spells_first (seen_pieces pieces.now) }
{
    for piece in pieces {
        if spells_first(piece) {
            return true;
        }
    }
    false
}

/// Whether register 1 is the context marker alone.
fn is_marker_alone(pieces: &[&Piece]) -> bool
    ensures { result ≡ is_marker_alone (seen_pieces pieces.now) }
{
    has_marker(pieces) && !has_first(pieces)
}

/// Whether a register is listed.
fn is_listed(is_marker_alone: bool, register: u32) -> bool
    ensures { result ≡ not (is_marker_alone && (register == 1)) }
{
    !(is_marker_alone && register == 1)
}

/// The registers that are listed: all up to the greatest one, but for register 1 where it is the context marker alone.
fn registers_of(alloc: Global, pieces: &[&Piece]) -> Result<Sequence<u32>, Memory>
    ensures { IfOk result (λ registers. registers ≡ registers_of (seen_pieces pieces.now)) }
{
    let is_alone = is_marker_alone(pieces);
    let mut registers = Sequence::new(alloc);
    for before in 0..last_register(pieces) {
        let register = before + 1;
        if is_listed(is_alone, register) {
            registers.push(register)?;
        }
    }
    Ok(registers)
}

/// One more than the greatest number of a history, or 0.
fn history_count(pieces: &[&Piece]) -> u64
    ensures { result ≡ history_count (seen_pieces pieces.now) }
{
    let mut count = 0;
    for piece in pieces {
        count = count.max(mregs_of(piece.blocks.as_slice()));
    }
    count
}

/// The histories that are listed: all, from 0 on.
fn histories_of(alloc: Global, pieces: &[&Piece]) -> Result<Sequence<u32>, Memory>
    requires { history_count (seen_pieces pieces.now) ≤ 2 ^ 32 }
    ensures { IfOk result (λ histories. histories ≡ histories_of (seen_pieces pieces.now)) }
{
    let mut histories = Sequence::new(alloc);
    for history in 0..history_count(pieces) {
        histories.push(history as u32)?;
    }
    Ok(histories)
}

/// Takes in the names of conditions that are not there yet.
fn add_conditions(
    alloc: Global,
    conds: &mut IndexSet<Vec<u8>>,
    cases: &[CondCase],
) -> Result<(), Memory>
    ensures { OnOk result (seen_conditions conds.new ≡ with_conditions (seen_conditions conds.old) cases.now) }
{
    for case in cases {
        let cond = ByteText::copy_of(alloc, case.cond.as_slice())?;
        conds.insert(cond.into_vec())?;
    }
    Ok(())
}

/// The names of conditions in a set, in their order.
fn names_in(alloc: Global, conds: IndexSet<Vec<u8>>) -> Result<Sequence<ByteText>, Memory>
    ensures { IfOk result (λ names. names ≡ seen_conditions conds) }
{
    let mut names = Sequence::new(alloc);
    for cond in conds {
        names.push(ByteText::from_vec(cond))?;
    }
    Ok(names)
}

/// The conditions, each once and in the order of their first scanners.
fn conditions_of(alloc: Global, pieces: &[&Piece]) -> Result<Sequence<ByteText>, Memory>
    ensures { IfOk result (λ conds. conds ≡ conditions_of (seen_pieces pieces.now)) }
{
    let mut conds = IndexSet::new(alloc);
    for piece in pieces {
        add_conditions(alloc, &mut conds, piece.conds.as_slice())?;
    }
    names_in(alloc, conds)
}

/// Appends the states of a piece.
fn append_states(
    alloc: Global,
    states: &mut Sequence<FileState>,
    piece: &Piece,
) -> Result<(), Memory>
    ensures { OnOk result (states.new ≡ states.old ++ piece_states piece.now) }
{
    for case in state_cases(alloc, piece.blocks.as_slice())? {
        states.push(FileState {
            number: piece.number,
            case,
        })?;
    }
    Ok(())
}

/// The states of all pieces, in order.
fn file_states(alloc: Global, pieces: &[&Piece]) -> Result<Sequence<FileState>, Memory>
    ensures { IfOk result (λ states. states ≡ file_states (seen_pieces pieces.now)) }
{
    let mut states = Sequence::new(alloc);
    for piece in pieces {
        append_states(alloc, &mut states, piece)?;
    }
    Ok(states)
}

/// A copy of the cases of conditions.
pub(crate) fn copy_cases(alloc: Global, cases: &[CondCase]) -> Result<Sequence<CondCase>, Memory>
    ensures { IfOk result (λ copies. copies ≡ cases.now) }
{
    let mut copies = Sequence::new(alloc);
    for case in cases {
        copies.push(CondCase {
            cond: case.cond.share()?,
            block: case.block,
        })?;
    }
    Ok(copies)
}

/// The start of the first piece.
fn start_of(alloc: Global, pieces: &[&Piece]) -> Result<Option<Start>, Memory>
    ensures { IfOk result (λ start. start ≡ start_of (seen_pieces pieces.now)) }
{
    match pieces.first() {
        None => Ok(None),
        Some(piece) => Ok(Some(Start {
            number: piece.number,
            conds: copy_cases(alloc, piece.conds.as_slice())?,
        })),
    }
}

/// The registers and the histories that are listed.
fn listed_numbers(
    alloc: Global,
    pieces: &[&Piece],
) -> Result<(Sequence<u32>, Sequence<u32>), Memory>
    requires { history_count (seen_pieces pieces.now) ≤ 2 ^ 32 }
    ensures { IfOk result (λ lists. (lists.0 ≡ registers_of (seen_pieces pieces.now)) × (lists.1 ≡ histories_of (seen_pieces pieces.now))) }
{
    let registers = registers_of(alloc, pieces)?;
    let histories = histories_of(alloc, pieces)?;
    Ok((registers, histories))
}

/// The states of all pieces, and the start of the first one.
fn states_and_start(
    alloc: Global,
    pieces: &[&Piece],
) -> Result<(Sequence<FileState>, Option<Start>), Memory>
    ensures { IfOk result (λ both. (both.0 ≡ file_states (seen_pieces pieces.now)) × (both.1 ≡ start_of (seen_pieces pieces.now))) }
{
    let states = file_states(alloc, pieces)?;
    let start = start_of(alloc, pieces)?;
    Ok((states, start))
}

/// The facts of all that is made, whose pieces of scanners are these.
fn facts_among(alloc: Global, made: &[Made], pieces: &[&Piece]) -> Result<Facts, Memory>
    requires printable { All IsPrintable made.now }
    requires pieces { seen_pieces pieces.now ≡ pieces_among made.now }
    ensures { IfOk result (λ facts. AreFacts facts made.now) }
{
    let conds = conditions_of(alloc, pieces)?;
    let (registers, histories) = listed_numbers(alloc, pieces)?;
    let (states, start) = states_and_start(alloc, pieces)?;
    Ok(Facts {
        units: units_of(made),
        groups: groups_of(made),
        registers,
        histories,
        conds,
        states,
        start,
    })
}

/// The facts of all that is made.
fn facts_of(alloc: Global, made: &[Made]) -> Result<Facts, Memory>
    requires { All IsPrintable made.now }
    ensures { IfOk result (λ facts. AreFacts facts made.now) }
{
    let pieces = pieces_among(alloc, made)?;
    facts_among(alloc, made, &pieces)
}

/// Whether it stands in the place of a directive that asks for something.
fn asks(one: &Made) -> bool
    ensures { result ≡ asks one.now }
{
    match one {
        Made::Bare {
            directive: Directive::Nothing,
            ..
        } => false,
        Made::Bare { .. } => true,
        _ => false,
    }
}

/// Whether some directive asks for something.
fn any_asks(made: &[Made]) -> bool
    ensures { result ≡ list_any asks made.now }
{
    for one in made {
        if asks(one) {
            return true;
        }
    }
    false
}

/// The facts of all that is made, where some directive asks for any: they are gathered from each statement of all pieces.
pub(crate) fn facts_asked(alloc: Global, made: &[Made]) -> Result<Option<Facts>, Memory>
    requires { All IsPrintable made.now }
    ensures { IfOk result (λ facts. AreAsked facts made.now) }
{
    if !any_asks(made) {
        return Ok(None);
    }
    Ok(Some(facts_of(alloc, made)?))
}
