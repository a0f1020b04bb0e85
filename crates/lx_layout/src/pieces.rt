//! The blocks of scanners, one behind another.
ghost use Rattle.std.specs.Prelude.{◌≡◌, ◌+◌, ◌≤◌, ◌&&◌, ◌++◌, ℕ, [], ◌∷◌, List, false, true, IfOk, IfSome, OnOk, is_some, length};
ghost use Rattle.std.specs.List.{list_any};
ghost use Rattle.lx_base.specs.Spelling.{greatest_unit};
ghost use Rattle.lx_base.specs.declared.limits.TheConstants.{STATEMENT_LIMIT};
ghost use Rattle.lx_base.specs.declared.settings.Format.TheVariants.{Two};
ghost use Rattle.lx_ccode.specs.Counts.{mregs_of, state_count, table_size};
ghost use Rattle.lx_ccode.specs.States.{states_from};
ghost use Rattle.lx_ccode.specs.Statements.{all_statements, has_register_one, statement_count};
ghost use Rattle.lx_ccode.specs.Validity.{IsShort, labels};
ghost use Rattle.lx_dispatch.specs.Dispatch.{IsTable};
ghost use Rattle.lx_layout.specs.Copies.{given_by};
ghost use Rattle.lx_layout.specs.Forgetting.{JumpsForget};
ghost use Rattle.lx_layout.specs.LaidParts.{seen_given};
ghost use Rattle.lx_layout.specs.LikeScanners.{AreLike, HasFront, IsFrontOf, is_like};
ghost use Rattle.lx_layout.specs.Parts.{IsPartOf, Part, given_asked, part_blocks, parts_blocks};
ghost use Rattle.lx_layout.specs.PieceViews.{seen_form, seen_source, seen_sources};
ghost use Rattle.lx_layout.specs.Pieces.{AreFit, ArePartsOf, HasFields, IsFitScanner, IsPieceOf, given_of, head_of, mode_of, sources_in};
ghost use Rattle.lx_layout.specs.Switches.{cond_cases};
ghost use Rattle.lx_layout.specs.declared.pieces.ScannerInput.{ScannerInput};

use crate::copies::{Front, append_like, front_of};
use crate::demands::{Demand, PartInput};
use crate::forgetting::forget_before_jumps;
use crate::parts::append_part;
use crate::rule_ends::RuleEnd;
use crate::switches::{cond_cases, names_register_one, state_cases};
use lx_auto::Auto;
use lx_base::{Enc, Format, Memory, Names, Sequence};
use lx_ccode::{
    CodeBlock, Head, LineMark, Mode, Piece, StateCase, count_statements, mregs_of, regs_of,
    table_size,
};
use lx_dispatch::{Asking, UnitSets};
use lx_encode::{greatest_unit, unit_bytes};
use lx_shared::SharedText;
use std::alloc::Global;

/// What a piece is beside its scanners.
#[derive(Drop)]
pub struct PieceForm {
    /// The number in its output, counted from 1.
    pub number: u32,
    /// The format of its text.
    pub format: Format,
    pub names: Names,
    pub enc: Enc,
    /// Whether it reads its input by primitives of the user's, and not through pointers.
    pub custom: bool,
    /// The unit that stands at the end of the input, if one does.
    pub eof: Option<u32>,
    /// Whether refills are asked for.
    pub fill: bool,
    /// Whether the state is stored before each refill. The user declares the variables then.
    pub stores: bool,
    /// The number of the first state that is stored.
    pub first_state: u64,
    /// Whether it has a switch over its states.
    pub switches: bool,
    /// Whether register 1 is spelled as the context marker, if a statement has it.
    pub context: bool,
    /// The place behind the block, if that is told.
    pub line: Option<LineMark>,
}

/// What is given of a scanner.
#[derive(Clone, Copy)]
pub struct ScannerInput<'a, 'b> {
    /// The name of its condition, if it has one.
    pub cond: &'a Option<SharedText>,
    pub auto: &'a Auto,
    /// By how much the numbers of its rules are greater than those of its automaton, where that is the automaton of the first scanner.
    pub by: Option<u32>,
    /// For how many units each state checks where units are counted, by its number; 0 where it does not.
    pub checks: &'a [u32],
    /// What its rules do at their ends.
    pub ends: &'b [RuleEnd<'a>],
    /// The number of the rule at the end of the input, if there is one.
    pub end_rule: Option<u32>,
}

/// How a scanner finds the end of its input.
pub(crate) fn mode_of(eof: Option<u32>, fill: bool) -> Mode
    ensures { result ≡ mode_of eof fill }
{
    match (eof, fill) {
        (None, false) => Mode::Plain,
        (None, true) => Mode::Count,
        (Some(_), false) => Mode::EofFixed,
        (Some(_), true) => Mode::Eof,
    }
}

/// What the layout of a scanner is made of.
fn part_input<'b>(
    form: &PieceForm,
    sets: &'b UnitSets,
    scanner: &ScannerInput<'b, 'b>,
) -> PartInput<'b>
    ensures given { given_by scanner.now.by (seen_given result) ≡ given_of (seen_form form.now) sets.now.table.items (seen_source scanner.now) }
    ensures greatest { result.greatest ≡ greatest_unit form.now.enc }
    ensures ends { result.ends.now ≡ scanner.now.ends.now }
    ensures auto { result.auto.now ≡ scanner.now.auto.now }
    ensures end_rule { result.end_rule ≡ scanner.now.end_rule }
{
    let counted = form.fill && form.eof.is_none();
    PartInput {
        cond: scanner.cond,
        demand: Demand {
            eof: form.eof,
            tries: form.fill && form.eof.is_some(),
            checks: if counted { Some(scanner.checks) } else { None },
            stores: form.stores,
            asking: Asking {
                format: form.format,
                sets,
            },
        },
        greatest: greatest_unit(form.enc),
        ends: scanner.ends,
        end_rule: scanner.end_rule,
        auto: scanner.auto,
    }
}

/// The front of the first scanner, if another one is like it.
fn shared_front<'a>(
    alloc: Global,
    form: &PieceForm,
    sets: &'a UnitSets,
    scanners: &[ScannerInput<'a, 'a>],
) -> Result<Option<Front<'a>>, Memory>
    requires fit { AreFit (seen_form form.now) (seen_sources scanners.now) }
    requires like { AreLike scanners.now }
    ensures there { IfOk result (λ front. list_any is_like scanners.now ≡ true → is_some front ≡ true) }
    ensures front { IfOk result (λ front. IfSome front (λ one. (first : ScannerInput) (others : List ScannerInput) → scanners.now ≡ first ∷ others
        → IsFrontOf (seen_form form.now) sets.now.table.items first one)) }
{
    for scanner in scanners {
        if scanner.by.is_some() {
            return Ok(Some(front_of(alloc, &part_input(form, sets, &scanners[0]))?));
        }
    }
    Ok(None)
}

/// Appends the blocks of a scanner, and tells the first number behind those by which what reads is stored. Where it is like the first one,
/// they are copies of the front of that.
fn append_scanner(
    alloc: Global,
    blocks: &mut Vec<CodeBlock>,
    form: &PieceForm,
    sets: &UnitSets,
    front: &Option<Front<'_>>,
    scanner: &ScannerInput<'_, '_>,
    first: u64,
) -> Result<u64, Memory>
    requires fit { (conds : List (List ℕ)) × IsFitScanner (seen_form form.now) conds (seen_source scanner.now) }
    requires like { IfSome scanner.now.by (λ by. HasFront (seen_form form.now) sets.now.table.items front.now scanner.now) }
    ensures laid { OnOk result ((part : Part) × IsPartOf (greatest_unit form.now.enc) (given_of (seen_form form.now) sets.now.table.items (seen_source scanner.now)) part
        × (blocks.new.items ≡ blocks.old.items ++ part_blocks part (length blocks.old.items) first)) }
    ensures asked { IfOk result (λ next. next ≡ first + given_asked (given_of (seen_form form.now) sets.now.table.items (seen_source scanner.now))) }
{
    let input = part_input(form, sets, scanner);
    match (scanner.by, front) {
        (None, _) => append_part(alloc, blocks, &input, first),
        (Some(by), Some(front)) => append_like(alloc, blocks, front, &input, by, first),
        (Some(_), None) => unreachable!(),
    }
}

/// Appends the blocks of scanners one behind another, where this is the front of the first one, if there is one that is like it.
fn append_scanners(
    alloc: Global,
    blocks: &mut Vec<CodeBlock>,
    form: &PieceForm,
    sets: &UnitSets,
    front: &Option<Front<'_>>,
    scanners: &[ScannerInput<'_, '_>],
) -> Result<(), Memory>
    requires fit { AreFit (seen_form form.now) (seen_sources scanners.now) }
    requires like { AreLike scanners.now }
    requires there { list_any is_like scanners.now ≡ true → is_some front.now ≡ true }
    requires front { IfSome front.now (λ one. (first : ScannerInput) (others : List ScannerInput) → scanners.now ≡ first ∷ others
        → IsFrontOf (seen_form form.now) sets.now.table.items first one) }
    requires empty { blocks.old.items ≡ [] }
    ensures { OnOk result ((parts : List Part) × ArePartsOf (seen_form form.now) sets.now.table.items (seen_sources scanners.now) parts
        × (blocks.new.items ≡ parts_blocks 0 form.now.first_state parts)) }
{
    let mut next = form.first_state;
    for scanner in scanners {
        next = append_scanner(alloc, blocks, form, sets, front, scanner, next)?;
    }
    Ok(())
}

/// The blocks of scanners one behind another, whose tests ask for these sets. What a match kept is forgotten before each jump, if a statement
/// tests it.
///
/// Blocks with more than 2^62 statements count as want of memory.
fn scanner_blocks(
    alloc: Global,
    form: &PieceForm,
    sets: &UnitSets,
    scanners: &[ScannerInput<'_, '_>],
) -> Result<Vec<CodeBlock>, Memory>
    requires fit { AreFit (seen_form form.now) (seen_sources scanners.now) }
    requires like { AreLike scanners.now }
    requires table { IsTable sets.now.table.items }
    ensures parts { IfOk result (λ blocks. (parts : List Part)
        × ArePartsOf (seen_form form.now) sets.now.table.items (sources_in blocks.items (seen_sources scanners.now)) parts
        × (blocks.items ≡ parts_blocks 0 form.now.first_state parts)) }
    ensures forgets { IfOk result (λ blocks. JumpsForget blocks.items) }
    ensures few { IfOk result (λ blocks. statement_count blocks.items ≤ STATEMENT_LIMIT) }
    ensures sets { IfOk result (λ blocks. table_size blocks.items ≤ length sets.now.table.items) }
{
    let front = shared_front(alloc, form, sets, scanners)?;
    let mut blocks = Vec::new(alloc);
    append_scanners(alloc, &mut blocks, form, sets, &front, scanners)?;
    forget_before_jumps(alloc, &mut blocks)?;
    if count_statements(&blocks).is_none() {
        return Err(Memory);
    }
    blocks.shrink_to_fit();
    Ok(blocks)
}

/// The sets of scanners for which tests may ask: in format 3 those of states that go to themselves.
fn sets_of(
    alloc: Global,
    form: &PieceForm,
    scanners: &[ScannerInput<'_, '_>],
) -> Result<UnitSets, Memory>
    ensures table { IfOk result (λ sets. IsTable sets.table.items) }
    ensures none { IfOk result (λ sets. form.now.format ≡ Two → sets.table.items ≡ []) }
{
    let mut sets = UnitSets::new(alloc);
    if form.format == Format::Two {
        return Ok(sets);
    }
    for scanner in scanners {
        if scanner.by.is_none() {
            sets.add(form.eof, greatest_unit(form.enc), scanner.auto)?;
        }
    }
    Ok(sets)
}

/// The blocks of scanners, and the table of the sets for which they ask.
#[derive(Drop)]
pub(crate) struct Laid {
    pub blocks: Vec<CodeBlock>,
    pub table: Vec<u8>,
}

/// The blocks of scanners one behind another, and the table of the sets for which they ask. Where no test asks for the last sets they are cut, and
/// the scanners are laid without them.
///
/// Blocks with more than 2^62 statements count as want of memory.
pub(crate) fn laid_scanners(
    alloc: Global,
    form: &PieceForm,
    scanners: &[ScannerInput<'_, '_>],
) -> Result<Laid, Memory>
    requires fit { AreFit (seen_form form.now) (seen_sources scanners.now) }
    requires like { AreLike scanners.now }
    ensures parts { IfOk result (λ laid. (parts : List Part)
        × ArePartsOf (seen_form form.now) laid.table.items (sources_in laid.blocks.items (seen_sources scanners.now)) parts
        × (laid.blocks.items ≡ parts_blocks 0 form.now.first_state parts)) }
    ensures forgets { IfOk result (λ laid. JumpsForget laid.blocks.items) }
    ensures few { IfOk result (λ laid. statement_count laid.blocks.items ≤ STATEMENT_LIMIT) }
    ensures table { IfOk result (λ laid. IsTable laid.table.items) }
    ensures none { IfOk result (λ laid. form.now.format ≡ Two → laid.table.items ≡ []) }
    ensures size { IfOk result (λ laid. length laid.table.items ≡ table_size laid.blocks.items) }
{
    let mut sets = sets_of(alloc, form, scanners)?;
    loop {
        let blocks = scanner_blocks(alloc, form, &sets, scanners)?;
        let size = table_size(&blocks) as usize;
        if size == sets.table.len() {
            let table = sets.table;
            return Ok(Laid { blocks, table });
        }
        sets.cut(size / 256);
    }
}

/// What a piece of these blocks tells of itself, where they store so many states.
fn head_of(form: &PieceForm, blocks: &[CodeBlock], states: u64) -> Head
    requires short { IsShort (mregs_of blocks.now) }
    requires states { states ≡ state_count blocks.now }
    ensures { result ≡ head_of (seen_form form.now) blocks.now }
{
    let mregs = mregs_of(blocks);
    Head {
        format: form.format,
        custom: form.custom,
        enc: form.enc,
        mode: mode_of(form.eof, form.fill),
        regs: regs_of(blocks),
        mregs: mregs as u32,
        states,
    }
}

/// Whether register 1 is spelled as the context marker.
fn has_context(context: bool, blocks: &[CodeBlock]) -> bool
    ensures { result ≡ (context && list_any has_register_one (all_statements blocks.now)) }
{
    context && names_register_one(blocks)
}

/// The switch over stored states, if the piece has one.
fn switch_of(switches: bool, cases: Vec<StateCase>) -> Option<Sequence<StateCase>>
    ensures has { is_some result ≡ switches }
    ensures cases { IfSome result (λ switch. switch ≡ cases.items) }
{
    if switches {
        return Some(Sequence::from_vec(cases));
    }
    None
}

/// The cases of the states that blocks store, if they store any.
fn stored_cases(alloc: Global, stores: bool, blocks: &[CodeBlock]) -> Result<Vec<StateCase>, Memory>
    requires { stores ≡ false → states_from 0 blocks.now ≡ [] }
    ensures { IfOk result (λ cases. cases.items ≡ states_from 0 blocks.now) }
{
    if stores {
        return state_cases(alloc, blocks);
    }
    Ok(Vec::new(alloc))
}

/// The piece of these blocks, whose histories have numbers of 32 bits.
pub(crate) fn piece_with(alloc: Global, form: PieceForm, laid: Laid) -> Result<Piece, Memory>
    requires short { IsShort (mregs_of laid.blocks.items) }
    requires stored { form.stores ≡ false → states_from 0 laid.blocks.items ≡ [] }
    requires none { form.format ≡ Two → laid.table.items ≡ [] }
    ensures fields { IfOk result (λ piece. HasFields (seen_form form) (labels laid.blocks.items) piece) }
    ensures blocks { IfOk result (λ piece. piece.blocks ≡ laid.blocks.items) }
    ensures table { IfOk result (λ piece. piece.table ≡ laid.table.items) }
    ensures states { IfOk result (λ piece. IfSome piece.states (λ cases. cases ≡ states_from 0 laid.blocks.items)) }
    ensures conds { IfOk result (λ piece. piece.conds ≡ cond_cases 0 laid.blocks.items) }
{
    let Laid { blocks, table } = laid;
    let cases = stored_cases(alloc, form.stores, &blocks)?;
    let conds = cond_cases(alloc, &blocks)?;
    let head = head_of(&form, &blocks, cases.len() as u64);
    let ctx = has_context(form.context, &blocks);
    let states = switch_of(form.switches, cases);
    Ok(Piece {
        number: form.number,
        head: Some(head),
        names: form.names,
        unit: unit_bytes(form.enc),
        eof: form.eof,
        declares: !form.stores,
        ctx,
        table: Sequence::from_vec(table),
        states,
        conds: Sequence::from_vec(conds),
        blocks: Sequence::from_vec(blocks),
        line: form.line,
    })
}

/// The piece of scanners, one behind another, each with its automaton.
///
/// It may answer want of memory, which no clause ties to a cause; a piece that would have more than 2^62 statements counts as that.
pub fn piece_of(
    alloc: Global,
    form: PieceForm,
    scanners: &[ScannerInput<'_, '_>],
) -> Result<Piece, Memory>
    requires fit { AreFit (seen_form form) (seen_sources scanners.now) }
    requires like { AreLike scanners.now }
    ensures { IfOk result (IsPieceOf (seen_form form) (seen_sources scanners.now)) }
{
    let laid = laid_scanners(alloc, &form, scanners)?;
    let piece = piece_with(alloc, form, laid)?;
    Ok(piece)
}
