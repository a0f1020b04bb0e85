//! Decides which pieces are valid: a test for each rule.
ghost use Rattle.std.specs.Prelude.{◌≡◌, ◌<◌, ◌^◌, ◌*◌, ◌↔◌, ◌⊎◌, IsTrue, IfOk, IfSome, false, true};
ghost use Rattle.std.specs.List.{AllByRecursion};
ghost use Rattle.lx_base.specs.Names.{name_primitives};
ghost use Rattle.lx_ccode.specs.Agreement.{Agrees, keeps_mode};
ghost use Rattle.lx_ccode.specs.Counts.{state_count};
ghost use Rattle.lx_ccode.specs.Heads.{is_custom};
ghost use Rattle.lx_ccode.specs.Labels.{block_front};
ghost use Rattle.lx_ccode.specs.Validity.{IsLong, IsShort, IsValid};
ghost use Rattle.lx_creader.specs.ValidParts.{HasUnit, KeepsBlockRules, KeepsFormatRules, KeepsHeadRules, KeepsKindRules};

use crate::cases::are_bytes;
use crate::conds::{distinct_conds, keep_cond_rules};
use crate::labels::any_is_like_block;
use crate::rules::{Kinds, Rules, blocks_store_states, kinds_in, last_tries_after_state};
use crate::statements::{is_line, is_long, is_short};
use crate::states::keep_state_rules;
use lx_base::names::{are_allowed, do_not_clash, name_primitives, name_table};
use lx_base::{Memory, Names, Sequence};
use lx_ccode::{
    CodeBlock, Head, Mode, NameSet, Piece, StateCase, block_front, count_statements, is_custom,
    is_three, mregs_of, regs_of, table_size,
};
use lx_encode::unit_bytes;
use std::alloc::Global;

/// Whether a unit has one, two or four bytes, and the unit at the buffer's end is one.
fn has_unit(unit: u32, eof: Option<u32>) -> bool
    ensures { IsTrue result ↔ HasUnit unit eof }
{
    match (unit, eof) {
        (1, Some(eof)) => eof < 256,
        (2, Some(eof)) => eof < 65536,
        (1 | 2 | 4, _) => true,
        _ => false,
    }
}

/// Whether the numbers of the cases have at most 64 bits, as each has that a piece can hold.
fn are_long(cases: &[StateCase]) -> bool
    ensures { IsTrue result ↔ AllByRecursion (λ case. IsLong case.state × IsLong case.block) cases.now }
{
    for case in cases {
        let state = is_long(case.state);
        let block = is_long(case.block);
        if !(state && block) {
            return false;
        }
    }
    true
}

fn are_long_if_some(states: &Option<Sequence<StateCase>>) -> bool
    ensures { IsTrue result ↔ IfSome states.now (λ cases. AllByRecursion (λ case. IsLong case.state × IsLong case.block) cases) }
{
    match states {
        None => true,
        Some(cases) => are_long(cases.as_slice()),
    }
}

/// Whether the numbers of the head can be written, as each can that a piece can hold.
fn has_numbers(head: &Option<Head>) -> bool
    ensures { IsTrue result ↔ IfSome head.now (λ head. IsShort head.regs × IsShort head.mregs × IsLong head.states) }
{
    match head {
        None => true,
        Some(head) => is_short(head.regs) && is_short(head.mregs) && is_long(head.states),
    }
}

/// Whether no spelling means an input primitive, where the input is read by these.
fn names_no_primitive(head: &Option<Head>, names: &Names) -> bool
    ensures { IsTrue result ↔ (is_custom head.now ≡ true → name_primitives names.now ≡ false) }
{
    let custom = is_custom(head);
    let primitives = name_primitives(names);
    !custom || !primitives
}

fn keeps_head_rules(piece: &Piece) -> bool
    ensures { IsTrue result ↔ KeepsHeadRules piece.now }
{
    let number = is_short(piece.number);
    let line = is_line(&piece.line);
    let states = are_long_if_some(&piece.states);
    let unit = has_unit(piece.unit, piece.eof);
    let names = are_allowed(&piece.names);
    let names_differ = do_not_clash(&piece.names);
    let no_primitive = names_no_primitive(&piece.head, &piece.names);
    let head = has_numbers(&piece.head);
    let table = are_bytes(piece.table.as_slice());
    number && line && states && unit && names && names_differ && no_primitive && head && table
}

fn keeps_mode(mode: Mode, has_eof: bool, kinds: Kinds) -> bool
    ensures { result ≡ keeps_mode mode has_eof kinds.peek kinds.need kinds.try_refill }
{
    let peeks = kinds.peek;
    let needs = kinds.need;
    let tries = kinds.try_refill;
    match mode {
        Mode::Plain => !has_eof && !needs && !tries,
        Mode::Count => !has_eof && (!peeks || needs) && !tries,
        Mode::EofFixed => has_eof && !needs && !tries,
        Mode::Eof => has_eof && !needs && (!peeks || tries),
    }
}

/// Whether a head agrees with a piece that stores so many states.
fn agrees(piece: &Piece, head: &Head, states: usize) -> bool
    requires { states ≡ state_count piece.now.blocks }
    ensures { IsTrue result ↔ Agrees piece.now head.now }
{
    let blocks = piece.blocks.as_slice();
    let unit = piece.unit == unit_bytes(head.enc);
    let mode = keeps_mode(head.mode, piece.eof.is_some(), kinds_in(blocks));
    let regs = head.regs == regs_of(blocks);
    let mregs = u64::from(head.mregs) == mregs_of(blocks);
    let stored = head.states == states as u64;
    unit && mode && regs && mregs && stored
}

/// Whether the head, where there is one, agrees with a piece that stores so many states.
fn agrees_if_some(piece: &Piece, states: usize) -> bool
    requires { states ≡ state_count piece.now.blocks }
    ensures { IsTrue result ↔ IfSome piece.now.head (Agrees piece.now) }
{
    match &piece.head {
        None => true,
        Some(head) => agrees(piece, head, states),
    }
}

fn keep_block_rules(names: &Names, conds: &NameSet, blocks: &[CodeBlock]) -> bool
    ensures { IsTrue result ↔ KeepsBlockRules names.now conds.now blocks.now }
{
    let rules = Rules {
        names,
        conds,
        blocks: blocks.len(),
    };
    let some = !blocks.is_empty();
    let countable = count_statements(blocks).is_some();
    let valid = rules.are_valid_blocks(blocks);
    some && countable && valid
}

fn keep_kind_rules(ctx: bool, blocks: &[CodeBlock]) -> bool
    ensures { IsTrue result ↔ KeepsKindRules ctx blocks.now }
{
    let kinds = kinds_in(blocks);
    let one_refill = !kinds.need || !kinds.try_refill;
    let store = blocks_store_states(blocks);
    let before_refills = !kinds.state || store;
    let next_block = !last_tries_after_state(blocks);
    let context = !ctx || kinds.register_one;
    one_refill && before_refills && next_block && context
}

/// Whether the piece keeps the rules of formats, where the labels of its blocks begin with the front.
fn keeps_format_rules(piece: &Piece, front: &[u8]) -> bool
    requires { front.now ≡ block_front piece.now.number }
    ensures { IsTrue result ↔ KeepsFormatRules piece.now }
{
    let blocks = piece.blocks.as_slice();
    let kinds = kinds_in(blocks);
    let three = is_three(&piece.head);
    let of_three = !kinds.of_three || three;
    let switches = !kinds.switch || piece.unit == 1;
    let table = piece.table.as_slice().len() as u64 == table_size(blocks);
    let names = !three || !name_table(&piece.names);
    let tags = !three || !kinds.table_tag;
    let labels = !three || !any_is_like_block(front, &piece.names, blocks);
    of_three && switches && table && names && tags && labels
}

/// Whether the piece is valid.
pub(crate) fn is_valid(alloc: Global, piece: &Piece) -> Result<bool, Memory>
    ensures { IfOk result (λ valid. IsTrue valid ↔ IsValid piece.now) }
{
    let blocks = piece.blocks.as_slice();
    let conds = piece.conds.as_slice();
    let (kept, states) = keep_state_rules(alloc, blocks, &piece.states)?;
    if !kept {
        return Ok(false);
    }
    let Some(names) = distinct_conds(alloc, conds)? else {
        return Ok(false);
    };
    let head = keeps_head_rules(piece);
    let named = keep_cond_rules(blocks, conds);
    let valid = keep_block_rules(&piece.names, &names, blocks);
    let kinds = keep_kind_rules(piece.ctx, blocks);
    let agree = agrees_if_some(piece, states);
    let front = block_front(alloc, piece.number)?;
    let formats = keeps_format_rules(piece, front.as_slice());
    Ok(keep_all(head, named, valid, kinds, agree, formats))
}

fn keep_all(head: bool, named: bool, valid: bool, kinds: bool, agree: bool, formats: bool) -> bool
    ensures { IsTrue result ↔ (IsTrue head × IsTrue named × IsTrue valid × IsTrue kinds × IsTrue agree × IsTrue formats) }
{
    head && named && valid && kinds && agree && formats
}
