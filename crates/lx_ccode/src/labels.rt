//! The labels of a piece's blocks.
ghost use Rattle.std.specs.Prelude.{◌≡◌, ◌<◌, ◌^◌, ◌++◌, ◌∷◌, [], IfOk, false, length, map, replicate, set, true};
ghost use Rattle.lx_ccode.specs.Labels.{all_targets, answers_from, block_front, is_gone_to, marked, standing_labels, starts_by_label};
ghost use Rattle.lx_ccode.specs.States.{states_from, states_in, try_first};
ghost use Rattle.lx_ccode.specs.Statements.{all_statements, targets};

use crate::heads::is_three;
use crate::numerals::append_number;
use crate::piece::{CodeBlock, Piece, Stmt, SwitchCase};
use lx_base::Memory;
use std::alloc::Global;

/// How the labels of the blocks of the piece with this number begin: `yyN_`.
pub fn block_front(alloc: Global, number: u32) -> Result<Vec<u8>, Memory>
    ensures { IfOk result (λ front. front.items ≡ block_front number) }
{
    let mut front = Vec::new(alloc);
    append_number(&mut front, b"yy", u64::from(number), b"_")?;
    Ok(front)
}

/// For each block of a piece of format 3 whether its own label stands, which it does where something goes
/// to it. In a piece of another format each label stands, and the answer is empty.
pub(crate) fn standing_labels(alloc: Global, piece: &Piece) -> Result<Vec<bool>, Memory>
    ensures { IfOk result (λ labels. labels.items ≡ standing_labels piece.now) }
{
    if is_three(&piece.head) {
        labels_of_three(alloc, piece)
    } else {
        Ok(Vec::new(alloc))
    }
}

fn labels_of_three(alloc: Global, piece: &Piece) -> Result<Vec<bool>, Memory>
    ensures { IfOk result (λ labels. labels.items ≡ answers_from (is_gone_to piece.now) 0 (length piece.now.blocks)) }
{
    let blocks = piece.blocks.as_slice();
    let mut labels = none_of(alloc, blocks.len())?;
    mark_jumps(&mut labels, blocks);
    mark_returns(&mut labels, blocks);
    if starts_by_label(piece) {
        mark(&mut labels, 0);
    }
    Ok(labels)
}

/// So many truth values that are false.
fn none_of(alloc: Global, count: usize) -> Result<Vec<bool>, Memory>
    ensures { IfOk result (λ labels. labels.items ≡ replicate count false) }
{
    let mut labels = Vec::new(alloc);
    while labels.len() < count {
        labels.push(false)?;
    }
    Ok(labels)
}

fn starts_by_label(piece: &Piece) -> bool
    ensures { result ≡ starts_by_label piece.now }
{
    if piece.conds.as_slice().is_empty() {
        !piece.declares || piece.states.is_some()
    } else {
        false
    }
}

/// Says that something goes to the block, where there is one.
fn mark(labels: &mut Vec<bool>, block: u64)
    ensures { labels.new.items ≡ set labels.old.items block true }
{
    let place = block as usize;
    if place < labels.len() {
        labels[place] = true;
    }
}

/// Marks the blocks to which statements of these blocks may jump.
fn mark_jumps(labels: &mut Vec<bool>, blocks: &[CodeBlock])
    ensures { labels.new.items ≡ marked labels.old.items (all_targets (all_statements blocks.now)) }
{
    for block in blocks {
        mark_statements(labels, block.stmts.as_slice());
    }
}

fn mark_statements(labels: &mut Vec<bool>, statements: &[Stmt])
    ensures { labels.new.items ≡ marked labels.old.items (all_targets statements.now) }
{
    for statement in statements {
        mark_targets(labels, statement);
    }
}

fn mark_targets(labels: &mut Vec<bool>, statement: &Stmt)
    ensures { labels.new.items ≡ marked labels.old.items (targets statement.now) }
{
    match statement {
        Stmt::IfUnit(_, block)
        | Stmt::IfIs(_, block)
        | Stmt::IfSet(_, block)
        | Stmt::IfAccept(_, block)
        | Stmt::IfEnd(block)
        | Stmt::Try(block)
        | Stmt::Goto(block) => mark(labels, *block),
        Stmt::Switch(cases, last) => mark_switch(labels, cases.as_slice(), *last),
        _ => {}
    }
}

fn mark_switch(labels: &mut Vec<bool>, cases: &[SwitchCase], last: u64)
    ensures { labels.new.items ≡ marked labels.old.items (map (λ case. case.block) cases.now ++ last ∷ []) }
{
    mark_cases(labels, cases);
    mark(labels, last);
}

fn mark_cases(labels: &mut Vec<bool>, cases: &[SwitchCase])
    ensures { labels.new.items ≡ marked labels.old.items (map (λ case. case.block) cases.now) }
{
    for case in cases {
        mark(labels, case.block);
    }
}

/// Marks the blocks where scanners that stored a state go on.
fn mark_returns(labels: &mut Vec<bool>, blocks: &[CodeBlock])
    ensures { labels.new.items ≡ marked labels.old.items (map (λ case. case.block) (states_from 0 blocks.now)) }
{
    for (place, block) in blocks.iter().enumerate() {
        mark_states(labels, place as u64, block.stmts.as_slice());
    }
}

/// Marks the blocks where scanners go on that stored a state of these statements, which stand in the block at
/// this place.
fn mark_states(labels: &mut Vec<bool>, place: u64, statements: &[Stmt])
    requires { place < 2 ^ 63 }
    ensures { labels.new.items ≡ marked labels.old.items (map (λ case. case.block) (states_in place statements.now [])) }
{
    for (index, statement) in statements.iter().enumerate() {
        if matches!(statement, Stmt::State(_)) {
            let goes_on = try_first(&statements[index + 1..]);
            mark(labels, if goes_on { place + 1 } else { place });
        }
    }
}

fn try_first(statements: &[Stmt]) -> bool
    ensures { result ≡ try_first statements.now }
{
    match statements.first() {
        None => false,
        Some(statement) => matches!(statement, Stmt::Try(_)),
    }
}
