//! Reads the blocks of a piece.
ghost use Rattle.std.specs.Prelude.{◌≡◌, ◌<◌, length, MatchOption, map, IfOk};
ghost use Rattle.std.specs.List.{AllByRecursion};
ghost use Rattle.lx_ccode.specs.Reading.{behind_block, behind_brace, blocks_at, body_at, code_block_at, conds_from, ends_blocks, lone_label, statements_at};
ghost use Rattle.lx_creader.specs.BlockParts.{fuel_behind, manner_of};
ghost use Rattle.lx_creader.specs.Fitted.{fitted_block, fitted_statement};

use crate::lines::{Scope, begins_statement};
use crate::marks::{behind_mark, block_at};
use crate::statements::is_ending;
use crate::words::{after_identifier, byte_at, front_identifier, skip};
use lx_base::letters::begins_with;
use lx_base::{Memory, Sequence, names};
use lx_ccode::{CodeBlock, CondCase, Stmt, ends_in_code};
use lx_shared::SharedText;
use std::alloc::Global;

/// The fuel behind a statement; none behind one that ends a block.
fn fuel_behind(fuel: usize, statement: &Stmt) -> usize
    requires { 0 < fuel }
    ensures { result ≡ fuel_behind fuel statement.now }
{
    if is_ending(statement) { 0 } else { fuel - 1 }
}

impl Scope<'_> {
    /// The statements at the front up to one that ends a block, at most as many as the fuel; whether one names
    /// the context marker as register 1; and what comes behind them.
    #[tactic(auto, unfolding(lx_ccode::specs::Reading::statements_at))]
    fn statements_at<'b>(
        &self,
        fuel: usize,
        bytes: &'b [u8],
    ) -> Result<(Vec<Stmt>, bool, &'b [u8]), Memory>
        ensures { IfOk result (λ read. (read.0.items ≡ map fitted_statement (statements_at fuel self.now.custom self.now.names.now bytes.now).0) × (read.1 ≡ (statements_at fuel self.now.custom self.now.names.now bytes.now).1) × (read.2.now ≡ (statements_at fuel self.now.custom self.now.names.now bytes.now).2)) }
    {
        let mut statements = Vec::new(self.alloc);
        let mut ctx = false;
        let mut left = fuel;
        let mut bytes = bytes;
        while left > 0 && begins_statement(bytes) {
            let (statement, is_context, rest) = self.statement_at(bytes)?;
            left = fuel_behind(left, &statement);
            statements.push(statement)?;
            ctx |= is_context;
            bytes = rest;
        }
        Ok((statements, ctx, bytes))
    }

    /// What comes behind a block with these statements.
    fn behind_block<'b>(&self, statements: &[Stmt], bytes: &'b [u8]) -> &'b [u8]
        ensures { result.now ≡ behind_block (manner_of self.now) statements.now bytes.now }
    {
        if self.placed && ends_in_code(statements) {
            behind_mark(bytes)
        } else {
            bytes
        }
    }

    /// The statements of a block whose labels were read.
    fn body_at<'b>(
        &self,
        fuel: usize,
        cond: Option<SharedText>,
        bytes: &'b [u8],
    ) -> Result<(CodeBlock, bool, &'b [u8]), Memory>
        ensures { IfOk result (λ read. (read.0 ≡ fitted_block (body_at fuel (manner_of self.now) cond bytes.now).0) × (read.1 ≡ (body_at fuel (manner_of self.now) cond bytes.now).1) × (read.2.now ≡ (body_at fuel (manner_of self.now) cond bytes.now).2)) }
    {
        let (statements, ctx, rest) = self.statements_at(fuel, bytes)?;
        let rest = self.behind_block(statements.as_slice(), rest);
        let block = CodeBlock {
            cond,
            stmts: Sequence::from_vec(statements),
        };
        Ok((block, ctx, rest))
    }

    /// The condition of a label that stands alone: none where it is the block's own, which in formats before 3
    /// always stands.
    fn lone_label(&self, word: &[u8]) -> Result<Option<SharedText>, Memory>
        ensures { IfOk result (λ cond. cond ≡ lone_label (manner_of self.now) word.now) }
    {
        if !self.three || begins_with(word, self.front) {
            Ok(None)
        } else {
            let prefix = names::label_prefix(self.names);
            Ok(Some(self.text(skip(word, prefix.len()))?))
        }
    }

    /// One block. Of two labels the first is a condition's.
    #[tactic(auto, unfolding(lx_ccode::specs::Reading::code_block_at))]
    fn code_block_at<'b>(
        &self,
        fuel: usize,
        bytes: &'b [u8],
    ) -> Result<(CodeBlock, bool, &'b [u8]), Memory>
        ensures { IfOk result (λ read. (read.0 ≡ fitted_block (code_block_at fuel (manner_of self.now) bytes.now).0) × (read.1 ≡ (code_block_at fuel (manner_of self.now) bytes.now).1) × (read.2.now ≡ (code_block_at fuel (manner_of self.now) bytes.now).2)) }
    {
        if begins_statement(bytes) {
            return self.body_at(fuel, None, bytes);
        }
        let word = front_identifier(bytes);
        let rest = skip(after_identifier(bytes), 2);
        if begins_statement(rest) {
            let cond = self.lone_label(word)?;
            self.body_at(fuel, cond, rest)
        } else {
            let prefix = names::label_prefix(self.names);
            let cond = self.text(skip(word, prefix.len()))?;
            self.body_at(fuel, Some(cond), skip(after_identifier(rest), 2))
        }
    }

    /// The blocks, at most as many as the fuel; `None` where one has no statement.
    #[tactic(auto, unfolding(lx_ccode::specs::Reading::blocks_at))]
    pub(crate) fn blocks_at<'b>(
        &self,
        fuel: usize,
        bytes: &'b [u8],
    ) -> Result<Option<(Sequence<CodeBlock>, bool, &'b [u8])>, Memory>
        ensures { IfOk result (λ found. MatchOption found
            (AllByRecursion (λ block. 0 < length block.stmts) (blocks_at fuel fuel (manner_of self.now) bytes.now).0 → ⊥)
            (λ read. (read.0 ≡ map fitted_block (blocks_at fuel fuel (manner_of self.now) bytes.now).0) × (read.1 ≡ (blocks_at fuel fuel (manner_of self.now) bytes.now).1) × (read.2.now ≡ (blocks_at fuel fuel (manner_of self.now) bytes.now).2))) }
    {
        let mut blocks = Vec::new(self.alloc);
        let mut ctx = false;
        let mut left = fuel;
        let mut bytes = bytes;
        while left > 0 && !ends_blocks(bytes) {
            left -= 1;
            let (block, is_context, rest) = self.code_block_at(fuel, bytes)?;
            if block.stmts.as_slice().is_empty() {
                return Ok(None);
            }
            blocks.push(block)?;
            ctx |= is_context;
            bytes = rest;
        }
        Ok(Some((Sequence::from_vec(blocks), ctx, bytes)))
    }
}

/// No block begins here, but the brace or `yyN_none:;`.
fn ends_blocks(bytes: &[u8]) -> bool
    ensures { result ≡ ends_blocks bytes.now }
{
    if begins_statement(bytes) {
        false
    } else {
        byte_at(bytes, 0) == b'}' || byte_at(after_identifier(bytes), 1) == b';'
    }
}

/// What comes behind the label behind the blocks, where it stands, and the brace.
pub(crate) fn behind_brace(bytes: &[u8]) -> &[u8]
    ensures { result.now ≡ behind_brace bytes.now }
{
    if byte_at(bytes, 0) == b'}' {
        skip(bytes, 2)
    } else {
        skip(block_at(bytes), 9)
    }
}

/// The conditions that blocks are starts of, in order.
pub(crate) fn conds_from(alloc: Global, blocks: &[CodeBlock]) -> Result<Sequence<CondCase>, Memory>
    ensures { IfOk result (λ conds. conds ≡ conds_from 0 blocks.now) }
{
    let mut conds = Vec::new(alloc);
    for (place, block) in blocks.iter().enumerate() {
        if let Some(cond) = &block.cond {
            conds.push(CondCase {
                cond: cond.share()?,
                block: place as u64,
            })?;
        }
    }
    Ok(Sequence::from_vec(conds))
}
