//! Decides which lists of statements and of blocks a valid piece may have.
ghost use Rattle.std.specs.Prelude.{◌≡◌, ◌≤◌, ◌↔◌, ◌||◌, IsTrue, false, true, length};
ghost use Rattle.std.specs.List.{AllByRecursion, list_any};
ghost use Rattle.lx_ccode.specs.Counts.{is_peek};
ghost use Rattle.lx_ccode.specs.States.{try_first};
ghost use Rattle.lx_ccode.specs.Statements.{all_statements, has_register_one, is_need, is_of_three, is_state, is_switch, is_try, names_table, statement_count};
ghost use Rattle.lx_ccode.specs.Validity.{IsLabel, ends_once, last_statements, refill_first, refills_after_states, states_before_refills, tries_after_state};
ghost use Rattle.lx_creader.specs.ValidParts.{IsValidBlock, IsValidStatement};

use crate::statements::{
    has_few_groups, has_spelling, is_ending, is_need, is_of_three, is_peek, is_refill, is_state,
    is_switch, is_try, jumps_below, names_one_of, names_table,
};
use lx_base::Names;
use lx_base::letters::is_identifier;
use lx_ccode::{CodeBlock, NameSet, Stmt, has_register_one};
use lx_shared::SharedText;

/// What the rules of statements and blocks depend on.
#[derive(Clone, Copy)]
pub(crate) struct Rules<'a> {
    pub names: &'a Names,
    pub conds: &'a NameSet,
    /// How many blocks the piece has.
    pub blocks: usize,
}

impl Rules<'_> {
    fn is_valid_statement(&self, statement: &Stmt) -> bool
        ensures { IsTrue result ↔ IsValidStatement self.now.names.now self.now.conds.now self.now.blocks statement.now }
    {
        let jumps = jumps_below(self.blocks, statement);
        let conds = names_one_of(self.conds, statement);
        let groups = has_few_groups(statement);
        let spelled = has_spelling(self.names, statement);
        jumps && conds && groups && spelled
    }

    fn are_valid_statements(&self, statements: &[Stmt]) -> bool
        ensures { IsTrue result ↔ AllByRecursion (IsValidStatement self.now.names.now self.now.conds.now self.now.blocks) statements.now }
    {
        for statement in statements {
            if !self.is_valid_statement(statement) {
                return false;
            }
        }
        true
    }

    fn is_valid_block(&self, block: &CodeBlock) -> bool
        ensures { IsTrue result ↔ IsValidBlock self.now.names.now self.now.conds.now self.now.blocks block.now }
    {
        let statements = block.stmts.as_slice();
        let some = !statements.is_empty();
        let label = is_label(&block.cond);
        let ends = ends_once(statements);
        let after_states = refills_after_states(statements);
        let valid = self.are_valid_statements(statements);
        some && label && ends && after_states && valid
    }

    /// Whether each block keeps the rules that speak of one block or of its statements.
    pub(crate) fn are_valid_blocks(&self, blocks: &[CodeBlock]) -> bool
        ensures { IsTrue result ↔ AllByRecursion (IsValidBlock self.now.names.now self.now.conds.now self.now.blocks) blocks.now }
    {
        for block in blocks {
            if !self.is_valid_block(block) {
                return false;
            }
        }
        true
    }
}

/// Whether a condition's name, where there is one, is an identifier.
fn is_label(cond: &Option<SharedText>) -> bool
    ensures { IsTrue result ↔ IsLabel cond.now }
{
    match cond {
        None => true,
        Some(cond) => is_identifier(cond.as_slice()),
    }
}

/// Whether the last statement, and no other, is Switch, Goto, Leave, Code or Jump.
fn ends_once(statements: &[Stmt]) -> bool
    ensures { result ≡ ends_once statements.now }
{
    for (place, statement) in statements.iter().enumerate() {
        if place + 1 == statements.len() {
            return is_ending(statement);
        }
        if is_ending(statement) {
            return false;
        }
    }
    false
}

fn refill_first(statements: &[Stmt]) -> bool
    ensures { result ≡ refill_first statements.now }
{
    match statements.first() {
        None => false,
        Some(statement) => is_refill(statement),
    }
}

/// Whether a Need or a Try stands directly behind each State.
fn refills_after_states(statements: &[Stmt]) -> bool
    ensures { result ≡ refills_after_states statements.now }
{
    for (place, statement) in statements.iter().enumerate() {
        if is_state(statement) && !refill_first(&statements[place + 1..]) {
            return false;
        }
    }
    true
}

fn states_before_refills(statements: &[Stmt]) -> bool
    ensures { result ≡ states_before_refills false statements.now }
{
    let mut after_state = false;
    for statement in statements {
        if is_refill(statement) && !after_state {
            return false;
        }
        after_state = is_state(statement);
    }
    true
}

/// Whether in each block a State stands directly before each Need and each Try.
pub(crate) fn blocks_store_states(blocks: &[CodeBlock]) -> bool
    ensures { IsTrue result ↔ AllByRecursion (λ block. states_before_refills false block.stmts ≡ true) blocks.now }
{
    for block in blocks {
        if !states_before_refills(block.stmts.as_slice()) {
            return false;
        }
    }
    true
}

fn tries_after_state(statements: &[Stmt]) -> bool
    ensures { result ≡ tries_after_state false statements.now }
{
    let mut after_state = false;
    for statement in statements {
        if after_state && is_try(statement) {
            return true;
        }
        after_state = is_state(statement);
    }
    false
}

/// Whether in the last block a Try stands directly behind a State.
pub(crate) fn last_tries_after_state(blocks: &[CodeBlock]) -> bool
    ensures { result ≡ tries_after_state false (last_statements blocks.now) }
{
    match blocks.split_last() {
        None => false,
        Some((block, _)) => tries_after_state(block.stmts.as_slice()),
    }
}

/// Which sorts of statements a piece has.
#[derive(Clone, Copy)]
pub(crate) struct Kinds {
    pub peek: bool,
    pub state: bool,
    pub need: bool,
    pub try_refill: bool,
    pub register_one: bool,
    pub of_three: bool,
    pub switch: bool,
    /// Whether a user's tag is called as the table of sets is.
    pub table_tag: bool,
}

/// Which sorts of statements stand in the list, or were found before.
fn kinds_of(before: Kinds, statements: &[Stmt]) -> Kinds
    ensures peek { result.peek ≡ (before.peek || list_any is_peek statements.now) }
    ensures state { result.state ≡ (before.state || list_any is_state statements.now) }
    ensures need { result.need ≡ (before.need || list_any is_need statements.now) }
    ensures try_refill { result.try_refill ≡ (before.try_refill || list_any is_try statements.now) }
    ensures register_one { result.register_one ≡ (before.register_one || list_any has_register_one statements.now) }
    ensures of_three { result.of_three ≡ (before.of_three || list_any is_of_three statements.now) }
    ensures switch { result.switch ≡ (before.switch || list_any is_switch statements.now) }
    ensures table_tag { result.table_tag ≡ (before.table_tag || list_any names_table statements.now) }
{
    let mut kinds = before;
    for statement in statements {
        kinds.peek |= is_peek(statement);
        kinds.state |= is_state(statement);
        kinds.need |= is_need(statement);
        kinds.try_refill |= is_try(statement);
        kinds.register_one |= has_register_one(statement);
        kinds.of_three |= is_of_three(statement);
        kinds.switch |= is_switch(statement);
        kinds.table_tag |= names_table(statement);
    }
    kinds
}

/// Which sorts of statements stand in the blocks.
pub(crate) fn kinds_in(blocks: &[CodeBlock]) -> Kinds
    ensures peek { result.peek ≡ list_any is_peek (all_statements blocks.now) }
    ensures state { result.state ≡ list_any is_state (all_statements blocks.now) }
    ensures need { result.need ≡ list_any is_need (all_statements blocks.now) }
    ensures try_refill { result.try_refill ≡ list_any is_try (all_statements blocks.now) }
    ensures register_one { result.register_one ≡ list_any has_register_one (all_statements blocks.now) }
    ensures of_three { result.of_three ≡ list_any is_of_three (all_statements blocks.now) }
    ensures switch { result.switch ≡ list_any is_switch (all_statements blocks.now) }
    ensures table_tag { result.table_tag ≡ list_any names_table (all_statements blocks.now) }
{
    let mut kinds = Kinds {
        peek: false,
        state: false,
        need: false,
        try_refill: false,
        register_one: false,
        of_three: false,
        switch: false,
        table_tag: false,
    };
    for block in blocks {
        kinds = kinds_of(kinds, block.stmts.as_slice());
    }
    kinds
}
