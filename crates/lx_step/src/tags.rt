//! The names of the user's tags, as they stand in a piece.
ghost use Rattle.std.specs.Prelude.{◌≡◌, ℕ, ◌+◌, ◌<◌, ◌≤◌, List, [], ◌∷◌, ◌++◌, Some, None, get_or, length, map, set, slice_index_or, IfOk, IfSome, IsOk, OnOk, vec_capacity};
ghost use Rattle.std.specs.List.{list_any};
ghost use Rattle.lx_ccode.specs.declared.piece.CodeBlock.{CodeBlock};
ghost use Rattle.lx_ccode.specs.declared.piece.Stmt.{Stmt};
ghost use Rattle.lx_base.specs.declared.limits.TheConstants.{STATEMENT_LIMIT};
ghost use Rattle.lx_ccode.specs.Machine.{code_at};
ghost use Rattle.lx_ccode.specs.NameSets.{first_place};
ghost use Rattle.lx_ccode.specs.Statements.{all_statements, statement_count};
ghost use Rattle.lx_step.specs.Places.{statement_at};
ghost use Rattle.lx_step.specs.Tags.{AreTags, AreTagsOf, IsTableOf, bucket_of, gives, has_name, hash_from, is_new, marked, names_from, new_tag, no_tag, tag_name, tag_names, told_name};

use crate::answers::StmtAt;
use crate::assignments::statement_at;
use lx_base::Memory;
use lx_base::letters::equal_words;
use lx_ccode::{CodeBlock, Stmt};
use std::alloc::Global;

/// A tag of the user's: where the piece names it first, the last tag before it in the bucket of its name, and whether the piece gives it
/// an offset, or a history.
#[derive(Clone, Copy)]
pub(crate) struct TagName {
    pub(crate) at: StmtAt,
    pub(crate) before: Option<usize>,
    pub(crate) has_offset: bool,
    pub(crate) has_history: bool,
}

/// The tags of a piece by their numbers, and for each bucket of names the last tag in it, so that each is found by its name without a
/// look at all others.
#[derive(Drop)]
pub(crate) struct TagTable {
    pub(crate) tags: Vec<TagName>,
    pub(crate) latest: Vec<Option<usize>>,
}

/// The name of the tag that the statement at a place gives a value, or no name.
fn name_at(blocks: &[CodeBlock], place: StmtAt) -> &[u8]
    ensures { result.now ≡ tag_name blocks.now place }
{
    match statement_at(blocks, place) {
        Some(Stmt::Tag(name, _, _)) => name.as_slice(),
        _ => b"",
    }
}

/// The bucket of a name, where there are so many.
#[tactic(auto, unfolding(crate::specs::Tags::bucket_of))]
fn bucket_of(buckets: usize, name: &[u8]) -> usize
    requires { 0 < buckets }
    ensures bucket { result ≡ bucket_of buckets name.now }
    ensures within { result < buckets }
{
    let mut hash = 0;
    for letter in name {
        hash = (hash * 16_777_619 + u64::from(*letter)) % 4_294_967_291;
    }
    hash as usize % buckets
}

impl TagTable {
    /// No tags, and so many buckets, or one where that is none.
    pub(crate) fn new(alloc: Global, buckets: u64) -> Result<TagTable, Memory>
        ensures { IfOk result (λ table. (blocks : List CodeBlock) → AreTagsOf blocks [] table) }
    {
        Ok(TagTable {
            tags: Vec::new(alloc),
            latest: vec![in alloc; None; (buckets as usize).max(1)]?,
        })
    }

    /// Forgets all tags, and keeps the room for them.
    pub(crate) fn clear(&mut self)
        requires { 0 < length self.old.latest.items }
        ensures none { (blocks : List CodeBlock) → AreTagsOf blocks [] self.new }
        ensures room { vec_capacity self.old.tags ≤ vec_capacity self.new.tags }
    {
        self.tags.clear();
        self.latest.fill(None);
    }

    /// The number of a tag among those of the table, if it is one of them.
    pub(crate) fn number_of(&self, blocks: &[CodeBlock], name: &[u8]) -> Option<usize>
        requires { (names : List (List ℕ)) × IsTableOf blocks.now names self.now }
        ensures number { result ≡ first_place (map (told_name blocks.now) self.now.tags.items) name.now }
        ensures within { IfSome result (λ number. number < length self.now.tags.items) }
    {
        let mut at = self.latest[bucket_of(self.latest.len(), name)];
        while let Some(number) = at {
            let tag = self.tags[number];
            if equal_words(name_at(blocks, tag.at), name) {
                return Some(number);
            }
            at = tag.before;
        }
        None
    }

    /// Lists the tags of a piece, in the order in which it names them. With room for them all it takes no memory.
    pub(crate) fn list(&mut self, blocks: &[CodeBlock]) -> Result<(), Memory>
        requires { AreTagsOf blocks.now [] self.old }
        ensures tags { OnOk result (AreTags blocks.now self.new) }
        ensures succeeds { length (tag_names blocks.now) ≤ vec_capacity self.old.tags → IsOk result }
    {
        for (place, block) in blocks.iter().enumerate() {
            self.list_those_of(blocks, place as u64, block.stmts.as_slice())?;
        }
        Ok(())
    }

    /// Lists those that a block names, behind others.
    fn list_those_of(
        &mut self,
        blocks: &[CodeBlock],
        block: u64,
        statements: &[Stmt],
    ) -> Result<(), Memory>
        requires block { code_at blocks.now (Some block) ≡ Some statements.now }
        requires table { (before : List Stmt) × AreTagsOf blocks.now before self.old }
        ensures tags { OnOk result ((before : List Stmt) → AreTagsOf blocks.now before self.old → AreTagsOf blocks.now (before ++ statements.now) self.new) }
        ensures room { vec_capacity self.old.tags ≤ vec_capacity self.new.tags }
        ensures succeeds { (before : List Stmt) → AreTagsOf blocks.now before self.old → length (names_from (before ++ statements.now) []) ≤ vec_capacity self.old.tags → IsOk result }
    {
        for (place, statement) in statements.iter().enumerate() {
            let at = StmtAt {
                block,
                stmt: place as u64,
            };
            self.list_one(blocks, at, statement)?;
        }
        Ok(())
    }

    /// Lists the tag that a statement names, if it names one that is not listed, and notes what it gives it.
    fn list_one(&mut self, blocks: &[CodeBlock], at: StmtAt, statement: &Stmt) -> Result<(), Memory>
        requires stands { statement_at blocks.now at ≡ Some statement.now }
        requires table { (before : List Stmt) × AreTagsOf blocks.now before self.old }
        ensures tags { OnOk result ((before : List Stmt) → AreTagsOf blocks.now before self.old → AreTagsOf blocks.now (before ++ statement.now ∷ []) self.new) }
        ensures room { vec_capacity self.old.tags ≤ vec_capacity self.new.tags }
        ensures succeeds { (before : List Stmt) → AreTagsOf blocks.now before self.old → length (names_from (before ++ statement.now ∷ []) []) ≤ vec_capacity self.old.tags → IsOk result }
    {
        let Stmt::Tag(name, is_history, _) = statement else {
            return Ok(());
        };
        let number = match self.number_of(blocks, name.as_slice()) {
            Some(number) => number,
            None => self.add(at, name.as_slice())?,
        };
        self.mark(number, *is_history);
        Ok(())
    }

    /// Puts a tag behind the others, which the statement at a place names first.
    fn add(&mut self, at: StmtAt, name: &[u8]) -> Result<usize, Memory>
        requires { 0 < length self.old.latest.items }
        ensures number { IfOk result (λ number. number ≡ length self.old.tags.items) }
        ensures tags { OnOk result (self.new.tags.items ≡ self.old.tags.items ++ new_tag at (get_or self.old.latest.items (bucket_of (length self.old.latest.items) name.now) None) ∷ []) }
        ensures latest { OnOk result (self.new.latest.items ≡ set self.old.latest.items (bucket_of (length self.old.latest.items) name.now) (Some (length self.old.tags.items))) }
        ensures room { vec_capacity self.old.tags ≤ vec_capacity self.new.tags }
        ensures succeeds { length self.old.tags.items < vec_capacity self.old.tags → IsOk result }
    {
        let bucket = bucket_of(self.latest.len(), name);
        let number = self.tags.len();
        self.tags.push(TagName {
            at,
            before: self.latest[bucket],
            has_offset: false,
            has_history: false,
        })?;
        self.latest[bucket] = Some(number);
        Ok(number)
    }

    /// Notes that the piece gives a tag a history, or an offset.
    fn mark(&mut self, number: usize, is_history: bool)
        requires { number < length self.old.tags.items }
        ensures tags { self.new.tags.items ≡ set self.old.tags.items number (marked is_history (slice_index_or self.old.tags.items number no_tag)) }
        ensures latest { self.new.latest.items ≡ self.old.latest.items }
        ensures room { vec_capacity self.old.tags ≤ vec_capacity self.new.tags }
    {
        let tag = &mut self.tags[number];
        if is_history {
            tag.has_history = true;
        } else {
            tag.has_offset = true;
        }
    }
}

/// Whether a statement of the blocks gives a tag a history, or an offset.
fn any_gives(blocks: &[CodeBlock], history: bool, name: &[u8]) -> bool
    ensures { result ≡ list_any (gives history name.now) (all_statements blocks.now) }
{
    for block in blocks {
        if one_gives(block.stmts.as_slice(), history, name) {
            return true;
        }
    }
    false
}

/// Whether one of the statements does.
fn one_gives(statements: &[Stmt], history: bool, name: &[u8]) -> bool
    ensures { result ≡ list_any (gives history name.now) statements.now }
{
    for statement in statements {
        if gives(statement, history, name) {
            return true;
        }
    }
    false
}

/// Whether the statement gives a tag a history, or an offset.
fn gives(statement: &Stmt, history: bool, name: &[u8]) -> bool
    ensures { result ≡ gives history name.now statement.now }
{
    match statement {
        Stmt::Tag(other, true, _) => history && equal_words(other.as_slice(), name),
        Stmt::Tag(other, false, _) => !history && equal_words(other.as_slice(), name),
        _ => false,
    }
}

/// How many different tags blocks name. It takes no memory, and looks for each statement that names one at those before it.
pub(crate) fn count_of_tags(blocks: &[CodeBlock]) -> u64
    requires { statement_count blocks.now ≤ STATEMENT_LIMIT }
    ensures { result ≡ length (tag_names blocks.now) }
{
    let mut count = 0;
    for (place, block) in blocks.iter().enumerate() {
        count += count_of_new(&blocks[..place], block.stmts.as_slice());
    }
    count
}

/// How many different tags statements name that no block before them names.
fn count_of_new(blocks: &[CodeBlock], statements: &[Stmt]) -> u64
    ensures { result + length (tag_names blocks.now) ≡ length (names_from statements.now (tag_names blocks.now)) }
{
    let mut count = 0;
    for (place, statement) in statements.iter().enumerate() {
        if is_new(blocks, &statements[..place], statement) {
            count += 1;
        }
    }
    count
}

/// Whether the statement names a tag that no block and no statement before it names.
fn is_new(blocks: &[CodeBlock], statements: &[Stmt], statement: &Stmt) -> bool
    ensures { result ≡ is_new (names_from statements.now (tag_names blocks.now)) statement.now }
{
    let Stmt::Tag(name, _, _) = statement else {
        return false;
    };
    !is_named(blocks, statements, name.as_slice())
}

/// Whether one of the blocks and statements names a tag.
fn is_named(blocks: &[CodeBlock], statements: &[Stmt], name: &[u8]) -> bool
    ensures { result ≡ has_name (names_from statements.now (tag_names blocks.now)) name.now }
{
    if one_gives(statements, false, name) {
        return true;
    }
    if one_gives(statements, true, name) {
        return true;
    }
    if any_gives(blocks, false, name) {
        return true;
    }
    any_gives(blocks, true, name)
}
