//! Writes pieces, and counts their statements.
ghost use Rattle.std.specs.Prelude.{◌≡◌, ◌<◌, ◌≤◌, ◌++◌, [], ◌∷◌, MatchOption, OnOk, IfOk, Some, codes, false, true};
ghost use Rattle.std.specs.Fmt.{decimal};
ghost use Rattle.lx_base.specs.declared.limits.TheConstants.{STATEMENT_LIMIT};
ghost use Rattle.lx_base.specs.Text.{joined};
ghost use Rattle.lx_ccode.specs.Heads.{is_three};
ghost use Rattle.lx_ccode.specs.Statements.{statement_count};
ghost use Rattle.lx_ccode.specs.Text.{closing_then, eof_then, front_then, line_behind, line_then, name_then, names_then, opening_then, piece_text, sections_by};
ghost use Rattle.lx_ccode.specs.Validity.{IsValid};

use crate::heads::{append_head, is_kept, is_three};
use crate::labels::standing_labels;
use crate::lines::{Scope, append_line};
use crate::numerals::append_number;
use crate::openings::{
    append_accept_line, append_cond_label, append_label_switch, append_unit_line, declares_accept,
    declares_unit, has_cond_label, has_none_label,
};
use crate::piece::{CodeBlock, LineMark, Piece};
use crate::places::{file_of, line_behind, line_of};
use crate::sections::append_table;
use lx_base::limits::STATEMENT_LIMIT;
use lx_base::{ByteText, Memory, Names, append_parts};
use std::alloc::Global;

/// The text of a valid piece, from its begin mark to its end mark. A piece of format 3 that has a `#line` of
/// the source behind it stands at a place of a file, the line of its brace; no other piece has a place.
pub fn print(alloc: Global, place: &Option<LineMark>, piece: &Piece) -> Result<ByteText, Memory>
    requires { IsValid piece.now }
    ensures { IfOk result (λ text. text ≡ piece_text place.now piece.now) }
{
    let mut text = Vec::new(alloc);
    append_piece(alloc, &mut text, place, piece)?;
    Ok(ByteText::from_vec(text))
}

/// Appends the text of a valid piece, from its begin mark to its end mark, at a place as `print` has it.
/// Where memory runs out a part of it may stand there.
pub fn append_piece(
    alloc: Global,
    text: &mut Vec<u8>,
    place: &Option<LineMark>,
    piece: &Piece,
) -> Result<(), Memory>
    requires { IsValid piece.now }
    ensures { OnOk result (text.new.items ≡ text.old.items ++ piece_text place.now piece.now) }
{
    let labels = standing_labels(alloc, piece)?;
    let scope = Scope::of(alloc, piece, labels.as_slice(), file_of(place));
    scope.append_front(text, piece)?;
    append_line(text, place)?;
    let line = scope.append_opening(text, line_of(place), piece)?;
    scope.append_blocks(text, line, piece.blocks.as_slice())?;
    scope.append_closing(text, piece)?;
    Ok(())
}

/// Each method appends a part of the piece that it is of, and where memory runs out a part of it may stand
/// there.
impl Scope<'_> {
    /// Appends what stands from the begin mark to the line of the spellings.
    pub(crate) fn append_front(&self, text: &mut Vec<u8>, piece: &Piece) -> Result<(), Memory>
        ensures { OnOk result (text.new.items ≡ text.old.items ++ front_then piece.now []) }
    {
        append_begin(text, piece.number)?;
        append_head(text, is_kept(&piece.head, piece.declares), &piece.head)?;
        append_unit(text, piece.unit)?;
        append_eof(text, piece.eof)?;
        append_names(text, &piece.names)?;
        append_parts(text, &[b"*/\n"])?;
        Ok(())
    }

    /// Appends what stands from the brace to the blocks, where the brace stands in this line, and tells the
    /// line behind it.
    pub(crate) fn append_opening(
        &self,
        text: &mut Vec<u8>,
        line: Option<u32>,
        piece: &Piece,
    ) -> Result<Option<u32>, Memory>
        requires number { self.now.number ≡ piece.now.number }
        requires names { self.now.names.now ≡ piece.now.names }
        ensures { IfOk result (λ after. (text.new.items ≡ text.old.items ++ opening_then piece.now []) × (after ≡ line_behind line (opening_then piece.now []))) }
    {
        let start = text.len();
        append_parts(text, &[b"{\n"])?;
        append_table(self.alloc, text, piece.table.as_slice())?;
        self.append_sections(text, piece)?;
        Ok(line_behind(line, &text.as_slice()[start..]))
    }

    /// Appends the declarations and the switches.
    fn append_sections(&self, text: &mut Vec<u8>, piece: &Piece) -> Result<(), Memory>
        requires number { self.now.number ≡ piece.now.number }
        requires names { self.now.names.now ≡ piece.now.names }
        ensures { OnOk result (text.new.items ≡ text.old.items ++ sections_by (is_three piece.now.head) piece.now []) }
    {
        if is_three(&piece.head) {
            self.append_sections_of_three(text, piece)
        } else {
            self.append_old_sections(text, piece)
        }
    }

    fn append_old_sections(&self, text: &mut Vec<u8>, piece: &Piece) -> Result<(), Memory>
        requires number { self.now.number ≡ piece.now.number }
        requires names { self.now.names.now ≡ piece.now.names }
        ensures { OnOk result (text.new.items ≡ text.old.items ++ sections_by false piece.now []) }
    {
        let conds = piece.conds.as_slice();
        self.append_declarations(text, piece.declares)?;
        self.append_state_switch(text, conds, &piece.states)?;
        self.append_cond_switch(text, conds)?;
        Ok(())
    }

    fn append_sections_of_three(&self, text: &mut Vec<u8>, piece: &Piece) -> Result<(), Memory>
        requires number { self.now.number ≡ piece.now.number }
        requires names { self.now.names.now ≡ piece.now.names }
        ensures { OnOk result (text.new.items ≡ text.old.items ++ sections_by true piece.now []) }
    {
        let conds = piece.conds.as_slice();
        append_unit_line(text, declares_unit(piece), &piece.names, piece.unit)?;
        append_accept_line(text, declares_accept(piece), &piece.names)?;
        self.append_state_switch(text, conds, &piece.states)?;
        append_cond_label(text, has_cond_label(piece), piece.number)?;
        append_label_switch(text, &piece.names, conds)?;
        append_parts(text, &[b"\n"])?;
        Ok(())
    }

    /// Appends what stands behind the blocks.
    pub(crate) fn append_closing(&self, text: &mut Vec<u8>, piece: &Piece) -> Result<(), Memory>
        requires { self.now.number ≡ piece.now.number }
        ensures { OnOk result (text.new.items ≡ text.old.items ++ closing_then piece.now []) }
    {
        self.append_none(text, has_none_label(piece))?;
        append_parts(text, &[b"}\n"])?;
        append_end(text, &piece.line)?;
        Ok(())
    }
}

/// Appends the `#line` behind a piece, where there is one, and the end mark. Where memory runs out a part of
/// it may stand there.
pub(crate) fn append_end(text: &mut Vec<u8>, line: &Option<LineMark>) -> Result<(), Memory>
    ensures { OnOk result (text.new.items ≡ text.old.items ++ line_then line.now (joined (codes "/*!end:re2c*/" ∷ []) [])) }
{
    append_line(text, line)?;
    append_parts(text, &[b"/*!end:re2c*/"])?;
    Ok(())
}

/// The number of statements of a valid piece. It takes no memory.
pub fn statements(piece: &Piece) -> u64
    requires { IsValid piece.now }
    ensures { result ≡ statement_count piece.now.blocks }
{
    count_statements(piece.blocks.as_slice()).unwrap()
}

/// How many statements the blocks have; `None` where they are more than a valid piece may have, which is
/// 2^62. It takes no memory.
pub fn count_statements(blocks: &[CodeBlock]) -> Option<u64>
    ensures { MatchOption result (STATEMENT_LIMIT < statement_count blocks.now)
        (λ count. (count ≡ statement_count blocks.now) × (count ≤ STATEMENT_LIMIT)) }
{
    let mut count: u64 = 0;
    for block in blocks {
        count = count.saturating_add(block.stmts.as_slice().len() as u64);
        if count > STATEMENT_LIMIT {
            return None;
        }
    }
    Some(count)
}

/// Appends the begin mark of the piece with this number. Where memory runs out a part of it may stand there.
pub(crate) fn append_begin(text: &mut Vec<u8>, number: u32) -> Result<(), Memory>
    ensures { OnOk result (text.new.items ≡ text.old.items ++ joined (codes "/*!begin:re2c " ∷ decimal number ∷ codes "*/\n" ∷ []) []) }
{
    append_number(text, b"/*!begin:re2c ", u64::from(number), b"*/\n")
}

fn append_unit(text: &mut Vec<u8>, unit: u32) -> Result<(), Memory>
    ensures { OnOk result (text.new.items ≡ text.old.items ++ joined (codes "/*!names:re2c " ∷ decimal unit ∷ codes " " ∷ []) []) }
{
    append_number(text, b"/*!names:re2c ", u64::from(unit), b" ")
}

fn append_eof(text: &mut Vec<u8>, eof: Option<u32>) -> Result<(), Memory>
    ensures { OnOk result (text.new.items ≡ text.old.items ++ eof_then eof []) }
{
    match eof {
        None => Ok(text.push(b'-')?),
        Some(unit) => append_number(text, b"", u64::from(unit), b""),
    }
}

fn append_names(text: &mut Vec<u8>, names: &Names) -> Result<(), Memory>
    ensures { OnOk result (text.new.items ≡ text.old.items ++ names_then names.now []) }
{
    for place in 0..names.len() {
        append_name(text, names.spelling(place))?;
    }
    Ok(())
}

fn append_name(text: &mut Vec<u8>, name: &[u8]) -> Result<(), Memory>
    ensures { OnOk result (text.new.items ≡ text.old.items ++ name_then name.now []) }
{
    append_number(text, b" ", name.len() as u64, b":")?;
    Ok(text.extend_from_slice(name)?)
}
