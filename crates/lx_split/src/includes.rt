//! Includes: their file names, and the names under which their files are looked for.
ghost use Rattle.std.specs.Prelude.{◌≡◌, ◌++◌, ◌==◌, length, IfOk};
ghost use Rattle.std.specs.List.{list_any};
ghost use Rattle.std.specs.Option.{option_copied};
ghost use Rattle.lx_split.specs.IncludeNames.{after_blanks, checked_name, file_name_of, folder_of, is_allowed_name, names_for};
ghost use Rattle.lx_split.specs.Includes.{IsIncludeOr, empty_block, enter_block, leave_block};

use crate::bodies::after_file_name;
use crate::pieces::SourcePiece;
use crate::searches::from_opening;
use lx_base::{BlockKind, ByteText, FileName, Memory, Options, Pos};
use lx_token::after_blank;
use memchr::memrchr;
use std::alloc::Global;

/// An include.
#[derive(Drop)]
pub struct IncludeBlock {
    /// What stands between the word and the `*/`.
    pub body: ByteText,
    /// The place of the `/` of its opener.
    pub at: Pos,
    /// The line of the `*/`.
    pub end_line: u32,
}

/// The include that a piece is, or else the piece.
pub(crate) fn include_of(piece: SourcePiece) -> Result<IncludeBlock, SourcePiece>
    ensures { IsIncludeOr piece result }
{
    match piece {
        SourcePiece::Block {
            kind: BlockKind::Include,
            body,
            at,
            end_line,
            ..
        } => Ok(IncludeBlock { body, at, end_line }),
        piece => Err(piece),
    }
}

/// A block without text at a place.
fn empty_block(alloc: Global, kind: BlockKind, at: Pos, end_line: u32) -> SourcePiece
    ensures { result ≡ empty_block kind at end_line }
{
    SourcePiece::Block {
        kind,
        body: ByteText::new(alloc),
        at,
        body_at: at,
        end_line,
    }
}

/// The block that stands before the pieces of an included file.
pub(crate) fn enter_block(alloc: Global, file: u32) -> SourcePiece
    ensures { result ≡ enter_block file }
{
    empty_block(alloc, BlockKind::Enter, Pos::start_of(file), 1)
}

/// The block that stands behind the pieces of an included file.
pub(crate) fn leave_block(alloc: Global, include: &IncludeBlock) -> SourcePiece
    ensures { result ≡ leave_block include.now }
{
    empty_block(alloc, BlockKind::Leave, include.at, include.end_line)
}

/// What is left of a text behind the blanks and the comments at its front.
fn after_blanks(text: &[u8]) -> &[u8]
    ensures { result.now ≡ after_blanks (length text.now) text.now }
{
    let mut rest = text;
    while let Some(tail) = after_blank(rest) {
        rest = tail;
    }
    rest
}

/// Whether the bytes have a carriage return.
fn has_return(text: &[u8]) -> bool
    ensures { result ≡ list_any (λ letter. letter == 13) text.now }
{
    text.iter().any(|letter| *letter == b'\r')
}

/// Whether the bytes between two quotes are the name of a file, if they are text.
fn is_allowed(quoted: &[u8]) -> bool
    ensures { result ≡ is_allowed_name quoted.now }
{
    !quoted.is_empty()
        && !has_return(quoted)
        && !quoted.starts_with(b"*!")
        && from_opening(quoted).is_empty()
}

/// The bytes between two quotes as the name of a file, if they are one.
fn checked_name(quoted: &[u8]) -> Option<&str>
    ensures { option_copied result ≡ checked_name quoted.now }
{
    if !is_allowed(quoted) {
        return None;
    }
    str::from_utf8(quoted).ok()
}

/// The file name in the body of an include: `"`, the name and `"`, with blanks and comments around.
pub(crate) fn file_name_of(body: &[u8]) -> Option<&str>
    ensures { option_copied result ≡ file_name_of body.now }
{
    let (quote, text) = after_blanks(body).split_first()?;
    if *quote != b'"' {
        return None;
    }
    let rest = after_file_name(text)?;
    if !after_blanks(rest).is_empty() {
        return None;
    }
    checked_name(&text[..text.len() - rest.len() - 1])
}

/// The folder of a file with this name: the name up to its last `/`, or nothing where it has none.
pub(crate) fn folder_of(name: &str) -> &str
    ensures { result.now ≡ folder_of name.now }
{
    match memrchr(b'/', name.as_bytes()) {
        Some(index) => &name[..index + 1],
        None => "",
    }
}

/// A name of three parts.
fn joined(alloc: Global, folder: &str, between: &str, name: &str) -> Result<FileName, Memory>
    ensures { IfOk result (λ joined. joined ≡ folder.now ++ (between.now ++ name.now)) }
{
    let mut joined = String::from_str(alloc, folder)?;
    joined.push_str(between)?;
    joined.push_str(name)?;
    Ok(FileName::from_string(joined))
}

/// The names under which an include of a file in a folder is looked for, in order.
pub(crate) fn names_for(
    alloc: Global,
    opts: &Options,
    folder: &str,
    name: &str,
) -> Result<Vec<FileName>, Memory>
    ensures { IfOk result (λ names. names.items ≡ names_for opts.now folder.now name.now) }
{
    let mut names = Vec::new(alloc);
    if name.as_bytes().starts_with(b"/") {
        names.push(joined(alloc, "", "", name)?)?;
        return Ok(names);
    }
    names.push(joined(alloc, folder, "", name)?)?;
    if let Some(dir) = &opts.dir {
        names.push(joined(alloc, dir.as_str(), "/", name)?)?;
    }
    Ok(names)
}
