//! How values are printed.
ghost use Rattle.std.specs.Prelude.{◌≡◌, [], ◌∷◌, ◌++◌, codes};
ghost use Rattle.lx_base.specs.Text.{joined};
ghost use Rattle.lx_run.specs.Puts.{IsPut};
ghost use Rattle.lx_run.specs.Values.{entries_text, groups_text, group_text, history_text, offset_text, tag_text};

use crate::puts::{put, put_parts};
use itoa::Buffer;
use lx_ccode::Stmt;
use lx_files::{PutAnswer, Sink};
use lx_step::{Group, Lexer};

/// The digits of an offset, or `-` for none.
fn offset_text(buffer: &mut Buffer, offset: Option<u64>) -> &[u8]
    ensures { result.now ≡ offset_text offset }
{
    match offset {
        None => b"-",
        Some(offset) => buffer.format(offset).as_bytes(),
    }
}

/// Puts an offset, or `-` for none.
fn put_offset<O: Sink>(out: &mut O, offset: Option<u64>) -> Result<(), PutAnswer>
    ensures { IsPut (O.given out.old) (O.given out.new) (O.faults out.old) (O.faults out.new) (O.wants out.old) (O.wants out.new) (offset_text offset) result }
{
    let mut buffer = Buffer::new();
    put(out, offset_text(&mut buffer, offset))
}

/// Puts an entry of a history, behind a comma.
fn put_entry<O: Sink>(out: &mut O, entry: Option<u64>) -> Result<(), PutAnswer>
    ensures { IsPut (O.given out.old) (O.given out.new) (O.faults out.old) (O.faults out.new) (O.wants out.old) (O.wants out.new) (codes "," ++ offset_text entry) result }
{
    let mut buffer = Buffer::new();
    put_parts(out, &[b",", offset_text(&mut buffer, entry)])
}

/// Puts entries of a history, each behind a comma.
fn put_entries<O: Sink>(out: &mut O, entries: &[Option<u64>]) -> Result<(), PutAnswer>
    ensures { IsPut (O.given out.old) (O.given out.new) (O.faults out.old) (O.faults out.new) (O.wants out.old) (O.wants out.new) (entries_text entries.now) result }
{
    for entry in entries {
        put_entry(out, *entry)?;
    }
    Ok(())
}

/// Puts a history, with commas between its entries.
fn put_history<O: Sink>(out: &mut O, entries: &[Option<u64>]) -> Result<(), PutAnswer>
    ensures { IsPut (O.given out.old) (O.given out.new) (O.faults out.old) (O.faults out.new) (O.wants out.old) (O.wants out.new) (history_text entries.now) result }
{
    let Some((first, others)) = entries.split_first() else {
        return Ok(());
    };
    put_offset(out, *first)?;
    put_entries(out, others)
}

/// Puts the history that a statement gave a tag.
fn put_tag_history<O: Sink>(
    out: &mut O,
    name: &[u8],
    entries: &[Option<u64>],
) -> Result<(), PutAnswer>
    ensures { IsPut (O.given out.old) (O.given out.new) (O.faults out.old) (O.faults out.new) (O.wants out.old) (O.wants out.new)
        (joined (codes " " ∷ name.now ∷ codes "=[" ∷ history_text entries.now ∷ codes "]" ∷ []) []) result }
{
    put_parts(out, &[b" ", name, b"=["])?;
    put_history(out, entries)?;
    put(out, b"]")
}

/// Puts the value that a statement gave a tag.
pub fn put_tag<O: Sink>(out: &mut O, lexer: &Lexer<'_>, statement: &Stmt) -> Result<(), PutAnswer>
    ensures { IsPut (O.given out.old) (O.given out.new) (O.faults out.old) (O.faults out.new) (O.wants out.old) (O.wants out.new) (tag_text lexer.now statement.now) result }
{
    match statement {
        Stmt::Tag(name, false, _) => {
            let mut buffer = Buffer::new();
            let offset = offset_text(&mut buffer, lexer.value(name.as_slice()).unwrap_or(None));
            put_parts(out, &[b" ", name.as_slice(), b"=", offset])
        }
        Stmt::Tag(name, true, _) => {
            let entries = lexer.history(name.as_slice()).unwrap_or(&[]);
            put_tag_history(out, name.as_slice(), entries)
        }
        _ => Ok(()),
    }
}

/// Puts the ends of a group.
fn put_group<O: Sink>(out: &mut O, group: Group) -> Result<(), PutAnswer>
    ensures { IsPut (O.given out.old) (O.given out.new) (O.faults out.old) (O.faults out.new) (O.wants out.old) (O.wants out.new) (group_text group) result }
{
    let mut from = Buffer::new();
    let mut to = Buffer::new();
    put_parts(
        out,
        &[
            b" (",
            offset_text(&mut from, group.from),
            b",",
            offset_text(&mut to, group.to),
            b")",
        ],
    )
}

/// Puts the ends of groups.
pub fn put_groups<O: Sink>(out: &mut O, groups: &[Group]) -> Result<(), PutAnswer>
    ensures { IsPut (O.given out.old) (O.given out.new) (O.faults out.old) (O.faults out.new) (O.wants out.old) (O.wants out.new) (groups_text groups.now) result }
{
    for group in groups {
        put_group(out, *group)?;
    }
    Ok(())
}
