//! The statements by which a match gave values, and how these are printed.
ghost use Rattle.std.specs.Prelude.{◌≡◌, ◌<◌, ◌++◌, if◌then◌else◌, [], codes, get_or, length, option_map, take, unwrap_or};
ghost use Rattle.std.specs.List.{list_any};
ghost use Rattle.lx_step.specs.Firsts.{no_place};
ghost use Rattle.lx_step.specs.Held.{cond_of};
ghost use Rattle.lx_run.specs.Puts.{IsPut};
ghost use Rattle.lx_run.specs.Tags.{new_tag_text};
ghost use Rattle.lx_run.specs.Values.{assignments, groups_text, is_cond, is_count, statement_at, statements_at, tags_text, values_text};

use crate::puts::put_parts;
use crate::values::{put_groups, put_tag};
use lx_ccode::{Piece, Stmt};
use lx_files::{PutAnswer, Sink};
use lx_step::{Lexer, StmtAt};

/// The statement at a place.
fn statement_at<'p>(piece: &'p Piece, place: StmtAt) -> Option<&'p Stmt>
    ensures { option_map (λ statement. statement.now) result ≡ statement_at piece.now place }
{
    let block = piece.blocks.as_slice().get(place.block as usize)?;
    block.stmts.as_slice().get(place.stmt as usize)
}

/// Puts the value that the statement at one of the places of the last match gave a tag, unless one at the places before gave the tag a value
/// of the same sort.
fn put_new_tag<O: Sink>(
    out: &mut O,
    piece: &Piece,
    lexer: &Lexer<'_>,
    at: usize,
) -> Result<(), PutAnswer>
    requires piece { lexer.now.piece ≡ piece.now }
    requires within { at < length lexer.now.assigned }
    ensures { IsPut (O.given out.old) (O.given out.new) (O.faults out.old) (O.faults out.new) (O.wants out.old) (O.wants out.new)
        (new_tag_text lexer.now (statements_at piece.now (take at lexer.now.assigned)) (statement_at piece.now (get_or lexer.now.assigned at no_place))) result }
{
    let Some(statement) = statement_at(piece, lexer.assigned()[at]) else {
        return Ok(());
    };
    if !lexer.is_first(at) {
        return Ok(());
    }
    put_tag(out, lexer, statement)
}

/// Puts the tags that the last match gave values, each once.
fn put_tags<O: Sink>(out: &mut O, piece: &Piece, lexer: &Lexer<'_>) -> Result<(), PutAnswer>
    requires { lexer.now.piece ≡ piece.now }
    ensures { IsPut (O.given out.old) (O.given out.new) (O.faults out.old) (O.faults out.new) (O.wants out.old) (O.wants out.new)
        (tags_text lexer.now [] (assignments lexer.now)) result }
{
    let places = lexer.assigned();
    for at in 0..places.len() {
        put_new_tag(out, piece, lexer, at)?;
    }
    Ok(())
}

/// Whether a statement at the places counts groups.
fn has_count(piece: &Piece, places: &[StmtAt]) -> bool
    ensures { result ≡ list_any is_count (statements_at piece.now places.now) }
{
    for place in places {
        if let Some(Stmt::Count(_)) = statement_at(piece, *place) {
            return true;
        }
    }
    false
}

/// Whether a statement at the places sets the condition.
fn has_cond(piece: &Piece, places: &[StmtAt]) -> bool
    ensures { result ≡ list_any is_cond (statements_at piece.now places.now) }
{
    for place in places {
        if let Some(Stmt::Cond(_)) = statement_at(piece, *place) {
            return true;
        }
    }
    false
}

/// Puts the groups, where the last match counted them.
fn put_counted<O: Sink>(out: &mut O, piece: &Piece, lexer: &Lexer<'_>) -> Result<(), PutAnswer>
    requires { lexer.now.piece ≡ piece.now }
    ensures { IsPut (O.given out.old) (O.given out.new) (O.faults out.old) (O.faults out.new) (O.wants out.old) (O.wants out.new)
        (if list_any is_count (assignments lexer.now) then groups_text (take lexer.now.given.groups lexer.now.given.entries) else []) result }
{
    if !has_count(piece, lexer.assigned()) {
        return Ok(());
    }
    put_groups(out, lexer.groups())
}

/// Puts the condition, where the last match set it.
fn put_cond<O: Sink>(out: &mut O, piece: &Piece, lexer: &Lexer<'_>) -> Result<(), PutAnswer>
    requires { lexer.now.piece ≡ piece.now }
    ensures { IsPut (O.given out.old) (O.given out.new) (O.faults out.old) (O.faults out.new) (O.wants out.old) (O.wants out.new)
        (if list_any is_cond (assignments lexer.now) then codes " => " ++ unwrap_or (cond_of lexer.now) [] else []) result }
{
    if !has_cond(piece, lexer.assigned()) {
        return Ok(());
    }
    put_parts(out, &[b" => ", lexer.cond().unwrap_or(b"")])
}

/// Puts the values of the last match.
pub fn put_values<O: Sink>(out: &mut O, piece: &Piece, lexer: &Lexer<'_>) -> Result<(), PutAnswer>
    requires { lexer.now.piece ≡ piece.now }
    ensures { IsPut (O.given out.old) (O.given out.new) (O.faults out.old) (O.faults out.new) (O.wants out.old) (O.wants out.new) (values_text lexer.now) result }
{
    put_tags(out, piece, lexer)?;
    put_counted(out, piece, lexer)?;
    put_cond(out, piece, lexer)
}
