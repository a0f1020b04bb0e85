//! The lines that tell covering words, each with its match.
ghost use Rattle.std.specs.Prelude.{◌≡◌, ◌∷◌, ◌++◌, [], None, OnOk, codes, drop, length, map};
ghost use Rattle.std.specs.Fmt.{decimal};
ghost use Rattle.lx_base.specs.Text.{joined};
ghost use Rattle.lx_cover.specs.Matches.{value_of};
ghost use Rattle.lx_layout.specs.Endings.{Ending, is_slash};
ghost use Rattle.lx_layout.specs.RuleEnds.{AreEndsIndexed, endings_of};
ghost use Rattle.lx_layout.specs.Rules.{names_of};
ghost use Rattle.lx_run.specs.Values.{entries_text, history_text, offset_text};
ghost use Rattle.lx_compile.specs.Covering.{end_text, entry_text, goes_text, groups_text, rule_text, scanner_line, tag_text, tags_text, word_text};
ghost use Rattle.lx_compile.specs.Telling.{TellsEnd};

use crate::warning_lines::append_units;
use lx_base::{Memory, append_parts};
use lx_ccode::hexadecimal;
use lx_cover::TagValue;
use lx_layout::EndIndex;
use lx_regex::Tag;
use lx_shared::SharedText;
use std::alloc::Global;

/// Appends the units of a word with spaces between them, or `-` for the empty word.
pub(crate) fn append_word(alloc: Global, text: &mut Vec<u8>, word: &[u32]) -> Result<(), Memory>
    ensures { OnOk result (text.new.items ≡ text.old.items ++ word_text word.now) }
{
    let Some((first, others)) = word.split_first() else {
        return append_parts(text, &[b"-"]);
    };
    let first = hexadecimal(alloc, *first)?;
    append_parts(text, &[b"0x", first.as_bytes()])?;
    append_units(alloc, text, others)
}

/// Appends an offset, or `-` for none.
fn append_offset(alloc: Global, text: &mut Vec<u8>, offset: Option<u64>) -> Result<(), Memory>
    ensures { OnOk result (text.new.items ≡ text.old.items ++ offset_text offset) }
{
    match offset {
        None => append_parts(text, &[b"-"]),
        Some(offset) => {
            let digits = format!(in alloc; "{offset}")?;
            append_parts(text, &[digits.as_bytes()])
        }
    }
}

/// Appends entries of a history, each behind a comma.
fn append_entries(alloc: Global, text: &mut Vec<u8>, entries: &[Option<u64>]) -> Result<(), Memory>
    ensures { OnOk result (text.new.items ≡ text.old.items ++ entries_text entries.now) }
{
    for entry in entries {
        append_parts(text, &[b","])?;
        append_offset(alloc, text, *entry)?;
    }
    Ok(())
}

/// Appends a history, with commas between its entries.
fn append_history(alloc: Global, text: &mut Vec<u8>, entries: &[Option<u64>]) -> Result<(), Memory>
    ensures { OnOk result (text.new.items ≡ text.old.items ++ history_text entries.now) }
{
    let Some((first, others)) = entries.split_first() else {
        return Ok(());
    };
    append_offset(alloc, text, *first)?;
    append_entries(alloc, text, others)
}

/// Appends what a match gave a tag.
fn append_tag(
    alloc: Global,
    text: &mut Vec<u8>,
    name: &[u8],
    value: &TagValue,
) -> Result<(), Memory>
    ensures { OnOk result (text.new.items ≡ text.old.items ++ tag_text name.now (value_of value.now)) }
{
    append_parts(text, &[b" ", name, b"="])?;
    match value {
        TagValue::Single(offset) => append_offset(alloc, text, *offset),
        TagValue::History(offsets) => {
            append_parts(text, &[b"["])?;
            append_history(alloc, text, offsets.as_slice())?;
            append_parts(text, &[b"]"])
        }
    }
}

/// Whether the tag with this number is that of the trailing context.
fn is_slash(slash: Option<u32>, number: usize) -> bool
    ensures { result ≡ is_slash slash number }
{
    match slash {
        None => false,
        Some(slash) => number == slash as usize,
    }
}

/// Appends the tags of a rule that have values.
fn append_tags(
    alloc: Global,
    text: &mut Vec<u8>,
    slash: Option<u32>,
    tags: &[Tag],
    values: &[TagValue],
) -> Result<(), Memory>
    ensures { OnOk result (text.new.items ≡ text.old.items ++ tags_text slash 0 (names_of tags.now) (map value_of values.now)) }
{
    for (number, tag) in tags.iter().enumerate() {
        let Some(value) = values.get(number) else {
            return Ok(());
        };
        if !is_slash(slash, number) {
            append_tag(alloc, text, tag.name.as_slice(), value)?;
        }
    }
    Ok(())
}

/// Appends where a group begins or ends.
fn append_end(alloc: Global, text: &mut Vec<u8>, value: &TagValue) -> Result<(), Memory>
    ensures { OnOk result (text.new.items ≡ text.old.items ++ end_text (value_of value.now)) }
{
    match value {
        TagValue::Single(offset) => append_offset(alloc, text, *offset),
        TagValue::History(offsets) => append_history(alloc, text, offsets.as_slice()),
    }
}

/// Appends groups, each of which has two values.
fn append_groups(alloc: Global, text: &mut Vec<u8>, values: &[TagValue]) -> Result<(), Memory>
    ensures { OnOk result (text.new.items ≡ text.old.items ++ groups_text (map value_of values.now)) }
{
    let mut left = values;
    while let Some((from, others)) = left.split_first() {
        let Some((to, others)) = others.split_first() else {
            return Ok(());
        };
        append_parts(text, &[b" ("])?;
        append_end(alloc, text, from)?;
        append_parts(text, &[b","])?;
        append_end(alloc, text, to)?;
        append_parts(text, &[b")"])?;
        left = others;
    }
    Ok(())
}

/// Appends the condition that a rule goes to, if it goes to one.
fn append_goes(text: &mut Vec<u8>, goes: &Option<SharedText>) -> Result<(), Memory>
    ensures { OnOk result (text.new.items ≡ text.old.items ++ goes_text goes.now) }
{
    match goes {
        None => Ok(()),
        Some(cond) => append_parts(text, &[b" => ", cond.as_slice()]),
    }
}

/// The word that tells how a rule is entered.
fn entry_text(action: &Option<SharedText>) -> &[u8]
    ensures { result.now ≡ entry_text action.now }
{
    match action {
        None => b"jump ",
        Some(_) => b"rule ",
    }
}

/// What is told of the end of a rule; no tags, no condition and no action where there is no such rule.
#[derive(Clone, Copy)]
struct ToldEnd<'a> {
    action: &'a Option<SharedText>,
    slash: Option<u32>,
    tags: &'a [Tag],
    goes: &'a Option<SharedText>,
}

/// What is told of the end of the rule with a number, with `none` for what it has not.
fn told_end<'a>(index: &'a EndIndex<'_>, number: u32, none: &'a Option<SharedText>) -> ToldEnd<'a>
    requires indexed { AreEndsIndexed index.now }
    requires none { none.now ≡ None }
    ensures { TellsEnd result (endings_of index.now.ends.now number) }
{
    match index.find(number) {
        Some(end) => ToldEnd {
            action: end.action,
            slash: end.rule.slash,
            tags: end.rule.tags.as_slice(),
            goes: end.goes,
        },
        None => ToldEnd {
            action: none,
            slash: None,
            tags: &[],
            goes: none,
        },
    }
}

/// Appends the tags and the groups that have values.
fn append_values(
    alloc: Global,
    text: &mut Vec<u8>,
    end: &ToldEnd<'_>,
    values: &[TagValue],
) -> Result<(), Memory>
    ensures { OnOk result (text.new.items ≡ text.old.items ++ (tags_text end.now.slash 0 (names_of end.now.tags.now) (map value_of values.now)
        ++ groups_text (drop (length end.now.tags.now) (map value_of values.now)))) }
{
    append_tags(alloc, text, end.slash, end.tags, values)?;
    if values.len() > end.tags.len() {
        append_groups(alloc, text, &values[end.tags.len()..])?;
    }
    Ok(())
}

/// Appends the number of a rule and where its match begins and ends.
fn append_place(alloc: Global, text: &mut Vec<u8>, number: u32, cursor: u64) -> Result<(), Memory>
    ensures { OnOk result (text.new.items ≡ text.old.items ++ joined (decimal number ∷ codes " 0 " ∷ decimal cursor ∷ []) []) }
{
    let number = format!(in alloc; "{number}")?;
    let cursor = format!(in alloc; "{cursor}")?;
    append_parts(text, &[number.as_bytes(), b" 0 ", cursor.as_bytes()])
}

/// Appends a match by the rule with a number, of whose end this is told.
fn append_told(
    alloc: Global,
    text: &mut Vec<u8>,
    end: &ToldEnd<'_>,
    number: u32,
    cursor: u64,
    values: &[TagValue],
) -> Result<(), Memory>
    ensures { (ending : Ending) → TellsEnd end.now ending
        → OnOk result (text.new.items ≡ text.old.items ++ rule_text ending number cursor (map value_of values.now)) }
{
    append_parts(text, &[entry_text(end.action)])?;
    append_place(alloc, text, number, cursor)?;
    append_values(alloc, text, end, values)?;
    append_goes(text, end.goes)
}

/// Appends a match by the rule with a number, where the ends of rules stand in an index.
pub(crate) fn append_rule(
    alloc: Global,
    text: &mut Vec<u8>,
    index: &EndIndex<'_>,
    number: u32,
    cursor: u64,
    values: &[TagValue],
) -> Result<(), Memory>
    requires indexed { AreEndsIndexed index.now }
    ensures { OnOk result (text.new.items ≡ text.old.items
        ++ rule_text (endings_of index.now.ends.now number) number cursor (map value_of values.now)) }
{
    let none = None;
    let end = told_end(index, number, &none);
    append_told(alloc, text, &end, number, cursor, values)
}

/// Appends the line above the words of a scanner.
pub(crate) fn append_heading(
    alloc: Global,
    text: &mut Vec<u8>,
    number: u32,
    cond: &Option<SharedText>,
) -> Result<(), Memory>
    ensures { OnOk result (text.new.items ≡ text.old.items ++ scanner_line number cond.now) }
{
    let digits = format!(in alloc; "{number}")?;
    match cond {
        None => append_parts(text, &[b"scanner ", digits.as_bytes(), b"\n"]),
        Some(cond) => append_parts(
            text,
            &[b"scanner ", digits.as_bytes(), b" ", cond.as_slice(), b"\n"],
        ),
    }
}
