//! The lines of a case.

use crate::cases::{Alteration, Extent, Order, Outside, Place};
use crate::escapes::{push_spelled, spelled_byte};
use case_reports::CaseError;
use std::alloc::Global;

/// Puts a line of content behind others.
pub fn push_content(content: &mut Vec<u8>, line: &str) -> Result<(), CaseError> {
    if let Some(text) = line.strip_prefix("| ") {
        push_spelled(content, text)?;
        content.push(b'\n')?;
        Ok(())
    } else if let Some(text) = line.strip_prefix("> ") {
        push_spelled(content, text)
    } else if let Some(text) = line.strip_prefix("* ") {
        push_repeated(content, text)
    } else if line == "|" {
        content.push(b'\n')?;
        Ok(())
    } else {
        Err(CaseError::Malformed("no line of content"))
    }
}

/// A number, and then a text that stands so many times.
fn push_repeated(content: &mut Vec<u8>, line: &str) -> Result<(), CaseError> {
    let Some((times, text)) = line.split_once(' ') else {
        return Err(CaseError::Malformed("no text to repeat"));
    };
    let times = count(times)?;
    let mut part = Vec::new(*content.allocator());
    push_spelled(&mut part, text)?;
    for _ in 0..times {
        content.extend_from_slice(&part)?;
    }
    Ok(())
}

/// The order of a line.
pub fn order(alloc: Global, line: &str) -> Result<Order, CaseError> {
    let (verb, rest) = line.split_once(' ').unwrap_or((line, ""));
    match verb {
        "given" => Ok(Order::Given(name(alloc, rest)?)),
        "fail" => failing_call(rest),
        "cut" => cut_file(alloc, rest),
        "set" => set_byte(alloc, rest),
        "run" => Ok(Order::Run(words(alloc, rest)?)),
        "status" => Ok(Order::Status(status(rest)?)),
        "out" => Ok(Order::Want(Place::Out, extent(rest)?)),
        "err" => Ok(Order::Want(Place::Err, extent(rest)?)),
        "file" => wanted_file(alloc, rest),
        _ => Err(CaseError::Malformed("no order")),
    }
}

/// How many times.
fn count(text: &str) -> Result<usize, CaseError> {
    match text.parse() {
        Ok(count) => Ok(count),
        Err(_) => Err(CaseError::Malformed("how many times")),
    }
}

fn status(text: &str) -> Result<u8, CaseError> {
    match text.parse() {
        Ok(status) => Ok(status),
        Err(_) => Err(CaseError::Malformed("which status")),
    }
}

/// The number of a call or of a byte.
fn number(text: &str) -> Result<u64, CaseError> {
    match text.parse() {
        Ok(number) => Ok(number),
        Err(_) => Err(CaseError::Malformed("which call or byte")),
    }
}

/// A name, which is not empty.
fn name(alloc: Global, text: &str) -> Result<String, CaseError> {
    if text.is_empty() {
        return Err(CaseError::Malformed("no name"));
    }
    Ok(String::from_str(alloc, text)?)
}

/// A word, and what stands behind the blank behind it.
fn first_word(text: &str) -> Result<(&str, &str), CaseError> {
    match text.split_once(' ') {
        Some(parts) => Ok(parts),
        None => Err(CaseError::Malformed("which call or byte")),
    }
}

fn failing_call(text: &str) -> Result<Order, CaseError> {
    let (outside, call) = first_word(text)?;
    let call = number(call)?;
    match outside {
        "files" => Ok(Order::Fail(Outside::Files, call)),
        "out" => Ok(Order::Fail(Outside::Out, call)),
        "err" => Ok(Order::Fail(Outside::Err, call)),
        _ => Err(CaseError::Malformed("whose call")),
    }
}

fn cut_file(alloc: Global, text: &str) -> Result<Order, CaseError> {
    let (file, length) = first_word(text)?;
    let length = count(length)?;
    Ok(Order::Alter(name(alloc, file)?, Alteration::Cut(length)))
}

fn set_byte(alloc: Global, text: &str) -> Result<Order, CaseError> {
    let (file, rest) = first_word(text)?;
    let alteration = byte_set(rest)?;
    Ok(Order::Alter(name(alloc, file)?, alteration))
}

/// A place, and the byte that stands there then.
fn byte_set(text: &str) -> Result<Alteration, CaseError> {
    let (place, digits) = first_word(text)?;
    let place = count(place)?;
    match spelled_byte(digits) {
        Some(byte) => Ok(Alteration::Set(place, byte)),
        None => Err(CaseError::Malformed("no two digits of base 16")),
    }
}

fn words(alloc: Global, text: &str) -> Result<Vec<String>, CaseError> {
    let mut words = Vec::new(alloc);
    for spelling in text.split_whitespace() {
        words.push(word(alloc, spelling)?)?;
    }
    Ok(words)
}

/// A word of the command line, which is spelled as content is.
fn word(alloc: Global, spelling: &str) -> Result<String, CaseError> {
    let mut bytes = Vec::new(alloc);
    push_spelled(&mut bytes, spelling)?;
    match String::from_utf8(bytes) {
        Ok(word) => Ok(word),
        Err(_) => Err(CaseError::Malformed("a word that is no text")),
    }
}

fn wanted_file(alloc: Global, text: &str) -> Result<Order, CaseError> {
    let (file, rest) = text.split_once(' ').unwrap_or((text, ""));
    Ok(Order::Want(Place::File(name(alloc, file)?), extent(rest)?))
}

fn extent(text: &str) -> Result<Extent, CaseError> {
    match text {
        "" => Ok(Extent::Whole),
        "any" => Ok(Extent::Any),
        "absent" => Ok(Extent::Absent),
        _ => match text.strip_prefix("holds ") {
            Some(times) => Ok(Extent::Times(count(times)?)),
            None => Err(CaseError::Malformed("no extent")),
        },
    }
}
