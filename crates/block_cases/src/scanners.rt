//! How what a block resolves to is written.

use crate::expressions::expression;
use crate::faults::push_place;
use crate::points::push_bytes;
use lx_base::{Memory, Names};
use lx_regex::{Kind, Rule, Tag};
use lx_rules::{Act, Config, Resolved, Scanner};
use std::alloc::{AllocError, Global};

/// The text of what a block resolves to.
pub fn resolved_text(alloc: Global, resolved: &Resolved) -> Result<String, Memory> {
    let mut text = String::new(alloc);
    push_config(&mut text, &resolved.config)?;
    push_scanners(alloc, &mut text, resolved.scanners.as_slice())?;
    push_acts(&mut text, resolved.acts.as_slice())?;
    Ok(text)
}

/// Writes what a configuration has that is not usual.
fn push_config(text: &mut String, config: &Config) -> Result<(), AllocError> {
    push_names(text, &config.names)?;
    if let Some(unit) = config.eof {
        write!(text, "config eof=0x{unit:X}\n")?;
    }
    if !config.fill {
        text.push_str("config fill=0\n")?;
    }
    Ok(())
}

/// Writes the spellings that are not usual, each with the usual one.
fn push_names(text: &mut String, names: &Names) -> Result<(), AllocError> {
    let usual = Names::usual();
    for place in 0..names.len() {
        let word = usual.spelling(place);
        let name = names.spelling(place);
        if word == name {
            continue;
        }
        text.push_str("config ")?;
        push_bytes(text, word)?;
        text.push('=')?;
        push_bytes(text, name)?;
        text.push('\n')?;
    }
    Ok(())
}

fn push_scanners(alloc: Global, text: &mut String, scanners: &[Scanner]) -> Result<(), AllocError> {
    for scanner in scanners {
        text.push_str("scanner")?;
        if let Some(cond) = &scanner.cond {
            text.push(' ')?;
            push_bytes(text, cond.as_slice())?;
        }
        text.push('\n')?;
        push_rules(alloc, text, scanner.set.rules.as_slice())?;
    }
    Ok(())
}

fn push_rules(alloc: Global, text: &mut String, rules: &[Rule]) -> Result<(), AllocError> {
    for rule in rules {
        push_rule(alloc, text, rule)?;
        text.push('\n')?;
    }
    Ok(())
}

fn push_rule(alloc: Global, text: &mut String, rule: &Rule) -> Result<(), AllocError> {
    let number = rule.number;
    match rule.kind {
        Kind::Plain => write!(text, "rule {number} ")?,
        Kind::Default => write!(text, "default {number} ")?,
        Kind::Eof => return write!(text, "end {number}"),
    }
    text.push_str(expression(alloc, &rule.expr)?.as_str())?;
    push_tags(text, rule.tags.as_slice())?;
    if let Some(number) = rule.slash {
        write!(text, " slash {number}")?;
    }
    if rule.groups != 0 {
        write!(text, " groups {}", rule.groups)?;
    }
    Ok(())
}

/// Writes the tags of a rule, if it has some.
fn push_tags(text: &mut String, tags: &[Tag]) -> Result<(), AllocError> {
    if !tags.is_empty() {
        text.push_str(" tags")?;
    }
    for tag in tags {
        text.push_str(if tag.many { " #" } else { " @" })?;
        push_bytes(text, tag.name.as_slice())?;
    }
    Ok(())
}

fn push_acts(text: &mut String, acts: &[Act]) -> Result<(), AllocError> {
    for act in acts {
        push_act(text, act)?;
        text.push('\n')?;
    }
    Ok(())
}

fn push_act(text: &mut String, act: &Act) -> Result<(), AllocError> {
    write!(text, "act {}", act.number)?;
    if let Some(cond) = &act.goes {
        text.push_str(" => ")?;
        push_bytes(text, cond.as_slice())?;
    }
    text.push_str(" at ")?;
    push_place(text, act.at)?;
    text.push(' ')?;
    match &act.code {
        Some(code) => push_bytes(text, code.as_slice()),
        None => text.push('-'),
    }
}
