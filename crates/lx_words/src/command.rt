//! The command by which the words are read.
ghost use Rattle.std.specs.Prelude.{◌≡◌, IfOk, map, option_map, true, false};
ghost use Rattle.clap.specs.Words.{app_of, rule_of, with_rule};
ghost use Rattle.lx_words.specs.Command.{bare_command, option_rule, with_options, words_command};

use clap::{Arg, ArgAction, Command};
use lx_base::Memory;
use std::alloc::Global;

/// An option: the name by which what was read of it is found, and its short and its long spelling.
type Spelling = (&'static str, Option<char>, Option<&'static str>);

/// The file, and where the output goes and includes are: each has a value, and stands at most once.
const FILES: [Spelling; 3] = [
    ("file", None, None),
    ("output", Some('o'), Some("output")),
    ("include", Some('I'), None),
];

/// What is compiled, how, and in which encoding: flags, which may be repeated.
const FLAGS: [Spelling; 14] = [
    ("no-debug-info", Some('i'), Some("no-debug-info")),
    ("conditions", Some('c'), Some("conditions")),
    ("storable-state", Some('f'), Some("storable-state")),
    ("reusable", Some('r'), None),
    ("tags", Some('T'), Some("tags")),
    ("nested-ifs", Some('s'), Some("nested-ifs")),
    ("captures", None, Some("captures")),
    ("posix", Some('P'), None),
    ("warnings", Some('W'), None),
    ("x-cover", None, Some("x-cover")),
    ("utf-8", Some('8'), Some("utf-8")),
    ("utf-16", Some('x'), Some("utf-16")),
    ("utf-32", Some('u'), None),
    ("ucs-2", Some('w'), None),
];

/// Policies, how input is read, the format of emitted text, and what runs and generated sources take: each has a value, and stands at most once.
const VALUES: [Spelling; 9] = [
    ("encoding-policy", None, Some("encoding-policy")),
    ("empty-class", None, Some("empty-class")),
    ("input", None, Some("input")),
    ("x-format", None, Some("x-format")),
    ("x-run", None, Some("x-run")),
    ("x-block", None, Some("x-block")),
    ("x-window", None, Some("x-window")),
    ("x-piece", None, Some("x-piece")),
    ("x-source", None, Some("x-source")),
];

/// An option, by its short and its long spelling.
fn option<'a>(
    alloc: Global,
    id: &'a str,
    short: Option<char>,
    long: Option<&'a str>,
    action: ArgAction,
) -> Arg<'a>
    ensures rule { rule_of result ≡ option_rule id.entry.now short (option_map (λ name. name.now) long.entry) action }
    ensures local { result.global ≡ false }
{
    let arg = Arg::new(alloc, id).action(action);
    let arg = match short {
        Some(letter) => arg.short(letter),
        None => arg,
    };
    match long {
        Some(name) => arg.long(name),
        None => arg,
    }
}

/// The command without options.
fn bare_command<'a>(alloc: Global) -> Command<'a>
    ensures { app_of result ≡ bare_command }
{
    Command::new(alloc, "re2c")
        .no_binary_name(true)
        .disable_help_flag(true)
}

/// The command with an option more.
fn with_option<'a>(
    alloc: Global,
    command: Command<'a>,
    id: &'a str,
    short: Option<char>,
    long: Option<&'a str>,
    action: ArgAction,
) -> Result<Command<'a>, Memory>
    ensures { IfOk result (λ longer. app_of longer ≡ with_rule (app_of command.entry) (option_rule id.entry.now short (option_map (λ name. name.now) long.entry) action)) }
{
    Ok(command.arg(option(alloc, id, short, long, action))?)
}

/// The command with options more.
fn with_options<'a>(
    alloc: Global,
    command: Command<'a>,
    options: &[Spelling],
    action: ArgAction,
) -> Result<Command<'a>, Memory>
    ensures { IfOk result (λ longer. app_of longer ≡ with_options (map (λ row. option_rule row.0.now row.1 (option_map (λ name. name.now) row.2) action) options.now) (app_of command.entry)) }
{
    let mut command = command;
    for (id, short, long) in options {
        command = with_option(alloc, command, id, *short, *long, action)?;
    }
    Ok(command)
}

/// The command by which the words are read.
pub fn words_command<'a>(alloc: Global) -> Result<Command<'a>, Memory>
    ensures { IfOk result (λ command. app_of command ≡ words_command) }
{
    let command = with_options(alloc, bare_command(alloc), &FILES, ArgAction::Set)?;
    let command = with_options(alloc, command, &FLAGS, ArgAction::Count)?;
    with_options(alloc, command, &VALUES, ArgAction::Set)
}
