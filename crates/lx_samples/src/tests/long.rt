//! How long the pieces of large sources take, and the tokens and the items of large bodies.
ghost use Rattle.std.specs.Prelude.{◌≡◌, ◌≤◌, Ok, length};
ghost use Rattle.lx_base.specs.declared.limits.TheConstants.{SOURCE_LIMIT};
ghost use Rattle.lx_token.specs.Tokens.{tokens_of};

use super::timing::micros_since;
use lx_base::limits::SOURCE_LIMIT;
use lx_base::{
    BlockKind, EmptyPolicy, Enc, FileName, Format, Job, Memory, Options, Pos, SurPolicy,
};
use lx_parse::parse;
use lx_split::split;
use lx_token::{TokenList, tokens};
use std::alloc::Global;
use std::test::Fail;
use std::time::Instant;

/// Where bodies start.
const START: Pos = Pos {
    file: 7,
    line: 1,
    col: 1,
};

/// A text, and how many times it stands.
type Part = (&'static [u8], u32);

/// The parts one behind another.
fn repeated(alloc: Global, parts: &[Part]) -> Result<Vec<u8>, Memory> {
    let mut text = Vec::new(alloc);
    for (part, times) in parts {
        append(&mut text, part, *times)?;
    }
    Ok(text)
}

fn append(text: &mut Vec<u8>, part: &[u8], times: u32) -> Result<(), Memory> {
    for _ in 0..times {
        text.extend_from_slice(part)?;
    }
    Ok(())
}

/// Options with conditions and stored states.
fn options(alloc: Global) -> Options {
    Options {
        job: Job::Source {
            n: 1,
            to: FileName::from_string(String::new(alloc)),
        },
        format: Format::Two,
        lines: true,
        conds: true,
        states: true,
        tags: false,
        captures: false,
        posix: false,
        custom: false,
        warn: false,
        cover: false,
        enc: Enc::Byte,
        surrogates: SurPolicy::Ignore,
        empty: EmptyPolicy::MatchEmpty,
        dir: None,
    }
}

/// A line of C.
const CODE: &[u8] = b"    if (x / y * 2 != 7) { puts(\"no\"); } /* a line of C */ // and more\n";

/// A rule of ten tokens.
const RULE: &[u8] = b"\"while\" | [a-z_]{2,3} @t digit+ => c { return f(\"}\", 'x'); } // rule\n";

/// How many pieces large sources have, of 16 MiB or a little less. Were a line searched again for each quote that is not closed in it,
/// the last ones would take hours.
const SOURCES: [(&str, &[Part], usize); 9] = [
    ("outside", &[(CODE, 239_674)], 1),
    (
        "behind",
        &[(b"/*!re2c*/", 1), (CODE, 239_674), (b"/*!re2c*/", 1)],
        3,
    ),
    (
        "block",
        &[(b"/*!re2c\n", 1), (RULE, 243_147), (b"*/", 1)],
        1,
    ),
    ("openings", &[(b"/*!x*/", 2_796_202)], 1),
    ("blocks", &[(b"/*!re2c \"x\" { } */\n", 883_011)], 1_766_022),
    (
        "strings",
        &[(b"/*!re2c \"", 1), (b"\\\"", 8_388_602), (b"*/", 1)],
        1,
    ),
    (
        "classes",
        &[(b"/*!re2c ", 1), (b"[\\]", 5_592_402), (b"*/", 1)],
        1,
    ),
    (
        "actions",
        &[(b"/*!re2c ", 1), (b"{\"}\\", 4_194_301), (b"*/", 1)],
        1,
    ),
    ("lines", &[(b"/*!re2c \\\"*/", 1_398_101)], 1_398_101),
];

/// How many pieces a source has under these options; none where it is refused.
fn count_under(alloc: Global, source: &[u8], opts: &Options) -> Option<usize> {
    if source.len() > SOURCE_LIMIT {
        return None;
    }
    match split(alloc, source, 0, opts) {
        Ok(pieces) => Some(pieces.as_slice().len()),
        Err(_) => None,
    }
}

/// How many pieces a source has; none where it is refused.
fn piece_count(alloc: Global, source: &[u8]) -> Option<usize> {
    let opts = options(alloc);
    count_under(alloc, source, &opts)
}

/// How many pieces a large source has, and how many microseconds they take.
fn time_pieces(rt: &HostRuntime, source: &[u8]) -> Result<(Option<usize>, u128), Fail> {
    let start = Instant::now(rt)?;
    let count = piece_count(rt.alloc(), source);
    Ok((count, micros_since(rt, start)?))
}

/// Measures large sources; `bench/splitting.sh` reads the figures.
#[test]
fn time_of_large_sources(rt: HostRuntime) -> Result<(), Fail> {
    for (name, parts, want) in SOURCES {
        let source = repeated(rt.alloc(), parts)?;
        let (count, micros) = time_pieces(&rt, &source)?;
        println!(rt; "splitting_{name}: {micros} us")?;
        assert!(rt; count == Some(want), "{name}");
    }
    Ok(())
}

/// How many tokens long bodies have: 16 MiB of rules, and a line of escaped quotes of which none is closed. Searched again for each
/// quote, that line would take hours.
const BODIES: [(&str, &[Part], usize); 2] = [
    ("rules", &[(RULE, 243_148)], 2_431_480),
    (
        "quotes",
        &[(b"{", 1), (b"\\\"\\'", 2_000_000), (b"\n}", 1)],
        1,
    ),
];

/// How many tokens a body has; none where it is refused.
fn token_count(alloc: Global, body: &[u8]) -> Option<usize> {
    if body.len() > SOURCE_LIMIT {
        return None;
    }
    match tokens(alloc, body, START) {
        Ok(list) => Some(list.as_slice().len()),
        Err(_) => None,
    }
}

/// How many tokens a long body has, and how many microseconds they take.
fn time_tokens(rt: &HostRuntime, body: &[u8]) -> Result<(Option<usize>, u128), Fail> {
    let start = Instant::now(rt)?;
    let count = token_count(rt.alloc(), body);
    Ok((count, micros_since(rt, start)?))
}

/// Measures the tokens of long bodies; `bench/tokens.sh` reads the figures.
#[test]
fn time_of_long_bodies(rt: HostRuntime) -> Result<(), Fail> {
    for (name, parts, want) in BODIES {
        let body = repeated(rt.alloc(), parts)?;
        let (count, micros) = time_tokens(&rt, &body)?;
        println!(rt; "tokens_{name}: {micros} us")?;
        assert!(rt; count == Some(want), "{name}");
    }
    Ok(())
}

/// How many items long bodies have; none where they are refused.
const ITEMS: [(&str, &[Part], Option<usize>); 4] = [
    ("open", &[(b"(", 4_000_000)], None),
    (
        "unfinished",
        &[(b"(", 4_000_000), (b"x", 1), (b")", 4_000_000)],
        None,
    ),
    (
        "nested",
        &[(b"(", 4_000_000), (b"x", 1), (b")", 4_000_000), (b"{}", 1)],
        Some(1),
    ),
    (
        "rules",
        &[(b"<a>(\"b\"|[c]+)/@d{2}=>e{}", 699_050)],
        Some(699_050),
    ),
];

/// How many items a body has; none where it is refused.
fn item_count(alloc: Global, body: &[u8], list: &TokenList, at: Pos) -> Option<usize>
    requires size { length body.now ≤ SOURCE_LIMIT }
    requires line { at.line ≤ 16777217 }
    requires column { at.col ≤ 16777217 }
    requires tokens { tokens_of body.now at ≡ Ok list.now }
{
    match parse(alloc, body, list, BlockKind::Code, at) {
        Ok(tree) => Some(tree.items.as_slice().len()),
        Err(_) => None,
    }
}

/// How many items a long body has, and how many microseconds they take behind its tokens; 0 where it has no tokens.
fn time_items(rt: &HostRuntime, body: &[u8]) -> Result<(Option<usize>, u128), Fail> {
    if body.len() > SOURCE_LIMIT {
        return Ok((Some(0), 0));
    }
    let Ok(list) = tokens(rt.alloc(), body, START) else {
        return Ok((Some(0), 0));
    };
    let start = Instant::now(rt)?;
    let count = item_count(rt.alloc(), body, &list, START);
    Ok((count, micros_since(rt, start)?))
}

/// Measures the items of long bodies; `bench/parsing.sh` reads the figures.
#[test]
fn time_of_long_items(rt: HostRuntime) -> Result<(), Fail> {
    for (name, parts, want) in ITEMS {
        let body = repeated(rt.alloc(), parts)?;
        let (count, micros) = time_items(&rt, &body)?;
        println!(rt; "parsing_{name}: {micros} us")?;
        assert!(rt; count == want, "{name}");
    }
    Ok(())
}
