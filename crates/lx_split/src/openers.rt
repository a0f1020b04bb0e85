//! The openers of blocks.
ghost use Rattle.std.specs.Prelude.{◌≡◌, ◌≤◌, ◌<◌, length};
ghost use Rattle.lx_split.specs.Openers.{from_opener, is_allowed, is_present, kind_among, kind_of, names_re2c, opener_at, opener_of, word_at, word_of};

use crate::searches::from_opening;
use lx_base::letters::front_letters;
use lx_base::{BlockKind, Letters, Options};

/// What stands at a place of outside text.
#[derive(Clone, Copy, PartialEq, Eq)]
pub enum Opener {
    /// Outside text.
    Absent,
    /// A word with `re2c` that opens no block, or none under these options.
    Refused,
    /// The opener of a block.
    Opens(BlockKind),
}

/// The kinds of blocks that words open.
const KINDS: [BlockKind; 11] = [
    BlockKind::Code,
    BlockKind::Rules,
    BlockKind::Use,
    BlockKind::Max,
    BlockKind::MaxNmatch,
    BlockKind::Stags,
    BlockKind::Mtags,
    BlockKind::Types,
    BlockKind::GetState,
    BlockKind::Ignore,
    BlockKind::Include,
];

/// The longest run of letters, digits, `_` and `:` at the front of the text.
fn word_at(text: &[u8]) -> &[u8]
    ensures { result.now ≡ word_at text.now }
{
    front_letters(text, Letters::Opener)
}

/// The word of a block's kind; empty for kinds that no word opens.
pub(crate) fn word_of(kind: BlockKind) -> &'static [u8]
    ensures { result.now ≡ word_of kind }
{
    match kind {
        BlockKind::Code => b"re2c",
        BlockKind::Rules => b"rules:re2c",
        BlockKind::Use => b"use:re2c",
        BlockKind::Max => b"max:re2c",
        BlockKind::MaxNmatch => b"maxnmatch:re2c",
        BlockKind::Stags => b"stags:re2c",
        BlockKind::Mtags => b"mtags:re2c",
        BlockKind::Types => b"types:re2c",
        BlockKind::GetState => b"getstate:re2c",
        BlockKind::Ignore => b"ignore:re2c",
        BlockKind::Include => b"include:re2c",
        BlockKind::Enter | BlockKind::Leave => b"",
    }
}

/// The first of the kinds that has this word.
fn first_kind(kinds: &[BlockKind], word: &[u8]) -> Option<BlockKind>
    ensures { result ≡ kind_among kinds.now word.now }
{
    for kind in kinds {
        if word == word_of(*kind) {
            return Some(*kind);
        }
    }
    None
}

/// The kind of blocks that a word opens.
fn kind_of(word: &[u8]) -> Option<BlockKind>
    ensures { result ≡ kind_of word.now }
{
    first_kind(&KINDS, word)
}

/// Whether `re2c` stands in a word.
fn names_re2c(word: &[u8]) -> bool
    ensures { result ≡ names_re2c word.now }
{
    let mut rest = word;
    while let Some((_, tail)) = rest.split_first() {
        if rest.starts_with(b"re2c") {
            return true;
        }
        rest = tail;
    }
    false
}

/// Whether the options have what the kind is for.
fn is_allowed(kind: BlockKind, opts: &Options) -> bool
    ensures { result ≡ is_allowed opts.now kind }
{
    match kind {
        BlockKind::Types => opts.conds,
        BlockKind::GetState => opts.states,
        _ => true,
    }
}

/// What a word behind `/*!` makes of it.
fn opener_of(word: &[u8], opts: &Options) -> Opener
    ensures { result ≡ opener_of opts.now word.now }
{
    match kind_of(word) {
        Some(kind) if is_allowed(kind, opts) => Opener::Opens(kind),
        Some(_) => Opener::Refused,
        None if names_re2c(word) => Opener::Refused,
        None => Opener::Absent,
    }
}

/// What stands at the front of outside text.
pub(crate) fn opener_at(text: &[u8], opts: &Options) -> Opener
    ensures { result ≡ opener_at opts.now text.now }
{
    if text.starts_with(b"/*!") {
        opener_of(word_at(&text[3..]), opts)
    } else {
        Opener::Absent
    }
}

/// Whether an opener stands at the front of outside text, be it refused or not.
fn begins_opener(text: &[u8], opts: &Options) -> bool
    ensures { result ≡ is_present (opener_at opts.now text.now) }
{
    match opener_at(text, opts) {
        Opener::Absent => false,
        Opener::Refused | Opener::Opens(_) => true,
    }
}

/// What is left of outside text from the first opener on, be it refused or not.
pub(crate) fn from_opener<'a>(text: &'a [u8], opts: &Options) -> &'a [u8]
    ensures rest { result.now ≡ from_opener opts.now text.now }
    ensures shorter { length result.now ≤ length text.now }
{
    let mut rest = from_opening(text);
    while let Some((_, tail)) = rest.split_first() {
        if begins_opener(rest, opts) {
            break;
        }
        rest = from_opening(tail);
    }
    rest
}
