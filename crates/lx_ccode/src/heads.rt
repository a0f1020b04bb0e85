//! Writes the head line of a piece.
ghost use Rattle.std.specs.Prelude.{◌≡◌, ◌++◌, [], OnOk, Some};
ghost use Rattle.lx_ccode.specs.Heads.{custom_word, encoding_word, format_word, head_then, is_custom, is_kept, is_three, kept_word, mode_word};

use crate::numerals::{append_number, append_word};
use crate::piece::{Head, Mode};
use lx_base::{Enc, Format, Memory};

/// Whether a piece with this head reads its input by primitives of the user's. One without a head does not.
pub fn is_custom(head: &Option<Head>) -> bool
    ensures { result ≡ is_custom head.now }
{
    match head {
        None => false,
        Some(head) => head.custom,
    }
}

/// Whether a piece with this head is of format 3. One without a head is not.
pub fn is_three(head: &Option<Head>) -> bool
    ensures { result ≡ is_three head.now }
{
    match head {
        None => false,
        Some(head) => matches!(head.format, Format::Three),
    }
}

fn format_word(format: Format) -> &'static [u8]
    ensures { result.now ≡ format_word format }
{
    match format {
        Format::Two => b"2 ",
        Format::Three => b"3 ",
    }
}

fn custom_word(custom: bool) -> &'static [u8]
    ensures { result.now ≡ custom_word custom }
{
    if custom { b"custom " } else { b"" }
}

fn kept_word(kept: bool) -> &'static [u8]
    ensures { result.now ≡ kept_word kept }
{
    if kept { b"kept " } else { b"" }
}

/// Whether the head of a piece says that the user declares the variables.
pub(crate) fn is_kept(head: &Option<Head>, declares: bool) -> bool
    ensures { result ≡ is_kept head.now declares }
{
    is_three(head) && !declares
}

fn encoding_word(enc: Enc) -> &'static [u8]
    ensures { result.now ≡ encoding_word enc }
{
    match enc {
        Enc::Byte => b"byte",
        Enc::Ucs2 => b"ucs2",
        Enc::Utf8 => b"utf8",
        Enc::Utf16 => b"utf16",
        Enc::Utf32 => b"utf32",
    }
}

fn mode_word(mode: Mode) -> &'static [u8]
    ensures { result.now ≡ mode_word mode }
{
    match mode {
        Mode::Plain => b"plain",
        Mode::Count => b"count",
        Mode::EofFixed => b"eoffixed",
        Mode::Eof => b"eof",
    }
}

/// Appends the head line, where there is one. Where memory runs out a part of it may stand there.
pub(crate) fn append_head(text: &mut Vec<u8>, kept: bool, head: &Option<Head>) -> Result<(), Memory>
    ensures { OnOk result (text.new.items ≡ text.old.items ++ head_then kept head.now []) }
{
    match head {
        None => Ok(()),
        Some(head) => append_head_line(text, kept, head),
    }
}

fn append_head_line(text: &mut Vec<u8>, kept: bool, head: &Head) -> Result<(), Memory>
    ensures { OnOk result (text.new.items ≡ text.old.items ++ head_then kept (Some head.now) []) }
{
    let custom = custom_word(head.custom);
    append_word(text, b"/*!head:re2c ", format_word(head.format), custom)?;
    append_word(text, kept_word(kept), encoding_word(head.enc), b"")?;
    append_word(text, b" ", mode_word(head.mode), b" ")?;
    append_number(text, b"", u64::from(head.regs), b" ")?;
    append_number(text, b"", u64::from(head.mregs), b" ")?;
    append_number(text, b"", head.states, b"*/\n")
}
