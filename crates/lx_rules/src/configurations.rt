//! Configurations.
ghost use Rattle.std.specs.Prelude.{◌≡◌, IfOk, MatchResult, Some, None, map};
ghost use Rattle.std.specs.List.{position_from};
ghost use Rattle.std.specs.Str.{bytes_eq};
ghost use Rattle.lx_base.specs.Allowed.{may_spell};
ghost use Rattle.lx_base.specs.declared.faults.Fault.TheVariants.{UnknownConfig};
ghost use Rattle.lx_exprs.specs.Seen.{IsStop, points_of};
ghost use Rattle.lx_forms.specs.Seen.{lexeme_view};
ghost use Rattle.lx_rules.specs.Configurations.{config_fault, config_kind, eof_number, eof_of, number_switch, said, set_by, setting_of, spelling_of, spelling_words, switch_of};
ghost use Rattle.lx_rules.specs.Seen.{IsSaid, bytes_of_points};

use crate::environment::Setting;
use crate::words::is_among;
use lx_base::letters::{is_identifier, is_spelling, is_words};
use lx_base::{ByteText, Enc, Fault, Memory, Stop};
use lx_encode::greatest_unit;
use lx_forms::lexemes::Lexeme;
use lx_token::{Character, Number, TokenKind, characters_of, number_of};
use std::alloc::Global;

/// What a configuration is for (re2c manual, "Configurations").
#[derive(Clone, Copy)]
pub(crate) enum ConfigKind {
    /// It spells a name of the scanner, which is known by its place among the names, counted from 0.
    Spelling(usize),
    /// It says which code unit stands at the end of the input, if one does.
    Eof,
    /// It says whether refills are enabled.
    Fill,
    /// It has no effect.
    Idle,
}

/// The configurations that spell the names of a scanner, in the order of the names.
const SPELLING_WORDS: [&[u8]; 17] = [
    b"re2c:define:YYCTYPE",
    b"re2c:define:YYCURSOR",
    b"re2c:define:YYLIMIT",
    b"re2c:define:YYMARKER",
    b"re2c:define:YYCTXMARKER",
    b"re2c:define:YYFILL",
    b"re2c:define:YYGETSTATE",
    b"re2c:define:YYSETSTATE",
    b"re2c:define:YYGETCONDITION",
    b"re2c:define:YYSETCONDITION",
    b"re2c:define:YYMTAGP",
    b"re2c:define:YYMTAGN",
    b"re2c:variable:yych",
    b"re2c:variable:yyaccept",
    b"re2c:tags:prefix",
    b"re2c:condprefix",
    b"re2c:condenumprefix",
];

/// The place of a text among others, counted from 0.
fn place_among(text: &[u8], words: &[&[u8]]) -> Option<usize>
    ensures { result ≡ position_from (bytes_eq text.now) 0 (map (λ word. word.now) words.now) }
{
    for (place, word) in words.iter().enumerate() {
        if text == *word {
            return Some(place);
        }
    }
    None
}

/// The name that a configuration spells, by its place, if it spells one.
fn name_place(text: &[u8]) -> Option<usize>
    ensures { result ≡ position_from (bytes_eq text.now) 0 spelling_words }
{
    place_among(text, &SPELLING_WORDS)
}

/// The kind of the configuration of this name, if there is one.
fn config_kind(name: &[u8]) -> Option<ConfigKind>
    ensures { result ≡ config_kind name.now }
{
    if name == b"re2c:eof".as_slice() {
        return Some(ConfigKind::Eof);
    }
    if name == b"re2c:yyfill:enable".as_slice() {
        return Some(ConfigKind::Fill);
    }
    if is_among(name, &[b"re2c:indent:top", b"re2c:indent:string"]) {
        return Some(ConfigKind::Idle);
    }
    match name_place(name) {
        Some(place) => Some(ConfigKind::Spelling(place)),
        None => None,
    }
}

/// Whether a number is 1 or 0.
fn number_switch(number: Number) -> Option<bool>
    ensures { result ≡ number_switch number }
{
    match number.magnitude {
        0 => Some(false),
        1 if !number.is_negative => Some(true),
        _ => None,
    }
}

/// Whether a value says 1 or 0.
fn switch_of(kind: TokenKind, text: &[u8]) -> Option<bool>
    ensures { result ≡ switch_of kind text.now }
{
    match kind {
        TokenKind::Number => number_switch(number_of(text)),
        _ => None,
    }
}

/// The code unit that a number says, or none.
fn eof_number(enc: Enc, number: Number) -> Option<Option<u32>>
    ensures { result ≡ eof_number enc number }
{
    if number.is_negative && number.magnitude == 1 {
        return Some(None);
    }
    if number.is_negative && number.magnitude != 0 {
        return None;
    }
    if number.magnitude <= u64::from(greatest_unit(enc)) {
        Some(Some(number.magnitude as u32))
    } else {
        None
    }
}

/// The code unit that a value says, or none.
fn eof_of(enc: Enc, kind: TokenKind, text: &[u8]) -> Option<Option<u32>>
    ensures { result ≡ eof_of enc kind text.now }
{
    match kind {
        TokenKind::Number => eof_number(enc, number_of(text)),
        _ => None,
    }
}

/// The bytes of characters, if each of them is one.
pub fn bytes_of(alloc: Global, characters: &[Character]) -> Result<Option<ByteText>, Memory>
    ensures bytes { IfOk result (λ bytes. bytes ≡ bytes_of_points (points_of characters.now)) }
    ensures said { IfOk result (IsSaid (points_of characters.now)) }
{
    let mut bytes = Vec::new(alloc);
    for character in characters {
        if character.point > 255 {
            return Ok(None);
        }
        bytes.push(character.point as u8)?;
    }
    Ok(Some(ByteText::from_vec(bytes)))
}

/// The text that a value says, if each of its characters is a byte.
fn said(alloc: Global, value: &Lexeme<'_>) -> Result<Option<ByteText>, Memory>
    ensures { IfOk result (IsSaid (said (lexeme_view value.now))) }
{
    match value.kind {
        TokenKind::Str | TokenKind::IStr => {
            let characters = characters_of(alloc, value.text)?;
            bytes_of(alloc, characters.as_slice())
        }
        _ => Ok(Some(ByteText::copy_of(alloc, value.text)?)),
    }
}

/// Whether the name at a place, counted from 0, may be spelled as this word.
fn may_spell(place: usize, word: &[u8]) -> bool
    ensures { result ≡ may_spell place word.now }
{
    match place {
        0 => is_words(word),
        1..=11 => is_spelling(word),
        _ => is_identifier(word),
    }
}

/// The name at a place spelled as a value says, if it may be so.
fn spelling_of(alloc: Global, place: usize, value: &Lexeme<'_>) -> Result<Option<Setting>, Memory>
    ensures { IfOk result (λ setting. setting ≡ spelling_of place (lexeme_view value.now)) }
{
    let Some(word) = said(alloc, value)? else {
        return Ok(None);
    };
    if !may_spell(place, word.as_slice()) {
        return Ok(None);
    }
    Ok(Some(Setting::Spelling { place, word }))
}

/// What a configuration of a kind sets by a value, if that is allowed.
fn set_by(
    alloc: Global,
    enc: Enc,
    kind: ConfigKind,
    value: &Lexeme<'_>,
) -> Result<Option<Setting>, Memory>
    ensures { IfOk result (λ setting. setting ≡ set_by enc kind (lexeme_view value.now)) }
{
    match kind {
        ConfigKind::Spelling(place) => spelling_of(alloc, place, value),
        ConfigKind::Eof => Ok(eof_of(enc, value.kind, value.text).map(Setting::Eof)),
        ConfigKind::Fill => Ok(switch_of(value.kind, value.text).map(Setting::Fill)),
        ConfigKind::Idle => Ok(Some(Setting::Nothing)),
    }
}

/// The fault of a configuration that there is not.
fn unknown(alloc: Global, name: &Lexeme<'_>) -> Stop
    ensures { IsStop (Some (UnknownConfig name.now.at name.now.text.now)) result }
{
    match ByteText::copy_of(alloc, name.text) {
        Ok(text) => Stop::Fault(Fault::UnknownConfig {
            at: name.at,
            name: text,
        }),
        Err(_) => Stop::Memory,
    }
}

/// What a configuration sets, which is one that there is and has a value that is allowed.
pub(crate) fn read_config(
    alloc: Global,
    enc: Enc,
    name: &Lexeme<'_>,
    value: &Lexeme<'_>,
) -> Result<Setting, Stop>
    ensures { MatchResult result
        (λ setting. (config_fault enc (lexeme_view name.now) (lexeme_view value.now) ≡ None) × (setting_of enc name.now.text.now (lexeme_view value.now) ≡ Some setting))
        (IsStop (config_fault enc (lexeme_view name.now) (lexeme_view value.now))) }
{
    let Some(kind) = config_kind(name.text) else {
        return Err(unknown(alloc, name));
    };
    match set_by(alloc, enc, kind, value)? {
        Some(setting) => Ok(setting),
        None => Err(Stop::Fault(Fault::BadValue { at: value.at })),
    }
}
