//! The spellings of a scanner's names: which are allowed, and which clash.
ghost use Rattle.std.specs.Prelude.{◌≡◌, ◌↔◌, IsTrue, true, map, length, slice_index_or, []};
ghost use Rattle.std.specs.List.{AllByRecursion};
ghost use Rattle.lx_base.specs.Letters.{IsIdentifier, IsSpelling, begins_with, is_digit, is_history_numeral, is_history_register, is_letter_of, is_numeral, is_register, each_letter};
ghost use Rattle.lx_base.specs.Names.{AreAllowed, DoNotClash, EachIsFree, EachIsNoRegister, EachIsShort, IsFree, IsNoRegister, IsTagName, append_negative, append_offset, begins_table, calls, calls_primitive, condition_prefix, context_marker, current_unit, cursor, get_condition, get_state, label_prefix, last_accept, limit, marker, name_primitives, name_table, refill, set_condition, set_state, spelling_at, tag_prefix, unit_type, usual_names, variables};

use crate::letters::{
    Letters, are_distinct, are_letters, begins_with, equal_words, front_letters, is_identifier,
    is_none_of, is_spelling, is_words,
};
use crate::lists::ByteText;
use std::marker::Model;

/// The seventeen spellings of a scanner's names, in this order: the type of a code unit, the cursor,
/// the limit, the marker, the context marker, the refill, the reading and the writing of the stored
/// state, those of the condition, the appending of an offset and of a negative event to a history, the
/// current code unit, the last accepting state, and the prefixes of tag registers, of condition labels
/// and of condition numbers.
///
/// Which spellings are allowed and which clash is said in `specs/Names.antt`. Contracts see the list of all
/// seventeen.
#[derive(Drop)]
pub struct Names {
    /// All of them; none where they are the usual ones.
    own: Option<Vec<ByteText>>,
}

impl Model for Names {
    ghost use Rattle.std.specs.Prelude.{List, ℕ};
    ghost use Rattle.lx_base.specs.Names.{held_names};

    ghost Value = { List (List ℕ) };

    ghost view = { λ names. held_names names.own };
}

/// The spellings of a source that configures none, in order.
const USUAL_NAMES: [&[u8]; 17] = [
    b"YYCTYPE",
    b"YYCURSOR",
    b"YYLIMIT",
    b"YYMARKER",
    b"YYCTXMARKER",
    b"YYFILL",
    b"YYGETSTATE",
    b"YYSETSTATE",
    b"YYGETCONDITION",
    b"YYSETCONDITION",
    b"YYMTAGP",
    b"YYMTAGN",
    b"yych",
    b"yyaccept",
    b"yyt",
    b"yyc_",
    b"yyc",
];

/// The word at a place, counted from 0; nothing where the list is shorter.
fn word_at<'a>(words: &'a [&'a [u8]], place: usize) -> &'a [u8]
    ensures { result.now ≡ slice_index_or (map (λ word. word.now) words.now) place [] }
{
    match words.get(place) {
        Some(word) => word,
        None => &[],
    }
}

impl Names {
    /// The spellings of a source that configures none. They take no memory.
    pub fn usual() -> Names
        ensures { result ≡ usual_names }
    {
        Names { own: None }
    }

    /// These spellings, in order.
    pub fn of(words: Vec<ByteText>) -> Names
        ensures { result ≡ words.items }
    {
        Names { own: Some(words) }
    }

    /// How many spellings there are.
    pub fn len(&self) -> usize
        ensures { result ≡ length self.now }
    {
        match &self.own {
            Some(words) => words.len(),
            None => USUAL_NAMES.len(),
        }
    }

    /// The spelling at a place, counted from 0; nothing where there are fewer.
    pub fn spelling(&self, place: usize) -> &[u8]
        ensures { result.now ≡ spelling_at place self.now }
    {
        match &self.own {
            Some(words) => match words.get(place) {
                Some(word) => word.as_slice(),
                None => &[],
            },
            None => word_at(&USUAL_NAMES, place),
        }
    }
}

/// The type of a code unit.
pub fn unit_type(names: &Names) -> &[u8]
    ensures { result.now ≡ unit_type names.now }
{
    names.spelling(0)
}

/// The cursor.
pub fn cursor(names: &Names) -> &[u8]
    ensures { result.now ≡ cursor names.now }
{
    names.spelling(1)
}

/// The limit.
pub fn limit(names: &Names) -> &[u8]
    ensures { result.now ≡ limit names.now }
{
    names.spelling(2)
}

/// The marker.
pub fn marker(names: &Names) -> &[u8]
    ensures { result.now ≡ marker names.now }
{
    names.spelling(3)
}

/// The context marker.
pub fn context_marker(names: &Names) -> &[u8]
    ensures { result.now ≡ context_marker names.now }
{
    names.spelling(4)
}

/// The refill.
pub fn refill(names: &Names) -> &[u8]
    ensures { result.now ≡ refill names.now }
{
    names.spelling(5)
}

/// The reading of the stored state.
pub fn get_state(names: &Names) -> &[u8]
    ensures { result.now ≡ get_state names.now }
{
    names.spelling(6)
}

/// The storing of a state.
pub fn set_state(names: &Names) -> &[u8]
    ensures { result.now ≡ set_state names.now }
{
    names.spelling(7)
}

/// The reading of the condition.
pub fn get_condition(names: &Names) -> &[u8]
    ensures { result.now ≡ get_condition names.now }
{
    names.spelling(8)
}

/// The setting of the condition.
pub fn set_condition(names: &Names) -> &[u8]
    ensures { result.now ≡ set_condition names.now }
{
    names.spelling(9)
}

/// What appends the cursor to a history.
pub fn append_offset(names: &Names) -> &[u8]
    ensures { result.now ≡ append_offset names.now }
{
    names.spelling(10)
}

/// What appends a negative event to a history.
pub fn append_negative(names: &Names) -> &[u8]
    ensures { result.now ≡ append_negative names.now }
{
    names.spelling(11)
}

/// The current code unit.
pub fn current_unit(names: &Names) -> &[u8]
    ensures { result.now ≡ current_unit names.now }
{
    names.spelling(12)
}

/// The last accepting state.
pub fn last_accept(names: &Names) -> &[u8]
    ensures { result.now ≡ last_accept names.now }
{
    names.spelling(13)
}

/// The prefix of registers and histories.
pub fn tag_prefix(names: &Names) -> &[u8]
    ensures { result.now ≡ tag_prefix names.now }
{
    names.spelling(14)
}

/// The prefix of the labels of conditions.
pub fn label_prefix(names: &Names) -> &[u8]
    ensures { result.now ≡ label_prefix names.now }
{
    names.spelling(15)
}

/// The prefix of the numbers of conditions.
pub fn condition_prefix(names: &Names) -> &[u8]
    ensures { result.now ≡ condition_prefix names.now }
{
    names.spelling(16)
}

fn each_is_short(words: &[ByteText]) -> bool
    ensures { IsTrue result ↔ EachIsShort words.now }
{
    for word in words {
        if word.as_slice().len() > 4_294_967_295 {
            return false;
        }
    }
    true
}

fn all_spellings(words: &[&[u8]]) -> bool
    ensures { IsTrue result ↔ AllByRecursion IsSpelling (map (λ word. word.now) words.now) }
{
    for word in words {
        if !is_spelling(word) {
            return false;
        }
    }
    true
}

fn all_identifiers(words: &[&[u8]]) -> bool
    ensures { IsTrue result ↔ AllByRecursion IsIdentifier (map (λ word. word.now) words.now) }
{
    for word in words {
        if !is_identifier(word) {
            return false;
        }
    }
    true
}

/// Whether the spellings are ones that a scanner may have.
pub fn are_allowed(names: &Names) -> bool
    ensures { IsTrue result ↔ AreAllowed names.now }
{
    let Some(own) = &names.own else {
        return true;
    };
    let spelled = all_spellings(&[
        cursor(names),
        limit(names),
        marker(names),
        context_marker(names),
        refill(names),
        get_state(names),
        set_state(names),
        get_condition(names),
        set_condition(names),
        append_offset(names),
        append_negative(names),
    ]);
    let identifiers = all_identifiers(&[
        current_unit(names),
        last_accept(names),
        tag_prefix(names),
        label_prefix(names),
        condition_prefix(names),
    ]);
    let words = is_words(unit_type(names));
    let short = each_is_short(own.as_slice());
    let count = own.len() == 17;
    count && short && words && spelled && identifiers
}

fn is_free(word: &[u8]) -> bool
    ensures { IsTrue result ↔ IsFree word.now }
{
    let null = equal_words(word, b"NULL");
    let count = equal_words(word, b"yynmatch");
    let groups = equal_words(word, b"yypmatch");
    let entry = begins_with(word, b"yypmatch[");
    !null && !count && !groups && !entry
}

fn all_free(words: &[&[u8]]) -> bool
    ensures { IsTrue result ↔ EachIsFree (map (λ word. word.now) words.now) }
{
    for word in words {
        if !is_free(word) {
            return false;
        }
    }
    true
}

fn is_numeral(word: &[u8]) -> bool
    ensures { result ≡ is_numeral word.now }
{
    !word.is_empty() && are_letters(word, Letters::Digits)
}

/// Whether the word is the prefix followed by digits: how the register of an s-tag is spelled.
pub fn is_register(prefix: &[u8], word: &[u8]) -> bool
    ensures { result ≡ is_register prefix.now word.now }
{
    word.starts_with(prefix) && is_numeral(&word[prefix.len()..])
}

/// Whether the word is the prefix followed by `m` and digits: how the register of an m-tag is spelled.
pub fn is_history_register(prefix: &[u8], word: &[u8]) -> bool
    ensures { result ≡ is_history_register prefix.now word.now }
{
    word.starts_with(prefix) && is_history_numeral(&word[prefix.len()..])
}

fn is_history_numeral(word: &[u8]) -> bool
    ensures { result ≡ is_history_numeral word.now }
{
    match word.split_first() {
        Some((b'm', digits)) => is_numeral(digits),
        _ => false,
    }
}

fn is_no_register(prefix: &[u8], word: &[u8]) -> bool
    ensures { IsTrue result ↔ IsNoRegister prefix.now word.now }
{
    !is_register(prefix, word) && !is_history_register(prefix, word)
}

fn all_no_registers(prefix: &[u8], words: &[&[u8]]) -> bool
    ensures { IsTrue result ↔ EachIsNoRegister prefix.now (map (λ word. word.now) words.now) }
{
    for word in words {
        if !is_no_register(prefix, word) {
            return false;
        }
    }
    true
}

fn variables(names: &Names) -> [&[u8]; 6]
    ensures { map (λ word. word.now) result ≡ variables names.now }
{
    [
        cursor(names),
        limit(names),
        marker(names),
        context_marker(names),
        current_unit(names),
        last_accept(names),
    ]
}

fn calls(names: &Names) -> [&[u8]; 7]
    ensures { map (λ word. word.now) result ≡ calls names.now }
{
    [
        refill(names),
        get_state(names),
        set_state(names),
        get_condition(names),
        set_condition(names),
        append_offset(names),
        append_negative(names),
    ]
}

/// Whether no two of the spellings mean different things in one place of emitted text.
pub fn do_not_clash(names: &Names) -> bool
    ensures { IsTrue result ↔ DoNotClash names.now }
{
    if names.own.is_none() {
        return true;
    }
    let variables = variables(names);
    let variables_differ = are_distinct(&variables);
    let variables_are_free = all_free(&variables);
    let calls_differ = are_distinct(&calls(names));
    let no_registers = all_no_registers(tag_prefix(names), &variables);
    variables_differ && variables_are_free && calls_differ && no_registers
}

/// Whether a call of the word is one of an input primitive with a register.
fn calls_primitive(word: &[u8]) -> bool
    ensures { result ≡ calls_primitive word.now }
{
    let set = equal_words(word, b"YYSTAGP") || begins_with(word, b"YYSTAGP(");
    let unset = equal_words(word, b"YYSTAGN") || begins_with(word, b"YYSTAGN(");
    let back = equal_words(word, b"YYRESTORETAG") || begins_with(word, b"YYRESTORETAG(");
    set || unset || back
}

/// Whether a spelling that is called with one value means an input primitive in custom text: it is, up to
/// its first parenthesis, `YYSTAGP`, `YYSTAGN` or `YYRESTORETAG`.
pub fn name_primitives(names: &Names) -> bool
    ensures { result ≡ name_primitives names.now }
{
    let state = calls_primitive(set_state(names));
    let condition = calls_primitive(set_condition(names));
    let offset = calls_primitive(append_offset(names));
    let negative = calls_primitive(append_negative(names));
    state || condition || offset || negative
}

/// Whether the word begins with `yybm`, the name of the table of sets.
pub fn begins_table(word: &[u8]) -> bool
    ensures { result ≡ begins_table word.now }
{
    equal_words(front_letters(word, Letters::Identifier), b"yybm")
}

/// Whether a spelling of a variable begins with `yybm`, the name of the table of sets.
pub fn name_table(names: &Names) -> bool
    ensures { result ≡ name_table names.now }
{
    let in_cursor = begins_table(cursor(names));
    let in_limit = begins_table(limit(names));
    let in_marker = begins_table(marker(names));
    let in_context = begins_table(context_marker(names));
    let in_unit = begins_table(current_unit(names));
    let in_accept = begins_table(last_accept(names));
    in_cursor || in_limit || in_marker || in_context || in_unit || in_accept
}

/// Whether a user's tag may be called so beside these spellings.
pub fn is_tag_name(names: &Names, word: &[u8]) -> bool
    ensures { IsTrue result ↔ IsTagName names.now word.now }
{
    let identifier = is_identifier(word);
    let no_variable = is_none_of(word, &variables(names));
    let count = equal_words(word, b"yynmatch");
    let groups = equal_words(word, b"yypmatch");
    let no_register = is_no_register(tag_prefix(names), word);
    identifier && no_variable && !count && !groups && no_register
}
