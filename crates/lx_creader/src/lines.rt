//! Reads the lines of statements.
ghost use Rattle.std.specs.Prelude.{◌≡◌, ◌≤◌, ◌+◌, ◌*◌, ◌/◌, Option, drop, reverse, min, IfOk};
ghost use Rattle.lx_base.specs.Letters.{after_letters, is_in_identifier};
ghost use Rattle.lx_ccode.specs.declared.piece.LineMark.{LineMark};
ghost use Rattle.lx_ccode.specs.Reading.{argument, assigned, begins_statement, bit_place, call_of, callee, called, code_at, enclosed, goto_at, history_of, if_at, is_context_marker, less_at, primitive_called, primitive_if_at, register_assigned, register_of, set_at, set_test_at, statement_at, test_at, test_or_switch_at};
ghost use Rattle.lx_creader.specs.Fitted.{fitted_line, fitted_statement, short};

use crate::marks::{block_at, goto_block, goto_tail, mark_at};
use crate::switches::switch_at;
use crate::words::{
    after_digits, after_hexadecimal, after_identifier, after_spelling, byte_at, count_at,
    front_identifier, front_spelling, hexadecimal_at, long_at, long_hexadecimal_at, long_of,
    short_at, short_of, shortened, skip, taken,
};
use lx_base::letters::{begins_with, equal_words, is_digit, is_in_identifier};
use lx_base::names::{self, is_history_register, is_register};
use lx_base::{Memory, Names};
use lx_ccode::{LineMark, Stmt};
use lx_shared::SharedText;
use std::alloc::Global;

/// A statement, whether it names the context marker as register 1, and what comes behind its line.
pub(crate) type Read<'a> = (Stmt, bool, &'a [u8]);

/// What the lines of a piece depend on beside their bytes.
#[derive(Clone, Copy)]
pub(crate) struct Scope<'a> {
    pub alloc: Global,
    /// The seventeen spellings.
    pub names: &'a Names,
    /// Whether the input is read by primitives of the user's.
    pub custom: bool,
    /// Whether the piece is of format 3.
    pub three: bool,
    /// Whether a `#line` stands behind each user's action.
    pub placed: bool,
    /// How the labels of blocks begin, `yyN_`.
    pub front: &'a [u8],
}

impl Scope<'_> {
    pub(crate) fn text(&self, word: &[u8]) -> Result<SharedText, Memory>
        ensures { IfOk result (λ text. text ≡ word.now) }
    {
        SharedText::copy_of(self.alloc, word)
    }

    fn is_context_marker(&self, word: &[u8]) -> bool
        ensures { result ≡ is_context_marker self.now.names.now word.now }
    {
        equal_words(word, names::context_marker(self.names))
    }

    /// The register that a word names.
    #[tactic(auto, unfolding(lx_ccode::specs::Reading::register_of))]
    fn register_of(&self, word: &[u8]) -> u32
        ensures { result ≡ min (register_of self.now.names.now word.now) 4294967295 }
    {
        if self.is_context_marker(word) {
            1
        } else {
            short_of(skip(word, names::tag_prefix(self.names).len()))
        }
    }

    /// The history that a word names.
    #[tactic(auto, unfolding(lx_ccode::specs::Reading::history_of))]
    fn history_of(&self, word: &[u8]) -> u32
        ensures { result ≡ min (history_of self.now.names.now word.now) 4294967295 }
    {
        short_of(skip(skip(word, names::tag_prefix(self.names).len()), 1))
    }

    /// The statement `target = source;` where the target is a register, a history or a user's tag.
    #[tactic(auto, unfolding(lx_ccode::specs::Reading::register_assigned))]
    fn register_assigned(&self, target: &[u8], source: &[u8]) -> Result<(Stmt, bool), Memory>
        ensures { IfOk result (λ read. (read.0 ≡ fitted_statement (register_assigned self.now.names.now target.now source.now).0) × (read.1 ≡ (register_assigned self.now.names.now target.now source.now).1)) }
    {
        let prefix = names::tag_prefix(self.names);
        let is_context = self.is_context_marker(target);
        let from_context = self.is_context_marker(source);
        if is_context || is_register(prefix, target) {
            if equal_words(source, names::cursor(self.names)) {
                Ok((Stmt::Set(self.register_of(target)), is_context))
            } else if equal_words(source, b"NULL") {
                Ok((Stmt::Unset(self.register_of(target)), is_context))
            } else {
                let copy = Stmt::Copy(self.register_of(target), self.register_of(source));
                Ok((copy, is_context || from_context))
            }
        } else if is_history_register(prefix, target) {
            let copy = Stmt::MCopy(self.history_of(target), self.history_of(source));
            Ok((copy, false))
        } else if from_context {
            let tag = Stmt::Tag(self.text(target)?, false, self.register_of(source));
            Ok((tag, true))
        } else if is_history_register(prefix, source) {
            let tag = Stmt::Tag(self.text(target)?, true, self.history_of(source));
            Ok((tag, false))
        } else {
            let tag = Stmt::Tag(self.text(target)?, false, self.register_of(source));
            Ok((tag, false))
        }
    }

    /// The statement `target = source;`.
    #[tactic(auto, unfolding(lx_ccode::specs::Reading::assigned))]
    fn assigned(&self, target: &[u8], source: &[u8]) -> Result<(Stmt, bool), Memory>
        ensures { IfOk result (λ read. (read.0 ≡ fitted_statement (assigned self.now.names.now target.now source.now).0) × (read.1 ≡ (assigned self.now.names.now target.now source.now).1)) }
    {
        let from_context = self.is_context_marker(source);
        if equal_words(target, names::current_unit(self.names)) {
            Ok((Stmt::Peek, false))
        } else if equal_words(target, names::last_accept(self.names)) {
            Ok((Stmt::Accept(short_of(source)), false))
        } else if equal_words(target, names::marker(self.names)) {
            Ok((Stmt::Backup, false))
        } else if equal_words(target, names::cursor(self.names)) {
            if equal_words(source, names::marker(self.names)) {
                Ok((Stmt::Restore, false))
            } else {
                Ok((Stmt::Back(self.register_of(source)), from_context))
            }
        } else if equal_words(target, b"yynmatch") {
            Ok((Stmt::Count(short_of(source)), false))
        } else if begins_with(target, b"yypmatch[") {
            let end = Stmt::End(short_at(skip(target, 9)), self.register_of(source));
            Ok((end, from_context))
        } else {
            self.register_assigned(target, source)
        }
    }

    /// The statement `name(value);`.
    #[tactic(auto, unfolding(lx_ccode::specs::Reading::called))]
    fn called(&self, name: &[u8], value: &[u8]) -> Result<Stmt, Memory>
        ensures { IfOk result (λ read. read ≡ fitted_statement (called self.now.names.now name.now value.now)) }
    {
        if equal_words(name, names::append_offset(self.names)) {
            Ok(Stmt::MSet(self.history_of(value)))
        } else if equal_words(name, names::append_negative(self.names)) {
            Ok(Stmt::MUnset(self.history_of(value)))
        } else if equal_words(name, names::set_state(self.names)) {
            Ok(Stmt::State(long_of(value)))
        } else {
            let prefix = names::condition_prefix(self.names);
            Ok(Stmt::Cond(self.text(skip(value, prefix.len()))?))
        }
    }

    /// A call, where the input is read by primitives of the user's: some of them, or another call.
    #[tactic(auto, unfolding(lx_ccode::specs::Reading::primitive_called))]
    fn primitive_called(&self, word: &[u8]) -> Result<(Stmt, bool), Memory>
        ensures { IfOk result (λ read. (read.0 ≡ fitted_statement (primitive_called self.now.names.now word.now).0) × (read.1 ≡ (primitive_called self.now.names.now word.now).1)) }
    {
        if equal_words(word, b"YYSKIP()") {
            Ok((Stmt::Skip, false))
        } else if equal_words(word, b"YYBACKUP()") {
            Ok((Stmt::Backup, false))
        } else if equal_words(word, b"YYRESTORE()") {
            Ok((Stmt::Restore, false))
        } else if begins_with(word, b"YYSTAGP(") {
            let register = enclosed(word, 8);
            let set = Stmt::Set(self.register_of(register));
            Ok((set, self.is_context_marker(register)))
        } else if begins_with(word, b"YYSTAGN(") {
            let register = enclosed(word, 8);
            let unset = Stmt::Unset(self.register_of(register));
            Ok((unset, self.is_context_marker(register)))
        } else if begins_with(word, b"YYRESTORETAG(") {
            let register = enclosed(word, 13);
            let back = Stmt::Back(self.register_of(register));
            Ok((back, self.is_context_marker(register)))
        } else {
            Ok((self.called(callee(word), argument(word))?, false))
        }
    }

    /// A call.
    fn call_of(&self, word: &[u8]) -> Result<(Stmt, bool), Memory>
        ensures { IfOk result (λ read. (read.0 ≡ fitted_statement (call_of self.now.custom self.now.names.now word.now).0) × (read.1 ≡ (call_of self.now.custom self.now.names.now word.now).1)) }
    {
        if self.custom {
            self.primitive_called(word)
        } else {
            Ok((self.called(callee(word), argument(word))?, false))
        }
    }

    /// A statement, behind its `if (`, where the input is read through pointers.
    #[tactic(auto, unfolding(lx_ccode::specs::Reading::if_at))]
    fn if_at<'b>(&self, bytes: &'b [u8]) -> Read<'b>
        ensures { (result.0 ≡ fitted_statement (if_at self.now.names.now bytes.now).0) × (result.1 ≡ (if_at self.now.names.now bytes.now).1) × (result.2.now ≡ (if_at self.now.names.now bytes.now).2) }
    {
        let rest = after_spelling(bytes);
        let sign = byte_at(rest, 1);
        if sign == b'<' {
            less_at(rest)
        } else if sign == b'>' {
            let next = after_spelling(skip(rest, 4));
            (Stmt::IfEnd(goto_block(next)), false, goto_tail(next))
        } else if sign == b'-' {
            let next = skip(after_spelling(skip(rest, 3)), 3);
            let tail = after_spelling(skip(after_digits(next), 2));
            (Stmt::Need(short_at(next)), false, skip(tail, 2))
        } else if byte_at(rest, 2) == b' ' {
            set_test_at(1, bytes)
        } else if byte_at(rest, 5) == b'x' {
            let number = skip(rest, 6);
            let next = skip(after_hexadecimal(number), 1);
            let test = Stmt::IfIs(hexadecimal_at(number), goto_block(next));
            (test, false, goto_tail(next))
        } else if equal_words(front_spelling(bytes), names::last_accept(self.names)) {
            let number = skip(rest, 4);
            let next = skip(after_digits(number), 1);
            let test = Stmt::IfAccept(short_at(number), goto_block(next));
            (test, false, goto_tail(next))
        } else {
            let next = skip(rest, 6);
            (Stmt::Try(goto_block(next)), false, goto_tail(next))
        }
    }

    /// A statement, behind its `if (`, where the input is read by primitives of the user's.
    #[tactic(auto, unfolding(lx_ccode::specs::Reading::primitive_if_at))]
    fn primitive_if_at<'b>(&self, bytes: &'b [u8]) -> Read<'b>
        ensures { (result.0 ≡ fitted_statement (primitive_if_at self.now.names.now bytes.now).0) × (result.1 ≡ (primitive_if_at self.now.names.now bytes.now).1) × (result.2.now ≡ (primitive_if_at self.now.names.now bytes.now).2) }
    {
        let rest = after_spelling(bytes);
        let sign = byte_at(rest, 1);
        if sign == b'<' || sign == b'=' || byte_at(rest, 2) == b' ' {
            return self.if_at(bytes);
        }
        let next = after_spelling(skip(rest, 1));
        if byte_at(next, 0) == b' ' {
            (Stmt::IfEnd(goto_block(rest)), false, goto_tail(rest))
        } else {
            (Stmt::Need(short_at(skip(bytes, 11))), false, skip(next, 2))
        }
    }

    /// A statement, behind its `if (`.
    fn test_at<'b>(&self, bytes: &'b [u8]) -> Read<'b>
        ensures { (result.0 ≡ fitted_statement (test_at self.now.custom self.now.names.now bytes.now).0) × (result.1 ≡ (test_at self.now.custom self.now.names.now bytes.now).1) × (result.2.now ≡ (test_at self.now.custom self.now.names.now bytes.now).2) }
    {
        if self.custom {
            self.primitive_if_at(bytes)
        } else {
            self.if_at(bytes)
        }
    }

    /// A statement, behind its `if (` or its `switch (`, where it begins at these bytes.
    fn test_or_switch_at<'b>(&self, start: &[u8], bytes: &'b [u8]) -> Result<Read<'b>, Memory>
        ensures { IfOk result (λ read. (read.0 ≡ fitted_statement (test_or_switch_at self.now.custom self.now.names.now start.now bytes.now).0) × (read.1 ≡ (test_or_switch_at self.now.custom self.now.names.now start.now bytes.now).1) × (read.2.now ≡ (test_or_switch_at self.now.custom self.now.names.now start.now bytes.now).2)) }
    {
        if byte_at(start, 1) == b's' {
            switch_at(self.alloc, bytes)
        } else {
            Ok(self.test_at(bytes))
        }
    }

    /// A statement, behind its `goto `.
    #[tactic(auto, unfolding(lx_ccode::specs::Reading::goto_at))]
    fn goto_at<'b>(&self, bytes: &'b [u8]) -> Result<Read<'b>, Memory>
        ensures { IfOk result (λ read. (read.0 ≡ fitted_statement (goto_at self.now.names.now bytes.now).0) × (read.1 ≡ (goto_at self.now.names.now bytes.now).1) × (read.2.now ≡ (goto_at self.now.names.now bytes.now).2)) }
    {
        let rest = after_identifier(bytes);
        let block = block_at(bytes);
        if byte_at(rest, 1) == b' ' {
            let prefix = names::label_prefix(self.names);
            let cond = self.text(skip(front_identifier(bytes), prefix.len()))?;
            let number = skip(rest, 5);
            let jump = Stmt::Jump(cond, short_at(number));
            Ok((jump, false, skip(after_digits(number), 4)))
        } else if is_digit(byte_at(block, 0)) {
            let jump = Stmt::Goto(long_at(block));
            Ok((jump, false, skip(after_digits(block), 2)))
        } else {
            Ok((Stmt::Leave, false, skip(rest, 2)))
        }
    }

    /// A user's action, at the tab before its `/*!code`.
    #[tactic(auto, unfolding(lx_ccode::specs::Reading::code_at))]
    fn code_at<'b>(&self, line: Option<LineMark>, bytes: &'b [u8]) -> Result<Read<'b>, Memory>
        ensures { (mark : Option LineMark) → line ≡ fitted_line mark → IfOk result (λ read. (read.0 ≡ fitted_statement (code_at mark bytes.now).0) × (read.1 ≡ (code_at mark bytes.now).1) × (read.2.now ≡ (code_at mark bytes.now).2)) }
    {
        let number = skip(bytes, 14);
        let count = skip(after_digits(number), 1);
        let text = skip(after_digits(count), 2);
        let size = count_at(count);
        let action = self.text(taken(text, size))?;
        let code = Stmt::Code(short_at(number), line, action);
        Ok((code, false, skip(skip(text, size), 1)))
    }

    /// A statement, at its tab or at the `#` of its `#line`.
    #[tactic(auto, unfolding(lx_ccode::specs::Reading::statement_at))]
    pub(crate) fn statement_at<'b>(&self, bytes: &'b [u8]) -> Result<Read<'b>, Memory>
        ensures { IfOk result (λ read. (read.0 ≡ fitted_statement (statement_at self.now.custom self.now.names.now bytes.now).0) × (read.1 ≡ (statement_at self.now.custom self.now.names.now bytes.now).1) × (read.2.now ≡ (statement_at self.now.custom self.now.names.now bytes.now).2)) }
    {
        if byte_at(bytes, 0) == b'#' {
            let (mark, rest) = mark_at(self.alloc, bytes)?;
            return self.code_at(Some(mark), rest);
        }
        let word = front_spelling(skip(bytes, 1));
        let rest = after_spelling(skip(bytes, 1));
        let first = byte_at(rest, 0);
        let second = byte_at(rest, 1);
        if first == b'+' {
            let tail = after_spelling(skip(rest, 2));
            Ok((Stmt::Skip, false, skip(tail, 2)))
        } else if first == b'/' {
            self.code_at(None, bytes)
        } else if first == b';' {
            let (call, is_context) = self.call_of(word)?;
            Ok((call, is_context, skip(rest, 2)))
        } else if second == b'=' {
            let source = skip(rest, 3);
            let (statement, is_context) = self.assigned(word, front_spelling(source))?;
            Ok((statement, is_context, skip(after_spelling(source), 2)))
        } else if second == b'(' {
            self.test_or_switch_at(bytes, skip(rest, 2))
        } else {
            self.goto_at(skip(rest, 1))
        }
    }
}

/// The bit of a mask that has one.
fn bit_place(mask: u32) -> u32
    ensures bit { result ≡ bit_place mask }
    ensures few { result ≤ 7 }
{
    match mask {
        1 => 0,
        2 => 1,
        4 => 2,
        8 => 3,
        16 => 4,
        32 => 5,
        64 => 6,
        _ => 7,
    }
}

/// The set with this bit in the group of eight sets at this place of the table; the greatest number where it has
/// no room.
fn set_of(place: u64, bit: u32) -> u32
    requires { bit ≤ 7 }
    ensures { result ≡ min (8 * (place / 256) + bit) 4294967295 }
{
    shortened(place / 256 * 8 + u64::from(bit))
}

/// The set whose table is asked at `yybm[`, and what comes behind its mask.
#[tactic(auto, unfolding(lx_ccode::specs::Reading::set_at))]
fn set_at(bytes: &[u8]) -> (u32, &[u8])
    ensures { (result.0 ≡ short (set_at bytes.now).0) × (result.1.now ≡ (set_at bytes.now).1) }
{
    let rest = after_spelling(bytes);
    if byte_at(rest, 1) == b'+' {
        let mask = skip(after_spelling(skip(rest, 3)), 5);
        let place = long_hexadecimal_at(skip(bytes, 7));
        let bit = bit_place(hexadecimal_at(mask));
        (set_of(place, bit), after_hexadecimal(mask))
    } else {
        let mask = skip(rest, 5);
        (bit_place(hexadecimal_at(mask)), after_hexadecimal(mask))
    }
}

/// A test of a set, at `yybm[`, with so many parentheses behind its mask.
#[tactic(auto, unfolding(lx_ccode::specs::Reading::set_test_at))]
fn set_test_at(closing: usize, bytes: &[u8]) -> Read<'_>
    ensures { (result.0 ≡ fitted_statement (set_test_at closing bytes.now).0) × (result.1 ≡ (set_test_at closing bytes.now).1) × (result.2.now ≡ (set_test_at closing bytes.now).2) }
{
    let (set, rest) = set_at(bytes);
    let next = skip(rest, closing);
    (Stmt::IfSet(set, goto_block(next)), false, goto_tail(next))
}

/// A test behind the word before its `<=`.
#[tactic(auto, unfolding(lx_ccode::specs::Reading::less_at))]
fn less_at(rest: &[u8]) -> Read<'_>
    ensures { (result.0 ≡ fitted_statement (less_at rest.now).0) × (result.1 ≡ (less_at rest.now).1) × (result.2.now ≡ (less_at rest.now).2) }
{
    let number = skip(rest, 6);
    let next = after_hexadecimal(number);
    if byte_at(next, 0) == b' ' {
        set_test_at(2, skip(next, 5))
    } else {
        let jump = skip(next, 1);
        let test = Stmt::IfUnit(hexadecimal_at(number), goto_block(jump));
        (test, false, goto_tail(jump))
    }
}

/// What stands before the last byte.
fn without_last(word: &[u8]) -> &[u8]
    ensures { reverse result.now ≡ drop 1 (reverse word.now) }
{
    match word.split_last() {
        Some((_, front)) => front,
        None => word,
    }
}

/// What stands before the letters, digits and `_` at the end.
fn before_identifier(word: &[u8]) -> &[u8]
    ensures { reverse result.now ≡ after_letters is_in_identifier (reverse word.now) }
{
    let mut rest = word;
    while let Some((letter, front)) = rest.split_last() {
        if !is_in_identifier(*letter) {
            break;
        }
        rest = front;
    }
    rest
}

/// The word before the last parentheses, which close the word.
#[tactic(auto, unfolding(lx_ccode::specs::Reading::callee))]
fn callee(word: &[u8]) -> &[u8]
    ensures { result.now ≡ callee word.now }
{
    without_last(before_identifier(without_last(word)))
}

/// The word in the last parentheses, which close the word.
#[tactic(auto, unfolding(lx_ccode::specs::Reading::argument))]
fn argument(word: &[u8]) -> &[u8]
    ensures { result.now ≡ argument word.now }
{
    let inner = without_last(word);
    skip(inner, before_identifier(inner).len())
}

/// The word between the parenthesis behind so many letters and the last one.
#[tactic(auto, unfolding(lx_ccode::specs::Reading::enclosed))]
fn enclosed(word: &[u8], letters: usize) -> &[u8]
    ensures { result.now ≡ enclosed letters word.now }
{
    without_last(skip(word, letters))
}

/// Whether a statement begins: with a tab or a `#`.
pub(crate) fn begins_statement(bytes: &[u8]) -> bool
    ensures { result ≡ begins_statement bytes.now }
{
    matches!(byte_at(bytes, 0), b'\t' | b'#')
}
