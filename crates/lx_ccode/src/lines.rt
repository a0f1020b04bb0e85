//! Writes the lines of statements.
ghost use Rattle.std.specs.Prelude.{◌≡◌, ◌<◌, ◌*◌, ◌/◌, ◌%◌, ◌^◌, ◌++◌, [], ◌∷◌, length, false, true, OnOk, codes};
ghost use Rattle.std.specs.Fmt.{decimal};
ghost use Rattle.lx_base.specs.Text.{joined};
ghost use Rattle.lx_base.specs.Names.{cursor, limit, refill, current_unit, last_accept, set_condition, condition_prefix, label_prefix};
ghost use Rattle.lx_ccode.specs.Registers.{register_text, history_text};
ghost use Rattle.lx_ccode.specs.Heads.{is_custom};
ghost use Rattle.lx_ccode.specs.Text.{custom_then, group_text, hexadecimal, line_then, mark_of, escaped, pointer_then, set_test_then, statement_then, statements_then, switch_case_then, switch_cases_then, switch_then, units_then};
ghost use Rattle.lx_ccode.specs.Wording.{scope_wording};

use crate::heads::is_custom;
use crate::numerals::{
    append_block, append_bytes, append_hexadecimal, append_history, append_long_hexadecimal,
    append_number, append_register, append_word,
};
use crate::piece::{LineMark, Piece, Stmt, SwitchCase};
use lx_base::{Memory, Names, append_parts, names};
use std::alloc::Global;

/// What the lines of a piece depend on beside their statements.
///
/// Each method appends to a text, and where memory runs out a part of it may stand there.
#[derive(Clone, Copy)]
pub struct Scope<'a> {
    pub alloc: Global,
    /// The number of the piece.
    pub number: u32,
    /// The seventeen spellings.
    pub names: &'a Names,
    /// Whether register 1 is spelled as the context marker.
    pub ctx: bool,
    /// Whether the input is read by primitives of the user's.
    pub custom: bool,
    /// The bytes of a code unit.
    pub unit: u32,
    /// For each block whether its own label stands; past the end of the list it does.
    pub labels: &'a [bool],
    /// The name of the file that the text is part of.
    pub out: &'a [u8],
}

impl<'a> Scope<'a> {
    /// What the lines of this piece depend on, of which these labels stand, in a file with this name.
    pub fn of(alloc: Global, piece: &'a Piece, labels: &'a [bool], out: &'a [u8]) -> Scope<'a>
        ensures number { result.number ≡ piece.now.number }
        ensures names { result.names.now ≡ piece.now.names }
        ensures ctx { result.ctx ≡ piece.now.ctx }
        ensures custom { result.custom ≡ is_custom piece.now.head }
        ensures unit { result.unit ≡ piece.now.unit }
        ensures labels { result.labels.now ≡ labels.now }
        ensures out { result.out.now ≡ out.now }
    {
        Scope {
            alloc,
            number: piece.number,
            names: &piece.names,
            ctx: piece.ctx,
            custom: is_custom(&piece.head),
            unit: piece.unit,
            labels,
            out,
        }
    }
}

impl Scope<'_> {
    /// Appends the lines of statements, in order.
    pub fn append_statements(&self, text: &mut Vec<u8>, statements: &[Stmt]) -> Result<(), Memory>
        ensures { OnOk result (text.new.items ≡ text.old.items ++ statements_then (scope_wording self.now) statements.now []) }
    {
        for statement in statements {
            self.append_statement(text, statement)?;
        }
        Ok(())
    }

    /// Appends the line of a statement.
    pub fn append_statement(&self, text: &mut Vec<u8>, statement: &Stmt) -> Result<(), Memory>
        ensures { OnOk result (text.new.items ≡ text.old.items ++ statement_then (scope_wording self.now) statement.now []) }
    {
        if self.custom {
            self.append_custom(text, statement)
        } else {
            self.append_pointer(text, statement)
        }
    }

    /// Appends the line of a statement, where the input is read by primitives of the user's.
    fn append_custom(&self, text: &mut Vec<u8>, statement: &Stmt) -> Result<(), Memory>
        ensures { OnOk result (text.new.items ≡ text.old.items ++ custom_then (scope_wording self.now) statement.now []) }
    {
        match statement {
            Stmt::Peek => { append_assignment(text, names::current_unit(self.names), b"YYPEEK()") }
            Stmt::Skip => append_parts(text, &[b"\tYYSKIP();\n"]),
            Stmt::Backup => append_parts(text, &[b"\tYYBACKUP();\n"]),
            Stmt::Restore => append_parts(text, &[b"\tYYRESTORE();\n"]),
            Stmt::Set(register) => self.append_register_call(text, b"YYSTAGP", *register),
            Stmt::Unset(register) => self.append_register_call(text, b"YYSTAGN", *register),
            Stmt::Back(register) => self.append_register_call(text, b"YYRESTORETAG", *register),
            Stmt::Need(units) => self.append_custom_need(text, *units),
            Stmt::IfEnd(block) => self.append_custom_if_end(text, *block),
            _ => self.append_pointer(text, statement),
        }
    }

    /// Appends the line of a statement, where the input is read through pointers.
    fn append_pointer(&self, text: &mut Vec<u8>, statement: &Stmt) -> Result<(), Memory>
        ensures { OnOk result (text.new.items ≡ text.old.items ++ pointer_then (scope_wording self.now) statement.now []) }
    {
        let names = self.names;
        match statement {
            Stmt::Peek => self.append_peek(text),
            Stmt::Skip => append_skip(text, names::cursor(names)),
            Stmt::Backup => append_assignment(text, names::marker(names), names::cursor(names)),
            Stmt::Restore => append_assignment(text, names::cursor(names), names::marker(names)),
            Stmt::Accept(accept) => append_value(text, names::last_accept(names), *accept),
            Stmt::Set(register) => self.append_to_register(text, *register, names::cursor(names)),
            Stmt::Unset(register) => self.append_to_register(text, *register, b"NULL"),
            Stmt::Copy(register, source) => self.append_copy(text, *register, *source),
            Stmt::MSet(history) => self.append_event(text, names::append_offset(names), *history),
            Stmt::MUnset(history) => {
                self.append_event(text, names::append_negative(names), *history)
            }
            Stmt::MCopy(history, source) => self.append_history_copy(text, *history, *source),
            Stmt::IfUnit(greatest, block) => self.append_if_unit(text, *greatest, *block),
            Stmt::IfIs(unit, block) => self.append_if_is(text, *unit, *block),
            Stmt::IfSet(set, block) => self.append_if_set(text, *set, *block),
            Stmt::IfAccept(accept, block) => self.append_if_accept(text, *accept, *block),
            Stmt::IfEnd(block) => self.append_if_end(text, *block),
            Stmt::State(state) => self.append_state(text, *state),
            Stmt::Need(units) => self.append_need(text, *units),
            Stmt::Try(block) => self.append_try(text, *block),
            Stmt::Cond(cond) => self.append_cond(text, cond.as_slice()),
            Stmt::Tag(tag, true, from) => self.append_from_history(text, tag.as_slice(), *from),
            Stmt::Tag(tag, false, from) => self.append_from_register(text, tag.as_slice(), *from),
            Stmt::Count(groups) => append_value(text, b"yynmatch", *groups),
            Stmt::End(place, register) => self.append_group_end(text, *place, *register),
            Stmt::Back(register) => self.append_back(text, *register),
            Stmt::Switch(cases, last) => self.append_switch(text, cases.as_slice(), *last),
            Stmt::Goto(block) => self.append_jump(text, *block),
            Stmt::Leave => self.append_leave(text),
            Stmt::Code(rule, line, code) => self.append_code(text, *rule, line, code.as_slice()),
            Stmt::Jump(cond, rule) => self.append_cond_jump(text, cond.as_slice(), *rule),
        }
    }

    /// Appends a register between two words.
    fn append_register(
        &self,
        text: &mut Vec<u8>,
        before: &[u8],
        register: u32,
        behind: &[u8],
    ) -> Result<(), Memory>
        ensures { OnOk result (text.new.items ≡ text.old.items ++ joined (before.now ∷ register_text self.now.names.now self.now.ctx register ∷ behind.now ∷ []) []) }
    {
        append_bytes(text, before)?;
        append_register(text, self.names, self.ctx, register)?;
        append_bytes(text, behind)
    }

    /// Appends a history between two words.
    fn append_history(
        &self,
        text: &mut Vec<u8>,
        before: &[u8],
        history: u32,
        behind: &[u8],
    ) -> Result<(), Memory>
        ensures { OnOk result (text.new.items ≡ text.old.items ++ joined (before.now ∷ history_text self.now.names.now history ∷ behind.now ∷ []) []) }
    {
        append_bytes(text, before)?;
        append_history(text, self.names, history)?;
        append_bytes(text, behind)
    }

    fn append_peek(&self, text: &mut Vec<u8>) -> Result<(), Memory>
        ensures { OnOk result (text.new.items ≡ text.old.items ++ pointer_then (scope_wording self.now) Stmt.Peek []) }
    {
        let current_unit = names::current_unit(self.names);
        append_word(text, b"\t", current_unit, b" = *")?;
        append_word(text, b"", names::cursor(self.names), b";\n")
    }

    /// Appends a call of a primitive of the user's with a register.
    fn append_register_call(
        &self,
        text: &mut Vec<u8>,
        name: &[u8],
        register: u32,
    ) -> Result<(), Memory>
        ensures { OnOk result (text.new.items ≡ text.old.items ++ joined (codes "\t" ∷ name.now ∷ codes "(" ∷ register_text self.now.names.now self.now.ctx register ∷ codes ");\n" ∷ []) []) }
    {
        append_word(text, b"\t", name, b"(")?;
        self.append_register(text, b"", register, b");\n")
    }

    fn append_custom_need(&self, text: &mut Vec<u8>, units: u32) -> Result<(), Memory>
        ensures { OnOk result (text.new.items ≡ text.old.items ++ custom_then (scope_wording self.now) (Stmt.Need units) []) }
    {
        append_number(text, b"\tif (YYLESSTHAN(", u64::from(units), b")) ")?;
        append_word(text, b"", names::refill(self.names), b"(")?;
        append_number(text, b"", u64::from(units), b");\n")
    }

    fn append_custom_if_end(&self, text: &mut Vec<u8>, block: u64) -> Result<(), Memory>
        ensures { OnOk result (text.new.items ≡ text.old.items ++ custom_then (scope_wording self.now) (Stmt.IfEnd block) []) }
    {
        append_block(
            text,
            b"\tif (YYLESSTHAN(1)) goto yy",
            self.number,
            block,
            b";\n",
        )
    }

    fn append_to_register(
        &self,
        text: &mut Vec<u8>,
        register: u32,
        source: &[u8],
    ) -> Result<(), Memory>
        ensures { OnOk result (text.new.items ≡ text.old.items ++ joined (codes "\t" ∷ register_text self.now.names.now self.now.ctx register ∷ codes " = " ∷ source.now ∷ codes ";\n" ∷ []) []) }
    {
        self.append_register(text, b"\t", register, b" = ")?;
        append_word(text, b"", source, b";\n")
    }

    fn append_from_register(
        &self,
        text: &mut Vec<u8>,
        target: &[u8],
        register: u32,
    ) -> Result<(), Memory>
        ensures { OnOk result (text.new.items ≡ text.old.items ++ joined (codes "\t" ∷ target.now ∷ codes " = " ∷ register_text self.now.names.now self.now.ctx register ∷ codes ";\n" ∷ []) []) }
    {
        append_word(text, b"\t", target, b" = ")?;
        self.append_register(text, b"", register, b";\n")
    }

    fn append_back(&self, text: &mut Vec<u8>, register: u32) -> Result<(), Memory>
        ensures { OnOk result (text.new.items ≡ text.old.items ++ pointer_then (scope_wording self.now) (Stmt.Back register) []) }
    {
        self.append_from_register(text, names::cursor(self.names), register)
    }

    fn append_copy(&self, text: &mut Vec<u8>, register: u32, source: u32) -> Result<(), Memory>
        ensures { OnOk result (text.new.items ≡ text.old.items ++ pointer_then (scope_wording self.now) (Stmt.Copy register source) []) }
    {
        self.append_register(text, b"\t", register, b" = ")?;
        self.append_register(text, b"", source, b";\n")
    }

    fn append_group_end(&self, text: &mut Vec<u8>, place: u32, register: u32) -> Result<(), Memory>
        ensures { OnOk result (text.new.items ≡ text.old.items ++ pointer_then (scope_wording self.now) (Stmt.End place register) []) }
    {
        append_number(text, b"\tyypmatch[", u64::from(place), b"] = ")?;
        self.append_register(text, b"", register, b";\n")
    }

    fn append_event(&self, text: &mut Vec<u8>, name: &[u8], history: u32) -> Result<(), Memory>
        ensures { OnOk result (text.new.items ≡ text.old.items ++ joined (codes "\t" ∷ name.now ∷ codes "(" ∷ history_text self.now.names.now history ∷ codes ");\n" ∷ []) []) }
    {
        append_word(text, b"\t", name, b"(")?;
        self.append_history(text, b"", history, b");\n")
    }

    fn append_from_history(
        &self,
        text: &mut Vec<u8>,
        target: &[u8],
        history: u32,
    ) -> Result<(), Memory>
        ensures { OnOk result (text.new.items ≡ text.old.items ++ joined (codes "\t" ∷ target.now ∷ codes " = " ∷ history_text self.now.names.now history ∷ codes ";\n" ∷ []) []) }
    {
        append_word(text, b"\t", target, b" = ")?;
        self.append_history(text, b"", history, b";\n")
    }

    fn append_history_copy(
        &self,
        text: &mut Vec<u8>,
        history: u32,
        source: u32,
    ) -> Result<(), Memory>
        ensures { OnOk result (text.new.items ≡ text.old.items ++ pointer_then (scope_wording self.now) (Stmt.MCopy history source) []) }
    {
        self.append_history(text, b"\t", history, b" = ")?;
        self.append_history(text, b"", source, b";\n")
    }

    fn append_if_unit(&self, text: &mut Vec<u8>, greatest: u32, block: u64) -> Result<(), Memory>
        ensures { OnOk result (text.new.items ≡ text.old.items ++ pointer_then (scope_wording self.now) (Stmt.IfUnit greatest block) []) }
    {
        append_word(text, b"\tif (", names::current_unit(self.names), b" <= 0x")?;
        append_hexadecimal(self.alloc, text, greatest)?;
        append_block(text, b") goto yy", self.number, block, b";\n")
    }

    fn append_if_is(&self, text: &mut Vec<u8>, unit: u32, block: u64) -> Result<(), Memory>
        ensures { OnOk result (text.new.items ≡ text.old.items ++ pointer_then (scope_wording self.now) (Stmt.IfIs unit block) []) }
    {
        append_word(text, b"\tif (", names::current_unit(self.names), b" == 0x")?;
        append_hexadecimal(self.alloc, text, unit)?;
        append_block(text, b") goto yy", self.number, block, b";\n")
    }

    fn append_if_set(&self, text: &mut Vec<u8>, set: u32, block: u64) -> Result<(), Memory>
        ensures { OnOk result (text.new.items ≡ text.old.items ++ pointer_then (scope_wording self.now) (Stmt.IfSet set block) []) }
    {
        if self.unit > 1 {
            self.append_wide_test(text, set, block)
        } else {
            self.append_byte_test(text, set, block)
        }
    }

    fn append_byte_test(&self, text: &mut Vec<u8>, set: u32, block: u64) -> Result<(), Memory>
        ensures { OnOk result (text.new.items ≡ text.old.items ++ set_test_then false (scope_wording self.now) set block []) }
    {
        append_bytes(text, b"\tif (yybm[")?;
        self.append_set(text, set)?;
        append_block(text, b") goto yy", self.number, block, b";\n")
    }

    fn append_wide_test(&self, text: &mut Vec<u8>, set: u32, block: u64) -> Result<(), Memory>
        ensures { OnOk result (text.new.items ≡ text.old.items ++ set_test_then true (scope_wording self.now) set block []) }
    {
        let current_unit = names::current_unit(self.names);
        append_word(text, b"\tif (", current_unit, b" <= 0xFF && (yybm[")?;
        self.append_set(text, set)?;
        append_block(text, b")) goto yy", self.number, block, b";\n")
    }

    /// Appends what stands between the bracket of the table and the end of a test of a set.
    fn append_set(&self, text: &mut Vec<u8>, set: u32) -> Result<(), Memory>
        ensures { OnOk result (text.new.items ≡ text.old.items ++ joined (group_text (set / 8) ∷ current_unit self.now.names.now ∷ codes "] & 0x" ∷ hexadecimal (2 ^ (set % 8)) ∷ []) []) }
    {
        append_group(self.alloc, text, set / 8)?;
        append_word(text, b"", names::current_unit(self.names), b"] & 0x")?;
        append_hexadecimal(self.alloc, text, mask_of(set % 8))
    }

    fn append_switch(
        &self,
        text: &mut Vec<u8>,
        cases: &[SwitchCase],
        last: u64,
    ) -> Result<(), Memory>
        ensures { OnOk result (text.new.items ≡ text.old.items ++ switch_then (scope_wording self.now) cases.now last []) }
    {
        append_word(
            text,
            b"\tswitch (",
            names::current_unit(self.names),
            b") {\n",
        )?;
        self.append_switch_cases(text, cases)?;
        append_block(text, b"\tdefault: goto yy", self.number, last, b";\n\t}\n")?;
        Ok(())
    }

    fn append_switch_cases(&self, text: &mut Vec<u8>, cases: &[SwitchCase]) -> Result<(), Memory>
        ensures { OnOk result (text.new.items ≡ text.old.items ++ switch_cases_then self.now.number cases.now []) }
    {
        for case in cases {
            self.append_switch_case(text, case)?;
        }
        Ok(())
    }

    fn append_switch_case(&self, text: &mut Vec<u8>, case: &SwitchCase) -> Result<(), Memory>
        ensures { OnOk result (text.new.items ≡ text.old.items ++ switch_case_then self.now.number case.now []) }
    {
        append_bytes(text, b"\t")?;
        append_units(self.alloc, text, case.units.as_slice())?;
        append_block(text, b"goto yy", self.number, case.block, b";\n")?;
        Ok(())
    }

    fn append_if_accept(&self, text: &mut Vec<u8>, accept: u32, block: u64) -> Result<(), Memory>
        ensures { OnOk result (text.new.items ≡ text.old.items ++ pointer_then (scope_wording self.now) (Stmt.IfAccept accept block) []) }
    {
        append_word(text, b"\tif (", names::last_accept(self.names), b" == ")?;
        append_number(text, b"", u64::from(accept), b"")?;
        append_block(text, b") goto yy", self.number, block, b";\n")
    }

    fn append_if_end(&self, text: &mut Vec<u8>, block: u64) -> Result<(), Memory>
        ensures { OnOk result (text.new.items ≡ text.old.items ++ pointer_then (scope_wording self.now) (Stmt.IfEnd block) []) }
    {
        append_word(text, b"\tif (", names::cursor(self.names), b" >= ")?;
        append_word(text, b"", names::limit(self.names), b"")?;
        append_block(text, b") goto yy", self.number, block, b";\n")
    }

    fn append_state(&self, text: &mut Vec<u8>, state: u64) -> Result<(), Memory>
        ensures { OnOk result (text.new.items ≡ text.old.items ++ pointer_then (scope_wording self.now) (Stmt.State state) []) }
    {
        append_word(text, b"\t", names::set_state(self.names), b"(")?;
        append_number(text, b"", state, b");\n")
    }

    fn append_need(&self, text: &mut Vec<u8>, units: u32) -> Result<(), Memory>
        ensures { OnOk result (text.new.items ≡ text.old.items ++ pointer_then (scope_wording self.now) (Stmt.Need units) []) }
    {
        append_word(text, b"\tif ((", names::limit(self.names), b" - ")?;
        append_word(text, b"", names::cursor(self.names), b") < ")?;
        append_number(text, b"", u64::from(units), b") ")?;
        append_word(text, b"", names::refill(self.names), b"(")?;
        append_number(text, b"", u64::from(units), b");\n")
    }

    fn append_try(&self, text: &mut Vec<u8>, block: u64) -> Result<(), Memory>
        ensures { OnOk result (text.new.items ≡ text.old.items ++ pointer_then (scope_wording self.now) (Stmt.Try block) []) }
    {
        append_word(text, b"\tif (", names::refill(self.names), b"() == 0")?;
        append_block(text, b") goto yy", self.number, block, b";\n")
    }

    fn append_cond(&self, text: &mut Vec<u8>, cond: &[u8]) -> Result<(), Memory>
        ensures { OnOk result (text.new.items ≡ text.old.items ++ pointer_then (scope_wording self.now) (Stmt.Cond cond.now) []) }
    {
        append_word(text, b"\t", names::set_condition(self.names), b"(")?;
        append_word(text, names::condition_prefix(self.names), cond, b");\n")
    }

    fn append_jump(&self, text: &mut Vec<u8>, block: u64) -> Result<(), Memory>
        ensures { OnOk result (text.new.items ≡ text.old.items ++ pointer_then (scope_wording self.now) (Stmt.Goto block) []) }
    {
        append_block(text, b"\tgoto yy", self.number, block, b";\n")
    }

    fn append_cond_jump(&self, text: &mut Vec<u8>, cond: &[u8], rule: u32) -> Result<(), Memory>
        ensures { OnOk result (text.new.items ≡ text.old.items ++ pointer_then (scope_wording self.now) (Stmt.Jump cond.now rule) []) }
    {
        append_word(text, b"\tgoto ", names::label_prefix(self.names), cond)?;
        append_number(text, b"; /* ", u64::from(rule), b" */\n")
    }

    fn append_leave(&self, text: &mut Vec<u8>) -> Result<(), Memory>
        ensures { OnOk result (text.new.items ≡ text.old.items ++ pointer_then (scope_wording self.now) Stmt.Leave []) }
    {
        append_number(text, b"\tgoto yy", u64::from(self.number), b"_none;\n")
    }

    fn append_code(
        &self,
        text: &mut Vec<u8>,
        rule: u32,
        line: &Option<LineMark>,
        action: &[u8],
    ) -> Result<(), Memory>
        ensures { OnOk result (text.new.items ≡ text.old.items ++ pointer_then (scope_wording self.now) (Stmt.Code rule line.now action.now) []) }
    {
        append_line(text, line)?;
        append_action(text, rule, action)
    }
}

/// Appends the place of a group of eight sets in the table, where it is not the first.
fn append_group(alloc: Global, text: &mut Vec<u8>, group: u32) -> Result<(), Memory>
    requires { group < 2 ^ 29 }
    ensures { OnOk result (text.new.items ≡ text.old.items ++ group_text group) }
{
    if group == 0 {
        return Ok(());
    }
    append_bytes(text, b"0x")?;
    append_long_hexadecimal(alloc, text, 256 * u64::from(group))?;
    append_bytes(text, b" + ")
}

/// The mask of a bit.
fn mask_of(bit: u32) -> u32
    requires { bit < 8 }
    ensures { result ≡ 2 ^ bit }
{
    1 << bit
}

/// Appends units of a case.
fn append_units(alloc: Global, text: &mut Vec<u8>, units: &[u8]) -> Result<(), Memory>
    ensures { OnOk result (text.new.items ≡ text.old.items ++ units_then units.now []) }
{
    for unit in units {
        append_unit(alloc, text, *unit)?;
    }
    Ok(())
}

fn append_unit(alloc: Global, text: &mut Vec<u8>, unit: u8) -> Result<(), Memory>
    ensures { OnOk result (text.new.items ≡ text.old.items ++ joined (codes "case 0x" ∷ hexadecimal unit ∷ codes ": " ∷ []) []) }
{
    append_bytes(text, b"case 0x")?;
    append_hexadecimal(alloc, text, u32::from(unit))?;
    append_bytes(text, b": ")
}

fn append_skip(text: &mut Vec<u8>, cursor: &[u8]) -> Result<(), Memory>
    ensures { OnOk result (text.new.items ≡ text.old.items ++ joined (codes "\t++" ∷ cursor.now ∷ codes ";\n" ∷ []) []) }
{
    append_word(text, b"\t++", cursor, b";\n")
}

/// Appends the line that gives the target a number.
fn append_value(text: &mut Vec<u8>, target: &[u8], number: u32) -> Result<(), Memory>
    ensures { OnOk result (text.new.items ≡ text.old.items ++ joined (codes "\t" ∷ target.now ∷ codes " = " ∷ decimal number ∷ codes ";\n" ∷ []) []) }
{
    append_word(text, b"\t", target, b" = ")?;
    append_number(text, b"", u64::from(number), b";\n")
}

fn append_assignment(text: &mut Vec<u8>, target: &[u8], source: &[u8]) -> Result<(), Memory>
    ensures { OnOk result (text.new.items ≡ text.old.items ++ joined (codes "\t" ∷ target.now ∷ codes " = " ∷ source.now ∷ codes ";\n" ∷ []) []) }
{
    append_word(text, b"\t", target, b" = ")?;
    append_word(text, b"", source, b";\n")
}

/// Appends the line `#line L "FILE"`, where there is one. Where memory runs out a part of it may stand there.
pub fn append_line(text: &mut Vec<u8>, line: &Option<LineMark>) -> Result<(), Memory>
    ensures { OnOk result (text.new.items ≡ text.old.items ++ line_then line.now []) }
{
    match line {
        None => Ok(()),
        Some(mark) => append_file_line(text, Some(mark.line), mark.file.as_slice()),
    }
}

/// Appends the `#line` of a line of the file with this name, where there is a line.
pub fn append_file_line(text: &mut Vec<u8>, line: Option<u32>, file: &[u8]) -> Result<(), Memory>
    ensures { OnOk result (text.new.items ≡ text.old.items ++ line_then (mark_of file.now line) []) }
{
    match line {
        None => Ok(()),
        Some(line) => {
            append_number(text, b"#line ", u64::from(line), b" \"")?;
            append_escaped(text, file)?;
            append_parts(text, &[b"\"\n"])
        }
    }
}

fn append_escaped(text: &mut Vec<u8>, file: &[u8]) -> Result<(), Memory>
    ensures { OnOk result (text.new.items ≡ text.old.items ++ escaped file.now) }
{
    for letter in file {
        append_letter(text, *letter)?;
    }
    Ok(())
}

/// Appends a letter of a C string.
fn append_letter(text: &mut Vec<u8>, letter: u8) -> Result<(), Memory>
    ensures { OnOk result (text.new.items ≡ text.old.items ++ escaped (letter ∷ [])) }
{
    if letter == b'"' || letter == b'\\' {
        append_parts(text, &[&[b'\\', letter]])
    } else {
        Ok(text.push(letter)?)
    }
}

fn append_action(text: &mut Vec<u8>, rule: u32, action: &[u8]) -> Result<(), Memory>
    ensures { OnOk result (text.new.items ≡ text.old.items ++ joined (codes "\t/*!code:re2c " ∷ decimal rule ∷ codes " " ∷ decimal (length action.now) ∷ codes "*/" ∷ action.now ∷ codes "\n" ∷ []) []) }
{
    append_number(text, b"\t/*!code:re2c ", u64::from(rule), b" ")?;
    append_number(text, b"", action.len() as u64, b"*/")?;
    append_word(text, b"", action, b"\n")
}
