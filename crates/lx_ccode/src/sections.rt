//! Writes the parts of a piece that hold statements and switches.
ghost use Rattle.std.specs.Prelude.{◌≡◌, ◌++◌, [], ◌∷◌, IfOk, OnOk, Some, codes, slice_index_or, true};
ghost use Rattle.std.specs.Fmt.{decimal};
ghost use Rattle.lx_base.specs.Names.{get_state};
ghost use Rattle.lx_base.specs.Text.{joined};
ghost use Rattle.lx_ccode.specs.Text.{label_then, block_label_then, block_lines_then, code_block_then, blocks_then, line_behind, line_then, mark_of, none_label_then, declarations_then, state_case_then, state_cases_then, start_then, state_switch_then, cond_cases_then, cond_switch_then, cell_then, cells_then, row_end, row_start, table_then};
ghost use Rattle.lx_ccode.specs.Wording.{scope_wording};

use crate::kinds::ends_in_code;
use crate::lines::{Scope, append_file_line};
use crate::numerals::{append_block, append_bytes, append_hexadecimal, append_number, append_word};
use crate::piece::{CodeBlock, CondCase, StateCase};
use crate::places::line_behind;
use lx_base::{Memory, Names, Sequence, append_parts, names};
use lx_shared::SharedText;
use std::alloc::Global;

/// Appends the table of sets, where the piece has one. Where memory runs out a part of it may stand there.
pub fn append_table(alloc: Global, text: &mut Vec<u8>, table: &[u8]) -> Result<(), Memory>
    ensures { OnOk result (text.new.items ≡ text.old.items ++ table_then table.now []) }
{
    if table.is_empty() {
        return Ok(());
    }
    append_number(
        text,
        b"\tstatic const unsigned char yybm[",
        table.len() as u64,
        b"] = {\n",
    )?;
    append_cells(alloc, text, table)?;
    append_parts(text, &[b"\t};\n"])?;
    Ok(())
}

fn append_cells(alloc: Global, text: &mut Vec<u8>, table: &[u8]) -> Result<(), Memory>
    ensures { OnOk result (text.new.items ≡ text.old.items ++ cells_then 0 table.now []) }
{
    for (place, byte) in table.iter().enumerate() {
        append_cell(alloc, text, place, *byte)?;
    }
    Ok(())
}

fn append_cell(alloc: Global, text: &mut Vec<u8>, place: usize, byte: u8) -> Result<(), Memory>
    ensures { OnOk result (text.new.items ≡ text.old.items ++ cell_then place byte []) }
{
    append_bytes(text, row_start(place % 16 == 0))?;
    append_bytes(text, b"0x")?;
    append_hexadecimal(alloc, text, u32::from(byte))?;
    append_bytes(text, b",")?;
    append_bytes(text, row_end(place % 16 == 15))
}

fn row_start(is_first: bool) -> &'static [u8]
    ensures { result.now ≡ row_start is_first }
{
    if is_first { b"\t" } else { b"" }
}

fn row_end(is_last: bool) -> &'static [u8]
    ensures { result.now ≡ row_end is_last }
{
    if is_last { b"\n" } else { b"" }
}

impl Scope<'_> {
    /// Appends the declarations of the two variables, where the piece has them.
    pub fn append_declarations(&self, text: &mut Vec<u8>, declares: bool) -> Result<(), Memory>
        ensures { OnOk result (text.new.items ≡ text.old.items ++ declarations_then self.now.names.now declares []) }
    {
        if declares {
            let unit_type = names::unit_type(self.names);
            let current_unit = names::current_unit(self.names);
            append_two_variables(
                text,
                unit_type,
                current_unit,
                names::last_accept(self.names),
            )
        } else {
            Ok(())
        }
    }

    /// Appends the switch over stored states, where there is one.
    pub fn append_state_switch(
        &self,
        text: &mut Vec<u8>,
        conds: &[CondCase],
        states: &Option<Sequence<StateCase>>,
    ) -> Result<(), Memory>
        ensures { OnOk result (text.new.items ≡ text.old.items ++ state_switch_then self.now.number self.now.names.now conds.now states.now []) }
    {
        match states {
            None => Ok(()),
            Some(cases) => self.append_states(text, conds, cases.as_slice()),
        }
    }

    fn append_states(
        &self,
        text: &mut Vec<u8>,
        conds: &[CondCase],
        cases: &[StateCase],
    ) -> Result<(), Memory>
        ensures { OnOk result (text.new.items ≡ text.old.items ++ state_switch_then self.now.number self.now.names.now conds.now (Some cases.now) []) }
    {
        append_state_head(text, self.names)?;
        self.append_state_cases(text, cases)?;
        append_default(text, self.number, conds)?;
        Ok(())
    }

    fn append_state_cases(&self, text: &mut Vec<u8>, cases: &[StateCase]) -> Result<(), Memory>
        ensures { OnOk result (text.new.items ≡ text.old.items ++ state_cases_then self.now.number cases.now []) }
    {
        for case in cases {
            append_state_case(text, self.number, case)?;
        }
        Ok(())
    }

    /// Appends the switch over conditions, where there are any.
    pub fn append_cond_switch(&self, text: &mut Vec<u8>, conds: &[CondCase]) -> Result<(), Memory>
        ensures { OnOk result (text.new.items ≡ text.old.items ++ cond_switch_then self.now.number self.now.names.now conds.now []) }
    {
        if conds.is_empty() {
            return Ok(());
        }
        append_cond_head(text, self.number, names::get_condition(self.names))?;
        self.append_cond_cases(text, conds)?;
        append_parts(text, &[b"\t}\n"])?;
        Ok(())
    }

    fn append_cond_cases(&self, text: &mut Vec<u8>, cases: &[CondCase]) -> Result<(), Memory>
        ensures { OnOk result (text.new.items ≡ text.old.items ++ cond_cases_then self.now.number self.now.names.now cases.now []) }
    {
        let prefix = names::condition_prefix(self.names);
        for case in cases {
            append_cond_case(text, self.number, prefix, case)?;
        }
        Ok(())
    }

    /// Appends blocks, of which the first is block 0 and begins in this line, where lines are counted.
    pub fn append_blocks(
        &self,
        text: &mut Vec<u8>,
        line: Option<u32>,
        blocks: &[CodeBlock],
    ) -> Result<(), Memory>
        ensures { OnOk result (text.new.items ≡ text.old.items ++ blocks_then (scope_wording self.now) line 0 blocks.now []) }
    {
        let mut line = line;
        for (place, block) in blocks.iter().enumerate() {
            line = self.append_code_block(text, line, place as u64, block)?;
        }
        Ok(())
    }

    /// Appends a block that begins in this line, where lines are counted, and tells the line behind it.
    pub fn append_code_block(
        &self,
        text: &mut Vec<u8>,
        line: Option<u32>,
        place: u64,
        block: &CodeBlock,
    ) -> Result<Option<u32>, Memory>
        ensures { IfOk result (λ after. (text.new.items ≡ text.old.items ++ code_block_then (scope_wording self.now) line place block.now [])
            × (after ≡ line_behind line (code_block_then (scope_wording self.now) line place block.now []))) }
    {
        let start = text.len();
        self.append_block_lines(text, place, block)?;
        let behind = line_behind(line, &text.as_slice()[start..]);
        if ends_in_code(block.stmts.as_slice()) {
            self.append_given_back(text, behind)
        } else {
            Ok(behind)
        }
    }

    /// Appends a `#line` that stands in this line and gives the next one back to the file, where lines are
    /// counted, and tells the line behind it.
    fn append_given_back(
        &self,
        text: &mut Vec<u8>,
        line: Option<u32>,
    ) -> Result<Option<u32>, Memory>
        ensures { IfOk result (λ after. (text.new.items ≡ text.old.items ++ line_then (mark_of self.now.out.now (line_behind line (codes "\n"))) [])
            × (after ≡ line_behind line (line_then (mark_of self.now.out.now (line_behind line (codes "\n"))) []))) }
    {
        let start = text.len();
        append_file_line(text, line_behind(line, b"\n"), self.out)?;
        Ok(line_behind(line, &text.as_slice()[start..]))
    }

    /// Appends the labels of a block and its statements.
    fn append_block_lines(
        &self,
        text: &mut Vec<u8>,
        place: u64,
        block: &CodeBlock,
    ) -> Result<(), Memory>
        ensures { OnOk result (text.new.items ≡ text.old.items ++ block_lines_then (scope_wording self.now) place block.now []) }
    {
        self.append_cond_label(text, &block.cond)?;
        self.append_label(text, place)?;
        self.append_statements(text, block.stmts.as_slice())?;
        Ok(())
    }

    /// Appends a condition's label, where a block is its start.
    pub fn append_cond_label(
        &self,
        text: &mut Vec<u8>,
        cond: &Option<SharedText>,
    ) -> Result<(), Memory>
        ensures { OnOk result (text.new.items ≡ text.old.items ++ label_then self.now.names.now cond.now []) }
    {
        match cond {
            None => Ok(()),
            Some(cond) => {
                append_word(
                    text,
                    names::label_prefix(self.names),
                    cond.as_slice(),
                    b":\n",
                )
            }
        }
    }

    /// Appends the label of a block, where it stands.
    fn append_label(&self, text: &mut Vec<u8>, place: u64) -> Result<(), Memory>
        ensures { OnOk result (text.new.items ≡ text.old.items ++ block_label_then (slice_index_or self.now.labels.now place true) self.now.number place []) }
    {
        let stands = match self.labels.get(place as usize) {
            None => true,
            Some(stands) => *stands,
        };
        if stands {
            append_block(text, b"yy", self.number, place, b":\n")
        } else {
            Ok(())
        }
    }

    /// Appends the label behind the blocks, where it stands.
    pub fn append_none(&self, text: &mut Vec<u8>, stands: bool) -> Result<(), Memory>
        ensures { OnOk result (text.new.items ≡ text.old.items ++ none_label_then stands self.now.number []) }
    {
        if stands {
            append_number(text, b"yy", u64::from(self.number), b"_none:;\n")
        } else {
            Ok(())
        }
    }
}

/// Appends the head of a switch over states. Where memory runs out a part of it may stand there.
pub fn append_state_head(text: &mut Vec<u8>, names: &Names) -> Result<(), Memory>
    ensures { OnOk result (text.new.items ≡ text.old.items ++ joined (codes "\tswitch (" ∷ get_state names.now ∷ codes "()) {\n" ∷ []) []) }
{
    append_word(text, b"\tswitch (", names::get_state(names), b"()) {\n")
}

/// Appends a case of a switch over states, which goes to a block of the piece with this number. Where memory
/// runs out a part of it may stand there.
pub fn append_state_case(text: &mut Vec<u8>, number: u32, case: &StateCase) -> Result<(), Memory>
    ensures { OnOk result (text.new.items ≡ text.old.items ++ state_case_then number case.now []) }
{
    append_number(text, b"\tcase ", case.state, b"")?;
    append_block(text, b": goto yy", number, case.block, b";\n")
}

/// Appends the end of a switch over states. Without a stored state it goes to the start of the piece with
/// this number and these conditions. Where memory runs out a part of it may stand there.
pub fn append_default(text: &mut Vec<u8>, number: u32, conds: &[CondCase]) -> Result<(), Memory>
    ensures { OnOk result (text.new.items ≡ text.old.items ++ joined (codes "\tdefault: goto " ∷ []) (start_then number conds.now (joined (codes ";\n\t}\n" ∷ []) []))) }
{
    append_parts(text, &[b"\tdefault: goto "])?;
    append_start(text, number, conds)?;
    Ok(())
}

fn append_start(text: &mut Vec<u8>, number: u32, conds: &[CondCase]) -> Result<(), Memory>
    ensures { OnOk result (text.new.items ≡ text.old.items ++ start_then number conds.now (joined (codes ";\n\t}\n" ∷ []) [])) }
{
    if conds.is_empty() {
        append_block(text, b"yy", number, 0, b";\n\t}\n")
    } else {
        append_number(text, b"yy", u64::from(number), b"_cond;\n\t}\n")
    }
}

fn append_cond_case(
    text: &mut Vec<u8>,
    number: u32,
    prefix: &[u8],
    case: &CondCase,
) -> Result<(), Memory>
    ensures { OnOk result (text.new.items ≡ text.old.items
        ++ joined (codes "\tcase " ∷ (prefix.now ++ case.now.cond) ∷ codes ": goto yy" ∷ decimal number ∷ codes "_" ∷ decimal case.now.block ∷ codes ";\n" ∷ []) []) }
{
    append_word(text, b"\tcase ", prefix, case.cond.as_slice())?;
    append_block(text, b": goto yy", number, case.block, b";\n")
}

fn append_two_variables(
    text: &mut Vec<u8>,
    unit_type: &[u8],
    current_unit: &[u8],
    last_accept: &[u8],
) -> Result<(), Memory>
    ensures { OnOk result (text.new.items ≡ text.old.items ++ joined (codes "\t" ∷ unit_type.now ∷ codes " " ∷ current_unit.now ∷ codes ";\n\tunsigned int " ∷ last_accept.now ∷ codes " = 0;\n" ∷ []) []) }
{
    append_word(text, b"\t", unit_type, b" ")?;
    append_word(text, b"", current_unit, b";\n\tunsigned int ")?;
    append_word(text, b"", last_accept, b" = 0;\n")
}

fn append_cond_head(text: &mut Vec<u8>, number: u32, get_condition: &[u8]) -> Result<(), Memory>
    ensures { OnOk result (text.new.items ≡ text.old.items ++ joined (codes "yy" ∷ decimal number ∷ codes "_cond:\n\tswitch (" ∷ get_condition.now ∷ codes "()) {\n" ∷ []) []) }
{
    append_number(text, b"yy", u64::from(number), b"_cond:\n\tswitch (")?;
    append_word(text, b"", get_condition, b"()) {\n")
}
