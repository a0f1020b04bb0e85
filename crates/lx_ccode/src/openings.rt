//! Writes what stands before the blocks of a piece of format 3.
ghost use Rattle.std.specs.Prelude.{◌≡◌, ◌++◌, [], ◌∷◌, OnOk, codes};
ghost use Rattle.std.specs.Fmt.{decimal};
ghost use Rattle.lx_base.specs.Names.{get_condition};
ghost use Rattle.lx_base.specs.Text.{joined};
ghost use Rattle.lx_ccode.specs.Text.{accept_line_then, cond_label_then, declares_accept, declares_unit, has_cond_label, has_none_label, label_case_then, label_cases_then, label_switch_then, unit_line_then, unit_word};

use crate::heads::is_three;
use crate::kinds::{have_accept, have_leave, have_unit};
use crate::numerals::{append_number, append_word};
use crate::piece::{CondCase, Piece};
use lx_base::{Memory, Names, append_parts, names};

/// The piece declares the current unit, in format 3.
pub(crate) fn declares_unit(piece: &Piece) -> bool
    ensures { result ≡ declares_unit piece.now }
{
    if piece.declares {
        have_unit(piece.blocks.as_slice())
    } else {
        false
    }
}

/// The piece declares the last accepting state, in format 3.
pub(crate) fn declares_accept(piece: &Piece) -> bool
    ensures { result ≡ declares_accept piece.now }
{
    if piece.declares {
        have_accept(piece.blocks.as_slice())
    } else {
        false
    }
}

/// The switch over conditions has a label, in format 3.
pub(crate) fn has_cond_label(piece: &Piece) -> bool
    ensures { result ≡ has_cond_label piece.now }
{
    if piece.conds.as_slice().is_empty() {
        false
    } else {
        !piece.declares || piece.states.is_some()
    }
}

/// The label behind the blocks stands.
pub(crate) fn has_none_label(piece: &Piece) -> bool
    ensures { result ≡ has_none_label piece.now }
{
    if is_three(&piece.head) {
        have_leave(piece.blocks.as_slice())
    } else {
        true
    }
}

/// The type of a code unit of so many bytes.
fn unit_word(unit: u32) -> &'static [u8]
    ensures { result.now ≡ unit_word unit }
{
    if unit == 1 {
        b"char"
    } else if unit == 2 {
        b"short"
    } else {
        b"int"
    }
}

/// Appends the declaration of the current unit, where it stands. Where memory runs out a part of it may
/// stand there.
pub(crate) fn append_unit_line(
    text: &mut Vec<u8>,
    stands: bool,
    names: &Names,
    unit: u32,
) -> Result<(), Memory>
    ensures { OnOk result (text.new.items ≡ text.old.items ++ unit_line_then stands names.now unit []) }
{
    if stands {
        append_word(text, b"\tunsigned ", unit_word(unit), b" ")?;
        append_word(text, b"", names::current_unit(names), b";\n")
    } else {
        Ok(())
    }
}

/// Appends the declaration of the last accepting state, where it stands. Where memory runs out a part of it
/// may stand there.
pub(crate) fn append_accept_line(
    text: &mut Vec<u8>,
    stands: bool,
    names: &Names,
) -> Result<(), Memory>
    ensures { OnOk result (text.new.items ≡ text.old.items ++ accept_line_then stands names.now []) }
{
    if stands {
        append_word(
            text,
            b"\tunsigned int ",
            names::last_accept(names),
            b" = 0;\n",
        )
    } else {
        Ok(())
    }
}

/// Appends the label of the switch over conditions, where it stands. Where memory runs out a part of it may
/// stand there.
pub(crate) fn append_cond_label(text: &mut Vec<u8>, stands: bool, number: u32) -> Result<(), Memory>
    ensures { OnOk result (text.new.items ≡ text.old.items ++ cond_label_then stands number []) }
{
    if stands {
        append_number(text, b"yy", u64::from(number), b"_cond:\n")
    } else {
        Ok(())
    }
}

/// Appends the switch over conditions, which goes to their labels, where there are any. Where memory runs
/// out a part of it may stand there.
pub(crate) fn append_label_switch(
    text: &mut Vec<u8>,
    names: &Names,
    conds: &[CondCase],
) -> Result<(), Memory>
    ensures { OnOk result (text.new.items ≡ text.old.items ++ label_switch_then names.now conds.now []) }
{
    if conds.is_empty() {
        return Ok(());
    }
    append_switch_head(text, names::get_condition(names))?;
    append_label_cases(text, names, conds)?;
    append_parts(text, &[b"\t}\n"])?;
    Ok(())
}

fn append_switch_head(text: &mut Vec<u8>, get_condition: &[u8]) -> Result<(), Memory>
    ensures { OnOk result (text.new.items ≡ text.old.items ++ joined (codes "\tswitch (" ∷ get_condition.now ∷ codes "()) {\n" ∷ []) []) }
{
    append_word(text, b"\tswitch (", get_condition, b"()) {\n")
}

fn append_label_cases(text: &mut Vec<u8>, names: &Names, cases: &[CondCase]) -> Result<(), Memory>
    ensures { OnOk result (text.new.items ≡ text.old.items ++ label_cases_then names.now cases.now []) }
{
    for case in cases {
        append_label_case(text, names, case)?;
    }
    Ok(())
}

fn append_label_case(text: &mut Vec<u8>, names: &Names, case: &CondCase) -> Result<(), Memory>
    ensures { OnOk result (text.new.items ≡ text.old.items ++ label_case_then names.now case.now []) }
{
    let cond = case.cond.as_slice();
    append_word(text, b"\tcase ", names::condition_prefix(names), cond)?;
    append_word(text, b": goto ", names::label_prefix(names), cond)?;
    append_parts(text, &[b";\n"])
}
