//! Reads what stands before the blocks of a piece of format 3.
ghost use Rattle.std.specs.Prelude.{◌≡◌, IfOk};
ghost use Rattle.lx_ccode.specs.Reading.{behind_accept_line, behind_cond_label, behind_label_cases, behind_label_switch, behind_unit_line, is_state_switch, old_sections_at, sections_at, sections_of, states_at, switch_lines};
ghost use Rattle.lx_creader.specs.BlockParts.{AreSections};
ghost use Rattle.lx_creader.specs.Fitted.{fitted_states};

use crate::lines::Scope;
use crate::sections::{declarations_at, is_tab, state_switch_at};
use crate::words::{after_identifier, after_spelling, after_type, byte_at, skip};
use lx_base::letters::is_digit;
use lx_base::{Memory, Sequence};
use lx_ccode::{CondCase, StateCase};
use std::alloc::Global;

/// What stands before the blocks.
#[derive(Drop)]
pub(crate) struct Sections<'a> {
    /// Whether the piece declares the variables.
    pub declares: bool,
    /// The switch over stored states.
    pub states: Option<Sequence<StateCase>>,
    /// The cases of the switch over conditions; in format 3 they are read from the labels, and this is empty.
    pub conds: Sequence<CondCase>,
    /// What comes behind the switches.
    pub rest: &'a [u8],
}

/// What comes behind the declaration of the current unit, where it stands.
#[tactic(auto, unfolding(lx_ccode::specs::Reading::behind_unit_line))]
fn behind_unit_line(bytes: &[u8]) -> &[u8]
    ensures { result.now ≡ behind_unit_line bytes.now }
{
    let rest = after_type(skip(bytes, 1));
    if is_tab(bytes) && byte_at(rest, 0) == b';' {
        skip(rest, 2)
    } else {
        bytes
    }
}

/// What comes behind the declaration of the last accepting state, where it stands.
#[tactic(auto, unfolding(lx_ccode::specs::Reading::behind_accept_line))]
fn behind_accept_line(bytes: &[u8]) -> &[u8]
    ensures { result.now ≡ behind_accept_line bytes.now }
{
    let rest = after_type(skip(bytes, 1));
    if is_tab(bytes) && byte_at(rest, 0) == b'=' {
        skip(rest, 5)
    } else {
        bytes
    }
}

/// The cases of the switch at these bytes.
fn switch_lines(bytes: &[u8]) -> &[u8]
    ensures { result.now ≡ switch_lines bytes.now }
{
    skip(after_spelling(skip(bytes, 9)), 3)
}

/// Whether a switch at these bytes is over stored states.
#[tactic(auto, unfolding(lx_ccode::specs::Reading::is_state_switch))]
fn is_state_switch(bytes: &[u8]) -> bool
    ensures { result ≡ is_state_switch bytes.now }
{
    let lines = switch_lines(bytes);
    byte_at(lines, 1) == b'd' || is_digit(byte_at(lines, 6))
}

/// The switch over stored states, where it stands, and what comes behind it.
#[tactic(auto, unfolding(lx_ccode::specs::Reading::states_at))]
fn states_at(
    alloc: Global,
    fuel: usize,
    bytes: &[u8],
) -> Result<(Option<Sequence<StateCase>>, &[u8]), Memory>
    ensures { IfOk result (λ states. (states.0 ≡ fitted_states (states_at fuel bytes.now).0) × (states.1.now ≡ (states_at fuel bytes.now).1)) }
{
    if is_tab(bytes) && is_state_switch(bytes) {
        state_switch_at(alloc, fuel, bytes)
    } else {
        Ok((None, bytes))
    }
}

/// What comes behind the cases of the switch over conditions, at most as many as the fuel.
#[tactic(auto, unfolding(lx_ccode::specs::Reading::behind_label_cases))]
fn behind_label_cases(fuel: usize, bytes: &[u8]) -> &[u8]
    ensures { result.now ≡ behind_label_cases fuel bytes.now }
{
    let mut left = fuel;
    let mut bytes = bytes;
    while left > 0 && byte_at(bytes, 1) == b'c' {
        left -= 1;
        let label = skip(after_identifier(skip(bytes, 6)), 7);
        bytes = skip(after_identifier(label), 2);
    }
    bytes
}

/// What comes behind the label of the switch over conditions, where it stands.
#[tactic(auto, unfolding(lx_ccode::specs::Reading::behind_cond_label))]
fn behind_cond_label(bytes: &[u8]) -> &[u8]
    ensures { result.now ≡ behind_cond_label bytes.now }
{
    if byte_at(bytes, 0) == b'\t' || byte_at(bytes, 0) == b'\n' {
        bytes
    } else {
        skip(after_identifier(bytes), 2)
    }
}

/// What comes behind the switch over conditions, where it stands.
#[tactic(auto, unfolding(lx_ccode::specs::Reading::behind_label_switch))]
fn behind_label_switch(fuel: usize, bytes: &[u8]) -> &[u8]
    ensures { result.now ≡ behind_label_switch fuel bytes.now }
{
    if is_tab(bytes) {
        skip(behind_label_cases(fuel, switch_lines(bytes)), 3)
    } else {
        bytes
    }
}

/// What stands before the blocks in format 3.
#[tactic(auto, unfolding(lx_ccode::specs::Reading::sections_at))]
fn sections_at(alloc: Global, fuel: usize, kept: bool, bytes: &[u8]) -> Result<Sections<'_>, Memory>
    ensures { IfOk result (λ read. AreSections (sections_at fuel kept bytes.now) read) }
{
    let (states, rest) = states_at(alloc, fuel, behind_accept_line(behind_unit_line(bytes)))?;
    Ok(Sections {
        declares: !kept,
        states,
        conds: Sequence::new(alloc),
        rest: skip(behind_label_switch(fuel, behind_cond_label(rest)), 1),
    })
}

impl Scope<'_> {
    /// What stands before the blocks in formats before 3.
    #[tactic(auto, unfolding(lx_ccode::specs::Reading::old_sections_at))]
    fn old_sections_at<'b>(&self, fuel: usize, bytes: &'b [u8]) -> Result<Sections<'b>, Memory>
        ensures { IfOk result (λ read. AreSections (old_sections_at fuel self.now.names.now bytes.now) read) }
    {
        let (declares, rest) = declarations_at(bytes);
        let (states, rest) = state_switch_at(self.alloc, fuel, rest)?;
        let (conds, rest) = self.cond_switch_at(fuel, rest)?;
        Ok(Sections {
            declares,
            states,
            conds,
            rest,
        })
    }

    /// What stands before the blocks, where the head of format 3 may say that the user declares the variables.
    pub(crate) fn sections_of<'b>(
        &self,
        fuel: usize,
        kept: bool,
        bytes: &'b [u8],
    ) -> Result<Sections<'b>, Memory>
        ensures { IfOk result (λ read. AreSections (sections_of self.now.three fuel kept self.now.names.now bytes.now) read) }
    {
        if self.three {
            sections_at(self.alloc, fuel, kept, bytes)
        } else {
            self.old_sections_at(fuel, bytes)
        }
    }
}
