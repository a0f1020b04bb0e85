//! The stream that a scanner is run over.
ghost use Rattle.std.specs.Prelude.{◌≡◌, ◌+◌, ◌*◌, IfOk, replicate};
ghost use Rattle.std.specs.List.{list_any};
ghost use Rattle.lx_ccode.specs.Statements.{all_statements, is_state};
ghost use Rattle.lx_run.specs.Streams as spec;

use crate::asks::asks_of;
use lx_base::Memory;
use lx_ccode::{Head, Mode, Piece};
use std::alloc::Global;

/// How the end of an input is dealt with.
#[derive(Clone, Copy)]
pub struct Ending {
    /// How many units 0 stand behind the input.
    pub padding: u32,
    /// Whether a run ends before a match that would start behind the input.
    pub stops: bool,
    /// Whether the whole stream stands in the buffer.
    pub holds_all: bool,
    /// Whether the piece stores states.
    pub states: bool,
}

/// How a piece without a head finds the end of its input, by what it has.
fn guessed_mode(needs: bool, tries: bool, has_eof: bool) -> Mode
    ensures { result ≡ spec.guessed_mode needs tries has_eof }
{
    match (needs, tries, has_eof) {
        (true, _, _) => Mode::Count,
        (false, true, _) => Mode::Eof,
        (false, false, true) => Mode::EofFixed,
        (false, false, false) => Mode::Plain,
    }
}

/// The mode that a head tells, or else the other one.
fn mode_by(head: &Option<Head>, mode: Mode) -> Mode
    ensures { result ≡ spec.mode_by head.now mode }
{
    match head {
        None => mode,
        Some(head) => head.mode,
    }
}

fn padding_in(mode: Mode, most: u32) -> u32
    ensures { result ≡ spec.padding_in mode most }
{
    match mode {
        Mode::Plain => 1,
        Mode::Count => most,
        Mode::EofFixed | Mode::Eof => 0,
    }
}

fn stops_in(mode: Mode) -> bool
    ensures { result ≡ spec.stops_in mode }
{
    match mode {
        Mode::Plain | Mode::Count => true,
        Mode::EofFixed | Mode::Eof => false,
    }
}

fn holds_all_in(mode: Mode) -> bool
    ensures { result ≡ spec.holds_all_in mode }
{
    match mode {
        Mode::Plain | Mode::EofFixed => true,
        Mode::Count | Mode::Eof => false,
    }
}

/// How a piece deals with the end of its input.
pub fn ending_of(piece: &Piece) -> Ending
    ensures padding { result.padding ≡ spec.padding piece.now }
    ensures stops { result.stops ≡ spec.stops_at_end piece.now }
    ensures holds_all { result.holds_all ≡ spec.holds_all piece.now }
    ensures states { result.states ≡ list_any is_state (all_statements piece.now.blocks) }
{
    let asks = asks_of(piece.blocks.as_slice());
    let guessed = guessed_mode(asks.need, asks.tries, piece.eof.is_some());
    let mode = mode_by(&piece.head, guessed);
    Ending {
        padding: padding_in(mode, asks.most),
        stops: stops_in(mode),
        holds_all: holds_all_in(mode),
        states: asks.states,
    }
}

/// Where an input ends.
#[derive(Clone, Copy)]
pub struct InputEnd {
    /// How many units it has.
    pub units: u64,
    /// Whether a run ends before a match that would start there.
    pub stops: bool,
}

/// How many bytes an input of so many has with the padding behind it. `Memory` is answered where no number has that many.
pub fn padded_length(bytes: u64, padding: u32, unit: u32) -> Result<u64, Memory>
    ensures { IfOk result (λ length. length ≡ bytes + padding * unit) }
{
    bytes
        .checked_add(u64::from(padding) * u64::from(unit))
        .ok_or(Memory)
}

/// So many bytes 0.
pub fn zeros(alloc: Global, count: u64) -> Result<Vec<u8>, Memory>
    ensures { IfOk result (λ zeros. zeros.items ≡ replicate count 0) }
{
    Ok(vec![in alloc; 0; count as usize]?)
}
