//! A run of a scanner over an input.
ghost use Rattle.std.specs.Prelude.{◌≡◌, ◌≤◌, ◌<◌, ◌*◌, ◌%◌, length, if◌then◌else◌, IfOk, OnErr};
ghost use Rattle.lx_ccode.specs.Validity.{IsValid};
ghost use Rattle.lx_run.specs.Ends.{EndsAs};
ghost use Rattle.lx_run.specs.Texts.{run_text};

use crate::ends::RunEnd;
use crate::streams::{ending_of, padded_length, zeros};
use crate::windows::run_window;
use lx_base::Memory;
use lx_ccode::Piece;
use lx_files::Sink;
use lx_step::Lexer;
use lx_window::{MemRefill, Window};
use std::alloc::Global;

/// The most units that a stream may have.
const MOST_UNITS: u64 = 0x4000_0000_0000_0000;

/// Runs a scanner over an input whose units have the bytes that the piece says, the least byte first, and gives the sink a line for each
/// match, as soon as it is made, and one for the end of the run.
///
/// The window has so many units, and a refill brings at most `step` of them; a scanner that asks for no units has the whole input in its
/// window. The input is not copied, and the padding behind it is not held in memory. `Memory` is answered too where the two have more than
/// 2^62 units.
pub fn run_over<O: Sink>(
    alloc: Global,
    piece: &Piece,
    input: Vec<u8>,
    window: u32,
    step: u32,
    out: &mut O,
) -> RunEnd
    requires valid { IsValid piece.now }
    requires whole { length input.items % piece.now.unit ≡ 0 }
    requires window { 0 < window }
    requires step { 0 < step }
    ensures ends { EndsAs (run_text piece.now input.items window step) (O.given out.old) (O.given out.new) (O.faults out.old) (O.faults out.new) result }
    ensures never_falls { O.faults out.old ≤ O.faults out.new }
{
    match run_in(alloc, piece, input, window, step, out) {
        Ok(end) => end,
        Err(Memory) => RunEnd::Memory,
    }
}

/// How many bytes a window has that holds the whole stream, or so many units of it.
fn buffer_size(holds_all: bool, stream: u64, window: u32, unit: u32) -> u64
    ensures { result ≡ (if holds_all then stream else window * unit) }
{
    if holds_all {
        stream
    } else {
        u64::from(window) * u64::from(unit)
    }
}

/// Runs a scanner over an input in a window that is made for it. Where memory for it is not found, nothing is put.
fn run_in<O: Sink>(
    alloc: Global,
    piece: &Piece,
    input: Vec<u8>,
    window: u32,
    step: u32,
    out: &mut O,
) -> Result<RunEnd, Memory>
    requires valid { IsValid piece.now }
    requires whole { length input.items % piece.now.unit ≡ 0 }
    requires window { 0 < window }
    requires step { 0 < step }
    ensures ends { IfOk result (EndsAs (run_text piece.now input.items window step) (O.given out.old) (O.given out.new) (O.faults out.old) (O.faults out.new)) }
    ensures still { OnErr result ((O.given out.new ≡ O.given out.old) × (O.faults out.new ≡ O.faults out.old)) }
    ensures never_falls { O.faults out.old ≤ O.faults out.new }
{
    let ending = ending_of(piece);
    let unit = u64::from(piece.unit);
    let units = input.len() as u64 / unit;
    let stream = padded_length(input.len() as u64, ending.padding, piece.unit)?;
    if stream / unit > MOST_UNITS {
        return Err(Memory);
    }
    let size = buffer_size(ending.holds_all, stream, window, piece.unit);
    let mut buffer = zeros(alloc, size)?;
    let lexer = Lexer::load(alloc, piece)?;
    let mut over = Window::over(&mut buffer, piece.unit, 0);
    let mut source = MemRefill::padded(&input, ending.padding, piece.unit, step, ending.states);
    Ok(run_window(piece, lexer, &mut over, &mut source, units, out))
}
