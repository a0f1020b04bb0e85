//! The files of the system, and sinks over its writers.
//!
//! They tell neither what is held nor what was given: no contract can say what a system keeps.
ghost use Rattle.std.specs.Prelude.{◌≡◌, ◌<◌, ◌≤◌, None, IfOk, IfErr, IfSome, length};
ghost use Rattle.lx_files.specs.declared.real.Unread.TheVariants.{TooLong};

use crate::counts::one_more;
use crate::files::{Files, ReadAnswer, WriteAnswer};
use crate::sinks::{PutAnswer, Sink};
use std::alloc::Global;
use std::io::{Read, Write};
use std::{fs, io, rt};

/// The length in bytes past which a file is not read: this counts as a fault.
const LONGEST_FILE: usize = 268_435_456;

/// The files of the system, by their paths.
#[derive(Drop)]
pub struct RealFiles<'r, R> {
    system: &'r R,
    faults: u64,
    write_faults: u64,
}

impl<'r, R: rt::Files> RealFiles<'r, R> {
    /// The files of this system, with no fault so far.
    pub fn new(system: &'r R) -> RealFiles<'r, R> {
        RealFiles {
            system,
            faults: 0,
            write_faults: 0,
        }
    }
}

impl<'r, R: rt::Files> Files for RealFiles<'r, R> {
    ghost held = { λ _. None };

    ghost faults = { λ files. files.faults };

    ghost write_faults = { λ files. files.write_faults };

    /// An absent file counts as a fault too.
    fn read(&mut self, alloc: Global, name: &str) -> Result<Vec<u8>, ReadAnswer> {
        match read_file(self.system, alloc, name) {
            Ok(bytes) => Ok(bytes),
            Err(answer) => {
                self.faults = one_more(self.faults);
                Err(answer)
            }
        }
    }

    fn write(&mut self, name: &str, bytes: &[u8]) -> Result<(), WriteAnswer> {
        match write_file(self.system, name, bytes) {
            Ok(()) => Ok(()),
            Err(_) => {
                self.write_faults = one_more(self.write_faults);
                Err(WriteAnswer::Failed)
            }
        }
    }
}

fn read_file<R: rt::Files>(system: &R, alloc: Global, name: &str) -> Result<Vec<u8>, ReadAnswer> {
    match fs::open(system, name) {
        Ok(mut file) => read_to_end(alloc, &mut file, told_length(system, name)).map_err(answer_to),
        Err(error) => Err(answer_of(&error)),
    }
}

/// The length in bytes that the system tells of a file; 0 where it tells none, or one past which a file is not read.
fn told_length<R: rt::Files>(system: &R, name: &str) -> usize {
    match fs::metadata(system, name) {
        Ok(told) if told.len() <= LONGEST_FILE as u64 => told.len() as usize,
        _ => 0,
    }
}

fn answer_to(why: Unread) -> ReadAnswer {
    match why {
        Unread::TooLong => ReadAnswer::Failed,
        Unread::Refused(answer) => answer,
    }
}

fn answer_of(error: &io::Error) -> ReadAnswer {
    match error.kind() {
        io::ErrorKind::NotFound => ReadAnswer::Missing,
        io::ErrorKind::OutOfMemory => ReadAnswer::Memory,
        _ => ReadAnswer::Failed,
    }
}

/// How many bytes may be put behind those of a file before they are copied.
const SPARE_ROOM: usize = 4096;

/// Why the bytes of a file are not given.
#[derive(Clone, Copy, Debug, PartialEq, Eq)]
pub enum Unread {
    /// It has more than 268,435,456 bytes.
    TooLong,
    /// A read was refused: `Missing` where it says that there is no file, and `Memory` where memory is wanting, or else `Failed`.
    Refused(ReadAnswer),
}

/// All bytes of a file from here on, of which there may be 268,435,456.
///
/// Room for `expected` bytes is taken first, and for some that a caller may put behind them, so that a file of that length is not copied
/// while it is read.
///
/// It refuses with `TooLong` where the file has more, and where a read is refused or memory is wanting.
pub fn read_to_end<F: Read>(alloc: Global, file: &mut F, expected: usize) -> Result<Vec<u8>, Unread>
    ensures few { IfOk result (λ bytes. length bytes.items ≤ 268435456) }
    ensures all { IfOk result (λ bytes. IfSome (F.remaining file.old) (λ rest. bytes.items ≡ rest)) }
    ensures longer { IfErr result (λ why. why ≡ TooLong → IfSome (F.remaining file.old) (λ rest. 268435456 < length rest)) }
{
    let Ok(mut bytes) = Vec::with_capacity(alloc, expected.min(LONGEST_FILE) + SPARE_ROOM) else {
        return Err(Unread::Refused(ReadAnswer::Memory));
    };
    let mut front = file.take(LONGEST_FILE as u64 + 1);
    match front.read_to_end(&mut bytes) {
        Ok(count) if count <= LONGEST_FILE => Ok(bytes),
        Ok(_) => Err(Unread::TooLong),
        Err(error) => Err(Unread::Refused(answer_of(&error))),
    }
}

fn write_file<R: rt::Files>(system: &R, name: &str, bytes: &[u8]) -> io::Result<()> {
    let mut file = fs::create(system, name)?;
    file.write_all(bytes)?;
    file.flush()
}

/// How often a write that was interrupted is tried again.
const TRIES: u32 = 1024;

/// A writer as a sink. Each put is flushed, and a failed flush counts as a fault.
#[derive(Drop)]
pub struct RealSink<W> {
    to: W,
    faults: u64,
}

impl<W: Write> RealSink<W> {
    /// The sink over this writer, with no fault so far.
    pub fn new(to: W) -> RealSink<W> {
        RealSink { to, faults: 0 }
    }
}

impl<W: Write> Sink for RealSink<W> {
    ghost given = { λ _. None };

    ghost faults = { λ sink. sink.faults };

    ghost wants = { λ _. 0 };

    fn put(&mut self, bytes: &[u8]) -> Result<usize, PutAnswer> {
        match write_some(&mut self.to, bytes) {
            Some(count) => Ok(count),
            None => {
                self.faults = one_more(self.faults);
                Err(PutAnswer::Failed)
            }
        }
    }
}

/// Writes a front of the bytes and flushes it, and answers its length; `None` where that failed, or where
/// nothing of some bytes was taken.
fn write_some<W: Write>(to: &mut W, bytes: &[u8]) -> Option<usize>
    ensures within { IfSome result (λ count. count ≤ length bytes.now) }
    ensures progress { IfSome result (λ count. 0 < length bytes.now → 0 < count) }
{
    for _ in 0..TRIES {
        match to.write(bytes) {
            Ok(count) => {
                if count == 0 && !bytes.is_empty() {
                    return None;
                }
                return to.flush().ok().map(|()| count);
            }
            Err(error) => {
                if error.kind() != io::ErrorKind::Interrupted {
                    return None;
                }
            }
        }
    }
    None
}
