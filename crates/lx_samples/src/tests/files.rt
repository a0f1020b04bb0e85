//! What no clause says: what happens over real files and broken devices, and that files which never fail succeed. Files and sinks of
//! which chosen calls fail are tried by `crates/cases`.
use lx_files::real::read_to_end;
use lx_files::{
    Files, PutAnswer, QuietFiles, QuietSink, ReadAnswer, RealFiles, RealSink, Sink, WriteAnswer,
};
use std::alloc::Global;
use std::io::{Read, Write};
use std::test::Fail;
use std::{env, fs, io, process};

/// Whether a file holds these bytes.
fn holds<F: Files>(files: &mut F, alloc: Global, name: &str, want: &[u8]) -> bool {
    match files.read(alloc, name) {
        Ok(bytes) => bytes.as_slice() == want,
        Err(_) => false,
    }
}

/// Why there are no bytes of a file.
fn refusal<F: Files>(files: &mut F, alloc: Global, name: &str) -> Option<ReadAnswer> {
    files.read(alloc, name).err()
}

#[test]
fn files_and_sinks_that_never_fail(rt: HostRuntime) -> Result<(), Fail> {
    let mut files = QuietFiles::new(rt.alloc());
    files.add("a.re", b"old")?;
    files.write("a.re", b"new")?;
    assert!(rt; holds(&mut files, rt.alloc(), "a.re", b"new"));
    let missing = refusal(&mut files, rt.alloc(), "b.re");
    assert!(rt; missing == Some(ReadAnswer::Missing));
    let mut sink = QuietSink::new(rt.alloc());
    let count = sink.put(b"ab")?;
    assert!(rt; count == 2 && sink.bytes() == b"ab".as_slice());
    Ok(())
}

/// Whether a file of the system that is not there can be written and read.
fn is_kept(rt: &HostRuntime, name: &str) -> Result<bool, Fail> {
    let mut files = RealFiles::new(rt);
    if refusal(&mut files, rt.alloc(), name) != Some(ReadAnswer::Missing) {
        return Ok(false);
    }
    files.write(name, b"int x;\n")?;
    Ok(holds(&mut files, rt.alloc(), name, b"int x;\n"))
}

/// Whether a file of the system can be put to as a sink; it is removed then.
fn is_put(rt: &HostRuntime, name: &str) -> Result<bool, Fail> {
    let mut sink = RealSink::new(fs::create(rt, name)?);
    let count = sink.put(b"int y;\n")?;
    let mut files = RealFiles::new(rt);
    let is_held = holds(&mut files, rt.alloc(), name, b"int y;\n");
    fs::remove_file(rt, name)?;
    Ok(count == 7 && is_held)
}

/// Whether a folder can be neither read nor written.
fn is_refused(rt: &HostRuntime, folder: &str) -> bool {
    let mut files = RealFiles::new(rt);
    refusal(&mut files, rt.alloc(), folder) == Some(ReadAnswer::Failed)
        && files.write(folder, b"x").err() == Some(WriteAnswer::Failed)
}

#[test]
fn real_files_are_written_and_read(rt: HostRuntime) -> Result<(), Fail> {
    let folder = env::temp_dir(&rt)?;
    let folder = folder
        .as_path()
        .to_str()
        .ok_or("a folder whose name is text")?;
    let name = format!(in rt.alloc(); "{folder}/lx_files_{}", process::id(rt.process()))?;
    assert!(rt; is_refused(&rt, folder));
    assert!(rt; is_kept(&rt, name.as_str())?);
    assert!(rt; is_put(&rt, name.as_str())?);
    Ok(())
}

/// A writer that takes `room` bytes in all, and whose flush may fail.
#[derive(Drop)]
struct Device {
    room: usize,
    flushes: bool,
}

impl Write for Device {
    fn write(&mut self, buf: &[u8]) -> io::Result<usize> {
        let count = buf.len().min(self.room);
        self.room -= count;
        Ok(count)
    }

    fn flush(&mut self) -> io::Result<()> {
        if self.flushes {
            Ok(())
        } else {
            Err(io::Error::from(io::ErrorKind::StorageFull))
        }
    }
}

#[test]
fn a_full_device_and_a_failed_flush_are_faults(rt: HostRuntime) -> Result<(), Fail> {
    let mut sink = RealSink::new(Device {
        room: 3,
        flushes: true,
    });
    let count = sink.put(b"abcd")?;
    assert!(rt; count == 3 && sink.put(b"d").err() == Some(PutAnswer::Failed));
    let mut sink = RealSink::new(Device {
        room: 3,
        flushes: false,
    });
    assert!(rt; sink.put(b"a").err() == Some(PutAnswer::Failed));
    Ok(())
}

/// A reader that is interrupted once, and then gives `left` bytes.
#[derive(Drop)]
struct Tape {
    interrupted: bool,
    left: usize,
}

impl Read for Tape {
    fn read(&mut self, buf: &mut [u8]) -> io::Result<usize> {
        if !self.interrupted {
            self.interrupted = true;
            return Err(io::Error::from(io::ErrorKind::Interrupted));
        }
        let count = buf.len().min(self.left);
        self.left -= count;
        Ok(count)
    }
}

/// Lengths of files, and whether a file may be so long.
const LENGTHS: [(usize, bool); 4] = [
    (0, true),
    (20_000, true),
    (268_435_456, true),
    (268_435_457, false),
];

#[test]
fn a_file_has_a_longest_length(rt: HostRuntime) {
    for (length, fits) in LENGTHS {
        let mut tape = Tape {
            interrupted: false,
            left: length,
        };
        let read = read_to_end(rt.alloc(), &mut tape, 20_000).is_ok();
        assert!(rt; read == fits, "{length} bytes");
    }
}
