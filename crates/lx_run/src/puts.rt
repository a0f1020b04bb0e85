//! Puts of texts that have several parts.
ghost use Rattle.std.specs.Prelude.{◌≡◌, [], map};
ghost use Rattle.lx_base.specs.Text.{joined};
ghost use Rattle.lx_run.specs.Puts.{IsPut};

use lx_files::{PutAnswer, Sink, put_all};

/// Gives a text to the sink.
pub fn put<O: Sink>(out: &mut O, text: &[u8]) -> Result<(), PutAnswer>
    ensures { IsPut (O.given out.old) (O.given out.new) (O.faults out.old) (O.faults out.new) (O.wants out.old) (O.wants out.new) text.now result }
{
    put_all(out, text)
}

/// Gives the parts of a text to the sink, one behind another.
pub fn put_parts<O: Sink>(out: &mut O, parts: &[&[u8]]) -> Result<(), PutAnswer>
    ensures { IsPut (O.given out.old) (O.given out.new) (O.faults out.old) (O.faults out.new) (O.wants out.old) (O.wants out.new)
        (joined (map (λ part. part.now) parts.now) []) result }
{
    for part in parts {
        put(out, part)?;
    }
    Ok(())
}
