//! Puts of whole texts.
ghost use Rattle.std.specs.Prelude.{◌≡◌, ◌≤◌, OnOk, OnErr, IfErr};
ghost use Rattle.lx_files.specs.Taking.{GivesFront, RefusesPut, WantsMemory, given_then};

use crate::sinks::{PutAnswer, Sink};

/// Gives all bytes to the sink, by as many puts as it takes.
///
/// `Failed` comes only with a fault of the sink, and `Memory` only where it counted a want of memory. On a refusal a front of the bytes was
/// given.
pub fn put_all<O: Sink>(out: &mut O, bytes: &[u8]) -> Result<(), PutAnswer>
    ensures given { OnOk result (O.given out.new ≡ given_then (O.given out.old) bytes.now) }
    ensures calm { OnOk result (O.faults out.new ≡ O.faults out.old) }
    ensures refuses { IfErr result (RefusesPut (O.faults out.old) (O.faults out.new)) }
    ensures lacks { IfErr result (WantsMemory (O.wants out.old) (O.wants out.new)) }
    ensures front { OnErr result (GivesFront (O.given out.old) (O.given out.new) bytes.now) }
    ensures never_falls { O.faults out.old ≤ O.faults out.new }
    ensures wants_never_fall { O.wants out.old ≤ O.wants out.new }
{
    let mut rest = bytes;
    while !rest.is_empty() {
        let count = out.put(rest)?;
        let (_, tail) = rest.split_at(count);
        rest = tail;
    }
    Ok(())
}
