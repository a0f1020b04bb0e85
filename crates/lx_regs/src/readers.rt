//! What lists of operations read.
ghost use Rattle.std.specs.Prelude.{◌≡◌, option_map};
ghost use Rattle.lx_auto.specs.Effects.{effect_of, effect_of_both};
ghost use Rattle.lx_regs.specs.EffectIndexes.{single_effect};
ghost use Rattle.lx_regs.specs.Keys.{held_of};
ghost use Rattle.lx_regs.specs.Readers.{read_by};

use crate::effects::{Effects, Single, origin_of, single_of};
use crate::keys::Key;
use lx_auto::Op;

/// What is read for a register to which this is done, if something is.
fn read_by(single: Single) -> Option<Key>
    ensures { option_map held_of result ≡ read_by (single_effect single) }
{
    match single {
        Single::Now | Single::Never => None,
        Single::From(reg) => Some(Key::Reg(reg)),
    }
}

/// What a list reads for a register, if it reads something, by a look at each operation.
pub(crate) fn read_of(ops: &[Op], key: Key) -> Option<Key>
    ensures { option_map held_of result ≡ read_by (effect_of ops.now (held_of key)) }
{
    match key {
        Key::Reg(reg) => read_by(single_of(ops, reg)),
        Key::MReg(mreg) => Some(Key::MReg(origin_of(ops, mreg))),
    }
}

impl Effects<'_> {
    /// What the list reads for a register, if it reads something. It takes no memory.
    fn read(&self, key: Key) -> Option<Key>
        ensures { option_map held_of result ≡ read_by (effect_of self.now (held_of key)) }
    {
        match key {
            Key::Reg(reg) => read_by(self.single(reg)),
            Key::MReg(mreg) => Some(Key::MReg(self.origin(mreg))),
        }
    }
}

/// What two lists read, one behind the other at one offset.
pub(crate) fn read_of_both(first: &Effects<'_>, second: &Effects<'_>, key: Key) -> Option<Key>
    ensures { option_map held_of result ≡ read_by (effect_of_both first.now second.now (held_of key)) }
{
    match second.read(key) {
        Some(middle) => first.read(middle),
        None => None,
    }
}
