//! Registers and m-registers as keys of sets.
ghost use Rattle.std.specs.Prelude.{◌≡◌};
ghost use Rattle.lx_regs.specs.Keys.{held_of, key_of};

use lx_auto::Held;

/// Where a value is held, as a key of sets. Registers come before m-registers.
#[derive(Clone, Copy, PartialEq, Eq, PartialOrd, Ord, Hash)]
pub(crate) enum Key {
    /// The register with this number.
    Reg(u32),
    /// The m-register with this number.
    MReg(u32),
}

/// Where a value is held, as a key.
pub(crate) fn key_of(held: Held) -> Key
    ensures { result ≡ key_of held }
{
    match held {
        Held::Reg(reg) => Key::Reg(reg),
        Held::MReg(mreg) => Key::MReg(mreg),
    }
}

/// Where a value is held, from its key.
pub(crate) fn held_of(key: Key) -> Held
    ensures { result ≡ held_of key }
{
    match key {
        Key::Reg(reg) => Held::Reg(reg),
        Key::MReg(mreg) => Held::MReg(mreg),
    }
}
