//! Values with several owners.
ghost use Rattle.std.specs.Prelude.{◌≡◌, IfOk};

use lx_base::{ByteText, Memory};
use std::alloc::Global;
use std::marker::Model;
use std::rc::Rc;

/// A value that several owners may have, and that is held once. Contracts see the value.
///
/// It takes as much room as one address. The value goes with the last of its owners.
#[derive(Drop)]
pub struct Shared<T> {
    value: Rc<T>,
}

impl<T> Model for Shared<T> {
    ghost Value = { T };

    ghost view = { λ shared. shared.value.value };
}

impl<T: Drop> Shared<T> {
    /// The value, with one owner.
    pub fn of(alloc: Global, value: T) -> Result<Self, Memory>
        ensures { IfOk result (λ shared. shared ≡ value) }
    {
        Ok(Shared {
            value: Rc::new(alloc, value)?,
        })
    }

    /// The same value for one more owner. It takes no memory; more owners than an address can count count as want of memory.
    pub fn share(&self) -> Result<Self, Memory>
        ensures { IfOk result (λ shared. shared ≡ self.now) }
    {
        Ok(Shared {
            value: self.value.clone()?,
        })
    }

    /// The same value for one more owner, where there is one. It takes no memory; want of memory is answered as by `share`.
    pub fn share_option(value: &Option<Self>) -> Result<Option<Self>, Memory>
        ensures { IfOk result (λ same. same ≡ value.now) }
    {
        match value {
            Some(value) => Ok(Some(value.share()?)),
            None => Ok(None),
        }
    }

    /// The value. It takes no memory.
    pub fn get(&self) -> &T
        ensures { result.now ≡ self.now }
    {
        &self.value
    }
}

/// Bytes that several owners may have.
pub type SharedText = Shared<ByteText>;

impl Shared<ByteText> {
    /// The same bytes, with one owner.
    pub fn copy_of(alloc: Global, bytes: &[u8]) -> Result<Self, Memory>
        ensures { IfOk result (λ copy. copy ≡ bytes.now) }
    {
        Shared::of(alloc, ByteText::copy_of(alloc, bytes)?)
    }

    /// The bytes, in order. It takes no memory.
    pub fn as_slice(&self) -> &[u8]
        ensures { result.now ≡ self.now }
    {
        self.get().as_slice()
    }
}
