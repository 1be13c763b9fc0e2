//! The machine that a library is for.

ghost use Rattle.std.specs.Prelude.{◌≡◌, IfOk};
ghost use Rattle.ifs_interface.specs.Fields.{field_name};

use ifs_bytes::{Memory, Order, Text, Width};
use std::alloc::Global;

/// The machine, byte order and width of a library, as far as they are known: by a triple alone, or by each.
#[derive(Debug, PartialEq, Eq, Drop)]
pub struct Target {
    /// A target triple, as `x86_64-unknown-linux-gnu`; with it no other field is there.
    pub triple: Option<Text>,
    /// The machine, e_machine.
    pub machine: Option<u16>,
    /// The byte order.
    pub order: Option<Order>,
    /// The size of addresses.
    pub width: Option<Width>,
}

/// The machine, byte order and width that a target or a triple gives, as far as it gives them.
#[derive(Clone, Copy, Debug, PartialEq, Eq)]
pub struct MachineFact {
    /// The machine, e_machine.
    pub machine: Option<u16>,
    /// The byte order.
    pub order: Option<Order>,
    /// The size of addresses.
    pub width: Option<Width>,
}

impl Target {
    /// An equal target.
    pub fn copy(&self, alloc: Global) -> Result<Target, Memory>
        ensures { IfOk result (λ copy. copy ≡ self.now) }
    {
        let triple = match &self.triple {
            Some(text) => Some(text.copy(alloc)?),
            None => None,
        };
        Ok(Target {
            triple,
            machine: self.machine,
            order: self.order,
            width: self.width,
        })
    }
}

/// A field of a target.
#[derive(Clone, Copy, Debug, PartialEq, Eq)]
pub enum TargetField {
    /// The machine.
    Arch,
    /// The size of addresses.
    BitWidth,
    /// The byte order.
    Endianness,
    /// The target triple.
    Triple,
}

impl TargetField {
    /// The field's name, as a cause gives it.
    pub fn name(self) -> &'static [u8]
        ensures { result.now ≡ field_name self }
    {
        match self {
            TargetField::Arch => b"Arch",
            TargetField::BitWidth => b"BitWidth",
            TargetField::Endianness => b"Endianness",
            TargetField::Triple => b"Triple",
        }
    }
}
