//! The types of dynamic relocations.

use std::marker::Model;

/// The types of dynamic relocations, by their numbers on a machine (R_X86_64_GLOB_DAT, R_AARCH64_GLOB_DAT
/// and so on).
#[derive(Debug, Drop)]
pub struct DynamicTypes {
    /// An address of 64 bits.
    pub abs64: u32,
    /// The address of a name, in a slot of .got.
    pub glob_dat: u32,
    /// The address of a function, in a slot of .got.plt.
    pub jump_slot: u32,
    /// The load address and an addend.
    pub relative: u32,
    /// The number of a module that has thread-local storage.
    pub dtpmod64: u32,
    /// An offset in a module's block of thread-local storage.
    pub dtpoff64: u32,
    /// A distance from the thread pointer.
    pub tpoff64: u32,
    /// A descriptor of a thread-local symbol, of two words.
    pub tlsdesc: u32,
}

impl Model for DynamicTypes {
    ghost use Rattle.link_machine.specs.Rules.{DynamicTypes as TypesMeant};

    ghost Value = { TypesMeant };

    ghost view = { λ t. record {
      abs64 = t.abs64;
      glob_dat = t.glob_dat;
      jump_slot = t.jump_slot;
      relative = t.relative;
      dtpmod64 = t.dtpmod64;
      dtpoff64 = t.dtpoff64;
      tpoff64 = t.tpoff64;
      tlsdesc = t.tlsdesc;
    } };
}
