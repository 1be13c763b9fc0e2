//! Entries of tables of dynamic relocations.

ghost use Rattle.std.specs.Prelude.{◌≡◌, ◌++◌, OnOk};
ghost use Rattle.link_core.specs.Relocations.{rela_bytes};

use ifs_bytes::{Memory, Order, put_u64};
use std::marker::Model;

/// A dynamic relocation.
#[derive(Debug, Drop)]
pub struct Rela {
    /// The address of what is filled.
    pub offset: u64,
    /// Its type, by the machine's number.
    pub kind: u32,
    /// The row of .dynsym, or 0.
    pub symbol: u32,
    /// Its addend, modulo 2^64.
    pub addend: u64,
}

impl Model for Rela {
    ghost use Rattle.link_core.specs.Relocations.{Rela as RelaMeant};

    ghost Value = { RelaMeant };

    ghost view = { λ r. record {
      offset = r.offset;
      kind = r.kind;
      symbol = r.symbol;
      addend = r.addend;
    } };
}

/// Appends an entry of 24 bytes: its offset, its symbol and type as one number, and its addend.
pub fn put_rela(out: &mut Vec<u8>, rela: &Rela) -> Result<(), Memory>
    ensures { OnOk result (out.new.items ≡ out.old.items ++ rela_bytes rela.now) }
{
    let info = u64::from(rela.symbol) * 0x1_0000_0000 + u64::from(rela.kind);
    put_u64(out, rela.offset, Order::Little)?;
    put_u64(out, info, Order::Little)?;
    put_u64(out, rela.addend, Order::Little)
}
