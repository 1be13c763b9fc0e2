//! Rows of symbol tables (gABI, "Symbol Table").

ghost use Rattle.std.specs.Prelude.{◌≡◌, ◌+◌, ◌≤◌, length, is_ok, Some, None, if◌then◌else◌};
ghost use Rattle.ifs_bytes.specs.Field.{lies};
ghost use Rattle.ifs_bytes.specs.Outcome.{appended};
ghost use Rattle.elf_file.specs.Tables.{symbol_size, symbol_at};
ghost use Rattle.elf_file.specs.Written.{FitsRow, symbol_bytes};

use crate::fields::byte_at;
use crate::put::{Field, put_fields, word};
use crate::sizes;
use crate::sizes::info_place;
use ifs_bytes::{Memory, Order, Width, has_room, u16_at, u32_at, word_at};

/// A row of a symbol table, Elf32_Sym or Elf64_Sym.
#[derive(Clone, Copy, Debug, PartialEq, Eq)]
pub struct Row {
    /// st_name: where the name stands in the string table.
    pub name: u32,
    /// st_info: binding and type.
    pub info: u8,
    /// st_other: visibility.
    pub other: u8,
    /// st_shndx: the number of the section, 0 where the symbol isn't defined.
    pub shndx: u16,
    /// st_value.
    pub value: u64,
    /// st_size: how many bytes the symbol has.
    pub size: u64,
}

/// The row at the offset `at`, which lies in `bytes`.
#[tactic(auto, unfolding(crate::specs::Tables::symbol_at), using(crate::proofs::ByWord::symbol_size_is))]
pub fn symbol_row_at(bytes: &[u8], at: usize, order: Order, width: Width) -> Row
    requires { at + symbol_size width ≤ length bytes.now }
    ensures { result ≡ symbol_at bytes.now at order width }
{
    let w = width.bytes();
    let info = at + info_place(width);
    Row {
        name: u32_at(bytes, at, order),
        info: byte_at(bytes, info),
        other: byte_at(bytes, info + 1),
        shndx: u16_at(bytes, info + 2, order),
        value: word_at(bytes, at + w, order, width),
        size: word_at(bytes, at + 2 * w, order, width),
    }
}

/// The row at the offset `at`; None exactly where it doesn't lie in `bytes`.
pub fn row_at(bytes: &[u8], at: u64, order: Order, width: Width) -> Option<Row>
    ensures { result ≡ (if lies bytes.now at (symbol_size width) then Some (symbol_at bytes.now at order width) else None) }
{
    if has_room(bytes, at, 1, sizes::symbol_size(width)) {
        Some(symbol_row_at(bytes, at as usize, order, width))
    } else {
        None
    }
}

/// Appends a row, whose values fit their fields; where memory runs out `out` stays as it was.
#[tactic(auto, unfolding(crate::specs::Written::symbol_bytes))]
pub fn put_row(out: &mut Vec<u8>, r: &Row, order: Order, width: Width) -> Result<(), Memory>
    requires { FitsRow r.now width }
    ensures { out.new.items ≡ appended (is_ok result) out.old.items (symbol_bytes r.now order width) }
{
    let name = Field::Four(r.name);
    let info = Field::One(r.info);
    let other = Field::One(r.other);
    let shndx = Field::Two(r.shndx);
    let value = word(r.value, width);
    let size = word(r.size, width);
    let fields = match width {
        Width::W32 => [name, value, size, info, other, shndx],
        Width::W64 => [name, info, other, shndx, value, size],
    };
    put_fields(out, &fields, order)
}
