//! Records written as their fields, one after the other.

ghost use Rattle.std.specs.Prelude.{◌≡◌, ◌++◌, map, is_ok};
ghost use Rattle.ifs_bytes.specs.Field.{word_size, number_bytes};
ghost use Rattle.ifs_bytes.specs.Outcome.{appended};
ghost use Rattle.elf_file.specs.Field.{sized};
ghost use Rattle.elf_file.specs.Written.{FitsWord, fields_bytes};

use ifs_bytes::{Memory, Order, Width, put_u16, put_u32, put_u64};

/// A field of a record by its size in bytes, with its value.
#[derive(Clone, Copy)]
pub enum Field {
    /// A byte.
    One(u8),
    /// Two bytes, a Half.
    Two(u16),
    /// Four bytes, a Word.
    Four(u32),
    /// Eight bytes, an Xword.
    Eight(u64),
}

/// The field of an address, an offset or a size of the file, which the value fits.
pub fn word(value: u64, width: Width) -> Field
    requires { FitsWord value width }
    ensures { sized result ≡ (word_size width, value) }
{
    match width {
        Width::W32 => Field::Four(value as u32),
        Width::W64 => Field::Eight(value),
    }
}

// Appends a field; where memory runs out `out` stays as it was.
fn put_field(out: &mut Vec<u8>, field: Field, order: Order) -> Result<(), Memory>
    ensures { out.new.items ≡ appended (is_ok result) out.old.items (number_bytes (sized field).0 (sized field).1 order) }
{
    match field {
        Field::One(value) => Ok(out.push(value)?),
        Field::Two(value) => put_u16(out, value, order),
        Field::Four(value) => put_u32(out, value, order),
        Field::Eight(value) => put_u64(out, value, order),
    }
}

/// Appends fields; where memory runs out `out` stays as it was.
pub fn put_fields(out: &mut Vec<u8>, fields: &[Field], order: Order) -> Result<(), Memory>
    ensures { out.new.items ≡ appended (is_ok result) out.old.items (fields_bytes (map sized fields.now) order) }
{
    let start = out.len();
    for field in fields {
        if let Err(memory) = put_field(out, *field, order) {
            out.truncate(start);
            return Err(memory);
        }
    }
    Ok(())
}
