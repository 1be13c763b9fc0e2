//! The symbol that the rows of one name describe.

ghost use Rattle.std.specs.Prelude.{◌≡◌, ◌<◌, IfOk, length, None};
ghost use Rattle.std.specs.List.{find, list_all};
ghost use Rattle.std.specs.Option.{option_copied};
ghost use Rattle.ifs_interface.specs.Extracted.{is_defined, is_weak, kind_of, size_of, symbol_of};
ghost use Rattle.ifs_stub.specs.Rows.{pointed, symbol_of_run};

use ifs_bytes::{Memory, Text};
use ifs_interface::{DynRow, Kind, Symbol};
use std::alloc::Global;

// What a symbol type, the low half of st_info, stands for (gABI, "Symbol Table").
fn kind_of(type_number: u8) -> Kind
    ensures { result ≡ kind_of type_number }
{
    match type_number {
        0 => Kind::NoType,
        1 => Kind::Object,
        2 => Kind::Func,
        6 => Kind::Tls,
        _ => Kind::Unknown,
    }
}

// The size that a symbol of this kind keeps, in bytes.
fn size_of(kind: Kind, size: u64) -> Option<u64>
    ensures { result ≡ size_of kind size }
{
    match kind {
        Kind::Func => None,
        Kind::Object | Kind::Tls => Some(size),
        Kind::NoType | Kind::Unknown => { if size == 0 { None } else { Some(size) } }
    }
}

// The symbol of that name that a row describes.
fn symbol_of(
    alloc: Global,
    name: &Text,
    row: &DynRow,
    weak: bool,
    undefined: bool,
) -> Result<Symbol, Memory>
    ensures { IfOk result (λ symbol. symbol ≡ symbol_of name.now row.now weak undefined) }
{
    let kind = kind_of(row.kind);
    Ok(Symbol {
        name: name.copy(alloc)?,
        kind,
        size: size_of(kind, row.size),
        weak,
        undefined,
        warning: None,
    })
}

// Whether the row is of a weak symbol, STB_WEAK.
fn is_weak(row: &DynRow) -> bool
    ensures { result ≡ is_weak row.now }
{
    row.binding == 2
}

// The first row whose symbol the library defines.
#[tactic(auto, using(crate::proofs::Pointed::find_defined_from))]
fn first_defined<'a>(rows: &[&'a DynRow]) -> Option<&'a DynRow>
    ensures { option_copied result ≡ find is_defined (pointed rows.now) }
{
    for row in rows {
        if row.shndx != 0 {
            return Some(row);
        }
    }
    None
}

// Whether each row is weak.
fn all_weak(rows: &[&DynRow]) -> bool
    ensures { result ≡ list_all is_weak (pointed rows.now) }
{
    rows.iter().all(|row| is_weak(row))
}

/// The symbol of the name that these rows have, one row at least: by the first row that is defined, else by the
/// first, and then weak where all are.
#[tactic(auto, using(crate::proofs::Pointed::symbol_of_defined, crate::proofs::Pointed::symbol_of_wanted))]
pub fn described(alloc: Global, rows: &[&DynRow]) -> Result<Symbol, Memory>
    requires { 0 < length rows.now }
    ensures { IfOk result (λ symbol. symbol ≡ symbol_of_run (pointed rows.now)) }
{
    let first = rows[0];
    match first_defined(rows) {
        Some(row) => symbol_of(alloc, &first.name, row, is_weak(row), false),
        None => symbol_of(alloc, &first.name, first, all_weak(rows), true),
    }
}
