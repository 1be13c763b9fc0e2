//! .dynsym of a stub file.

ghost use Rattle.std.specs.Prelude.{◌≡◌, ◌++◌, ◌+◌, ◌<◌, ◌≤◌, ◌^◌, length, OnOk};
ghost use Rattle.ifs_stub.specs.StubFile.{binding_of, type_of, row_of, null_row, rows_from, rows_bytes, symbol_part, symbol_name_bytes};
ghost use Rattle.ifs_stub.specs.Stub.{HasNoWideSize};

use crate::layout::Form;
use elf_file::{Row, put_row};
use ifs_bytes::Memory;
use ifs_interface::{Kind, Symbol};

// STB_GLOBAL or STB_WEAK.
fn binding_of(weak: bool) -> u8
    ensures exact { result ≡ binding_of weak }
    ensures small { result ≤ 2 }
{
    if weak { 2 } else { 1 }
}

// STT_NOTYPE, STT_OBJECT, STT_FUNC or STT_TLS.
fn type_of(kind: Kind) -> u8
    ensures exact { result ≡ type_of kind }
    ensures small { result ≤ 6 }
{
    match kind {
        Kind::NoType | Kind::Unknown => 0,
        Kind::Object => 1,
        Kind::Func => 2,
        Kind::Tls => 6,
    }
}

// The row of a symbol whose name stands at a place of .dynstr.
fn row_of(at: u32, symbol: &Symbol) -> Row
    ensures { result ≡ row_of at symbol.now }
{
    Row {
        name: at,
        info: binding_of(symbol.weak) * 16 + type_of(symbol.kind),
        other: 0,
        shndx: if symbol.undefined { 0 } else { 1 },
        value: 0,
        size: symbol.size.unwrap_or(0),
    }
}

// The row of no symbol.
fn null_row() -> Row
    ensures { result ≡ null_row }
{
    Row {
        name: 0,
        info: 0,
        other: 0,
        shndx: 0,
        value: 0,
        size: 0,
    }
}

// Appends the rows of symbols whose names stand from place 1 on.
fn put_each_row(out: &mut Vec<u8>, symbols: &[Symbol], form: Form) -> Result<(), Memory>
    requires sizes { HasNoWideSize form.width symbols.now }
    requires names { length symbols.now + symbol_name_bytes symbols.now ≤ 40000000 }
    ensures { OnOk result
        (out.new.items ≡ out.old.items ++ rows_bytes form.order form.width (rows_from 1 symbols.now)) }
{
    let mut at = 1u32;
    for symbol in symbols {
        put_row(out, &row_of(at, symbol), form.order, form.width)?;
        at += symbol.name.as_bytes().len() as u32 + 1;
    }
    Ok(())
}

/// Appends .dynsym: the row of no symbol, and one for each symbol, whose size has a place in it.
#[tactic(auto, unfolding(crate::specs::StubFile::symbol_part))]
pub fn put_symbols(out: &mut Vec<u8>, symbols: &[Symbol], form: Form) -> Result<(), Memory>
    requires sizes { HasNoWideSize form.width symbols.now }
    requires names { length symbols.now + symbol_name_bytes symbols.now ≤ 40000000 }
    ensures { OnOk result (out.new.items ≡ out.old.items ++ symbol_part symbols.now form) }
{
    put_row(out, &null_row(), form.order, form.width)?;
    put_each_row(out, symbols, form)
}
