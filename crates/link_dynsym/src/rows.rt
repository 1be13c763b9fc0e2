//! Rows of exports.

ghost use Rattle.std.specs.Prelude.{◌≡◌, Some};
ghost use Rattle.std.specs.Option.{option_copied};
ghost use Rattle.link_core.specs.declared.resolution.Bound.TheVariants as bounds;
ghost use Rattle.link_core.specs.Planned.{row_at};
ghost use Rattle.link_core.specs.References.{symbol_of};
ghost use Rattle.link_core.specs.Symbols as meant;
ghost use Rattle.link_core.specs.Value as values;
ghost use Rattle.link_dynsym.specs.Made.{link_of};
ghost use Rattle.link_dynsym.specs.Rows.{AreCommons};

use crate::commons::{CommonRows, size_of};
use crate::fields::{export_type, info_of, null_row, row_binding};
use crate::link::Link;
use elf_file::Row;
use elf_object::{ObjPlace, ObjSymbol, Object};
use link_core::{Bound, Machine, NameRow, STB_GLOBAL, STB_WEAK, STT_OBJECT, STT_TLS};
use link_values::{block_offset, place_value};

// st_shndx of what is in no section.
const SHN_ABS: u16 = 0xfff1;

// The number of the section that a definition is in.
#[tactic(auto, using(crate::proofs::Numbers::number_fits))]
fn export_section<M: Machine>(p: &Link<'_, M>, object: u32, place: ObjPlace) -> u16
    ensures { result ≡ meant.export_section p.now.layout object place }
{
    p.is_made();
    match place {
        ObjPlace::Undefined => 0,
        ObjPlace::Common => 0,
        ObjPlace::Absolute => SHN_ABS,
        ObjPlace::In(section) => (p.section_position(object, section) + 1) as u16,
    }
}

// The value of a definition.
#[tactic(auto, using(link_values::proofs::OfLayout::value_is))]
fn value_of<M: Machine>(p: &Link<'_, M>, object: u32, place: ObjPlace, value: u64) -> u64
    ensures { result ≡ values.place_value p.now.layout object place value }
{
    place_value(p.pieces(), object, place, value)
}

// The value of an export with this type: where it is in the block of thread-local storage, or its address.
fn export_value<M: Machine>(p: &Link<'_, M>, type_number: u8, s: u64) -> u64
    ensures { result ≡ meant.export_value p.now.layout type_number s }
{
    if type_number == STT_TLS {
        block_offset(p.layout(), s)
    } else {
        s
    }
}

// The row of a definition of an object.
fn object_row<M: Machine>(
    p: &Link<'_, M>,
    at: u32,
    row: &NameRow,
    object: u32,
    symbol: &ObjSymbol,
) -> Row
    ensures { result ≡ meant.object_row (link_of M.rules p.now) p.now.layout at row.now object symbol.now }
{
    let kind = export_type(symbol.kind);
    let value = value_of(p, object, symbol.place, symbol.value);
    Row {
        name: at,
        info: info_of(row_binding(symbol.binding == STB_WEAK), kind),
        other: row.visibility,
        shndx: export_section(p, object, symbol.place),
        value: export_value(p, kind, value),
        size: symbol.size,
    }
}

// The row of an object's symbol table.
fn symbol_of(objects: &[Object], object: u32, index: u32) -> Option<&ObjSymbol>
    ensures { option_copied result ≡ symbol_of objects.now object index }
{
    let own = objects.get(object as usize)?;
    own.symbols().get(index as usize)
}

// The row of a name that is bound to an object.
fn bound_row<M: Machine>(
    p: &Link<'_, M>,
    at: u32,
    row: &NameRow,
    n: u64,
    object: u32,
    index: u32,
) -> Row
    ensures { result ≡ meant.export_by (link_of M.rules p.now) p.now.layout at row.now n (bounds.Object object index) }
{
    match symbol_of(p.objects(), object, index) {
        Some(symbol) => object_row(p, at, row, object, symbol),
        None => null_row(),
    }
}

// The row of a common symbol.
#[tactic(auto, using(crate::proofs::CommonSizes::size_is, crate::proofs::CommonSizes::section_is))]
fn common_row<M: Machine>(
    p: &Link<'_, M>,
    commons: &CommonRows,
    at: u32,
    row: &NameRow,
    n: u64,
) -> Row
    requires commons { AreCommons (link_of M.rules p.now) commons.now.found commons.now.section }
    requires there { row_at (link_of M.rules p.now) n ≡ Some row.now }
    requires common { row.now.bound ≡ bounds.Common }
    ensures { result ≡ meant.common_row (link_of M.rules p.now) p.now.layout at row.now n }
{
    Row {
        name: at,
        info: info_of(STB_GLOBAL, STT_OBJECT),
        other: row.visibility,
        shndx: commons.section,
        value: p.common_address(n),
        size: size_of(commons, n),
    }
}

/// The row of an export, by what its name is bound to.
pub fn export_row<M: Machine>(
    p: &Link<'_, M>,
    commons: &CommonRows,
    at: u32,
    row: &NameRow,
    n: u64,
) -> Row
    requires commons { AreCommons (link_of M.rules p.now) commons.now.found commons.now.section }
    requires there { row_at (link_of M.rules p.now) n ≡ Some row.now }
    ensures { result ≡ meant.export_by (link_of M.rules p.now) p.now.layout at row.now n row.now.bound }
{
    match row.bound {
        Bound::Object(object, index) => bound_row(p, at, row, n, object, index),
        Bound::Common => common_row(p, commons, at, row, n),
        Bound::Provided | Bound::Library(_) | Bound::Import | Bound::Zero => null_row(),
    }
}
