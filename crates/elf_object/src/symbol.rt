//! Symbols (gABI, "Symbol Table").

ghost use Rattle.std.specs.Prelude.{◌≡◌, ◌<◌, is_none, IfOk, IfSome};
ghost use Rattle.std.specs.Prelude.{map};
ghost use Rattle.std.specs.Option.{option_copied};
ghost use Rattle.elf_object.specs.Parts.{PartsLie};
ghost use Rattle.elf_object.specs.Symbols as meant;

use crate::constants::{ROW_SIZE, SHN_ABS, SHN_COMMON, SHN_LORESERVE, SHN_XINDEX, STT_GNU_IFUNC};
use crate::parts::{Parts, bytes_in, is_alignment, word_in};
use elf_file::{Elf, Row, symbol_row_at};
use ifs_bytes::{Memory, Order, Text, Width, name_at};
use std::alloc::Global;

/// Where a symbol is defined.
#[derive(Clone, Copy, Debug, PartialEq, Eq)]
pub enum ObjPlace {
    /// Not in this object.
    Undefined,
    /// Nowhere: its value is its address.
    Absolute,
    /// It has no place yet: its value is its alignment, its size how many bytes it wants.
    Common,
    /// In the section with this number: its value is an offset in that section.
    In(u32),
}

/// A row of the symbol table, with its name.
#[derive(Debug, PartialEq, Eq, Drop)]
pub struct ObjSymbol {
    /// Its name.
    pub name: Text,
    /// The high half of st_info.
    pub binding: u8,
    /// The low half of st_info.
    pub kind: u8,
    /// The low two bits of st_other.
    pub visibility: u8,
    /// Where it is defined.
    pub place: ObjPlace,
    /// st_value.
    pub value: u64,
    /// st_size: how many bytes it has.
    pub size: u64,
}

/// How many rows there are.
pub fn row_count(parts: &Parts) -> u64
    ensures { result ≡ meant.row_count parts.now }
{
    parts.rows.size / ROW_SIZE
}

/// Row `i`.
#[tactic(auto, unfolding(crate::specs::Symbols::row_at), using(crate::proofs::Division::record_within))]
pub fn row_at(elf: &Elf, parts: &Parts, i: u64) -> Row
    requires lie { PartsLie elf.now.bytes elf.now.header parts.now }
    requires within { i < meant.row_count parts.now }
    ensures { result ≡ meant.row_at elf.now.bytes parts.now i }
{
    let bytes = elf.bytes();
    let at = parts.rows.from as usize + i as usize * ROW_SIZE as usize;
    symbol_row_at(bytes, at, Order::Little, Width::W64)
}

/// The name of row `i`.
#[tactic(auto, unfolding(crate::specs::Symbols::row_name))]
pub fn row_name<'a>(elf: &Elf<'a>, parts: &Parts, i: u64) -> Option<&'a [u8]>
    requires lie { PartsLie elf.now.bytes elf.now.header parts.now }
    requires within { i < meant.row_count parts.now }
    ensures { option_copied result ≡ meant.row_name elf.now.bytes parts.now i }
{
    name_at(
        bytes_in(elf.bytes(), parts.strings),
        u64::from(row_at(elf, parts, i).name),
    )
}

// Whether row `i` has no name.
fn is_unnamed(elf: &Elf, parts: &Parts, i: u64) -> bool
    requires lie { PartsLie elf.now.bytes elf.now.header parts.now }
    requires within { i < meant.row_count parts.now }
    ensures { result ≡ is_none (meant.row_name elf.now.bytes parts.now i) }
{
    row_name(elf, parts, i).is_none()
}

/// The first row without a name.
#[tactic(auto, unfolding(crate::specs::Symbols::unnamed_row), using(ifs_bytes::proofs::Range::find_here, ifs_bytes::proofs::Range::find_later, ifs_bytes::proofs::Range::find_end))]
pub fn unnamed_row(elf: &Elf, parts: &Parts) -> Option<u64>
    requires { PartsLie elf.now.bytes elf.now.header parts.now }
    ensures { result ≡ meant.unnamed_row elf.now.bytes parts.now }
{
    for i in 0..row_count(parts) {
        if is_unnamed(elf, parts, i) {
            return Some(i);
        }
    }
    None
}

// The place of a symbol in the section of a number.
fn place_in(elf: &Elf, number: u32) -> Option<ObjPlace>
    ensures exact { result ≡ meant.place_in elf.now.header.shnum number }
    ensures within { IfSome result (meant.Within elf.now.header.shnum) }
{
    if number == 0 {
        Some(ObjPlace::Undefined)
    } else if u64::from(number) < elf.header().shnum {
        Some(ObjPlace::In(number))
    } else {
        None
    }
}

// The number for row `i` in the table of section numbers.
fn number_for(elf: &Elf, parts: &Parts, i: u64) -> Option<u32>
    requires { PartsLie elf.now.bytes elf.now.header parts.now }
    ensures { result ≡ meant.number_for elf.now.bytes parts.now i }
{
    if i < parts.numbers.size / 4 {
        Some(word_in(elf.bytes(), parts.numbers, i))
    } else {
        None
    }
}

// The place of a symbol whose section number stands in that table.
fn far_place(elf: &Elf, parts: &Parts, i: u64) -> Option<ObjPlace>
    requires { PartsLie elf.now.bytes elf.now.header parts.now }
    ensures exact { result ≡ meant.far_place elf.now.bytes elf.now.header parts.now i }
    ensures within { IfSome result (meant.Within elf.now.header.shnum) }
{
    match number_for(elf, parts, i) {
        Some(number) => place_in(elf, number),
        None => None,
    }
}

/// The place of row `i`.
#[tactic(auto, unfolding(crate::specs::Symbols::place_of))]
pub fn place_of(elf: &Elf, parts: &Parts, i: u64, row: &Row) -> Option<ObjPlace>
    requires { PartsLie elf.now.bytes elf.now.header parts.now }
    ensures exact { result ≡ meant.place_of elf.now.bytes elf.now.header parts.now i row.now }
    ensures within { IfSome result (meant.Within elf.now.header.shnum) }
{
    if row.shndx == SHN_XINDEX {
        far_place(elf, parts, i)
    } else if row.shndx == SHN_ABS {
        Some(ObjPlace::Absolute)
    } else if row.shndx == SHN_COMMON {
        if is_alignment(row.value) {
            Some(ObjPlace::Common)
        } else {
            None
        }
    } else if row.shndx < SHN_LORESERVE {
        place_in(elf, u32::from(row.shndx))
    } else {
        None
    }
}

// Whether row `i` has no place.
fn is_unplaced(elf: &Elf, parts: &Parts, i: u64) -> bool
    requires lie { PartsLie elf.now.bytes elf.now.header parts.now }
    requires within { i < meant.row_count parts.now }
    ensures { result ≡ is_none (meant.row_place elf.now.bytes elf.now.header parts.now i) }
{
    place_of(elf, parts, i, &row_at(elf, parts, i)).is_none()
}

/// The first row without a place.
#[tactic(auto, unfolding(crate::specs::Symbols::unplaced_row), using(ifs_bytes::proofs::Range::find_here, ifs_bytes::proofs::Range::find_later, ifs_bytes::proofs::Range::find_end))]
pub fn unplaced_row(elf: &Elf, parts: &Parts) -> Option<u64>
    requires { PartsLie elf.now.bytes elf.now.header parts.now }
    ensures { result ≡ meant.unplaced_row elf.now.bytes elf.now.header parts.now }
{
    for i in 0..row_count(parts) {
        if is_unplaced(elf, parts, i) {
            return Some(i);
        }
    }
    None
}

// The symbol of row `i`.
#[tactic(auto, unfolding(crate::specs::Symbols::symbol_of))]
fn symbol_of(alloc: Global, elf: &Elf, parts: &Parts, i: u64) -> Result<ObjSymbol, Memory>
    requires lie { PartsLie elf.now.bytes elf.now.header parts.now }
    requires within { i < meant.row_count parts.now }
    ensures { IfOk result (λ symbol. symbol ≡ meant.symbol_of elf.now.bytes elf.now.header parts.now i) }
{
    let row = row_at(elf, parts, i);
    let name = row_name(elf, parts, i).unwrap_or(&[]);
    let place = place_of(elf, parts, i, &row).unwrap_or(ObjPlace::Undefined);
    Ok(ObjSymbol {
        name: Text::from_slice(alloc, name)?,
        binding: row.info / 16,
        kind: row.info % 16,
        visibility: row.other % 4,
        place,
        value: row.value,
        size: row.size,
    })
}

/// All symbols, in order.
#[tactic(auto, using(crate::proofs::Range::map_turn, crate::proofs::Range::map_end))]
pub fn symbols_of(alloc: Global, elf: &Elf, parts: &Parts) -> Result<Vec<ObjSymbol>, Memory>
    requires { PartsLie elf.now.bytes elf.now.header parts.now }
    ensures { IfOk result (λ symbols. symbols.items
        ≡ map (meant.symbol_of elf.now.bytes elf.now.header parts.now) (meant.all_rows parts.now)) }
{
    let count = row_count(parts);
    let mut symbols = Vec::with_capacity(alloc, count as usize)?;
    for i in 0..count {
        symbols.push(symbol_of(alloc, elf, parts, i)?)?;
    }
    Ok(symbols)
}

// Whether a symbol isn't defined.
fn is_undefined(place: ObjPlace) -> bool
    ensures { result ≡ meant.is_undefined place }
{
    match place {
        ObjPlace::Undefined => true,
        ObjPlace::Absolute => false,
        ObjPlace::Common => false,
        ObjPlace::In(_) => false,
    }
}

// Whether row `i` defines an indirect function.
fn is_ifunc(elf: &Elf, parts: &Parts, i: u64) -> bool
    requires lie { PartsLie elf.now.bytes elf.now.header parts.now }
    requires within { i < meant.row_count parts.now }
    ensures { result ≡ meant.is_ifunc elf.now.bytes elf.now.header parts.now i }
{
    let row = row_at(elf, parts, i);
    if row.info % 16 != STT_GNU_IFUNC {
        return false;
    }
    let place = place_of(elf, parts, i, &row).unwrap_or(ObjPlace::Undefined);
    !is_undefined(place)
}

/// The first row that defines an indirect function.
#[tactic(auto, unfolding(crate::specs::Symbols::ifunc_row), using(ifs_bytes::proofs::Range::find_here, ifs_bytes::proofs::Range::find_later, ifs_bytes::proofs::Range::find_end))]
pub fn ifunc_row(elf: &Elf, parts: &Parts) -> Option<u64>
    requires { PartsLie elf.now.bytes elf.now.header parts.now }
    ensures { result ≡ meant.ifunc_row elf.now.bytes elf.now.header parts.now }
{
    for i in 0..row_count(parts) {
        if is_ifunc(elf, parts, i) {
            return Some(i);
        }
    }
    None
}
