//! References (gABI, "Relocation").

ghost use Rattle.std.specs.Prelude.{◌≡◌, ◌<◌, ◌≤◌, ◌++◌, ◌+◌, true, nat_le, None, map, IfOk, OnOk, Result};
ghost use Rattle.elf_file.specs.Header.{section_in};
ghost use Rattle.ifs_bytes.specs.Places.{places};
ghost use Rattle.elf_object.specs.Parts.{PartsLie, SpanLies, span_of};
ghost use Rattle.elf_object.specs.References as meant;
ghost use Rattle.elf_object.specs.Sections.{is_loadable_at};
ghost use Rattle.elf_object.specs.Symbols.{row_count};

use crate::constants::{ENTRY_SIZE, MOST_ENTRIES, SHT_REL, SHT_RELA};
use crate::parts::{Parts, lying_span, section};
use crate::section::is_loadable_at;
use crate::symbol::row_count;
use elf_file::{Elf, SectionHeader};
use ifs_bytes::{Memory, Order, u32_at, u64_at};
use std::alloc::Global;

/// An entry of a relocation table: a place of a section that depends on a symbol.
#[derive(Clone, Copy, Debug, PartialEq, Eq)]
pub struct Reference {
    /// The number of the section that is patched.
    pub section: u32,
    /// The number of the entry in its table, from 0.
    pub index: u32,
    /// r_offset: the place in the section.
    pub offset: u64,
    /// The high half of r_info: the row of the symbol table.
    pub symbol: u32,
    /// The low half of r_info: the relocation type of the machine.
    pub kind: u32,
    /// r_addend.
    pub addend: i64,
}

// Whether a section is a relocation table.
fn is_table(section: &SectionHeader) -> bool
    ensures { result ≡ meant.is_table section.now }
{
    section.kind == SHT_REL || section.kind == SHT_RELA
}

// Whether a section is a table for one of `count` sections.
fn names_section(count: u64, section: &SectionHeader) -> bool
    ensures { result ≡ meant.names_section count section.now }
{
    is_table(section) && u64::from(section.info) < count
}

// Puts down that section `i` is the table for the section that it names, if it is one.
#[tactic(auto, using(crate::proofs::Tables::noted, crate::proofs::Tables::passed_over))]
fn note_table(elf: &Elf, tables: &mut [Option<u64>], i: u64)
    requires within { i < elf.now.header.shnum }
    requires first { meant.AreFirstFrom elf.now.bytes elf.now.header (i + 1) tables.old }
    ensures { meant.AreFirstFrom elf.now.bytes elf.now.header i tables.new }
{
    let header = section(elf, i);
    if names_section(elf.header().shnum, &header) {
        tables[header.info as usize] = Some(i);
    }
}

/// The first table for each section, if there is one. It goes backwards, so that the first one stays.
pub fn first_tables(alloc: Global, elf: &Elf) -> Result<Vec<Option<u64>>, Memory>
    ensures { IfOk result (λ tables. meant.AreFirstFrom elf.now.bytes elf.now.header 0 tables.items) }
{
    let count = elf.header().shnum;
    let mut tables = vec![in alloc; None; count as usize]?;
    for behind in 0..count {
        note_table(elf, &mut tables, count - 1 - behind);
    }
    Ok(tables)
}

// The first table for section `s`, which is there.
#[tactic(auto, unfolding(crate::specs::References::first_table))]
fn first_table(elf: &Elf, tables: &[Option<u64>], s: u64) -> Option<u64>
    requires first { meant.AreFirstFrom elf.now.bytes elf.now.header 0 tables.now }
    requires within { s < elf.now.header.shnum }
    ensures { result ≡ meant.first_table elf.now.bytes elf.now.header s }
{
    tables[s as usize]
}

// The symbol of entry `k` of a table.
#[tactic(auto, unfolding(crate::specs::References::entry_of), using(crate::proofs::Division::record_within))]
fn symbol_at(bytes: &[u8], table: &SectionHeader, k: u64) -> u32
    requires lie { SpanLies bytes.now (span_of table.now) }
    requires within { k < meant.entry_count table.now }
    ensures { result ≡ (meant.entry_of bytes.now table.now k).symbol }
{
    let at = table.offset as usize + k as usize * ENTRY_SIZE as usize;
    u32_at(bytes, at + 12, Order::Little)
}

// Whether the symbol of entry `k` is no row.
fn is_stray(elf: &Elf, parts: &Parts, table: &SectionHeader, k: u64) -> bool
    requires lie { SpanLies elf.now.bytes (span_of table.now) }
    requires within { k < meant.entry_count table.now }
    ensures { result ≡ nat_le (row_count parts.now) (meant.entry_of elf.now.bytes table.now k).symbol }
{
    row_count(parts) <= u64::from(symbol_at(elf.bytes(), table, k))
}

// The first entry whose symbol is no row.
#[tactic(auto, unfolding(crate::specs::References::stray_entry), using(ifs_bytes::proofs::Range::find_here, ifs_bytes::proofs::Range::find_later, ifs_bytes::proofs::Range::find_end))]
fn stray_entry(elf: &Elf, parts: &Parts, table: &SectionHeader) -> Option<u64>
    requires { SpanLies elf.now.bytes (span_of table.now) }
    ensures { result ≡ meant.stray_entry elf.now.bytes parts.now table.now }
{
    for k in 0..table.size / ENTRY_SIZE {
        if is_stray(elf, parts, table, k) {
            return Some(k);
        }
    }
    None
}

fn is_place(place: Option<u64>, i: u64) -> bool
    ensures { result ≡ meant.is_place place i }
{
    match place {
        Some(place) => i == place,
        None => false,
    }
}

// Whether section `i`, a table for a section that is there, is a bad one.
#[tactic(auto, unfolding(crate::specs::References::is_bad_as_table))]
fn is_bad_as_table(elf: &Elf, parts: &Parts, tables: &[Option<u64>], i: u64) -> bool
    requires lie { PartsLie elf.now.bytes elf.now.header parts.now }
    requires first { meant.AreFirstFrom elf.now.bytes elf.now.header 0 tables.now }
    requires within { i < elf.now.header.shnum }
    requires table { meant.is_table (section_in elf.now.bytes elf.now.header i) ≡ true }
    requires target { (section_in elf.now.bytes elf.now.header i).info < elf.now.header.shnum }
    ensures { result ≡ meant.is_bad_as_table elf.now.bytes elf.now.header parts.now i }
{
    let table = section(elf, i);
    let first = first_table(elf, tables, u64::from(table.info));
    if table.kind == SHT_REL || !is_place(first, i) {
        return true;
    }
    if table.size % ENTRY_SIZE != 0 || table.size / ENTRY_SIZE > MOST_ENTRIES {
        return true;
    }
    if !is_place(parts.table, u64::from(table.link)) {
        return true;
    }
    stray_entry(elf, parts, &table).is_some()
}

// Whether section `i` is a bad table of a loadable section.
#[tactic(auto, unfolding(crate::specs::Sections::is_loadable_at))]
fn is_bad_table(elf: &Elf, parts: &Parts, tables: &[Option<u64>], i: u64) -> bool
    requires lie { PartsLie elf.now.bytes elf.now.header parts.now }
    requires first { meant.AreFirstFrom elf.now.bytes elf.now.header 0 tables.now }
    requires within { i < elf.now.header.shnum }
    ensures { result ≡ meant.is_bad_table elf.now.bytes elf.now.header parts.now i }
{
    let table = section(elf, i);
    is_table(&table)
        && is_loadable_at(elf, parts, u64::from(table.info))
        && is_bad_as_table(elf, parts, tables, i)
}

/// The first bad table of a loadable section.
#[tactic(auto, unfolding(crate::specs::References::bad_table), using(ifs_bytes::proofs::Range::find_here, ifs_bytes::proofs::Range::find_later, ifs_bytes::proofs::Range::find_end))]
pub fn bad_table(elf: &Elf, parts: &Parts, tables: &[Option<u64>]) -> Option<u64>
    requires lie { PartsLie elf.now.bytes elf.now.header parts.now }
    requires first { meant.AreFirstFrom elf.now.bytes elf.now.header 0 tables.now }
    ensures { result ≡ meant.bad_table elf.now.bytes elf.now.header parts.now }
{
    for i in 0..elf.header().shnum {
        if is_bad_table(elf, parts, tables, i) {
            return Some(i);
        }
    }
    None
}

// Entry `k` of a table.
#[tactic(auto, unfolding(crate::specs::References::entry_of), using(crate::proofs::Division::record_within))]
fn entry_of(bytes: &[u8], table: &SectionHeader, k: u64) -> Reference
    requires lie { SpanLies bytes.now (span_of table.now) }
    requires within { k < meant.entry_count table.now }
    requires few { meant.entry_count table.now ≤ MOST_ENTRIES }
    ensures { result ≡ meant.entry_of bytes.now table.now k }
{
    let at = table.offset as usize + k as usize * ENTRY_SIZE as usize;
    Reference {
        section: table.info,
        index: k as u32,
        offset: u64_at(bytes, at, Order::Little),
        symbol: u32_at(bytes, at + 12, Order::Little),
        kind: u32_at(bytes, at + 8, Order::Little),
        addend: u64_at(bytes, at + 16, Order::Little).cast_signed(),
    }
}

// Appends the entries of a table.
#[tactic(auto, using(crate::proofs::Range::map_turn, crate::proofs::Range::map_end))]
fn push_entries(
    references: &mut Vec<Reference>,
    bytes: &[u8],
    table: &SectionHeader,
) -> Result<(), Memory>
    requires lie { SpanLies bytes.now (span_of table.now) }
    requires few { meant.entry_count table.now ≤ MOST_ENTRIES }
    ensures { OnOk result (references.new.items
        ≡ references.old.items
        ++ map (meant.entry_of bytes.now table.now) (places 0 (meant.entry_count table.now))) }
{
    for k in 0..table.size / ENTRY_SIZE {
        references.push(entry_of(bytes, table, k))?;
    }
    Ok(())
}

// Appends the references of section `s`, of an object without a bad table.
#[tactic(auto, unfolding(crate::specs::References::references_at))]
fn push_references(
    references: &mut Vec<Reference>,
    elf: &Elf,
    parts: &Parts,
    tables: &[Option<u64>],
    s: u64,
) -> Result<(), Memory>
    requires lie { PartsLie elf.now.bytes elf.now.header parts.now }
    requires first { meant.AreFirstFrom elf.now.bytes elf.now.header 0 tables.now }
    requires good { meant.bad_table elf.now.bytes elf.now.header parts.now ≡ None }
    requires within { s < elf.now.header.shnum }
    ensures { OnOk result (references.new.items
        ≡ references.old.items ++ meant.references_at elf.now.bytes elf.now.header parts.now s) }
{
    if !is_loadable_at(elf, parts, s) {
        return Ok(());
    }
    match first_table(elf, tables, s) {
        Some(i) => push_entries(references, elf.bytes(), &section(elf, i)),
        None => Ok(()),
    }
}

/// The references of an object without a bad table, in order of section and index.
#[tactic(auto, unfolding(crate::specs::References::references_of), using(crate::proofs::Range::flat_map_turn, crate::proofs::Range::flat_map_end))]
pub fn references_of(
    alloc: Global,
    elf: &Elf,
    parts: &Parts,
    tables: &[Option<u64>],
) -> Result<Vec<Reference>, Memory>
    requires lie { PartsLie elf.now.bytes elf.now.header parts.now }
    requires first { meant.AreFirstFrom elf.now.bytes elf.now.header 0 tables.now }
    requires good { meant.bad_table elf.now.bytes elf.now.header parts.now ≡ None }
    ensures { IfOk result (λ references. references.items
        ≡ meant.references_of elf.now.bytes elf.now.header parts.now) }
{
    let mut references = Vec::new(alloc);
    for s in 0..elf.header().shnum {
        push_references(&mut references, elf, parts, tables, s)?;
    }
    Ok(references)
}
