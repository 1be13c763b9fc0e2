//! A library's parts by its section headers (gABI, "Sections").

ghost use Rattle.std.specs.Prelude.{◌≡◌, ◌==◌, ◌+◌, ◌*◌, ◌/◌, ◌<◌, ◌≤◌, length, IfOk, Result};
ghost use Rattle.elf_file.specs.Header.{section_in};
ghost use Rattle.elf_dyn.specs.Library.{PlacesLie};
ghost use Rattle.elf_dyn.specs.Sections.{first_section, string_section, strings_by_section, places_by_sections};
ghost use Rattle.elf_dyn.specs.Strings.{StringsLie};

use crate::constants::SHT_STRTAB;
use crate::places::{Entries, Places, Rows, Strings};
use elf_file::{Elf, ElfCause, SectionHeader, dynamic_size, symbol_size};
use ifs_bytes::has_room;

// The section with the number `i`.
fn section(elf: &Elf, i: u64) -> SectionHeader
    requires { i < elf.now.header.shnum }
    ensures { result ≡ section_in elf.now.bytes elf.now.header i }
{
    elf.section(i).unwrap()
}

// Whether the section with the number `i` has a type.
fn has_type(elf: &Elf, kind: u32, i: u64) -> bool
    requires { i < elf.now.header.shnum }
    ensures { result ≡ ((section_in elf.now.bytes elf.now.header i).kind == kind) }
{
    section(elf, i).kind == kind
}

/// The first section of a type (sh_type).
#[tactic(auto, unfolding(crate::specs::Sections::first_section), using(ifs_bytes::proofs::Range::find_here, ifs_bytes::proofs::Range::find_later, ifs_bytes::proofs::Range::find_end))]
pub fn first_section(elf: &Elf, kind: u32) -> Option<SectionHeader>
    ensures { result ≡ first_section elf.now.bytes elf.now.header kind }
{
    for i in 0..elf.header().shnum {
        if has_type(elf, kind, i) {
            return Some(section(elf, i));
        }
    }
    None
}

// The string table that a section names by sh_link.
#[tactic(auto, unfolding(crate::specs::Sections::string_section))]
fn string_section(elf: &Elf, link: u32) -> Result<SectionHeader, ElfCause>
    ensures { result ≡ string_section elf.now.bytes elf.now.header link }
{
    match elf.section(u64::from(link)) {
        Some(section) if section.kind == SHT_STRTAB => Ok(section),
        _ => Err(ElfCause::BadHeader),
    }
}

// The strings of a table, which lies in the file as they do.
#[tactic(auto, unfolding(crate::specs::Sections::strings_by_section))]
fn strings_by_section(elf: &Elf, table: &SectionHeader) -> Result<Strings, ElfCause>
    ensures exact { result ≡ strings_by_section elf.now.bytes elf.now.header table.now }
    ensures table_lies { IfOk result (λ _. table.now.offset + table.now.size ≤ length elf.now.bytes) }
    ensures strings_lie { IfOk result (StringsLie elf.now.bytes) }
{
    let bytes = elf.bytes();
    if !has_room(bytes, table.offset, table.size, 1) {
        return Err(ElfCause::Truncated(table.offset));
    }
    let strings = string_section(elf, table.link)?;
    if !has_room(bytes, strings.offset, strings.size, 1) {
        return Err(ElfCause::Truncated(strings.offset));
    }
    Ok(Strings {
        from: strings.offset,
        size: strings.size,
    })
}

/// How many records stand in a table.
#[tactic(auto, using(crate::proofs::Division::whole_records))]
pub fn record_count(size: u64, each: usize) -> u64
    requires { 0 < each }
    ensures count { result ≡ size / each }
    ensures within { result * each ≤ size }
{
    size / each as u64
}

/// The places by the dynamic section and the section of dynamic symbols.
#[tactic(auto, unfolding(crate::specs::Sections::places_by_sections))]
pub fn places_by_sections(
    elf: &Elf,
    dynamics: &SectionHeader,
    symbols: &SectionHeader,
) -> Result<Places, ElfCause>
    ensures exact { result ≡ places_by_sections elf.now.bytes elf.now.header dynamics.now symbols.now }
    ensures lie { IfOk result (PlacesLie elf.now.bytes) }
{
    let order = elf.header().order;
    let width = elf.header().width;
    let entry_strings = strings_by_section(elf, dynamics)?;
    let row_strings = strings_by_section(elf, symbols)?;
    Ok(Places {
        entries: Entries {
            order,
            width,
            from: dynamics.offset,
            room: record_count(dynamics.size, dynamic_size(width)),
        },
        entry_strings,
        rows: Rows {
            order,
            width,
            from: symbols.offset,
            count: record_count(symbols.size, symbol_size(width)),
        },
        row_strings,
    })
}
