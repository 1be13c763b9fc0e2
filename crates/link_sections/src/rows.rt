//! Section headers.

ghost use Rattle.std.specs.Prelude.{◌≡◌, ◌+◌, ◌<◌, length};
ghost use Rattle.link_core.specs.Headers as headers;
ghost use Rattle.link_placed.specs.Made.{link_of};
ghost use Rattle.link_sections.specs.Rows as meant;

use crate::tables::{entry_size, info_of, linked, table_at};
use elf_file::SectionHeader;
use link_core::{Machine, OutSection};
use link_placed::{Link, Table};
use link_segments::offset_of;

const SHT_STRTAB: u32 = 3;

/// The header for no section.
pub(crate) fn null_row() -> SectionHeader
    ensures { result ≡ headers.null_section }
{
    SectionHeader {
        name: 0,
        kind: 0,
        flags: 0,
        addr: 0,
        offset: 0,
        size: 0,
        link: 0,
        info: 0,
        align: 0,
        entsize: 0,
    }
}

// The place of a name in .shstrtab.
fn name_at(starts: &[u32], i: usize) -> u32
    ensures { result ≡ meant.name_in starts.now i }
{
    match starts.get(i) {
        Some(at) => *at,
        None => 0,
    }
}

// The number of a table among the section headers, 0 for none.
fn number_of<M: Machine>(p: &Link<'_, M>, table: Option<Table>) -> u32
    ensures { result ≡ meant.number_of (link_of M.rules p.now) table }
{
    p.is_made();
    match table {
        Some(table) => (p.position(table) + 1) as u32,
        None => 0,
    }
}

/// The header of a section, whose name is at a place among the strings of .shstrtab.
pub(crate) fn section_row<M: Machine>(
    p: &Link<'_, M>,
    starts: &[u32],
    i: usize,
    s: &OutSection,
) -> SectionHeader
    ensures { result ≡ meant.row_in starts.now (link_of M.rules p.now) (i, s.now) }
{
    let table = table_at(p.positions(), i);
    SectionHeader {
        name: name_at(starts, i),
        kind: s.kind,
        flags: s.flags,
        addr: s.address,
        offset: offset_of(p, s.address),
        size: s.size,
        link: number_of(p, linked(table)),
        info: info_of(table),
        align: s.align,
        entsize: entry_size(table),
    }
}

/// The header of .shstrtab, whose own name is the last of its strings.
#[tactic(auto, unfolding(link_core::specs::Headers::names_offset))]
pub(crate) fn names_row<M: Machine>(p: &Link<'_, M>, starts: &[u32]) -> SectionHeader
    ensures { result ≡ meant.names_row starts.now (link_of M.rules p.now) p.now.layout }
{
    let at = name_at(starts, p.layout().sections.as_slice().len());
    SectionHeader {
        name: at,
        kind: SHT_STRTAB,
        flags: 0,
        addr: 0,
        offset: offset_of(p, p.ends().file),
        size: at as u64 + 10,
        link: 0,
        info: 0,
        align: 1,
        entsize: 0,
    }
}
