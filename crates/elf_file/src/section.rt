//! Section headers (gABI, "Section Header").

ghost use Rattle.std.specs.Prelude.{◌≡◌, ◌+◌, ◌≤◌, length, is_ok};
ghost use Rattle.ifs_bytes.specs.Outcome.{appended};
ghost use Rattle.elf_file.specs.Tables.{section_size, section_header_at};
ghost use Rattle.elf_file.specs.Written.{FitsSection, section_bytes};

use crate::put::{Field, put_fields, word};
use ifs_bytes::{Memory, Order, Width, u32_at, word_at};

/// A section header, Elf32_Shdr or Elf64_Shdr.
#[derive(Clone, Copy, Debug, PartialEq, Eq)]
pub struct SectionHeader {
    /// sh_name: where the name stands in the string table of section names.
    pub name: u32,
    /// sh_type.
    pub kind: u32,
    /// sh_flags.
    pub flags: u64,
    /// sh_addr: the address in memory.
    pub addr: u64,
    /// sh_offset: where the bytes stand in the file.
    pub offset: u64,
    /// sh_size: how many bytes there are.
    pub size: u64,
    /// sh_link: the number of another section.
    pub link: u32,
    /// sh_info.
    pub info: u32,
    /// sh_addralign.
    pub align: u64,
    /// sh_entsize: how many bytes an entry has.
    pub entsize: u64,
}

/// The section header at the offset `at`, which lies in `bytes`.
#[tactic(auto, unfolding(crate::specs::Tables::section_header_at), using(crate::proofs::ByWord::section_size_is))]
pub fn section_header_at(bytes: &[u8], at: usize, order: Order, width: Width) -> SectionHeader
    requires { at + section_size width ≤ length bytes.now }
    ensures { result ≡ section_header_at bytes.now at order width }
{
    let w = width.bytes();
    SectionHeader {
        name: u32_at(bytes, at, order),
        kind: u32_at(bytes, at + 4, order),
        flags: word_at(bytes, at + 8, order, width),
        addr: word_at(bytes, at + (8 + w), order, width),
        offset: word_at(bytes, at + (8 + 2 * w), order, width),
        size: word_at(bytes, at + (8 + 3 * w), order, width),
        link: u32_at(bytes, at + (8 + 4 * w), order),
        info: u32_at(bytes, at + (12 + 4 * w), order),
        align: word_at(bytes, at + (16 + 4 * w), order, width),
        entsize: word_at(bytes, at + (16 + 5 * w), order, width),
    }
}

/// Appends a section header, whose values fit their fields; where memory runs out `out` stays as it was.
#[tactic(auto, unfolding(crate::specs::Written::section_bytes))]
pub fn put_section(
    out: &mut Vec<u8>,
    s: &SectionHeader,
    order: Order,
    width: Width,
) -> Result<(), Memory>
    requires { FitsSection s.now width }
    ensures { out.new.items ≡ appended (is_ok result) out.old.items (section_bytes s.now order width) }
{
    let fields = [
        Field::Four(s.name),
        Field::Four(s.kind),
        word(s.flags, width),
        word(s.addr, width),
        word(s.offset, width),
        word(s.size, width),
        Field::Four(s.link),
        Field::Four(s.info),
        word(s.align, width),
        word(s.entsize, width),
    ];
    put_fields(out, &fields, order)
}
