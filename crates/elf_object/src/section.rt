//! Sections (gABI, "Sections").

ghost use Rattle.std.specs.Prelude.{◌≡◌, ◌&&◌, ◌<◌, is_none, IfOk};
ghost use Rattle.std.specs.Prelude.{map};
ghost use Rattle.std.specs.Option.{option_copied};
ghost use Rattle.ifs_bytes.specs.Places.{places};
ghost use Rattle.elf_file.specs.Header.{section_in};
ghost use Rattle.elf_object.specs.Parts.{PartsLie};
ghost use Rattle.elf_object.specs.Sections as meant;

use crate::constants::{
    PROPERTY_NOTE, SHF_ALLOC, SHF_COMPRESSED, SHT_FINI_ARRAY, SHT_INIT_ARRAY, SHT_NOBITS, SHT_NOTE,
    SHT_PREINIT_ARRAY, SHT_PROGBITS, SHT_X86_64_UNWIND,
};
use crate::parts::{Parts, bytes_in, section};
use elf_file::Elf;
use ifs_bytes::{Memory, Text, name_at};
use std::alloc::Global;

/// A section, with its name.
#[derive(Debug, PartialEq, Eq, Drop)]
pub struct ObjSection {
    /// Its name.
    pub name: Text,
    /// sh_type.
    pub kind: u32,
    /// sh_flags.
    pub flags: u64,
    /// sh_offset: where its bytes stand in the file, unless it is SHT_NOBITS.
    pub offset: u64,
    /// sh_size: how many bytes it has.
    pub size: u64,
    /// sh_addralign: 0, or a power of two up to 65,536.
    pub align: u64,
}

/// The name of section `i`.
#[tactic(auto, unfolding(crate::specs::Sections::section_name))]
pub fn section_name<'a>(elf: &Elf<'a>, parts: &Parts, i: u64) -> Option<&'a [u8]>
    requires lie { PartsLie elf.now.bytes elf.now.header parts.now }
    requires within { i < elf.now.header.shnum }
    ensures { option_copied result ≡ meant.section_name elf.now.bytes elf.now.header parts.now i }
{
    name_at(
        bytes_in(elf.bytes(), parts.names),
        u64::from(section(elf, i).name),
    )
}

// Whether section `i` has no name.
fn is_unnamed(elf: &Elf, parts: &Parts, i: u64) -> bool
    requires lie { PartsLie elf.now.bytes elf.now.header parts.now }
    requires within { i < elf.now.header.shnum }
    ensures { result ≡ is_none (meant.section_name elf.now.bytes elf.now.header parts.now i) }
{
    section_name(elf, parts, i).is_none()
}

/// The first section without a name.
#[tactic(auto, unfolding(crate::specs::Sections::unnamed_section), using(ifs_bytes::proofs::Range::find_here, ifs_bytes::proofs::Range::find_later, ifs_bytes::proofs::Range::find_end))]
pub fn unnamed_section(elf: &Elf, parts: &Parts) -> Option<u64>
    requires { PartsLie elf.now.bytes elf.now.header parts.now }
    ensures { result ≡ meant.unnamed_section elf.now.bytes elf.now.header parts.now }
{
    for i in 0..elf.header().shnum {
        if is_unnamed(elf, parts, i) {
            return Some(i);
        }
    }
    None
}

/// The section with the number `i`.
#[tactic(auto, unfolding(crate::specs::Sections::section_at))]
fn section_at(alloc: Global, elf: &Elf, parts: &Parts, i: u64) -> Result<ObjSection, Memory>
    requires lie { PartsLie elf.now.bytes elf.now.header parts.now }
    requires within { i < elf.now.header.shnum }
    ensures { IfOk result (λ section. section ≡ meant.section_at elf.now.bytes elf.now.header parts.now i) }
{
    let header = section(elf, i);
    let name = section_name(elf, parts, i).unwrap_or(&[]);
    Ok(ObjSection {
        name: Text::from_slice(alloc, name)?,
        kind: header.kind,
        flags: header.flags,
        offset: header.offset,
        size: header.size,
        align: header.align,
    })
}

/// All sections, in order.
#[tactic(auto, using(crate::proofs::Range::map_turn, crate::proofs::Range::map_end))]
pub fn sections_of(alloc: Global, elf: &Elf, parts: &Parts) -> Result<Vec<ObjSection>, Memory>
    requires { PartsLie elf.now.bytes elf.now.header parts.now }
    ensures { IfOk result (λ sections. sections.items
        ≡ map (meant.section_at elf.now.bytes elf.now.header parts.now) (places 0 elf.now.header.shnum)) }
{
    let count = elf.header().shnum;
    let mut sections = Vec::with_capacity(alloc, count as usize)?;
    for i in 0..count {
        sections.push(section_at(alloc, elf, parts, i)?)?;
    }
    Ok(sections)
}

// Whether the flags have SHF_ALLOC.
fn is_alloc(flags: u64) -> bool
    ensures { result ≡ meant.is_alloc flags }
{
    flags / SHF_ALLOC % 2 == 1
}

// Whether the flags have SHF_COMPRESSED.
fn is_compressed(flags: u64) -> bool
    ensures { result ≡ meant.is_compressed flags }
{
    flags / SHF_COMPRESSED % 2 == 1
}

// Whether a link takes sections of this type into its image.
fn is_image_kind(kind: u32) -> bool
    ensures { result ≡ meant.is_image_kind kind }
{
    kind == SHT_PROGBITS
        || kind == SHT_NOTE
        || kind == SHT_NOBITS
        || kind == SHT_INIT_ARRAY
        || kind == SHT_FINI_ARRAY
        || kind == SHT_PREINIT_ARRAY
        || kind == SHT_X86_64_UNWIND
}

// Whether this is the name of the note that a linker makes of those of all objects.
fn is_property_note(name: &[u8]) -> bool
    ensures { result ≡ meant.is_property_note name.now }
{
    name == PROPERTY_NOTE
}

impl ObjSection {
    /// Whether a link takes the section into its image, if it keeps it: it is loaded into memory
    /// (SHF_ALLOC), of a type that a program's own sections have, and not `.note.gnu.property`.
    #[tactic(auto, unfolding(crate::specs::Sections::is_loadable))]
    pub fn is_loadable(&self) -> bool
        ensures { result ≡ meant.is_loadable self.now }
    {
        is_alloc(self.flags) && is_image_kind(self.kind) && !is_property_note(self.name.as_bytes())
    }
}

/// Whether section `i` is there and loadable.
#[tactic(auto, unfolding(crate::specs::Sections::is_loadable_at, crate::specs::Sections::is_loadable, crate::specs::Sections::section_at))]
pub fn is_loadable_at(elf: &Elf, parts: &Parts, i: u64) -> bool
    requires { PartsLie elf.now.bytes elf.now.header parts.now }
    ensures { result ≡ meant.is_loadable_at elf.now.bytes elf.now.header parts.now i }
{
    if i >= elf.header().shnum {
        return false;
    }
    let header = section(elf, i);
    is_alloc(header.flags)
        && is_image_kind(header.kind)
        && !is_property_note(section_name(elf, parts, i).unwrap_or(&[]))
}

// Whether section `i` is loaded and compressed.
fn is_compressed_at(elf: &Elf, i: u64) -> bool
    requires { i < elf.now.header.shnum }
    ensures { result ≡ (meant.is_alloc (section_in elf.now.bytes elf.now.header i).flags
        && meant.is_compressed (section_in elf.now.bytes elf.now.header i).flags) }
{
    let flags = section(elf, i).flags;
    is_alloc(flags) && is_compressed(flags)
}

/// The first section that is loaded and compressed.
#[tactic(auto, unfolding(crate::specs::Sections::compressed_section), using(ifs_bytes::proofs::Range::find_here, ifs_bytes::proofs::Range::find_later, ifs_bytes::proofs::Range::find_end))]
pub fn compressed_section(elf: &Elf) -> Option<u64>
    ensures { result ≡ meant.compressed_section elf.now.bytes elf.now.header }
{
    for i in 0..elf.header().shnum {
        if is_compressed_at(elf, i) {
            return Some(i);
        }
    }
    None
}
