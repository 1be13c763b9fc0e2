//! An ELF file with its header (gABI, "ELF Header").

ghost use Rattle.std.specs.Prelude.{◌≡◌, ◌+◌, ◌≤◌, length, nat_lt, Some, None, IfOk, if◌then◌else◌};

use crate::cause::ElfCause;
use crate::header::{Header, header_of};
use crate::section::{SectionHeader, section_header_at};
use crate::segment::{Segment, segment_at};
use crate::sizes::{section_size, segment_size};
use std::marker::Model;

/// An ELF file: its bytes, with what its file header says. Both tables lie in the bytes.
#[derive(Debug, Drop)]
pub struct Elf<'a> {
    bytes: &'a [u8],
    header: Header,
}

impl<'a> Model for Elf<'a> {
    ghost use Rattle.elf_file.specs.ElfFile.{ElfFile, HeaderFits};

    ghost Value = { ElfFile };

    ghost view = { λ elf. record { bytes = elf.bytes.now; header = elf.header } };

    ghost invariant = { λ elf. HeaderFits elf.bytes.now elf.header };
}

impl<'a> Elf<'a> {
    ghost use Rattle.elf_file.specs.ElfFile.{HeaderFits, elf_of};
    ghost use Rattle.elf_file.specs.Header.{section_in, segment_in};

    /// The file with these bytes, or the first cause why it can't be read, in this order: `Archive`;
    /// `NotElf` without the magic number; `Truncated(0)` below the 16 bytes of e_ident; `BadHeader` for
    /// another class, byte order or version; `Truncated(0)` where the file header isn't whole; `BadHeader`
    /// for a table whose records have another size than the width's, or more program headers than
    /// e_phnum can say; `Truncated` with e_phoff or e_shoff where that table doesn't lie in the file. It
    /// takes no memory.
    pub fn parse(bytes: &'a [u8]) -> Result<Elf<'a>, ElfCause>
        ensures exact { result ≡ elf_of bytes.now }
        ensures fits { IfOk result (λ elf. HeaderFits elf.bytes elf.header) }
    {
        let header = header_of(bytes)?;
        Ok(Elf { bytes, header })
    }

    /// The bytes of the file.
    pub fn bytes(&self) -> &'a [u8]
        ensures { result.now ≡ self.now.bytes }
    {
        self.bytes
    }

    /// What the file header says.
    pub fn header(&self) -> &Header
        ensures { result.now ≡ self.now.header }
    {
        &self.header
    }

    /// The section header with the number `i`; None exactly from their number on.
    pub fn section(&self, i: u64) -> Option<SectionHeader>
        ensures { result ≡ (if nat_lt i self.now.header.shnum then Some (section_in self.now.bytes self.now.header i) else None) }
    {
        let header = &self.header;
        if i >= header.shnum {
            return None;
        }
        let at = header.shoff as usize + i as usize * section_size(header.width);
        Some(section_header_at(self.bytes, at, header.order, header.width))
    }

    /// The program header with the number `i`; None exactly from their number on.
    pub fn segment(&self, i: u64) -> Option<Segment>
        ensures { result ≡ (if nat_lt i self.now.header.phnum then Some (segment_in self.now.bytes self.now.header i) else None) }
    {
        let header = &self.header;
        if i >= header.phnum {
            return None;
        }
        let at = header.phoff as usize + i as usize * segment_size(header.width);
        Some(segment_at(self.bytes, at, header.order, header.width))
    }
}
