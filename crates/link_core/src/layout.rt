//! Where everything of the made file stands.

use ifs_bytes::{List, Text};

/// A piece: an input section at its place.
#[derive(Clone, Copy, Debug, PartialEq, Eq)]
pub struct PieceAt {
    /// The position of the object.
    pub object: u32,
    /// The number of the section.
    pub section: u32,
    /// The position of its output section in `Layout::sections`.
    pub out: u32,
    /// Its address.
    pub address: u64,
}

/// A section of the made file.
#[derive(Debug, PartialEq, Eq, Drop)]
pub struct OutSection {
    /// Its name.
    pub name: Text,
    /// Its type, sh_type.
    pub kind: u32,
    /// Its flags, sh_flags.
    pub flags: u64,
    /// Its address, sh_addr.
    pub address: u64,
    /// Its size in bytes, sh_size.
    pub size: u64,
    /// Its alignment, sh_addralign.
    pub align: u64,
}

/// A common symbol at its place.
#[derive(Clone, Copy, Debug, PartialEq, Eq)]
pub struct CommonAt {
    /// The position of the name.
    pub name: u64,
    /// Its address.
    pub address: u64,
}

/// Where everything of the made file stands.
#[derive(Debug, PartialEq, Eq, Drop)]
pub struct Layout {
    /// The sections of the section header table, in its order, without the null one and .shstrtab.
    pub sections: List<OutSection>,
    /// The pieces, in their order.
    pub pieces: List<PieceAt>,
    /// The common symbols, in name order.
    pub commons: List<CommonAt>,
    /// The address at which the writable segment ends in memory.
    pub end: u64,
    /// The address of the thread-local segment (PT_TLS); this and the next three are 0 where there is none.
    pub tls_start: u64,
    /// Its size in the file.
    pub tls_file: u64,
    /// Its size in memory.
    pub tls_size: u64,
    /// Its alignment.
    pub tls_align: u64,
}
