//! What a link reads: objects and libraries.

use crate::options::LinkOptions;
use elf_file::ElfCause;
use ifs_bytes::{List, Memory, Text};
use ifs_interface::Interface;
use ifs_text::TextCause;
use std::alloc::Global;

/// An object, as it comes: a relocatable file.
#[derive(Debug, PartialEq, Eq, Drop)]
pub struct Input {
    /// The name of the file.
    pub file_name: Text,
    /// The bytes of the file, fewer than 2^32.
    pub bytes: Text,
}

/// Why a library can't be read.
#[derive(Debug, PartialEq, Eq, Drop)]
pub enum LibCause {
    /// It is no shared library.
    Elf(ElfCause),
    /// It is no interface text.
    Text(TextCause),
}

/// What was read of a library.
#[derive(Debug, PartialEq, Eq, Drop)]
pub enum LibSource<S> {
    /// The library.
    Held(S),
    /// The library defines symbol versions (DT_VERDEF).
    Versioned,
    /// It can't be read.
    Refused(LibCause),
}

/// A library of a link.
#[derive(Debug, PartialEq, Eq, Drop)]
pub struct Lib<S> {
    /// The name of the file, by which the made file asks for the library where that has no soname.
    pub file_name: Text,
    /// What was read of it.
    pub source: LibSource<S>,
}

/// All that a link is made from.
#[derive(Debug, PartialEq, Eq, Drop)]
pub struct Job {
    /// The options.
    pub options: LinkOptions,
    /// The objects, 1 to 4,096, in the order in which they are linked.
    pub objects: List<Input>,
    /// The libraries, at most 256, in the order in which they are asked.
    pub libs: List<Lib<Interface>>,
}
