//! What bytes are as a library.

ghost use Rattle.std.specs.Prelude.{◌≡◌, IfOk};
ghost use Rattle.link_libs.specs.Source as meant;

use crate::any::AnyLib;
use elf_dyn::{ElfCause, Library};
use ifs_bytes::Memory;
use ifs_text::{TextCause, read};
use link_core::{LibCause, LibSource};
use std::alloc::Global;

// Whether bytes begin as an ELF file, or as an archive of objects or of their names.
fn begins_library(bytes: &[u8]) -> bool
    ensures { result ≡ meant.begins_library bytes.now }
{
    bytes.starts_with(b"\x7fELF")
        || bytes.starts_with(b"!<arch>\n")
        || bytes.starts_with(b"!<thin>\n")
}

// A shared library as it can be linked against.
fn held(library: Library) -> LibSource<AnyLib>
    ensures { result ≡ meant.held library }
{
    if library.is_versioned() {
        LibSource::Versioned
    } else {
        LibSource::Held(AnyLib::File(library))
    }
}

// The shared library that bytes are.
fn file_source(alloc: Global, bytes: &[u8]) -> Result<LibSource<AnyLib>, Memory>
    ensures { IfOk result (λ source. source ≡ meant.file_source bytes.now) }
{
    match Library::parse(alloc, bytes) {
        Ok(library) => Ok(held(library)),
        Err(ElfCause::Memory) => Err(Memory),
        Err(cause) => Ok(LibSource::Refused(LibCause::Elf(cause))),
    }
}

// The interface that a text is.
fn text_source(alloc: Global, text: &[u8]) -> Result<LibSource<AnyLib>, Memory>
    ensures { IfOk result (λ source. source ≡ meant.text_source text.now) }
{
    match read(alloc, text) {
        Ok(interface) => Ok(LibSource::Held(AnyLib::Text(interface))),
        Err(TextCause::Memory) => Err(Memory),
        Err(cause) => Ok(LibSource::Refused(LibCause::Text(cause))),
    }
}

/// What bytes are as a library. Bytes that begin as an ELF file or as an archive are read as a shared
/// library, all others as an interface text. A shared library that defines symbol versions is Versioned.
/// Bytes that can't be read are Refused, with the cause of `Library::parse` or of `ifs_text::read`.
#[tactic(auto, unfolding(crate::specs::Source::source_of))]
pub fn read_lib(alloc: Global, bytes: &[u8]) -> Result<LibSource<AnyLib>, Memory>
    ensures { IfOk result (λ source. source ≡ meant.source_of bytes.now) }
{
    if begins_library(bytes) {
        file_source(alloc, bytes)
    } else {
        text_source(alloc, bytes)
    }
}
