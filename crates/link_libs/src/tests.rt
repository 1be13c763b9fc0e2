//! Bytes are read as what they are, and the first library that wasn't read is named.

use super::*;
use elf_dyn::ElfCause;
use ifs_bytes::{Memory, Text};
use ifs_interface::{Fact, SharedLib};
use ifs_text::TextCause;
use link_core::{Lib, LibCause, LibSource, LinkRefusal, LinkStop};
use std::alloc::Global;
use std::test::Fail;

// A shared library, of 32 bits with the lowest byte first, that defines `foo` and has no soname. An entry of
// its dynamic table, DT_DEBUG, stands at ENTRY.
static LIBRARY: [u8; 268] = [
    0x7f, 0x45, 0x4c, 0x46, 0x01, 0x01, 0x01, 0x00, 0x00, 0x00, 0x00, 0x00, 0x00, 0x00, 0x00, 0x00,
    0x03, 0x00, 0x03, 0x00, 0x01, 0x00, 0x00, 0x00, 0x00, 0x00, 0x00, 0x00, 0x00, 0x00, 0x00, 0x00,
    0x6c, 0x00, 0x00, 0x00, 0x00, 0x00, 0x00, 0x00, 0x34, 0x00, 0x00, 0x00, 0x00, 0x00, 0x28, 0x00,
    0x04, 0x00, 0x02, 0x00, 0x00, 0x00, 0x00, 0x00, 0x00, 0x00, 0x00, 0x00, 0x00, 0x00, 0x00, 0x00,
    0x00, 0x00, 0x00, 0x00, 0x01, 0x00, 0x00, 0x00, 0x00, 0x10, 0x00, 0x00, 0x04, 0x00, 0x00, 0x00,
    0x12, 0x00, 0x01, 0x00, 0x00, 0x66, 0x6f, 0x6f, 0x00, 0x00, 0x00, 0x00, 0x15, 0x00, 0x00, 0x00,
    0x00, 0x00, 0x00, 0x00, 0x00, 0x00, 0x00, 0x00, 0x00, 0x00, 0x00, 0x00, 0x00, 0x00, 0x00, 0x00,
    0x00, 0x00, 0x00, 0x00, 0x00, 0x00, 0x00, 0x00, 0x00, 0x00, 0x00, 0x00, 0x00, 0x00, 0x00, 0x00,
    0x00, 0x00, 0x00, 0x00, 0x00, 0x00, 0x00, 0x00, 0x00, 0x00, 0x00, 0x00, 0x00, 0x00, 0x00, 0x00,
    0x00, 0x00, 0x00, 0x00, 0x00, 0x00, 0x00, 0x00, 0x0b, 0x00, 0x00, 0x00, 0x02, 0x00, 0x00, 0x00,
    0x00, 0x00, 0x00, 0x00, 0x34, 0x00, 0x00, 0x00, 0x20, 0x00, 0x00, 0x00, 0x02, 0x00, 0x00, 0x00,
    0x01, 0x00, 0x00, 0x00, 0x04, 0x00, 0x00, 0x00, 0x10, 0x00, 0x00, 0x00, 0x00, 0x00, 0x00, 0x00,
    0x03, 0x00, 0x00, 0x00, 0x02, 0x00, 0x00, 0x00, 0x00, 0x00, 0x00, 0x00, 0x54, 0x00, 0x00, 0x00,
    0x08, 0x00, 0x00, 0x00, 0x00, 0x00, 0x00, 0x00, 0x00, 0x00, 0x00, 0x00, 0x01, 0x00, 0x00, 0x00,
    0x00, 0x00, 0x00, 0x00, 0x00, 0x00, 0x00, 0x00, 0x06, 0x00, 0x00, 0x00, 0x03, 0x00, 0x00, 0x00,
    0x00, 0x00, 0x00, 0x00, 0x5c, 0x00, 0x00, 0x00, 0x10, 0x00, 0x00, 0x00, 0x02, 0x00, 0x00, 0x00,
    0x00, 0x00, 0x00, 0x00, 0x04, 0x00, 0x00, 0x00, 0x08, 0x00, 0x00, 0x00,
];

const ENTRY: usize = 92;

// The first bytes of the tag DT_VERDEF, 0x6ffffffc.
const VERDEF: [u8; 4] = [0xfc, 0xff, 0xff, 0x6f];

static TEXT: &[u8] =
    b"--- !ifs-v1\nIfsVersion: 3.0\nSoName: libfoo.so\nSymbols:\n  - { Name: foo, Type: Func }\n";

// What was read of bytes, by a call that says nothing of it.
fn source_of(alloc: Global, bytes: &[u8]) -> Result<LibSource<AnyLib>, Memory> {
    read_lib(alloc, bytes)
}

// Why bytes aren't read, where they aren't.
fn cause_of(alloc: Global, bytes: &[u8]) -> Result<Option<LibCause>, Memory> {
    match source_of(alloc, bytes)? {
        LibSource::Held(_) => Ok(None),
        LibSource::Versioned => Ok(None),
        LibSource::Refused(cause) => Ok(Some(cause)),
    }
}

// What a library that was read says of `foo`, and whether it has a soname.
fn foo_of(alloc: Global, bytes: &[u8]) -> Result<Option<(Fact, bool)>, Memory> {
    match source_of(alloc, bytes)? {
        LibSource::Held(lib) => Ok(lib.fact(b"foo").map(|fact| (fact, lib.soname().is_some()))),
        LibSource::Versioned => Ok(None),
        LibSource::Refused(_) => Ok(None),
    }
}

// The library with another tag at ENTRY.
fn tagged(alloc: Global, tag: &[u8; 4]) -> Result<Vec<u8>, Memory> {
    let mut file = Vec::from_slice(alloc, &LIBRARY)?;
    for (i, byte) in tag.iter().enumerate() {
        if let Some(old) = file.get_mut(ENTRY + i) {
            *old = *byte;
        }
    }
    Ok(file)
}

#[test]
fn both_forms_are_read(rt: HostRuntime) -> Result<(), Fail> {
    assert_eq!(rt; foo_of(rt.alloc(), &LIBRARY)?, Some((Fact::Func, false)));
    assert_eq!(rt; foo_of(rt.alloc(), TEXT)?, Some((Fact::Func, true)));
    Ok(())
}

#[test]
fn other_bytes_have_their_causes(rt: HostRuntime) -> Result<(), Fail> {
    let alloc = rt.alloc();
    assert_eq!(rt;
        cause_of(alloc, b"!<arch>\n")?,
        Some(LibCause::Elf(ElfCause::Archive))
    );
    assert_eq!(rt;
        cause_of(alloc, b"!<thin>\n/")?,
        Some(LibCause::Elf(ElfCause::Archive))
    );
    assert_eq!(rt;
        cause_of(alloc, b"\x7fELF")?,
        Some(LibCause::Elf(ElfCause::Truncated(0)))
    );
    assert_eq!(rt;
        cause_of(alloc, b"")?,
        Some(LibCause::Text(TextCause::NotIfs))
    );
    Ok(())
}

#[test]
fn versions_are_seen(rt: HostRuntime) -> Result<(), Fail> {
    let file = tagged(rt.alloc(), &VERDEF)?;
    let versioned = match source_of(rt.alloc(), &file)? {
        LibSource::Held(_) => false,
        LibSource::Versioned => true,
        LibSource::Refused(_) => false,
    };
    assert!(rt; versioned);
    Ok(())
}

// A library of these bytes.
fn lib(alloc: Global, bytes: &[u8]) -> Result<Lib<AnyLib>, Memory> {
    Ok(Lib {
        file_name: Text::from_slice(alloc, b"libfoo.so")?,
        source: source_of(alloc, bytes)?,
    })
}

// Whether libraries can be linked against; fewer than 256 are looked at.
fn check(alloc: Global, files: &[&[u8]]) -> Result<(), LinkStop> {
    let mut libs = Vec::new(alloc);
    for file in files {
        libs.push(lib(alloc, file)?)?;
    }
    if libs.len() > 256 {
        return Ok(());
    }
    check_sides(alloc, &libs)
}

#[test]
fn the_first_that_was_not_read_is_named(rt: HostRuntime) -> Result<(), Fail> {
    let alloc = rt.alloc();
    let versioned = tagged(alloc, &VERDEF)?;
    assert_eq!(rt; check(alloc, &[&LIBRARY, &versioned, TEXT]), Ok(()));
    let cause = LibCause::Text(TextCause::NotIfs);
    let refusal = LinkRefusal::BadLibrary(2, cause);
    assert_eq!(rt;
        check(alloc, &[TEXT, &versioned, b"", b"!<arch>\n"]),
        Err(LinkStop::Refused(refusal))
    );
    Ok(())
}
