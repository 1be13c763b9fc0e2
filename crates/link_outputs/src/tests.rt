use super::*;
use elf_object::ObjSection;
use ifs_bytes::{Memory, Text};
use link_core::{SHF_EXECINSTR, SHF_WRITE};
use std::alloc::Global;
use std::test::Fail;

// A section of an object.
fn section(alloc: Global, name: &[u8], flags: u64) -> Result<ObjSection, Memory> {
    Ok(ObjSection {
        name: Text::from_slice(alloc, name)?,
        kind: 1,
        flags,
        offset: 0,
        size: 1,
        align: 1,
    })
}

// The sections of an object in groups. It has no clause, so that the test computes.
fn grouped<'a>(alloc: Global, sections: &'a [ObjSection]) -> Result<Vec<Grouped<'a>>, Memory> {
    let mut pieces = Vec::new(alloc);
    for input in sections {
        pieces.push(Piece {
            object: 0,
            section: 0,
            input,
        })?;
    }
    group(alloc, &pieces)
}

// The names of groups, for the same reason.
fn names<'a>(alloc: Global, groups: &[Grouped<'a>]) -> Result<Vec<&'a [u8]>, Memory> {
    section_names(alloc, groups)
}

#[test]
fn sections_are_grouped(rt: HostRuntime) -> Result<(), Fail> {
    let sections = [
        section(rt.alloc(), b".text.a", SHF_EXECINSTR)?,
        section(rt.alloc(), b".data", SHF_WRITE)?,
        section(rt.alloc(), b".text", SHF_EXECINSTR)?,
    ];
    let groups = grouped(rt.alloc(), &sections)?;
    assert_eq!(rt; groups.len(), 2);
    let wanted = [(b".text".as_slice(), 2), (b".data", 1)];
    for (group, (name, count)) in groups.iter().zip(&wanted) {
        assert_eq!(rt; group.name, *name);
        assert_eq!(rt; group.pieces.len(), *count);
    }
    let sorted = [b".data".as_slice(), b".text"];
    for (name, wanted) in names(rt.alloc(), &groups)?.iter().zip(&sorted) {
        assert_eq!(rt; *name, *wanted);
    }
    Ok(())
}
