use super::*;
use elf_file::ElfCause;
use elf_object::ObjectCause;
use ifs_bytes::{Memory, Text};
use std::alloc::Global;
use std::test::Fail;

// A copy of a refusal, and its text. It has no clause, so that the tests compute.
fn copied(alloc: Global, refusal: &LinkRefusal) -> Result<(LinkRefusal, Text), Memory> {
    let copy = refusal.copy(alloc)?;
    let text = copy.printed(alloc)?;
    Ok((copy, text))
}

#[test]
fn refusals_are_copied_and_printed(rt: HostRuntime) -> Result<(), Fail> {
    let at = At {
        object: 0,
        section: 1,
        index: 2,
    };
    let name = Text::from_slice(rt.alloc(), b"foo")?;
    let refusals = [
        (
            LinkRefusal::Duplicate(name, 0, 1),
            b"Duplicate(foo, 0, 1)".as_slice(),
        ),
        (LinkRefusal::Overflow(at, -129), b"Overflow(0:1:2, -129)"),
        (
            LinkRefusal::MachineMismatch(Place::Library(3)),
            b"MachineMismatch(Library(3))",
        ),
        (
            LinkRefusal::BadObject(4, ObjectCause::BadRelocationTable(7)),
            b"BadObject(4, BadRelocationTable(7))",
        ),
        (
            LinkRefusal::BadLibrary(0, LibCause::Elf(ElfCause::NotElf)),
            b"BadLibrary(0, Elf(NotElf))",
        ),
    ];
    for (refusal, wanted) in &refusals {
        let (copy, text) = copied(rt.alloc(), refusal)?;
        assert!(rt; copy == *refusal);
        assert_eq!(rt; text.as_bytes(), *wanted);
    }
    Ok(())
}
