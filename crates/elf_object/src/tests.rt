use super::*;
use elf_file::{ElfCause, NamePlace};
use ifs_bytes::{Memory, Text};
use std::alloc::Global;
use std::process::Abort;
use std::test::Fail;

mod fixtures;

use fixtures::MAIN;

// Writes these bytes over those of a file from `at` on.
fn put(file: &mut [u8], at: usize, bytes: &[u8]) {
    let mut place = at;
    for &byte in bytes {
        if let Some(old) = file.get_mut(place) {
            *old = byte;
        }
        place = place.saturating_add(1);
    }
}

// The object with these bytes from `at` on, or the cause.
fn parse_with(alloc: Global, at: usize, bytes: &[u8]) -> Result<Object, ObjectCause> {
    let mut file = match Vec::from_slice(alloc, MAIN) {
        Ok(file) => file,
        Err(_) => return Err(ObjectCause::Memory),
    };
    put(&mut file, at, bytes);
    Object::parse(alloc, Text::from_vec(file))
}

fn cause_of(alloc: Global, at: usize, bytes: &[u8]) -> Option<ObjectCause> {
    parse_with(alloc, at, bytes).err()
}

// Where section header `i` starts, and row `i` of the symbol table.
const SECTION_1: usize = 288 + 64;

const SECTION_2: usize = 288 + 128;

const ROW_1: usize = 128 + 24;

const ROW_2: usize = 128 + 48;

#[test]
fn each_cause(rt: HostRuntime) {
    let alloc = rt.alloc();
    let cases = [
        (0, b"\0".as_slice(), ObjectCause::Elf(ElfCause::NotElf)),
        (16, b"\x03", ObjectCause::Elf(ElfCause::WrongKind)),
        (
            SECTION_1 + 24,
            b"\xff\xff\xff\xff\xff\xff\xff\xff",
            ObjectCause::Elf(ElfCause::Truncated(u64::MAX)),
        ),
        (
            SECTION_1 + 48,
            b"\x03",
            ObjectCause::Elf(ElfCause::BadHeader),
        ),
        (
            SECTION_1,
            b"\x2c",
            ObjectCause::Elf(ElfCause::BadName(NamePlace::Section(1))),
        ),
        (
            ROW_2,
            b"\x10",
            ObjectCause::Elf(ElfCause::BadName(NamePlace::Symbol(2))),
        ),
        (
            ROW_1 + 6,
            b"\x00\xff",
            ObjectCause::Elf(ElfCause::BadHeader),
        ),
        (SECTION_2 + 4, b"\x09", ObjectCause::BadRelocationTable(2)),
        (
            SECTION_1 + 8,
            b"\x06\x08",
            ObjectCause::CompressedSection(1),
        ),
        (ROW_1 + 4, b"\x1a", ObjectCause::IfuncDefinition(1)),
    ];
    for (at, bytes, cause) in cases {
        assert!(rt; cause_of(alloc, at, bytes) == Some(cause), "{at}");
    }
}

fn is_symbol(symbol: &ObjSymbol, name: &[u8], info: (u8, u8), place: ObjPlace, size: u64) -> bool {
    symbol.name.as_bytes() == name
        && symbol.binding == info.0
        && symbol.kind == info.1
        && symbol.place == place
        && symbol.size == size
}

fn is_main(rt: &impl Abort, object: &Object) {
    assert!(rt; object.machine() == 62);
    assert!(rt; object.bytes() == MAIN.as_slice());
    let names = [
        b"".as_slice(),
        b".text",
        b".rela.text",
        b".symtab",
        b".strtab",
        b".shstrtab",
    ];
    assert!(rt; object.sections().len() == 6);
    for (section, name) in object.sections().iter().zip(names) {
        assert!(rt; section.name.as_bytes() == name);
        assert!(rt; section.is_loadable() == (name == b".text".as_slice()));
    }
    let undefined = ObjPlace::Undefined;
    match object.symbols() {
        [none, start, foo, bar] => {
            assert!(rt; is_symbol(none, b"", (0, 0), undefined, 0));
            assert!(rt; is_symbol(start, b"_start", (1, 2), ObjPlace::In(1), 13));
            assert!(rt; is_symbol(foo, b"foo", (1, 0), undefined, 0));
            assert!(rt; is_symbol(bar, b"bar", (1, 0), undefined, 0));
        }
        symbols => assert!(rt; false, "{}", symbols.len()),
    }
    let call = Reference {
        section: 1,
        index: 0,
        offset: 1,
        symbol: 2,
        kind: 4,
        addend: -4,
    };
    let load = Reference {
        section: 1,
        index: 1,
        offset: 8,
        symbol: 3,
        kind: 42,
        addend: -4,
    };
    assert!(rt; object.references() == [call, load].as_slice());
    assert!(rt; object.groups().is_empty());
}

#[test]
fn an_object(rt: HostRuntime) {
    match parse_with(rt.alloc(), 0, b"\x7f") {
        Ok(object) => is_main(&rt, &object),
        Err(cause) => assert!(rt; false, "{cause:?}"),
    }
}

fn prints(
    rt: &(impl Abort + AllocGlobal),
    cause: ObjectCause,
    wanted: &[u8],
) -> Result<(), Memory> {
    assert_eq!(rt; cause.printed(rt.alloc())?.as_bytes(), wanted);
    Ok(())
}

#[test]
fn causes_are_printed(rt: HostRuntime) -> Result<(), Fail> {
    let elf = ObjectCause::Elf(ElfCause::Truncated(456));
    prints(&rt, elf, b"Elf(Truncated(456))")?;
    prints(
        &rt,
        ObjectCause::BadRelocationTable(4),
        b"BadRelocationTable(4)",
    )?;
    prints(
        &rt,
        ObjectCause::CompressedSection(1),
        b"CompressedSection(1)",
    )?;
    prints(&rt, ObjectCause::IfuncDefinition(7), b"IfuncDefinition(7)")?;
    prints(&rt, ObjectCause::Memory, b"Memory")?;
    Ok(())
}
