use super::*;
use elf_file::{Dyn, put_dyn};
use ifs_bytes::{Memory, Order, Text, Width};
use ifs_interface::{Fact, SharedLib};
use std::alloc::Global;
use std::process::Abort;
use std::test::Fail;

mod cases;
mod fixtures;

use cases::{
    Answer, BY_ADDRESS, DAMAGED, Damage, Damaged, FACTS, Facts, File, GNU_32_NAMES, GNU_DAMAGE,
    GNU_NAMES, LOADED_ROWS, NAMES, Names, QUIRKS_ROWS, SECTION_DAMAGE, SEGMENT_DAMAGE, STUB_ROWS,
    SeenRow, TWICE_WANTED,
};
use fixtures::{FOO, GNU, PPC_STUB, QUIRKS, STUB};

// Writes these bytes over those of a file from `at` on.
fn put(file: &mut [u8], at: usize, bytes: &[u8]) {
    let mut place = at;
    for &byte in bytes {
        if let Some(old) = file.get_mut(place) {
            *old = byte;
        }
        place = place.saturating_add(1);
    }
}

// A copy of a file, with these bytes from `at` on.
fn patched(alloc: Global, file: &[u8], at: usize, bytes: &[u8]) -> Result<Vec<u8>, Memory> {
    let mut copy = Vec::from_slice(alloc, file)?;
    put(&mut copy, at, bytes);
    Ok(copy)
}

// Why a file is refused, with these bytes from `at` on.
fn cause_of(
    alloc: Global,
    file: &[u8],
    at: usize,
    bytes: &[u8],
) -> Result<Option<ElfCause>, Memory> {
    let copy = patched(alloc, file, at, bytes)?;
    Ok(Library::parse(alloc, &copy).err())
}

// The stub without its section headers.
fn bare_stub(alloc: Global) -> Result<Vec<u8>, Memory> {
    let mut file = patched(alloc, &STUB, 40, &[0; 8])?;
    put(&mut file, 60, &[0; 4]);
    Ok(file)
}

// The same of 32 bits, highest byte first.
fn bare_ppc_stub(alloc: Global) -> Result<Vec<u8>, Memory> {
    let mut file = patched(alloc, &PPC_STUB, 32, &[0; 4])?;
    put(&mut file, 48, &[0; 4]);
    Ok(file)
}

// Appends a blank and the name of each row.
fn append_rows(names: &mut Text, rows: &[DynRow]) -> Result<(), Memory> {
    for row in rows {
        names.append(b" ")?;
        names.append(row.name.as_bytes())?;
    }
    Ok(())
}

// Appends ` <` and each name.
fn append_needed(names: &mut Text, needed: &[Text]) -> Result<(), Memory> {
    for name in needed {
        names.append(b" <")?;
        names.append(name.as_bytes())?;
    }
    Ok(())
}

// A library's names: the soname and a colon, then those of its rows and of the libraries that it needs.
fn append_names(names: &mut Text, library: &Library) -> Result<(), Memory> {
    if let Some(soname) = library.soname_text() {
        names.append(soname.as_bytes())?;
    }
    names.append(b":")?;
    append_rows(names, library.rows())?;
    append_needed(names, library.needed_texts())
}

// The names of the library in a file, with these bytes from `at` on.
fn names_of(alloc: Global, file: &[u8], at: usize, bytes: &[u8]) -> Result<Text, ElfCause> {
    let copy = patched(alloc, file, at, bytes)?;
    let library = Library::parse(alloc, &copy)?;
    let mut names = Text::new(alloc);
    append_names(&mut names, &library)?;
    Ok(names)
}

fn is_row(row: &DynRow, (name, kind, value, size): SeenRow) -> bool {
    row.name.as_bytes() == name
        && row.binding == 1
        && row.shndx == 1
        && row.kind == kind
        && row.value == value
        && row.size == size
}

// The file has these visible rows.
fn has_rows(
    rt: &(impl Abort + AllocGlobal),
    file: &[u8],
    wanted: &[SeenRow],
) -> Result<(), ElfCause> {
    let library = Library::parse(rt.alloc(), file)?;
    let rows = library.rows();
    assert!(rt; rows.len() == wanted.len(), "{rows:?}");
    for (row, wanted) in rows.iter().zip(wanted) {
        assert!(rt; is_row(row, *wanted), "{row:?}");
    }
    Ok(())
}

#[test]
fn rows_are_read(rt: HostRuntime) -> Result<(), Fail> {
    has_rows(&rt, &FOO, &LOADED_ROWS)?;
    has_rows(&rt, &GNU, &LOADED_ROWS)?;
    has_rows(&rt, &STUB, &STUB_ROWS)?;
    has_rows(&rt, &PPC_STUB, &STUB_ROWS)?;
    has_rows(&rt, &QUIRKS, &QUIRKS_ROWS)?;
    Ok(())
}

#[test]
fn rows_are_read_without_sections(rt: HostRuntime) -> Result<(), Fail> {
    has_rows(&rt, &bare_stub(rt.alloc())?, &STUB_ROWS)?;
    has_rows(&rt, &bare_ppc_stub(rt.alloc())?, &STUB_ROWS)?;
    Ok(())
}

// Whether a file's library is for this machine, order and width.
fn is_for(
    alloc: Global,
    file: &[u8],
    machine: u16,
    order: Order,
    width: Width,
) -> Result<bool, ElfCause> {
    let library = Library::parse(alloc, file)?;
    Ok(library.machine_number() == machine && library.order() == order && library.width() == width)
}

#[test]
fn targets_are_read(rt: HostRuntime) -> Result<(), Fail> {
    assert!(rt; is_for(rt.alloc(), &FOO, 62, Order::Little, Width::W64)?);
    assert!(rt; is_for(rt.alloc(), &PPC_STUB, 20, Order::Big, Width::W32)?);
    Ok(())
}

#[test]
fn versions_are_seen(rt: HostRuntime) -> Result<(), Fail> {
    assert!(rt; !Library::parse(rt.alloc(), &FOO)?.is_versioned());
    // DT_SYMENT made DT_VERDEF.
    let file = patched(rt.alloc(), &FOO, 0x188, &[0xfc, 0xff, 0xff, 0x6f])?;
    assert!(rt; Library::parse(rt.alloc(), &file)?.is_versioned());
    Ok(())
}

// Each change of a file leaves these names.
fn has_names(
    rt: &(impl Abort + AllocGlobal),
    file: &[u8],
    table: &[Names],
) -> Result<(), ElfCause> {
    for &(at, bytes, wanted) in table {
        let names = names_of(rt.alloc(), file, at, bytes)?;
        assert_eq!(rt; names.as_bytes(), wanted, "at {at}: {bytes:?}");
    }
    Ok(())
}

#[test]
fn names_that_are_seen(rt: HostRuntime) -> Result<(), Fail> {
    has_names(&rt, &STUB, &NAMES)?;
    has_names(&rt, &bare_stub(rt.alloc())?, &BY_ADDRESS)?;
    has_names(&rt, &GNU, &GNU_NAMES)?;
    Ok(())
}

#[test]
fn bloom_words_have_the_width_of_the_file(rt: HostRuntime) -> Result<(), Fail> {
    has_names(&rt, &bare_ppc_stub(rt.alloc())?, &GNU_32_NAMES)?;
    Ok(())
}

// How strongly a library wants `bar` at a place.
fn wanted_bar(library: &Library, i: usize) -> Option<bool> {
    match library.wanted(i) {
        Some(wanted) if wanted.name == b"bar".as_slice() => Some(wanted.strong),
        _ => None,
    }
}

// The stub, so changed, says this of `bar`.
fn has_facts(
    rt: &(impl Abort + AllocGlobal),
    (at, bytes, fact, strong): Facts,
) -> Result<(), ElfCause> {
    let file = patched(rt.alloc(), &STUB, at, bytes)?;
    let library = Library::parse(rt.alloc(), &file)?;
    assert_eq!(rt; library.wanted_len(), 2);
    assert_eq!(rt; library.fact(b"bar"), fact, "at {at}: {bytes:?}");
    assert_eq!(rt; wanted_bar(&library, 0), strong[0], "at {at}: {bytes:?}");
    assert_eq!(rt; wanted_bar(&library, 1), strong[1], "at {at}: {bytes:?}");
    assert!(rt; library.fact(b"ba").is_none() && library.fact(b"libfoo.so").is_none());
    Ok(())
}

#[test]
fn facts_of_names(rt: HostRuntime) -> Result<(), Fail> {
    for facts in FACTS {
        has_facts(&rt, facts)?;
    }
    has_facts(&rt, TWICE_WANTED)?;
    Ok(())
}

#[test]
fn facts_of_the_library(rt: HostRuntime) -> Result<(), Fail> {
    let library = Library::parse(rt.alloc(), &FOO)?;
    assert_eq!(rt; library.soname(), Some(b"libfoo.so".as_slice()));
    assert!(rt; library.needed_len() == 0 && library.needed(0).is_none());
    assert_eq!(rt; library.fact(b"foo"), Some(Fact::Func));
    assert_eq!(rt; library.machine().machine, Some(62));
    Ok(())
}

// Each change of a file is refused for this cause.
fn is_refused(
    rt: &(impl Abort + AllocGlobal),
    file: &[u8],
    table: &[Damage],
) -> Result<(), Memory> {
    for &(at, bytes, wanted) in table {
        let cause = cause_of(rt.alloc(), file, at, bytes)?;
        assert!(rt; cause == Some(wanted), "at {at}: {cause:?}");
    }
    Ok(())
}

#[test]
fn files_that_are_damaged(rt: HostRuntime) -> Result<(), Fail> {
    is_refused(&rt, &STUB, &SECTION_DAMAGE)?;
    is_refused(&rt, &bare_stub(rt.alloc())?, &SEGMENT_DAMAGE)?;
    is_refused(&rt, &GNU, &GNU_DAMAGE)?;
    Ok(())
}

#[test]
fn the_dynamic_section_comes_first(rt: HostRuntime) -> Result<(), Fail> {
    let file = patched(rt.alloc(), &STUB, 544, &[0xff; 8])?;
    assert!(rt; cause_of(rt.alloc(), &file, 752, &[1])? == Some(ElfCause::BadHeader));
    Ok(())
}

fn file_of(alloc: Global, file: File) -> Result<Vec<u8>, Memory> {
    match file {
        File::Stub => Ok(Vec::from_slice(alloc, &STUB)?),
        File::BareStub => bare_stub(alloc),
        File::Gnu => Ok(Vec::from_slice(alloc, &GNU)?),
    }
}

// Whether the library, which has two rows, wants nothing and needs nothing.
fn wants_nothing(library: &Library) -> bool {
    library.needed_len() == 0
        && library.wanted_len() == 2
        && library.wanted(0).is_none()
        && library.wanted(1).is_none()
}

// Whether the library has the facts of the stub.
fn has_stub_facts(library: &Library) -> bool {
    library.machine_number() == 62
        && library.soname() == Some(b"libfoo.so".as_slice())
        && library.fact(b"bar") == Some(Fact::Object)
        && library.fact(b"foo") == Some(Fact::Func)
        && wants_nothing(library)
}

fn is_answer(read: &Result<Library, ElfCause>, answer: Answer) -> bool {
    match (read, answer) {
        (Err(cause), Answer::Refused(wanted)) => *cause == wanted,
        (Ok(library), Answer::StubFacts) => has_stub_facts(library),
        (Ok(library), Answer::NoNames) => library.soname().is_none() && library.rows().is_empty(),
        _ => false,
    }
}

// The file, changed and cut, is answered so.
fn is_answered(
    rt: &(impl Abort + AllocGlobal),
    (file, at, bytes, from, end, answer): Damaged,
) -> Result<(), Memory> {
    let damaged = patched(rt.alloc(), &file_of(rt.alloc(), file)?, at, bytes)?;
    for len in from..end {
        let (front, _) = damaged.split_at(len.min(damaged.len()));
        let read = Library::parse(rt.alloc(), front);
        assert!(rt;
            is_answer(&read, answer),
            "{bytes:?} at {at}, {len} bytes: {read:?}"
        );
    }
    Ok(())
}

#[test]
fn files_that_are_cut_or_damaged(rt: HostRuntime) -> Result<(), Fail> {
    for damaged in DAMAGED {
        is_answered(&rt, damaged)?;
    }
    Ok(())
}

// Appends `count` entries that need the library whose name starts at `value` of the strings.
fn put_needed(file: &mut Vec<u8>, count: u64, value: u64) -> Result<(), Memory> {
    for _ in 0..count {
        put_dyn(file, &Dyn { tag: 1, value }, Order::Little, Width::W64)?;
    }
    Ok(())
}

// The stub of 32 bits with `count` rows behind its end: each is GLOBAL and visible, and has a bad name.
fn many_rows(alloc: Global, count: u32) -> Result<Vec<u8>, Memory> {
    let mut file = Vec::from_slice(alloc, &PPC_STUB)?;
    let size = count.saturating_mul(16);
    // sh_offset and sh_size of .dynsym.
    put(&mut file, 364, &548u32.to_be_bytes());
    put(&mut file, 368, &size.to_be_bytes());
    file.resize(548usize.saturating_add(size as usize), 0x10)?;
    Ok(file)
}

#[test]
fn rows_and_needed_libraries_are_limited(rt: HostRuntime) -> Result<(), Fail> {
    let mut file = many_rows(rt.alloc(), 1_000_001)?;
    let cause = Library::parse(rt.alloc(), &file).err();
    assert!(rt; cause == Some(ElfCause::BadName(NamePlace::Symbol(1))));
    // A needed library beside them, without a name.
    put(&mut file, 248, &[0, 0, 0, 1, 0, 0, 0, 0]);
    let cause = Library::parse(rt.alloc(), &file).err();
    assert!(rt; cause == Some(ElfCause::TooMany(1_000_001)));
    Ok(())
}

// The stub with 1,024 dynamic entries behind its end and their strings behind these, by section 3: a name of
// 32,768 bytes is needed 1,023 times, and the name of its bytes from `last` on once. The rows' names have 6
// bytes, so that those of all names are 32 MiB where `last` is 6.
fn long_names(alloc: Global, last: u64) -> Result<Vec<u8>, Memory> {
    let mut file = Vec::from_slice(alloc, &STUB)?;
    // sh_offset, sh_size and sh_link of .dynamic.
    put(&mut file, 736, &840u64.to_le_bytes());
    put(&mut file, 744, &16384u64.to_le_bytes());
    put(&mut file, 752, &[3]);
    // sh_type, sh_offset and sh_size of section 3.
    put(&mut file, 652, &[3]);
    put(&mut file, 672, &17224u64.to_le_bytes());
    put(&mut file, 680, &32769u64.to_le_bytes());
    put_needed(&mut file, 1023, 0)?;
    put_needed(&mut file, 1, last)?;
    file.extend_from_slice(&[b'a'; 32768])?;
    file.push(0)?;
    Ok(file)
}

#[test]
fn long_names_are_limited(rt: HostRuntime) -> Result<(), Fail> {
    let file = long_names(rt.alloc(), 6)?;
    assert!(rt; Library::parse(rt.alloc(), &file).is_ok());
    let file = long_names(rt.alloc(), 5)?;
    let cause = Library::parse(rt.alloc(), &file).err();
    assert!(rt; cause == Some(ElfCause::NamesTooLarge(33_554_433)));
    Ok(())
}
