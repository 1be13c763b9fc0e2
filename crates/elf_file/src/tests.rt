use super::*;
use ifs_bytes::{Memory, Order, Width};
use std::alloc::Global;
use std::process::Abort;
use std::test::Fail;

mod samples;

use samples::{
    DYN_32, DYN_64, FILE_BIG_32, FILE_BIG_64, FILE_LITTLE_32, FILE_LITTLE_64, HEADER_32, HEADER_64,
    NO_SECTION, RECORDS_BIG_32, RECORDS_BIG_64, RECORDS_LITTLE_32, RECORDS_LITTLE_64, ROW_32,
    ROW_64, SECTION_32, SECTION_64, SEGMENT_32, SEGMENT_64,
};

// The file is read as what it was made of.
fn reads(
    rt: &impl Abort,
    file: &[u8],
    header: &Header,
    segment: &Segment,
    section: &SectionHeader,
) {
    match Elf::parse(file) {
        Err(cause) => assert!(rt; false, "{cause:?}"),
        Ok(elf) => {
            assert!(rt; elf.header() == header);
            assert!(rt; elf.bytes().len() == file.len());
            assert!(rt; elf.segment(0) == Some(*segment));
            assert!(rt; elf.segment(1).is_none());
            assert!(rt; elf.section(0) == Some(NO_SECTION));
            assert!(rt; elf.section(1) == Some(*section));
            assert!(rt; elf.section(2).is_none());
        }
    }
}

// A header in the other byte order.
fn in_big(header: Header) -> Header {
    Header {
        order: Order::Big,
        ..header
    }
}

#[test]
fn each_form_is_read(rt: HostRuntime) {
    reads(&rt, &FILE_LITTLE_32, &HEADER_32, &SEGMENT_32, &SECTION_32);
    reads(
        &rt,
        &FILE_BIG_32,
        &in_big(HEADER_32),
        &SEGMENT_32,
        &SECTION_32,
    );
    reads(&rt, &FILE_LITTLE_64, &HEADER_64, &SEGMENT_64, &SECTION_64);
    reads(
        &rt,
        &FILE_BIG_64,
        &in_big(HEADER_64),
        &SEGMENT_64,
        &SECTION_64,
    );
}

// The records of the file of 32 bits, written.
fn file_32(alloc: Global, order: Order) -> Result<Vec<u8>, Memory> {
    let mut out = Vec::new(alloc);
    let header = Header { order, ..HEADER_32 };
    put_header(&mut out, &header)?;
    put_segment(&mut out, &SEGMENT_32, order, Width::W32)?;
    put_section(&mut out, &NO_SECTION, order, Width::W32)?;
    put_section(&mut out, &SECTION_32, order, Width::W32)?;
    Ok(out)
}

// The records of the file of 64 bits, written.
fn file_64(alloc: Global, order: Order) -> Result<Vec<u8>, Memory> {
    let mut out = Vec::new(alloc);
    let header = Header { order, ..HEADER_64 };
    put_header(&mut out, &header)?;
    put_segment(&mut out, &SEGMENT_64, order, Width::W64)?;
    put_section(&mut out, &NO_SECTION, order, Width::W64)?;
    put_section(&mut out, &SECTION_64, order, Width::W64)?;
    Ok(out)
}

#[test]
fn each_form_is_written(rt: HostRuntime) -> Result<(), Fail> {
    let alloc = rt.alloc();
    assert_eq!(rt;
        file_32(alloc, Order::Little)?.as_slice(),
        FILE_LITTLE_32.as_slice()
    );
    assert_eq!(rt;
        file_32(alloc, Order::Big)?.as_slice(),
        FILE_BIG_32.as_slice()
    );
    assert_eq!(rt;
        file_64(alloc, Order::Little)?.as_slice(),
        FILE_LITTLE_64.as_slice()
    );
    assert_eq!(rt;
        file_64(alloc, Order::Big)?.as_slice(),
        FILE_BIG_64.as_slice()
    );
    Ok(())
}

// A row and a dynamic entry behind it, read; and neither one byte before the end.
fn reads_records(rt: &impl Abort, bytes: &[u8], order: Order, width: Width, row: Row, entry: Dyn) {
    let size = symbol_size(width) as u64;
    assert!(rt; row_at(bytes, 0, order, width) == Some(row));
    assert!(rt; dyn_at(bytes, size, order, width) == Some(entry));
    assert!(rt; dyn_at(bytes, size + 1, order, width).is_none());
    assert!(rt; row_at(bytes, dynamic_size(width) as u64 + 1, order, width).is_none());
    assert!(rt; row_at(bytes, u64::MAX, order, width).is_none());
}

#[test]
fn rows_and_entries(rt: HostRuntime) -> Result<(), Fail> {
    let (little, big) = (Order::Little, Order::Big);
    reads_records(&rt, &RECORDS_LITTLE_32, little, Width::W32, ROW_32, DYN_32);
    reads_records(&rt, &RECORDS_BIG_32, big, Width::W32, ROW_32, DYN_32);
    reads_records(&rt, &RECORDS_LITTLE_64, little, Width::W64, ROW_64, DYN_64);
    reads_records(&rt, &RECORDS_BIG_64, big, Width::W64, ROW_64, DYN_64);
    let mut out = Vec::new(rt.alloc());
    put_row(&mut out, &ROW_32, big, Width::W32)?;
    put_dyn(&mut out, &DYN_32, big, Width::W32)?;
    assert_eq!(rt; out.as_slice(), RECORDS_BIG_32.as_slice());
    let mut out = Vec::new(rt.alloc());
    put_row(&mut out, &ROW_64, little, Width::W64)?;
    put_dyn(&mut out, &DYN_64, little, Width::W64)?;
    assert_eq!(rt; out.as_slice(), RECORDS_LITTLE_64.as_slice());
    Ok(())
}

// The answer of a file of 64 bits, lowest byte first, whose bytes from `at` on are these.
fn cause_of(alloc: Global, at: usize, bytes: &[u8]) -> Result<Option<ElfCause>, Memory> {
    let (front, back) = FILE_LITTLE_64.split_at(at.min(FILE_LITTLE_64.len()));
    let mut file = Vec::from_slice(alloc, front)?;
    file.extend_from_slice(bytes)?;
    let (_, rest) = back.split_at(bytes.len().min(back.len()));
    file.extend_from_slice(rest)?;
    Ok(Elf::parse(&file).err())
}

// The answer of the first bytes of that file.
fn cause_of_first(len: usize) -> Option<ElfCause> {
    let (front, _) = FILE_LITTLE_64.split_at(len.min(FILE_LITTLE_64.len()));
    Elf::parse(front).err()
}

#[test]
fn files_that_are_cut(rt: HostRuntime) {
    assert!(rt; cause_of_first(0) == Some(ElfCause::NotElf));
    assert!(rt; cause_of_first(3) == Some(ElfCause::NotElf));
    assert!(rt; cause_of_first(4) == Some(ElfCause::Truncated(0)));
    assert!(rt; cause_of_first(15) == Some(ElfCause::Truncated(0)));
    assert!(rt; cause_of_first(63) == Some(ElfCause::Truncated(0)));
    assert!(rt; cause_of_first(64) == Some(ElfCause::Truncated(64)));
    assert!(rt; cause_of_first(119) == Some(ElfCause::Truncated(64)));
    assert!(rt; cause_of_first(120) == Some(ElfCause::Truncated(120)));
    assert!(rt; cause_of_first(247) == Some(ElfCause::Truncated(120)));
    assert!(rt; cause_of_first(248).is_none());
}

#[test]
fn headers_that_are_refused(rt: HostRuntime) -> Result<(), Fail> {
    let alloc = rt.alloc();
    let bad = Some(ElfCause::BadHeader);
    assert!(rt; cause_of(alloc, 0, b"!<arch>\n")? == Some(ElfCause::Archive));
    assert!(rt; cause_of(alloc, 0, b"!<thin>\n")? == Some(ElfCause::Archive));
    assert!(rt; cause_of(alloc, 0, b"!<arch>x")? == Some(ElfCause::NotElf));
    assert!(rt; cause_of(alloc, 4, &[3])? == bad);
    assert!(rt; cause_of(alloc, 5, &[0])? == bad);
    assert!(rt; cause_of(alloc, 6, &[2])? == bad);
    assert!(rt; cause_of(alloc, 54, &[32])? == bad);
    assert!(rt; cause_of(alloc, 56, &[0xff, 0xff])? == bad);
    assert!(rt; cause_of(alloc, 58, &[40])? == bad);
    assert!(rt; cause_of(alloc, 54, &[0, 0, 0, 0])?.is_none());
    Ok(())
}

#[test]
fn tables_that_lie_outside(rt: HostRuntime) -> Result<(), Fail> {
    let alloc = rt.alloc();
    let last = [0xff; 8];
    assert!(rt; cause_of(alloc, 32, &last)? == Some(ElfCause::Truncated(u64::MAX)));
    assert!(rt; cause_of(alloc, 40, &last)? == Some(ElfCause::Truncated(u64::MAX)));
    assert!(rt; cause_of(alloc, 32, &[193])? == Some(ElfCause::Truncated(193)));
    assert!(rt; cause_of(alloc, 32, &[192])?.is_none());
    // No program header, from the end of the file on and from behind it.
    assert!(rt;
        cause_of(
            alloc,
            32,
            &[
                248, 0, 0, 0, 0, 0, 0, 0, 120, 0, 0, 0, 0, 0, 0, 0, 0, 0, 0, 0, 64, 0, 0, 0, 0
            ]
        )?
        .is_none()
    );
    assert!(rt;
        cause_of(
            alloc,
            32,
            &[
                249, 0, 0, 0, 0, 0, 0, 0, 120, 0, 0, 0, 0, 0, 0, 0, 0, 0, 0, 0, 64, 0, 0, 0, 0
            ]
        )? == Some(ElfCause::Truncated(249))
    );
    Ok(())
}

// A file of 64 bits whose numbers of sections stand in section 0, with room for `room` sections.
fn many_sections(alloc: Global, order: Order, room: usize) -> Result<Vec<u8>, Memory> {
    let mut out = Vec::new(alloc);
    let header = Header {
        order,
        phoff: 0,
        phnum: 0,
        shoff: 64,
        shnum: 0,
        shstrndx: 0xffff,
        ..HEADER_64
    };
    let first = SectionHeader {
        size: 65537,
        link: 65536,
        ..NO_SECTION
    };
    put_header(&mut out, &header)?;
    put_section(&mut out, &first, order, Width::W64)?;
    for _ in 1..room {
        put_section(&mut out, &SECTION_64, order, Width::W64)?;
    }
    Ok(out)
}

#[test]
fn sections_by_the_first(rt: HostRuntime) -> Result<(), Fail> {
    let file = many_sections(rt.alloc(), Order::Big, 65537)?;
    match Elf::parse(&file) {
        Err(cause) => assert!(rt; false, "{cause:?}"),
        Ok(elf) => {
            assert!(rt; elf.header().shnum == 65537);
            assert!(rt; elf.header().shstrndx == 65536);
            assert!(rt; elf.section(65536) == Some(SECTION_64));
            assert!(rt; elf.section(65537).is_none());
        }
    }
    let (front, _) = file.as_slice().split_at(file.len().saturating_sub(1));
    assert!(rt; Elf::parse(front).err() == Some(ElfCause::Truncated(64)));
    let (front, _) = file.as_slice().split_at(file.len().min(127));
    assert!(rt; Elf::parse(front).err() == Some(ElfCause::Truncated(64)));
    Ok(())
}

fn prints(rt: &(impl Abort + AllocGlobal), cause: ElfCause, wanted: &[u8]) -> Result<(), Memory> {
    assert_eq!(rt; cause.printed(rt.alloc())?.as_bytes(), wanted);
    Ok(())
}

#[test]
fn causes_are_printed(rt: HostRuntime) -> Result<(), Fail> {
    prints(&rt, ElfCause::NotElf, b"NotElf")?;
    prints(&rt, ElfCause::BadHeader, b"BadHeader")?;
    prints(&rt, ElfCause::WrongKind, b"WrongKind")?;
    prints(&rt, ElfCause::NoDynamic, b"NoDynamic")?;
    prints(&rt, ElfCause::Truncated(456), b"Truncated(456)")?;
    prints(
        &rt,
        ElfCause::BadName(NamePlace::Dynamic(0)),
        b"BadName(Dynamic(0))",
    )?;
    prints(
        &rt,
        ElfCause::BadName(NamePlace::Symbol(7)),
        b"BadName(Symbol(7))",
    )?;
    prints(
        &rt,
        ElfCause::BadName(NamePlace::Section(12)),
        b"BadName(Section(12))",
    )?;
    prints(
        &rt,
        ElfCause::TooMany(u64::MAX),
        b"TooMany(18446744073709551615)",
    )?;
    prints(&rt, ElfCause::NamesTooLarge(10), b"NamesTooLarge(10)")?;
    prints(&rt, ElfCause::Archive, b"Archive")?;
    prints(&rt, ElfCause::Memory, b"Memory")?;
    Ok(())
}
