//! Changes of the fixtures, each a few bytes from an offset on, with what the gABI and the limits make of them.

use crate::{ElfCause, NamePlace};
use ifs_interface::Fact;

/// The name, type, value and size of a visible row, which is GLOBAL and of section 1.
pub type SeenRow = (&'static [u8], u8, u64, u64);

/// The rows of the libraries that are loaded at 0x10000.
pub static LOADED_ROWS: [SeenRow; 2] = [(b"foo", 2, 0x100b0, 0), (b"bar", 1, 0x100b4, 42)];

/// The rows of the stubs.
pub static STUB_ROWS: [SeenRow; 2] = [(b"bar", 1, 0, 42), (b"foo", 2, 0, 0)];

/// The rows of the library with several rows of one name: the hidden one disappears, the protected one stays.
pub static QUIRKS_ROWS: [SeenRow; 4] = [
    (b"zed", 2, 0, 0),
    (b"foo", 10, 0x50, 0),
    (b"foo", 2, 0x60, 0),
    (b"bar", 1, 0, 42),
];

/// An offset, the bytes put from there on, and the names of the library that this leaves: the soname and a
/// colon, then the rows, then what is needed.
pub type Names = (usize, &'static [u8], &'static [u8]);

/// An offset, the bytes put from there on, and why the file is refused then.
pub type Damage = (usize, &'static [u8], ElfCause);

/// An offset, the bytes put from there on, what `bar` is defined as then, and how strongly each of the two rows
/// wants it.
pub type Facts = (usize, &'static [u8], Option<Fact>, [Option<bool>; 2]);

/// The files that are damaged.
#[derive(Clone, Copy)]
pub enum File {
    /// The stub.
    Stub,
    /// The stub without section headers.
    BareStub,
    /// The library without section headers and with a GNU hash table.
    Gnu,
}

/// What is answered of a damaged file.
#[derive(Clone, Copy)]
pub enum Answer {
    /// This cause.
    Refused(ElfCause),
    /// A library with the facts of the stub.
    StubFacts,
    /// A library without a soname and without rows.
    NoNames,
}

/// A file, an offset and the bytes put from there on, from how many bytes on and below how many its first bytes are
/// read, and what is answered then.
pub type Damaged = (File, usize, &'static [u8], usize, usize, Answer);

/// The parts of the stub stand so: program headers at 64, .dynsym at 176, .dynstr at 248, .hash at 272, .dynamic at
/// 296, .shstrtab at 408, section headers at 456.
pub static DAMAGED: [Damaged; 15] = [
    // Cut: within the magic number, the file header, the program headers; before the end of the section headers.
    (File::Stub, 0, &[], 0, 4, Answer::Refused(ElfCause::NotElf)),
    (
        File::Stub,
        0,
        &[],
        4,
        64,
        Answer::Refused(ElfCause::Truncated(0)),
    ),
    (
        File::Stub,
        0,
        &[],
        64,
        176,
        Answer::Refused(ElfCause::Truncated(64)),
    ),
    (
        File::Stub,
        0,
        &[],
        176,
        840,
        Answer::Refused(ElfCause::Truncated(456)),
    ),
    // Without section headers: before the end of .dynamic, and behind it.
    (
        File::BareStub,
        0,
        &[],
        0,
        4,
        Answer::Refused(ElfCause::NotElf),
    ),
    (
        File::BareStub,
        0,
        &[],
        4,
        64,
        Answer::Refused(ElfCause::Truncated(0)),
    ),
    (
        File::BareStub,
        0,
        &[],
        64,
        176,
        Answer::Refused(ElfCause::Truncated(64)),
    ),
    (
        File::BareStub,
        0,
        &[],
        176,
        408,
        Answer::Refused(ElfCause::Truncated(296)),
    ),
    (File::BareStub, 0, &[], 408, 841, Answer::StubFacts),
    // DT_STRTAB is 408, DT_STRSZ 2^64 - 1, nchain 0xffffffff.
    (
        File::BareStub,
        336,
        &[0x98, 0x01],
        840,
        841,
        Answer::Refused(ElfCause::Truncated(408)),
    ),
    (
        File::BareStub,
        368,
        &[0xff; 8],
        840,
        841,
        Answer::Refused(ElfCause::Truncated(248)),
    ),
    (
        File::BareStub,
        276,
        &[0xff; 4],
        840,
        841,
        Answer::Refused(ElfCause::Truncated(176)),
    ),
    // sh_offset of .dynsym is 2^64 - 1; .dynstr stands over .dynsym, whose first 19 bytes are 0.
    (
        File::Stub,
        544,
        &[0xff; 8],
        840,
        841,
        Answer::Refused(ElfCause::Truncated(u64::MAX)),
    ),
    (File::Stub, 608, &[176], 840, 841, Answer::NoNames),
    // The bucket is 28: its chain has even words up to the end of the file.
    (
        File::Gnu,
        312,
        &[28],
        440,
        441,
        Answer::Refused(ElfCause::Truncated(440)),
    ),
];

/// The stub, changed and read. Row 1, `bar`, is at 200, the last dynamic entry before DT_NULL at 376.
pub static NAMES: [Names; 21] = [
    (0, &[], b"libfoo.so: bar foo"),
    // Internal, hidden, protected; the upper bits of st_other don't count.
    (205, &[1], b"libfoo.so: foo"),
    (205, &[2], b"libfoo.so: foo"),
    (205, &[3], b"libfoo.so: bar foo"),
    (205, &[0xfe], b"libfoo.so: foo"),
    (205, &[0xfc], b"libfoo.so: bar foo"),
    // LOCAL, another binding, no name, a bad name of a LOCAL row.
    (204, &[0x01], b"libfoo.so: foo"),
    (204, &[0xf1], b"libfoo.so: bar foo"),
    (200, &[0], b"libfoo.so: foo"),
    (200, &[99, 0, 0, 0, 0x01], b"libfoo.so: foo"),
    // Row 0 as a GLOBAL one, with a name and with a bad one.
    (176, &[1, 0, 0, 0, 0x11], b"libfoo.so: bar foo"),
    (176, &[99, 0, 0, 0, 0x11], b"libfoo.so: bar foo"),
    // An empty soname, a second one, one with a bad name, DT_NULL first.
    (304, &[0], b": bar foo"),
    (376, &[14, 0, 0, 0, 0, 0, 0, 0, 1], b"libfoo.so: bar foo"),
    (376, &[14, 0, 0, 0, 0, 0, 0, 0, 99], b"libfoo.so: bar foo"),
    (296, &[0], b": bar foo"),
    // A needed library, one without a name, one behind DT_NULL.
    (
        376,
        &[1, 0, 0, 0, 0, 0, 0, 0, 5],
        b"libfoo.so: bar foo <foo",
    ),
    (376, &[1, 0, 0, 0, 0, 0, 0, 0, 0], b"libfoo.so: bar foo"),
    (
        376,
        &[
            0, 0, 0, 0, 0, 0, 0, 0, 0, 0, 0, 0, 0, 0, 0, 0, 1, 0, 0, 0, 0, 0, 0, 0, 5,
        ],
        b"libfoo.so: bar foo",
    ),
    // No dynamic section, no section of dynamic symbols.
    (716, &[0], b"libfoo.so: bar foo"),
    (524, &[0], b"libfoo.so: bar foo"),
];

/// The stub, changed, and what it says of `bar`. Row 1 is at 200, row 2 at 224: st_name, st_info, st_other,
/// st_shndx, st_value and st_size.
pub static FACTS: [Facts; 8] = [
    (0, &[], Some(Fact::Object), [None, None]),
    // Another type, thread-local data, no type.
    (204, &[0x1a], Some(Fact::NoType), [None, None]),
    (204, &[0x16], Some(Fact::Tls), [None, None]),
    (204, &[0x10], Some(Fact::NoType), [None, None]),
    // Undefined, and WEAK too.
    (206, &[0], None, [Some(true), None]),
    (204, &[0x21, 0, 0], None, [Some(false), None]),
    // Both rows have the name: the first one that is defined counts.
    (224, &[1], Some(Fact::Object), [None, None]),
    (
        204,
        &[
            0x21, 0, 0, 0, 0, 0, 0, 0, 0, 0, 0, 0, 42, 0, 0, 0, 0, 0, 0, 0, 1,
        ],
        Some(Fact::Func),
        [None, None],
    ),
];

/// Both rows are undefined `bar`, the first WEAK and the second GLOBAL.
pub static TWICE_WANTED: Facts = (
    204,
    &[
        0x20, 0, 0, 0, 0, 0, 0, 0, 0, 0, 0, 0, 0, 0, 0, 0, 0, 0, 0, 0, 1, 0, 0, 0, 0x10, 0, 0,
    ],
    None,
    [Some(false), Some(true)],
);

/// The stub without section headers, changed and read.
pub static BY_ADDRESS: [Names; 5] = [
    (0, &[], b"libfoo.so: bar foo"),
    // The number of chain words.
    (276, &[2], b"libfoo.so: bar"),
    (276, &[1], b"libfoo.so:"),
    (276, &[0], b"libfoo.so:"),
    // The first DT_STRSZ counts.
    (376, &[10, 0, 0, 0, 0, 0, 0, 0, 0], b"libfoo.so: bar foo"),
];

/// The library with a GNU hash table, changed and read.
pub static GNU_NAMES: [Names; 6] = [
    (0, &[], b"libfoo.so: foo bar"),
    // The bucket 0; no bucket, with 1 and 3 as the first hashed row; row 0 as the first.
    (312, &[0], b"libfoo.so:"),
    (288, &[0], b"libfoo.so:"),
    (288, &[0, 0, 0, 0, 3], b"libfoo.so: foo bar"),
    (292, &[0], b"libfoo.so: foo"),
    // DT_HASH beside it: its number of chain words stands at 312.
    (
        408,
        &[4, 0, 0, 0, 0, 0, 0, 0, 0x34, 0x01, 0x01],
        b"libfoo.so:",
    ),
];

/// The stub of 32 bits without section headers: DT_HASH made DT_GNU_HASH, whose words are one bucket, 3 as the
/// first hashed row, one Bloom word, a shift, the Bloom word and the bucket 0.
pub static GNU_32_NAMES: [Names; 1] = [(216, &[0x6f, 0xff, 0xfe, 0xf5], b"libfoo.so: bar foo")];

/// The stub, refused.
pub static SECTION_DAMAGE: [Damage; 13] = [
    (0, b"!<arch>\n", ElfCause::Archive),
    (16, &[2], ElfCause::WrongKind),
    // The last byte of .dynstr, which ends the soname; places at the end of .dynstr.
    (266, b"x", ElfCause::BadName(NamePlace::Dynamic(0))),
    (304, &[19], ElfCause::BadName(NamePlace::Dynamic(0))),
    (376, &[1], ElfCause::BadName(NamePlace::Dynamic(5))),
    (200, &[19], ElfCause::BadName(NamePlace::Symbol(1))),
    (224, &[19], ElfCause::BadName(NamePlace::Symbol(2))),
    // Both a bad soname and a bad row.
    (616, &[4], ElfCause::BadName(NamePlace::Dynamic(0))),
    // sh_offset of .dynamic and of .dynstr, and its sh_size.
    (736, &[0xff; 8], ElfCause::Truncated(u64::MAX)),
    (608, &[0xff; 8], ElfCause::Truncated(u64::MAX)),
    (616, &[0xff; 8], ElfCause::Truncated(248)),
    // sh_link: no string table, no section.
    (752, &[1], ElfCause::BadHeader),
    (560, &[6], ElfCause::BadHeader),
];

/// The stub without section headers, refused.
pub static SEGMENT_DAMAGE: [Damage; 11] = [
    // No PT_DYNAMIC, and one outside the file.
    (120, &[0], ElfCause::NoDynamic),
    (128, &[0xff; 8], ElfCause::Truncated(u64::MAX)),
    // No DT_HASH, DT_STRTAB, DT_SYMTAB, DT_STRSZ; no entry at all.
    (312, &[11], ElfCause::NoDynamic),
    (328, &[11], ElfCause::NoDynamic),
    (344, &[11], ElfCause::NoDynamic),
    (360, &[11], ElfCause::NoDynamic),
    (296, &[0], ElfCause::NoDynamic),
    // Addresses that no segment holds: of the hash table, of the rows.
    (320, &[0x98, 0x01], ElfCause::Truncated(408)),
    (352, &[0x98, 0x01], ElfCause::Truncated(408)),
    // No segment at all: the strings are looked at first. One for the strings alone: the hash table comes next.
    (64, &[0], ElfCause::Truncated(248)),
    (
        80,
        &[240, 0, 0, 0, 0, 0, 0, 0, 0, 0, 0, 0, 0, 0, 0, 0, 24, 0],
        ElfCause::Truncated(272),
    ),
];

/// The library with a GNU hash table, refused.
pub static GNU_DAMAGE: [Damage; 3] = [
    // A chain that begins outside the file.
    (312, &[0xff; 4], ElfCause::Truncated(17_179_869_492)),
    // As many buckets and Bloom words as there may be.
    (288, &[0xff; 4], ElfCause::Truncated(440)),
    (296, &[0xff; 4], ElfCause::Truncated(34_359_738_664)),
];
