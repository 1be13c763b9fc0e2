use super::*;
use ifs_bytes::Memory;
use ifs_outside::{MemoryFiles, MemorySink, MemorySource};
use std::alloc::Global;
use std::test::Fail;

mod fixtures;

use fixtures::{LIBRARY, STUB, STUB_32, WITHOUT_SECTIONS};

// The words that ask for the text of `F`.
const STUB_F: &str = "stub --output-ifs=- F";

// A text up to its symbols, and its end.
const START: &[u8] = b"--- !ifs-v1\n\
    IfsVersion:      3.0\n\
    SoName:          libfoo.so\n\
    Target:          { ObjectFormat: ELF, Arch: x86_64, Endianness: little, BitWidth: 64 }\n";

const START_32: &[u8] = b"--- !ifs-v1\n\
    IfsVersion:      3.0\n\
    SoName:          libfoo.so\n\
    Target:          { ObjectFormat: ELF, Arch: ppc, Endianness: big, BitWidth: 32 }\n";

const END: &[u8] = b"...\n";

// A text whose symbol is too large for its width.
const BIG: &[u8] = b"--- !ifs-v1\n\
    IfsVersion: 3.0\n\
    Target: { ObjectFormat: ELF, Arch: i386, Endianness: little, BitWidth: 32 }\n\
    Symbols:\n  \
      - { Name: big, Type: Object, Size: 4294967296 }\n";

// The symbols of the fixtures.
const SYMBOLS: &[u8] = b"Symbols:\n  \
      - { Name: bar, Type: Object, Size: 42 }\n  \
      - { Name: foo, Type: Func }\n";

// What is outside before a run: the file at the path `F`, and the numbers of the calls that fail.
#[derive(Clone, Copy)]
struct Before<'a> {
    file: &'a [u8],
    reads: &'a [u64],
    out: &'a [u64],
    err: &'a [u64],
}

// What a run ends with: its status, and what it wrote.
#[derive(Clone, Copy)]
struct After<'a> {
    status: u8,
    out: &'a [u8],
    err: &'a [u8],
}

// The words of a line, which spaces part; an empty line has none.
fn words_in(alloc: Global, line: &str) -> Result<Vec<String>, Memory> {
    let mut words = Vec::new(alloc);
    if line.is_empty() {
        return Ok(words);
    }
    for word in line.split(' ') {
        words.push(String::from_str(alloc, word)?)?;
    }
    Ok(words)
}

// A text of one symbol with the target and the soname of the fixtures.
fn text_of(alloc: Global, symbol: &[u8]) -> Result<Vec<u8>, Memory> {
    let mut text = Vec::from_slice(alloc, START)?;
    text.extend_from_slice(b"Symbols:\n  - ")?;
    text.extend_from_slice(symbol)?;
    text.extend_from_slice(b"\n...\n")?;
    Ok(text)
}

// Files beside `F`: an empty one, and texts of one symbol, whose size or target differs.
fn put_others(alloc: Global, files: &mut MemoryFiles) -> Result<(), Memory> {
    files.put(b"E", b"")?;
    files.put(b"B", BIG)?;
    for (path, symbol) in [
        (b"T".as_slice(), b"{ Name: baz, Type: Func }".as_slice()),
        (b"S4", b"{ Name: bar, Type: Object, Size: 4 }"),
        (b"S8", b"{ Name: bar, Type: Object, Size: 8 }"),
    ] {
        files.put(path, &text_of(alloc, symbol)?)?;
    }
    Ok(())
}

// Whether a run of the words ends so, and writes no file; an error where memory ran out.
fn ends(alloc: Global, line: &str, before: Before, after: After) -> Result<bool, Memory> {
    let words = words_in(alloc, line)?;
    let mut input = MemorySource::new(Vec::new(alloc), Vec::new(alloc));
    let mut files = MemoryFiles::new(alloc, Vec::from_slice(alloc, before.reads)?);
    files.put(b"F", before.file)?;
    put_others(alloc, &mut files)?;
    let mut out = MemorySink::new(alloc, Vec::from_slice(alloc, before.out)?);
    let mut err = MemorySink::new(alloc, Vec::from_slice(alloc, before.err)?);
    let status = run(alloc, &words, &mut input, &mut files, &mut out, &mut err);
    if status == 5 {
        return Err(Memory);
    }
    Ok(
        status == after.status
            && out.written() == after.out
            && err.written() == after.err
            && files.writes() == 0,
    )
}

// A file where nothing fails.
fn holding(file: &[u8]) -> Before<'_> {
    Before {
        file,
        reads: &[],
        out: &[],
        err: &[],
    }
}

// A line on standard error alone.
fn line(status: u8, err: &[u8]) -> After<'_> {
    After {
        status,
        out: b"",
        err,
    }
}

// A file in which some bytes are others.
fn changed(alloc: Global, file: &[u8], changes: &[(usize, u8)]) -> Result<Vec<u8>, Memory> {
    let mut bytes = Vec::from_slice(alloc, file)?;
    for (place, byte) in changes {
        if let Some(old) = bytes.get_mut(*place) {
            *old = *byte;
        }
    }
    Ok(bytes)
}

// Whether the text of a file has this start and these symbols. Standard error isn't written: it would fail.
fn prints(alloc: Global, file: &[u8], start: &[u8], symbols: &[u8]) -> Result<bool, Memory> {
    let mut text = Vec::from_slice(alloc, start)?;
    text.extend_from_slice(symbols)?;
    text.extend_from_slice(END)?;
    let printed = After {
        status: 0,
        out: &text,
        err: b"",
    };
    let before = Before {
        err: &[0],
        ..holding(file)
    };
    ends(alloc, STUB_F, before, printed)
}

#[test]
fn files_of_one_interface(rt: HostRuntime) -> Result<(), Fail> {
    for (name, file, start) in [
        ("library", LIBRARY.as_slice(), START),
        ("without sections", WITHOUT_SECTIONS.as_slice(), START),
        ("stub", STUB.as_slice(), START),
        ("stub of 32 bits", STUB_32.as_slice(), START_32),
    ] {
        assert!(rt; prints(rt.alloc(), file, start, SYMBOLS)?, "{name}");
    }
    Ok(())
}

// Where the library has the lowest byte of the size of its symbol table, its names, and the rows of `foo` and
// `bar`.
const TABLE_SIZE: usize = 0x2a0;

const NAMES: usize = 0x108;

const FOO: usize = 0xd8;

const BAR: usize = 0xf0;

// Where a row has its name, its binding and type, its visibility, its section and its size.
const NAME: usize = 0;

const INFO: usize = 4;

const OTHER: usize = 5;

const SECTION: usize = 6;

const SIZE: usize = 16;

const NO_SYMBOLS: &[u8] = b"Symbols:         []\n";

const FOO_ALONE: &[u8] = b"Symbols:\n  - { Name: foo, Type: Func }\n";

#[test]
fn rows_that_are_seen(rt: HostRuntime) -> Result<(), Fail> {
    let alloc = rt.alloc();
    for (name, change, symbols) in [
        ("row 0 alone", (TABLE_SIZE, 24), NO_SYMBOLS),
        ("local", (BAR + INFO, 0x01), FOO_ALONE),
        ("internal", (BAR + OTHER, 1), FOO_ALONE),
        ("hidden", (BAR + OTHER, 2), FOO_ALONE),
        ("protected", (BAR + OTHER, 3), SYMBOLS),
    ] {
        let file = changed(alloc, LIBRARY, &[change])?;
        assert!(rt; prints(alloc, &file, START, symbols)?, "{name}");
    }
    // The only bucket is empty.
    let file = changed(alloc, WITHOUT_SECTIONS, &[(0x138, 0)])?;
    assert!(rt; prints(alloc, &file, START, NO_SYMBOLS)?);
    Ok(())
}

#[test]
fn rows_of_one_name(rt: HostRuntime) -> Result<(), Fail> {
    let alloc = rt.alloc();
    let defined = [
        (FOO + INFO, 0x20),
        (FOO + SECTION, 0),
        (BAR + NAME, 1),
        (BAR + INFO, 0x12),
    ];
    let file = changed(alloc, LIBRARY, &defined)?;
    assert!(rt; prints(alloc, &file, START, FOO_ALONE)?);
    let undefined = [
        (FOO + NAME, 5),
        (FOO + INFO, 0x20),
        (FOO + SECTION, 0),
        (BAR + INFO, 0x10),
        (BAR + SECTION, 0),
        (BAR + SIZE, 0),
    ];
    let file = changed(alloc, LIBRARY, &undefined)?;
    let symbols = b"Symbols:\n  - { Name: bar, Type: NoType, Undefined: true }\n";
    assert!(rt; prints(alloc, &file, START, symbols)?);
    Ok(())
}

#[test]
fn other_libraries(rt: HostRuntime) -> Result<(), Fail> {
    let alloc = rt.alloc();
    let of_type_10 = [
        (NAMES + 1, b'i'),
        (NAMES + 2, b'm'),
        (NAMES + 3, b'p'),
        (NAMES + 4, b'l'),
        (NAMES + 5, 0),
        (FOO + INFO, 0x1a),
        (TABLE_SIZE, 48),
    ];
    let file = changed(alloc, LIBRARY, &of_type_10)?;
    let symbols = b"Symbols:\n  - { Name: impl, Type: Unknown }\n";
    assert!(rt; prints(alloc, &file, START, symbols)?);
    // DT_SYMENT, which nothing reads, becomes DT_NEEDED.
    let file = changed(alloc, LIBRARY, &[(0x188, 1), (0x190, 5)])?;
    let needed = b"NeededLibs:\n  \
          - bar\n\
        Symbols:\n  \
          - { Name: bar, Type: Object, Size: 42 }\n  \
          - { Name: foo, Type: Func }\n";
    assert!(rt; prints(alloc, &file, START, needed)?);
    Ok(())
}

#[test]
fn files_that_are_refused(rt: HostRuntime) -> Result<(), Fail> {
    let alloc = rt.alloc();
    // The soname has no end.
    let endless = changed(alloc, STUB, &[(266, b'x')])?;
    for (file, err) in [
        (b"".as_slice(), b"error: F: NotIfs\n".as_slice()),
        (b"--- x\n", b"error: F: Yaml(At(0, Shape))\n"),
        (b"!<arch>\n", b"error: F: Archive\n"),
        (b"\x7fELF", b"error: F: Truncated(0)\n"),
        (&STUB[..839], b"error: F: Truncated(456)\n"),
        (endless.as_slice(), b"error: F: BadName(Dynamic(0))\n"),
    ] {
        assert!(rt; ends(alloc, STUB_F, holding(file), line(1, err))?);
    }
    Ok(())
}

// Lines of words, and behind a bar what each gives on standard error, behind the status.
const REFUSED: &str = "\
    link F|2 words: UnknownCommand(link)\n\
    stub|2 words: NoInput\n\
    stub F --arch|2 words: MissingValue(--arch)\n\
    stub --soname=a --soname=a F|2 words: Repeated(--soname)\n\
    stub --exclude=[ F|2 words: BadValue(--exclude)\n\
    stub --output-tbd=- F|2 words: UnknownOption(--output-tbd=-)\n\
    stub --output-ifs=o --output-elf=o F|2 words: Conflict(--output-ifs, --output-elf)\n\
    stub --strip-size=no G|2 words: UnwantedValue(--strip-size)\n\
    stub G|3 G: missing\n\
    stub F G E H|3 G: missing\n\
    stub E G|3 G: missing\n\
    stub -- -|3 -: missing\n\
    stub E|1 E: NotIfs\n\
    stub --input-format=ELF E|1 E: NotElf\n\
    stub --input-format=elf T|1 T: NotElf\n\
    stub --input-format=IFS F|1 F: Yaml(At(4, BadByte))\n\
    stub F E T|1 E: NotIfs\n\
    stub F E B|1 E: NotIfs\n\
    stub F B|1 merge: TargetMismatch(1)\n\
    stub S4 S8|1 merge: SizeMismatch(bar, 4, 8)\n\
    stub F T S4|1 merge: SizeMismatch(bar, 42, 4)\n\
    stub --arch=AArch64 F|1 adjust: TargetConflict(Arch, x86_64, AArch64)\n\
    stub --target=i386-linux F|1 adjust: TargetConflict(Arch, x86_64, i386)\n\
    stub --bitwidth=32 F|1 adjust: TargetConflict(BitWidth, 64, 32)\n\
    stub --output-elf=o B|1 stub: SizeTooWide(big)\n\
    stub --output-ifs=- --output-elf=o B|1 stub: SizeTooWide(big)\n\
    ";

// Whether the words of a line give its status and its line.
fn is_refused(alloc: Global, line: &str) -> Result<bool, Memory> {
    let Some((words, told)) = line.split_once('|') else {
        return Ok(false);
    };
    let Some((status, told)) = told.split_once(' ') else {
        return Ok(false);
    };
    let mut err = Vec::from_slice(alloc, b"error: ")?;
    err.extend_from_slice(told.as_bytes())?;
    err.push(b'\n')?;
    let Ok(status) = status.parse::<u8>() else {
        return Ok(false);
    };
    ends(alloc, words, holding(LIBRARY), self::line(status, &err))
}

#[test]
fn lines_that_are_refused(rt: HostRuntime) -> Result<(), Fail> {
    let alloc = rt.alloc();
    for line in REFUSED.lines() {
        assert!(rt; is_refused(alloc, line)?, "{line}");
    }
    let refused = line(2, b"error: words: NoCommand\n");
    assert!(rt; ends(alloc, "", holding(LIBRARY), refused)?);
    Ok(())
}

// The lines of a text behind the version.
const SONAME: &[u8] = b"SoName:          libfoo.so\n";

const TARGET: &[u8] =
    b"Target:          { ObjectFormat: ELF, Arch: x86_64, Endianness: little, BitWidth: 64 }\n";

const BAZ: &[u8] = b"Symbols:\n  \
      - { Name: bar, Type: Object, Size: 42 }\n  \
      - { Name: baz, Type: Func }\n  \
      - { Name: foo, Type: Func }\n";

const UNSIZED: &[u8] = b"Symbols:\n  \
      - { Name: bar, Type: Object }\n  \
      - { Name: foo, Type: Func }\n";

// Whether the words of a line print the text of this soname, target and symbols.
fn prints_by(
    alloc: Global,
    line: &str,
    soname: &[u8],
    target: &[u8],
    symbols: &[u8],
) -> Result<bool, Memory> {
    let mut text = Vec::from_slice(alloc, b"--- !ifs-v1\nIfsVersion:      3.0\n")?;
    for part in [soname, target, symbols, END] {
        text.extend_from_slice(part)?;
    }
    let printed = After {
        status: 0,
        out: &text,
        err: b"",
    };
    ends(alloc, line, holding(LIBRARY), printed)
}

#[test]
fn lines_that_print(rt: HostRuntime) -> Result<(), Fail> {
    let alloc = rt.alloc();
    for (line, soname, target, symbols) in [
        ("stub F", SONAME, TARGET, SYMBOLS),
        ("stub --write-if-changed -- F", SONAME, TARGET, SYMBOLS),
        ("stub F F", SONAME, TARGET, SYMBOLS),
        ("stub F T", SONAME, TARGET, BAZ),
        ("stub T --output-ifs - F", SONAME, TARGET, BAZ),
        ("stub --exclude=b* F", SONAME, TARGET, FOO_ALONE),
        (
            "stub --exclude=[!f]* --exclude=foo F",
            SONAME,
            TARGET,
            NO_SYMBOLS,
        ),
        ("stub --strip-size F", SONAME, TARGET, UNSIZED),
        (
            "stub --soname=b F",
            b"SoName:          b\n",
            TARGET,
            SYMBOLS,
        ),
        ("stub --strip-ifs-target F", SONAME, b"", SYMBOLS),
        (
            "stub --target=x86_64-linux F",
            SONAME,
            b"Target:          x86_64-linux\n",
            SYMBOLS,
        ),
        (
            "stub --strip-ifs-arch --strip-ifs-bitwidth --target=x86_64-linux F",
            SONAME,
            b"Target:          { ObjectFormat: ELF, Endianness: little }\n",
            SYMBOLS,
        ),
    ] {
        assert!(rt; prints_by(alloc, line, soname, target, symbols)?, "{line}");
    }
    Ok(())
}

#[test]
fn reads_that_give_nothing(rt: HostRuntime) -> Result<(), Fail> {
    let alloc = rt.alloc();
    let before = Before {
        reads: &[0],
        ..holding(LIBRARY)
    };
    let unread = line(3, b"error: F: read failed\n");
    assert!(rt; ends(alloc, STUB_F, before, unread)?);
    let before = Before {
        reads: &[1],
        ..holding(LIBRARY)
    };
    let second = line(3, b"error: T: read failed\n");
    assert!(rt; ends(alloc, "stub F T", before, second)?);
    // Later calls are none.
    let before = Before {
        reads: &[1],
        ..holding(b"")
    };
    let refused = line(1, b"error: F: NotIfs\n");
    assert!(rt; ends(alloc, STUB_F, before, refused)?);
    Ok(())
}

#[test]
fn writes_that_fail(rt: HostRuntime) -> Result<(), Fail> {
    let alloc = rt.alloc();
    let never: &[u64] = &[];
    let first: &[u64] = &[0];
    let unwritten = b"error: -: write failed\n".as_slice();
    for (words, file, reads, out, err, text) in [
        ("stub F", LIBRARY.as_slice(), never, first, never, unwritten),
        ("stub F", LIBRARY, never, first, first, b""),
        ("stub F", b"", never, never, first, b""),
        ("stub F", LIBRARY, first, never, first, b""),
        ("stub G", LIBRARY, never, never, first, b""),
        ("stub -", LIBRARY, never, never, first, b""),
    ] {
        let before = Before {
            file,
            reads,
            out,
            err,
        };
        assert!(rt; ends(alloc, words, before, line(4, text))?, "{words}");
    }
    Ok(())
}

// Names that aren't their own text, in no order, and as they are printed.
const QUOTED: &[u8] = b"--- !ifs-v1\n\
    IfsVersion: 3\n\
    Symbols:\n\
    - { Name: \"true\", Type: Func }\n\
    - { Name: \"a\\tb\", Type: Func }\n\
    - Name: it's\n  Type: Func\n\
    - { Name: 'a: b', Type: Func }\n\
    - { Name: \xc3\xa9, Type: Func }\n";

const QUOTED_AS_PRINTED: &[u8] = b"--- !ifs-v1\n\
    IfsVersion:      3.0\n\
    Symbols:\n  \
      - { Name: \"a\\x09b\", Type: Func }\n  \
      - { Name: 'a: b', Type: Func }\n  \
      - { Name: 'it''s', Type: Func }\n  \
      - { Name: 'true', Type: Func }\n  \
      - { Name: '\xc3\xa9', Type: Func }\n\
    ...\n";

#[test]
fn names_in_quotes(rt: HostRuntime) -> Result<(), Fail> {
    let printed = After {
        status: 0,
        out: QUOTED_AS_PRINTED,
        err: b"",
    };
    for file in [QUOTED, QUOTED_AS_PRINTED] {
        assert!(rt; ends(rt.alloc(), "stub F", holding(file), printed)?);
    }
    Ok(())
}

// Whether a run of the words with a file writes this stub to `o`, and this on standard output.
fn writes_stub(
    alloc: Global,
    line: &str,
    file: &[u8],
    stub: &[u8],
    printed: &[u8],
) -> Result<bool, Memory> {
    let words = words_in(alloc, line)?;
    let mut input = MemorySource::new(Vec::new(alloc), Vec::new(alloc));
    let mut files = MemoryFiles::new(alloc, Vec::new(alloc));
    files.put(b"F", file)?;
    let mut out = MemorySink::new(alloc, Vec::new(alloc));
    let mut err = MemorySink::new(alloc, Vec::new(alloc));
    let status = run(alloc, &words, &mut input, &mut files, &mut out, &mut err);
    if status == 5 {
        return Err(Memory);
    }
    Ok(
        status == 0
            && files.get(b"o") == Some(stub)
            && files.writes() == 1
            && out.written() == printed
            && err.written().is_empty(),
    )
}

#[test]
fn stub_files(rt: HostRuntime) -> Result<(), Fail> {
    let alloc = rt.alloc();
    let mut text = Vec::from_slice(alloc, START)?;
    text.extend_from_slice(SYMBOLS)?;
    text.extend_from_slice(END)?;
    // The text of an interface stands for the library.
    for file in [LIBRARY.as_slice(), &text] {
        for (words, printed) in [
            ("stub --output-elf=o F", b"".as_slice()),
            ("stub --output-elf=o --output-ifs=- F", &text),
            ("stub --output-ifs - --output-elf o -- F F", &text),
            ("stub --strip-ifs-target --output-elf=o F", b""),
        ] {
            assert!(rt; writes_stub(alloc, words, file, STUB, printed)?);
        }
    }
    let mut text = Vec::from_slice(alloc, START_32)?;
    text.extend_from_slice(SYMBOLS)?;
    assert!(rt; writes_stub(alloc, "stub --output-elf=o F", &text, STUB_32, b"")?);
    Ok(())
}

#[test]
fn texts_without_a_stub(rt: HostRuntime) -> Result<(), Fail> {
    let words = "stub --output-elf=- F";
    for (file, err) in [
        (
            b"--- !ifs-v1\nIfsVersion: 3\n".as_slice(),
            b"error: stub: TargetIncomplete(Arch)\n".as_slice(),
        ),
        (
            b"--- !ifs-v1\nIfsVersion: 3\nTarget: { Arch: x86_64, Endianness: little }\n",
            b"error: stub: TargetIncomplete(BitWidth)\n",
        ),
    ] {
        assert!(rt; ends(rt.alloc(), words, holding(file), line(1, err))?);
    }
    Ok(())
}

// How many writes so many runs of a line make over files where `o` holds some bytes.
fn writes_of(alloc: Global, line: &str, runs: u64, held: &[u8]) -> Result<u64, Memory> {
    let words = words_in(alloc, line)?;
    let mut input = MemorySource::new(Vec::new(alloc), Vec::new(alloc));
    let mut files = MemoryFiles::new(alloc, Vec::new(alloc));
    files.put(b"F", LIBRARY)?;
    files.put(b"o", held)?;
    let mut out = MemorySink::new(alloc, Vec::new(alloc));
    let mut err = MemorySink::new(alloc, Vec::new(alloc));
    for _run in 0..runs {
        if run(alloc, &words, &mut input, &mut files, &mut out, &mut err) != 0 {
            return Err(Memory);
        }
    }
    Ok(files.writes())
}

#[test]
fn files_that_are_the_same(rt: HostRuntime) -> Result<(), Fail> {
    let alloc = rt.alloc();
    for (line, held, writes) in [
        ("stub --output-elf=o F", STUB.as_slice(), 2),
        ("stub --output-elf=o --write-if-changed F", STUB, 0),
        ("stub --output-elf=o --write-if-changed F", LIBRARY, 1),
        ("stub --output-ifs=n --write-if-changed F", b"", 1),
        (
            "stub --output-ifs=n --output-elf=o --write-if-changed F",
            STUB,
            1,
        ),
    ] {
        assert!(rt; writes_of(alloc, line, 2, held)? == writes, "{line}");
    }
    Ok(())
}

// What a run with two outputs meets and leaves: the calls of the files and of standard output that fail, whether
// the text and the stub are held at `t` and `o`, and what is on standard error.
#[derive(Clone, Copy)]
struct Outputs<'a> {
    words: &'a str,
    files: &'a [u64],
    out: &'a [u64],
    text: bool,
    stub: bool,
    err: &'a [u8],
}

// Whether a run with these two outputs ends so, with status 4.
fn leaves(alloc: Global, outputs: Outputs, text: &[u8]) -> Result<bool, Memory> {
    let words = words_in(alloc, outputs.words)?;
    let mut input = MemorySource::new(Vec::new(alloc), Vec::new(alloc));
    let mut files = MemoryFiles::new(alloc, Vec::from_slice(alloc, outputs.files)?);
    files.put(b"F", LIBRARY)?;
    files.put(b"kept", b"old")?;
    let mut out = MemorySink::new(alloc, Vec::from_slice(alloc, outputs.out)?);
    let mut err = MemorySink::new(alloc, Vec::new(alloc));
    let status = run(alloc, &words, &mut input, &mut files, &mut out, &mut err);
    if status == 5 {
        return Err(Memory);
    }
    let held = |yes: bool, bytes| if yes { Some(bytes) } else { None };
    Ok(
        status == 4
            && files.get(b"t") == held(outputs.text, text)
            && files.get(b"o") == held(outputs.stub, STUB)
            && files.get(b"F") == Some(LIBRARY.as_slice())
            && files.get(b"kept") == Some(b"old".as_slice())
            && out.written().is_empty()
            && err.written() == outputs.err,
    )
}

#[test]
fn outputs_that_fail(rt: HostRuntime) -> Result<(), Fail> {
    let alloc = rt.alloc();
    let mut text = Vec::from_slice(alloc, START)?;
    text.extend_from_slice(SYMBOLS)?;
    text.extend_from_slice(END)?;
    // The read of `F` is call 0 of the files.
    let two = "stub --output-elf=o --output-ifs=t F";
    let changed = "stub --output-elf=o --output-ifs=t --write-if-changed F";
    for (words, files, out, held, err) in [
        (
            two,
            [1].as_slice(),
            [].as_slice(),
            (false, false),
            b"error: t: write failed\n".as_slice(),
        ),
        (two, &[2], &[], (true, false), b"error: o: write failed\n"),
        (
            changed,
            &[1],
            &[],
            (false, false),
            b"error: t: write failed\n",
        ),
        (
            changed,
            &[4],
            &[],
            (true, false),
            b"error: o: write failed\n",
        ),
        (
            "stub --output-elf=o --output-ifs=- F",
            &[],
            &[0],
            (false, false),
            b"error: -: write failed\n",
        ),
        (
            "stub --output-elf=- --output-ifs=t F",
            &[],
            &[0],
            (true, false),
            b"error: -: write failed\n",
        ),
    ] {
        let outputs = Outputs {
            words,
            files,
            out,
            text: held.0,
            stub: held.1,
            err,
        };
        assert!(rt; leaves(alloc, outputs, &text)?);
    }
    Ok(())
}
