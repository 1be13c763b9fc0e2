ghost use Rattle.std.specs.Prelude.{Some};

use super::*;
use std::alloc::Global;
use std::test::Fail;
use std::{env, fs, process};

// A sink that takes two bytes at a time.
#[derive(Drop)]
struct Narrow {
    wide: MemorySink,
}

impl Sink for Narrow {
    ghost written = { λ sink. Some sink.wide.written };

    ghost faults = { λ sink. sink.wide.faults };

    fn write(&mut self, piece: &[u8]) -> Result<usize, WriteCause> {
        let (front, _) = piece.split_at(piece.len().min(2));
        self.wide.write(front)
    }
}

#[test]
fn a_write_that_fails_stops_in_the_middle(rt: HostRuntime) -> Result<(), Fail> {
    let failing = vec![in rt.alloc(); 1, 4]?;
    let mut out = Narrow {
        wide: MemorySink::new(rt.alloc(), failing),
    };
    let failed = Err(WriteCause::Failed);
    for (text, answer, written) in [
        (b"abcd".as_slice(), failed, b"ab".as_slice()),
        (b"cdef".as_slice(), Ok(()), b"abcdef".as_slice()),
        (b"!".as_slice(), failed, b"abcdef".as_slice()),
        (b"!".as_slice(), Ok(()), b"abcdef!".as_slice()),
    ] {
        assert!(rt; write_all(&mut out, text) == answer);
        assert!(rt; out.wide.written() == written);
    }
    Ok(())
}

#[test]
fn a_read_that_fails_takes_nothing(rt: HostRuntime) -> Result<(), Fail> {
    let bytes = Vec::from_slice(rt.alloc(), b"abcde")?;
    let mut input = MemorySource::new(bytes, vec![in rt.alloc(); 1]?);
    let mut room = [0; 3];
    for (answer, read) in [
        (Ok(3), b"abc".as_slice()),
        (Err(Failed), b"abc".as_slice()),
        (Ok(2), b"dec".as_slice()),
        (Ok(0), b"dec".as_slice()),
    ] {
        assert!(rt; input.read(&mut room) == answer);
        assert!(rt; room.as_slice() == read);
    }
    Ok(())
}

// Whether the wanted bytes are read.
fn is_read<F: Files>(
    alloc: Global,
    files: &mut F,
    path: &[u8],
    limit: u64,
    wanted: &[u8],
) -> Result<bool, ReadCause> {
    Ok(files.read(alloc, path, limit)?.as_slice() == wanted)
}

#[test]
fn files_in_memory_are_read(rt: HostRuntime) -> Result<(), Fail> {
    let mut files = MemoryFiles::new(rt.alloc(), vec![in rt.alloc(); 3]?);
    files.put(b"a", b"one")?;
    files.put(b"b", b"two")?;
    files.put(b"a", b"three")?;
    for (path, limit, answer) in [
        (b"a".as_slice(), 5, Ok(true)),
        (b"a".as_slice(), 4, Err(ReadCause::TooLarge)),
        (b"c".as_slice(), 4, Err(ReadCause::Missing)),
        (b"a".as_slice(), 5, Err(ReadCause::Failed)),
        (b"b".as_slice(), 5, Ok(false)),
    ] {
        assert!(rt; is_read(rt.alloc(), &mut files, path, limit, b"three") == answer);
    }
    assert!(rt; files.same(b"b", b"two") == Ok(true));
    Ok(())
}

#[test]
fn files_in_memory_are_written(rt: HostRuntime) -> Result<(), Fail> {
    let mut files = MemoryFiles::new(rt.alloc(), vec![in rt.alloc(); 1]?);
    for (answer, held) in [
        (Ok(()), Some(b"text".as_slice())),
        (Err(WriteCause::Failed), None),
        (Ok(()), Some(b"text".as_slice())),
    ] {
        assert!(rt; files.write(b"a", b"text") == answer);
        assert!(rt; files.get(b"a") == held);
    }
    assert_eq!(rt; files.writes(), 3);
    Ok(())
}

#[test]
fn files_of_the_system_are_read(rt: HostRuntime) {
    let mut files = StdFiles::new(&rt);
    for (path, limit, answer) in [
        (
            b"/tmp/ifs_outside_missing".as_slice(),
            9,
            Err(ReadCause::Missing),
        ),
        (b"".as_slice(), 9, Err(ReadCause::Missing)),
        (b"/tmp".as_slice(), 9, Err(ReadCause::Failed)),
        (b"/dev/null/a".as_slice(), 9, Err(ReadCause::Failed)),
        (b"\xff".as_slice(), 9, Err(ReadCause::Failed)),
        (b"/dev/zero".as_slice(), 200000, Err(ReadCause::TooLarge)),
        (b"/dev/null".as_slice(), 0, Ok(true)),
    ] {
        assert!(rt; is_read(rt.alloc(), &mut files, path, limit, b"") == answer);
    }
}

#[test]
fn files_of_the_system_are_written(rt: HostRuntime) -> Result<(), Fail> {
    let folder = env::temp_dir(&rt)?;
    let folder = folder.as_path().display();
    let number = process::id(rt.process());
    let path = format!(in rt.alloc(); "{folder}/ifs_outside_{number}")?;
    let mut files = StdFiles::new(&rt);
    let text = vec![in rt.alloc(); 7; 200000]?;
    let text = text.as_slice();
    for (written, same) in [(text, true), (b"short".as_slice(), false), (text, true)] {
        assert!(rt; files.write(path.as_bytes(), written) == Ok(()));
        assert!(rt; files.same(path.as_bytes(), text) == Ok(same));
    }
    assert!(rt; is_read(rt.alloc(), &mut files, path.as_bytes(), 200000, text) == Ok(true));
    fs::remove_file(&rt, path.as_str())?;
    assert!(rt; files.same(path.as_bytes(), text) == Ok(false));
    assert!(rt; files.write(b"/tmp", text) == Err(WriteCause::Failed));
    Ok(())
}

#[test]
fn readers_and_writers_of_std(rt: HostRuntime) -> Result<(), Fail> {
    let mut input = StdSource::new(b"abc".as_slice());
    let mut room = [0; 2];
    for answer in [Ok(2), Ok(1), Ok(0)] {
        assert!(rt; input.read(&mut room) == answer);
    }
    let mut full = StdSink::new(fs::create(&rt, "/dev/full")?);
    assert!(rt; write_all(&mut full, b"abc") == Err(WriteCause::Failed));
    let mut out = StdSink::new(Vec::new(rt.alloc()));
    assert!(rt; write_all(&mut out, b"abc") == Ok(()));
    Ok(())
}

#[test]
fn causes_are_printed(rt: HostRuntime) -> Result<(), Fail> {
    let read = ReadCause::TooLarge.printed(rt.alloc())?;
    let written = WriteCause::Memory.printed(rt.alloc())?;
    assert!(rt; read.as_bytes() == b"TooLarge".as_slice());
    assert!(rt; written.as_bytes() == b"Memory".as_slice());
    Ok(())
}
