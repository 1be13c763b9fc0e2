//! The files of the system.

ghost use Rattle.std.specs.Prelude.{◌≡◌, ◌≤◌, ◌↔◌, [], Some, None, IsTrue, IfSome, IfOk, vec_len};
ghost use Rattle.ifs_outside.specs.Files.{no_counts, reading, ReadTells};

use crate::cause::{Failed, ReadCause, WriteCause};
use crate::counts::FileCounts;
use crate::files::Files;
use crate::std_source::read_once;
use std::alloc::Global;
use std::fs::OpenFile;
use std::io::{ErrorKind, Read, Write};
use std::{fs, io, rt, str};

/// The files that a runtime reaches, for HostRuntime those of the system. What they hold isn't told. A path
/// that isn't found is missing; a folder, a path through a file, a path that isn't UTF-8 and every other
/// error is a fault.
#[derive(Debug, Drop)]
pub struct StdFiles<R> {
    runtime: R,
    counts: FileCounts,
}

impl<R: rt::Files> StdFiles<R> {
    /// The files of the runtime.
    pub fn new(runtime: R) -> StdFiles<R>
        ensures { ⟦<StdFiles<R> as Files>⟧.counts result ≡ no_counts }
    {
        StdFiles {
            runtime,
            counts: FileCounts::new(),
        }
    }
}

// How many bytes are compared at a time.
const PIECE: usize = 65536;

// Opens a file to read it.
fn open<R: rt::Files>(runtime: &R, path: &[u8]) -> Result<R::File, ReadCause> {
    let Ok(path) = str::from_utf8(path) else {
        return Err(ReadCause::Failed);
    };
    match fs::open(runtime, path) {
        Ok(file) => Ok(file),
        Err(error) if error.kind() == ErrorKind::NotFound => Err(ReadCause::Missing),
        Err(_) => Err(ReadCause::Failed),
    }
}

// How many bytes a file says that it has; None where it isn't a plain file.
fn told_size<F: OpenFile>(file: &F) -> Option<u64> {
    match file.metadata() {
        Ok(metadata) if metadata.is_file() => Some(metadata.len()),
        _ => None,
    }
}

// Reads to the end, behind no bytes.
fn read_to_limit<F: Read + Drop>(
    file: F,
    mut bytes: Vec<u8>,
    limit: u64,
) -> Result<Vec<u8>, ReadCause>
    requires { bytes.items ≡ [] }
    ensures within { IfOk result (λ bytes. vec_len bytes ≤ limit) }
    ensures tells { IfSome (F.remaining file) (λ left. ReadTells result (reading limit (Some left))) }
{
    match file.take(limit.saturating_add(1)).read_to_end(&mut bytes) {
        Ok(_) if bytes.len() as u64 > limit => Err(ReadCause::TooLarge),
        Ok(_) => Ok(bytes),
        Err(error) if error.kind() == ErrorKind::OutOfMemory => Err(ReadCause::Memory),
        Err(_) => Err(ReadCause::Failed),
    }
}

// Reads a file to its end. Its room is taken at once where its size is told.
fn read_whole<R: rt::Files>(
    runtime: &R,
    alloc: Global,
    path: &[u8],
    limit: u64,
) -> Result<Vec<u8>, ReadCause>
    ensures { IfOk result (λ bytes. vec_len bytes ≤ limit) }
{
    let file = open(runtime, path)?;
    let size = told_size(&file).unwrap_or(0);
    if size > limit {
        return Err(ReadCause::TooLarge);
    }
    let bytes = Vec::with_capacity(alloc, size.saturating_add(1) as usize)?;
    read_to_limit(file, bytes, limit)
}

// Whether what a reader has left is just these bytes, which are compared piece by piece.
fn holds_just<F: Read>(file: &mut F, bytes: &[u8]) -> io::Result<bool>
    ensures { IfSome (F.remaining file.old) (λ left. IfOk result (λ same. IsTrue same ↔ (left ≡ bytes.now))) }
{
    let mut buffer = [0; PIECE];
    let mut rest = bytes;
    loop {
        let count = read_once(file, &mut buffer)?;
        if count == 0 {
            return Ok(rest.is_empty());
        }
        match rest.strip_prefix(&buffer[..count]) {
            Some(others) => rest = others,
            None => return Ok(false),
        }
    }
}

// Compares a file with the bytes.
fn same_whole<R: rt::Files>(runtime: &R, path: &[u8], bytes: &[u8]) -> Result<bool, Failed> {
    match open(runtime, path) {
        Ok(mut file) => holds_just(&mut file, bytes).map_err(|_| Failed),
        Err(ReadCause::Missing) => Ok(false),
        Err(_) => Err(Failed),
    }
}

// Makes a file hold the bytes.
fn write_whole<R: rt::Files>(runtime: &R, path: &[u8], bytes: &[u8]) -> Result<(), WriteCause> {
    let Ok(path) = str::from_utf8(path) else {
        return Err(WriteCause::Failed);
    };
    let Ok(mut file) = fs::create(runtime, path) else {
        return Err(WriteCause::Failed);
    };
    if file.write_all(bytes).is_err() || file.flush().is_err() {
        return Err(WriteCause::Failed);
    }
    Ok(())
}

impl<R: rt::Files> Files for StdFiles<R> {
    ghost map = { λ _. None };

    ghost counts = { λ files. files.counts };

    fn read(&mut self, alloc: Global, path: &[u8], limit: u64) -> Result<Vec<u8>, ReadCause> {
        let answer = read_whole(&self.runtime, alloc, path, limit);
        self.counts.add_read(&answer);
        answer
    }

    fn same(&mut self, path: &[u8], bytes: &[u8]) -> Result<bool, Failed> {
        let answer = same_whole(&self.runtime, path, bytes);
        self.counts.add_same(&answer);
        answer
    }

    fn write(&mut self, path: &[u8], bytes: &[u8]) -> Result<(), WriteCause> {
        let answer = write_whole(&self.runtime, path, bytes);
        self.counts.add_write(&answer);
        answer
    }
}
