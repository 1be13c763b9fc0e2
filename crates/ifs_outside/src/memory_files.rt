//! Files in memory.

ghost use Rattle.std.specs.Prelude.{◌≡◌, ◌≤◌, ◌↔◌, [], Some, None, IsTrue, IsErr, IsErrOf, IfOk, OnOk, OnErr, vec_len};
ghost use Rattle.std.specs.Option.{option_copied};
ghost use Rattle.ifs_outside.specs.Files.{put, no_counts, reading, ReadTells, ReadCounts, SameTells, SameCounts, Stores, WriteCounts};
ghost use Rattle.ifs_outside.specs.MemoryFiles.{held_in};
ghost use Rattle.ifs_outside.specs.Schedule.{no_calls, is_to_fail, after_call};

use crate::cause::{Failed, ReadCause, WriteCause};
use crate::counts::FileCounts;
use crate::entries::Entries;
use crate::files::Files;
use crate::schedule::Schedule;
use ifs_bytes::Memory;
use std::alloc::Global;
use std::marker::Model;

/// Files in memory, some of whose calls fail.
#[derive(Debug, Drop)]
pub struct MemoryFiles {
    entries: Entries,
    calls: Schedule,
    counts: FileCounts,
}

impl Model for MemoryFiles {
    ghost use Rattle.ifs_outside.specs.MemoryFiles.{FilesState};

    ghost Value = { FilesState };

    ghost view = { λ files. record { entries = files.entries; calls = files.calls; counts = files.counts } };
}

impl MemoryFiles {
    /// Files of which none is held, and the numbers of the calls of `read`, `same` and `write` together
    /// that are to fail, counted from 0. It takes no memory.
    pub fn new(alloc: Global, failing: Vec<u64>) -> MemoryFiles
        ensures { result ≡ record { entries = []; calls = no_calls failing.items; counts = no_counts } }
    {
        MemoryFiles {
            entries: Entries::new(alloc),
            calls: Schedule::new(failing),
            counts: FileCounts::new(),
        }
    }

    /// Makes the path hold the bytes; no count rises. Where memory runs out nothing changes.
    pub fn put(&mut self, path: &[u8], bytes: &[u8]) -> Result<(), Memory>
        ensures ok { OnOk result (held_in self.new.entries ≡ put path.now (Some bytes.now) (held_in self.old.entries)) }
        ensures others { self.new ≡ record self.old { entries = self.new.entries } }
        ensures memory { OnErr result (self.new ≡ self.old) }
    {
        self.entries.put(path, bytes)
    }

    /// What the path holds, None exactly where it isn't held.
    pub fn get(&self, path: &[u8]) -> Option<&[u8]>
        ensures { option_copied result ≡ held_in self.now.entries path.now }
    {
        self.entries.get(path)
    }

    /// How often `write` was called.
    pub fn writes(&self) -> u64
        ensures { result ≡ self.now.counts.writes }
    {
        self.counts.writes
    }
}

// Reads what a path holds, unless the call is to fail.
fn read_entry(
    entries: &Entries,
    fails: bool,
    alloc: Global,
    path: &[u8],
    limit: u64,
) -> Result<Vec<u8>, ReadCause>
    ensures within { IfOk result (λ bytes. vec_len bytes ≤ limit) }
    ensures tells { ReadTells result (reading limit (held_in entries.now path.now)) }
    ensures fails { IsErrOf result ReadCause.Failed ↔ IsTrue fails }
{
    if fails {
        return Err(ReadCause::Failed);
    }
    entries.read(alloc, path, limit)
}

// Compares what a path holds, unless the call is to fail.
fn same_entry(entries: &Entries, fails: bool, path: &[u8], bytes: &[u8]) -> Result<bool, Failed>
    ensures tells { SameTells result (held_in entries.now path.now) bytes.now }
    ensures fails { IsErr result ↔ IsTrue fails }
{
    if fails {
        return Err(Failed);
    }
    Ok(entries.holds(path, bytes))
}

// Makes a path hold the bytes, or takes it away where the call is to fail.
fn write_entry(
    entries: &mut Entries,
    fails: bool,
    path: &[u8],
    bytes: &[u8],
) -> Result<(), WriteCause>
    ensures stores { Stores result path.now bytes.now (Some (held_in entries.old)) (Some (held_in entries.new)) }
    ensures fails { IsErrOf result WriteCause.Failed ↔ IsTrue fails }
    ensures failed { IsErrOf result WriteCause.Failed → held_in entries.new ≡ put path.now None (held_in entries.old) }
{
    if fails {
        entries.remove(path);
        return Err(WriteCause::Failed);
    }
    entries.put(path, bytes)?;
    Ok(())
}

impl Files for MemoryFiles {
    ghost map = { λ files. Some (held_in files.entries) };

    ghost counts = { λ files. files.counts };

    /// A copy of what the path holds.
    fn read(&mut self, alloc: Global, path: &[u8], limit: u64) -> Result<Vec<u8>, ReadCause>
        ensures within { IfOk result (λ bytes. vec_len bytes ≤ limit) }
        ensures tells { ReadTells result (reading limit (held_in self.old.entries path.now)) }
        ensures keeps { held_in self.new.entries ≡ held_in self.old.entries }
        ensures counted { ReadCounts result self.old.counts self.new.counts }
        ensures fails { IsErrOf result ReadCause.Failed ↔ IsTrue (is_to_fail self.old.calls) }
        ensures calls { self.new.calls ≡ after_call self.old.calls }
    {
        let fails = self.calls.begin();
        let answer = read_entry(&self.entries, fails, alloc, path, limit);
        self.counts.add_read(&answer);
        answer
    }

    /// Whether the path holds just these bytes.
    fn same(&mut self, path: &[u8], bytes: &[u8]) -> Result<bool, Failed>
        ensures tells { SameTells result (held_in self.old.entries path.now) bytes.now }
        ensures keeps { held_in self.new.entries ≡ held_in self.old.entries }
        ensures counted { SameCounts result self.old.counts self.new.counts }
        ensures fails { IsErr result ↔ IsTrue (is_to_fail self.old.calls) }
        ensures calls { self.new.calls ≡ after_call self.old.calls }
    {
        let fails = self.calls.begin();
        let answer = same_entry(&self.entries, fails, path, bytes);
        self.counts.add_same(&answer);
        answer
    }

    /// Makes the path hold the bytes. A write that fails takes the path away.
    fn write(&mut self, path: &[u8], bytes: &[u8]) -> Result<(), WriteCause>
        ensures stores { Stores result path.now bytes.now (Some (held_in self.old.entries)) (Some (held_in self.new.entries)) }
        ensures counted { WriteCounts result self.old.counts self.new.counts }
        ensures fails { IsErrOf result WriteCause.Failed ↔ IsTrue (is_to_fail self.old.calls) }
        ensures failed { IsErrOf result WriteCause.Failed → held_in self.new.entries ≡ put path.now None (held_in self.old.entries) }
        ensures calls { self.new.calls ≡ after_call self.old.calls }
    {
        let fails = self.calls.begin();
        let answer = write_entry(&mut self.entries, fails, path, bytes);
        self.counts.add_write(&answer);
        answer
    }
}
