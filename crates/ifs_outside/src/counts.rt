//! The counts of files.

ghost use Rattle.std.specs.Prelude.{◌≡◌};

use crate::cause::{Failed, ReadCause, WriteCause};

/// How often something happened to files. No count ever falls, and each stands still at 2^64 - 1.
#[derive(Clone, Copy, Debug, PartialEq, Eq)]
pub struct FileCounts {
    /// Reads that failed.
    pub read_faults: u64,
    /// Comparisons and writes that failed.
    pub write_faults: u64,
    /// Reads of a path that isn't held, or holds too many bytes.
    pub misses: u64,
    /// Writes, whatever they answered.
    pub writes: u64,
}

impl FileCounts {
    ghost use Rattle.ifs_outside.specs.Files.{no_counts, ReadCounts, SameCounts, WriteCounts};

    // Nothing happened yet.
    pub(crate) fn new() -> FileCounts
        ensures { result ≡ no_counts }
    {
        FileCounts {
            read_faults: 0,
            write_faults: 0,
            misses: 0,
            writes: 0,
        }
    }

    // Counts a read.
    pub(crate) fn add_read<T>(&mut self, answer: &Result<T, ReadCause>)
        ensures { ReadCounts answer.now self.old self.new }
    {
        match answer {
            Err(ReadCause::Missing | ReadCause::TooLarge) => {
                self.misses = self.misses.saturating_add(1);
            }
            Err(ReadCause::Failed) => self.read_faults = self.read_faults.saturating_add(1),
            Ok(_) | Err(ReadCause::Memory) => {}
        }
    }

    // Counts a comparison.
    pub(crate) fn add_same(&mut self, answer: &Result<bool, Failed>)
        ensures { SameCounts answer.now self.old self.new }
    {
        if answer.is_err() {
            self.write_faults = self.write_faults.saturating_add(1);
        }
    }

    // Counts a write.
    pub(crate) fn add_write(&mut self, answer: &Result<(), WriteCause>)
        ensures { WriteCounts answer.now self.old self.new }
    {
        self.writes = self.writes.saturating_add(1);
        if let Err(WriteCause::Failed) = answer {
            self.write_faults = self.write_faults.saturating_add(1);
        }
    }
}
