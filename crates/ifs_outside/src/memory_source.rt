//! A source in memory.

ghost use Rattle.std.specs.Prelude.{◌≡◌, min, length, take, is_err, IfOk, Some};
ghost use Rattle.ifs_outside.specs.Source.{Takes, SourceCounts};
ghost use Rattle.ifs_outside.specs.Schedule.{no_calls, is_to_fail, after_call};

use crate::cause::Failed;
use crate::schedule::Schedule;
use crate::source::Source;
use std::marker::Model;

/// Bytes that are read from memory, some of whose reads fail.
#[derive(Debug, Drop)]
pub struct MemorySource {
    bytes: Vec<u8>,
    at: usize,
    calls: Schedule,
    faults: u64,
}

impl Model for MemorySource {
    ghost use Rattle.std.specs.Prelude.{◌≤◌, drop, length};
    ghost use Rattle.ifs_outside.specs.MemorySource.{SourceState};

    ghost Value = { SourceState };

    ghost view = { λ source. record { left = drop source.at source.bytes.items; calls = source.calls; faults = source.faults } };

    ghost invariant = { λ source. source.at ≤ length source.bytes.items };
}

// Moves as many bytes as both have room for.
fn copy_front(from: &[u8], into: &mut [u8]) -> usize
    ensures most { result ≡ min (length into.old) (length from.now) }
    ensures copied { take result into.new ≡ take result from.now }
{
    let count = into.len().min(from.len());
    into[..count].copy_from_slice(&from[..count]);
    count
}

impl MemorySource {
    /// The bytes, and the numbers of the reads that are to fail, counted from 0.
    pub fn new(bytes: Vec<u8>, failing: Vec<u64>) -> MemorySource
        ensures { result ≡ record { left = bytes.items; calls = no_calls failing.items; faults = 0 } }
    {
        MemorySource {
            bytes,
            at: 0,
            calls: Schedule::new(failing),
            faults: 0,
        }
    }
}

impl Source for MemorySource {
    ghost left = { λ source. Some source.left };

    ghost faults = { λ source. source.faults };

    /// Gives as many bytes as there are and as there is room for.
    fn read(&mut self, into: &mut [u8]) -> Result<usize, Failed>
        ensures takes { Takes result into.new (Some self.old.left) (Some self.new.left) }
        ensures counted { SourceCounts result self.old.faults self.new.faults }
        ensures fails { is_err result ≡ is_to_fail self.old.calls }
        ensures most { IfOk result (λ n. n ≡ min (length into.old) (length self.old.left)) }
        ensures calls { self.new.calls ≡ after_call self.old.calls }
    {
        if self.calls.begin() {
            self.faults = self.faults.saturating_add(1);
            return Err(Failed);
        }
        let (_, rest) = self.bytes.as_slice().split_at(self.at);
        let count = copy_front(rest, into);
        self.at += count;
        Ok(count)
    }
}
