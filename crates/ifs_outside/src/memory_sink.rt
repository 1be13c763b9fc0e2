//! A sink in memory.

ghost use Rattle.std.specs.Prelude.{◌≡◌, ◌↔◌, length, [], Some, IsTrue, IsErrOf, IfOk};
ghost use Rattle.ifs_outside.specs.Sink.{Puts, SinkCounts};
ghost use Rattle.ifs_outside.specs.Schedule.{no_calls, is_to_fail, after_call};

use crate::cause::WriteCause;
use crate::schedule::Schedule;
use crate::sink::Sink;
use std::alloc::Global;
use std::marker::Model;

/// Bytes that are written into memory, some of whose writes fail.
#[derive(Debug, Drop)]
pub struct MemorySink {
    bytes: Vec<u8>,
    calls: Schedule,
    faults: u64,
}

impl Model for MemorySink {
    ghost use Rattle.ifs_outside.specs.MemorySink.{SinkState};

    ghost Value = { SinkState };

    ghost view = { λ sink. record { written = sink.bytes.items; calls = sink.calls; faults = sink.faults } };
}

impl MemorySink {
    /// A sink with nothing written, and the numbers of the writes that are to fail, counted from 0. It
    /// takes no memory.
    pub fn new(alloc: Global, failing: Vec<u64>) -> MemorySink
        ensures { result ≡ record { written = []; calls = no_calls failing.items; faults = 0 } }
    {
        MemorySink {
            bytes: Vec::new(alloc),
            calls: Schedule::new(failing),
            faults: 0,
        }
    }

    /// All that was written.
    pub fn written(&self) -> &[u8]
        ensures { result.now ≡ self.now.written }
    {
        self.bytes.as_slice()
    }
}

impl Sink for MemorySink {
    ghost written = { λ sink. Some sink.written };

    ghost faults = { λ sink. sink.faults };

    /// Appends the whole piece. A write that fails, and one that finds no memory, appends nothing.
    fn write(&mut self, piece: &[u8]) -> Result<usize, WriteCause>
        ensures puts { Puts result piece.now (Some self.old.written) (Some self.new.written) }
        ensures counted { SinkCounts result self.old.faults self.new.faults }
        ensures fails { IsErrOf result WriteCause.Failed ↔ IsTrue (is_to_fail self.old.calls) }
        ensures failed { IsErrOf result WriteCause.Failed → self.new.written ≡ self.old.written }
        ensures whole { IfOk result (λ n. n ≡ length piece.now) }
        ensures calls { self.new.calls ≡ after_call self.old.calls }
    {
        if self.calls.begin() {
            self.faults = self.faults.saturating_add(1);
            return Err(WriteCause::Failed);
        }
        self.bytes.extend_from_slice(piece)?;
        Ok(piece.len())
    }
}
