//! A sink over a writer of std.

ghost use Rattle.std.specs.Prelude.{◌≡◌, length, None, OnOk, IfOk};
ghost use Rattle.std.specs.Io.KnownBytes.{Appends};
ghost use Rattle.ifs_outside.specs.Sink.{Puts, SinkCounts};
ghost use Rattle.ifs_outside.specs.StdForms.{writer_of};

use crate::cause::WriteCause;
use crate::sink::Sink;
use std::io;
use std::io::Write;

/// A writer as a sink. What was written isn't told.
#[derive(Debug, Drop)]
pub struct StdSink<W> {
    writer: W,
    faults: u64,
}

impl<W: Write> StdSink<W> {
    /// The sink of what the writer takes.
    pub fn new(writer: W) -> StdSink<W>
        ensures writer { writer_of result ≡ writer }
        ensures faults { ⟦<StdSink<W> as Sink>⟧.faults result ≡ 0 }
    {
        StdSink { writer, faults: 0 }
    }
}

// Writes a piece, and whatever the writer holds back.
fn write_through<W: Write>(writer: &mut W, piece: &[u8]) -> io::Result<()>
    ensures { OnOk result (Appends (W.contents writer.old) (W.contents writer.new) piece.now) }
{
    writer.write_all(piece)?;
    writer.flush()
}

impl<W: Write> Sink for StdSink<W> {
    ghost written = { λ _. None };

    ghost faults = { λ sink. sink.faults };

    /// Writes the whole piece, and flushes, so that a device without room shows here.
    fn write(&mut self, piece: &[u8]) -> Result<usize, WriteCause>
        ensures puts { Puts result piece.now None None }
        ensures counted { SinkCounts result (⟦<StdSink<W> as Sink>⟧.faults self.old) (⟦<StdSink<W> as Sink>⟧.faults self.new) }
        ensures bytes { OnOk result (Appends (W.contents (writer_of self.old)) (W.contents (writer_of self.new)) piece.now) }
        ensures whole { IfOk result (λ n. n ≡ length piece.now) }
    {
        match write_through(&mut self.writer, piece) {
            Ok(()) => Ok(piece.len()),
            Err(_) => {
                self.faults = self.faults.saturating_add(1);
                Err(WriteCause::Failed)
            }
        }
    }
}
