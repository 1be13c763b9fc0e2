//! Bytes that are written.

ghost use Rattle.std.specs.Prelude.{ℕ, List, Option};
ghost use Rattle.ifs_outside.specs.Sink.{Puts, PutsAll, SinkCounts};

use crate::cause::WriteCause;

/// A sink of bytes, as standard output.
pub trait Sink {
    /// All that was written, where the sink tells it.
    ghost written: { Self → Option (List ℕ) };

    /// How many writes failed; it stands still at 2^64 - 1.
    ghost faults: { Self → ℕ };

    /// Appends the first bytes of the piece and says how many, which is more than 0 for a piece that
    /// isn't empty. Where it fails, a prefix of the piece was appended, maybe an empty one; where
    /// memory runs out, nothing was.
    fn write(&mut self, piece: &[u8]) -> Result<usize, WriteCause>
        ensures puts { Puts result piece.now (written self.old) (written self.new) }
        ensures counted { SinkCounts result (faults self.old) (faults self.new) };
}

/// Writes all the bytes. Where it fails or memory runs out, a prefix of them was written.
pub fn write_all<K: Sink>(out: &mut K, bytes: &[u8]) -> Result<(), WriteCause>
    ensures puts { PutsAll result bytes.now (K.written out.old) (K.written out.new) }
    ensures counted { SinkCounts result (K.faults out.old) (K.faults out.new) }
{
    let mut done = 0;
    while done < bytes.len() {
        let (_, rest) = bytes.split_at(done);
        done += out.write(rest)?;
    }
    Ok(())
}
