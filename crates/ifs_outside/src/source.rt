//! Bytes that are read to their end.

ghost use Rattle.std.specs.Prelude.{ℕ, List, Option};
ghost use Rattle.ifs_outside.specs.Source.{Takes, SourceCounts};

use crate::cause::Failed;

/// A source of bytes, as standard input.
pub trait Source {
    /// The bytes that are left, where the source tells them.
    ghost left: { Self → Option (List ℕ) };

    /// How many reads failed; it stands still at 2^64 - 1.
    ghost faults: { Self → ℕ };

    /// Moves the next bytes into the room and says how many; 0 for room that isn't empty is the end.
    /// Where it fails, what is left is as it was.
    fn read(&mut self, into: &mut [u8]) -> Result<usize, Failed>
        ensures takes { Takes result into.new (left self.old) (left self.new) }
        ensures counted { SourceCounts result (faults self.old) (faults self.new) };
}
