//! A source over a reader of std.

ghost use Rattle.std.specs.Prelude.{◌≡◌, None};
ghost use Rattle.std.specs.Io.{ReadsAtMost};
ghost use Rattle.std.specs.Io.KnownBytes.{ReadConsumes};
ghost use Rattle.ifs_outside.specs.Source.{Takes, SourceCounts};
ghost use Rattle.ifs_outside.specs.StdForms.{reader_of};

use crate::cause::Failed;
use crate::source::Source;
use std::io;
use std::io::Read;

/// A reader as a source. What is left isn't told.
#[derive(Debug, Drop)]
pub struct StdSource<R> {
    reader: R,
    faults: u64,
}

impl<R: Read> StdSource<R> {
    /// The source of what the reader gives.
    pub fn new(reader: R) -> StdSource<R>
        ensures reader { reader_of result ≡ reader }
        ensures faults { ⟦<StdSource<R> as Source>⟧.faults result ≡ 0 }
    {
        StdSource { reader, faults: 0 }
    }
}

// One read, again where a signal interrupted it.
pub(crate) fn read_once<R: Read>(reader: &mut R, into: &mut [u8]) -> io::Result<usize>
    ensures most { ReadsAtMost result into.new }
    ensures bytes { ReadConsumes (R.remaining reader.old) (R.remaining reader.new) result into.new }
{
    for _ in 0..u64::MAX {
        match reader.read(into) {
            Err(error) if error.kind() == io::ErrorKind::Interrupted => {}
            answer => return answer,
        }
    }
    Err(io::Error::from(io::ErrorKind::Interrupted))
}

impl<R: Read> Source for StdSource<R> {
    ghost left = { λ _. None };

    ghost faults = { λ source. source.faults };

    /// One read of the reader.
    fn read(&mut self, into: &mut [u8]) -> Result<usize, Failed>
        ensures takes { Takes result into.new None None }
        ensures counted { SourceCounts result (⟦<StdSource<R> as Source>⟧.faults self.old) (⟦<StdSource<R> as Source>⟧.faults self.new) }
        ensures bytes { ReadConsumes (R.remaining (reader_of self.old)) (R.remaining (reader_of self.new)) result into.new }
    {
        match read_once(&mut self.reader, into) {
            Ok(count) => Ok(count),
            Err(_) => {
                self.faults = self.faults.saturating_add(1);
                Err(Failed)
            }
        }
    }
}
