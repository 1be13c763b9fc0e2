//! The top call.

ghost use Rattle.std.specs.Prelude.{◌≡◌, ◌⊎◌, map, string_bytes};
ghost use Rattle.ifs_words.specs.Words.{words_of};
ghost use Rattle.ifs_top.specs.Runs.{Runs, outside};
ghost use Rattle.ifs_top.specs.Steps.{Decides};

use crate::deliver::{deliver, stopped};
use crate::refusal::Stop;
use crate::reply::{Reply, fault};
use crate::stub::stub;
use ifs_outside::{Files, Sink, Source};
use ifs_words::{Command, WordCause};
use std::alloc::Global;

// What the words ask for.
fn decide<F: Files>(alloc: Global, words: &[String], files: &mut F) -> Result<Reply, Stop>
    ensures answers { Decides (words_of (map string_bytes words.now)) result (F.map files.old)
        (F.counts files.old) (F.counts files.new) }
    ensures keeps { F.map files.new ≡ F.map files.old }
{
    match Command::parse(alloc, words) {
        Ok(Command::Stub(words)) => stub(alloc, &words, files),
        Err(WordCause::Memory) => Err(Stop::Memory),
        Err(cause) => Ok(fault(alloc, b"words", cause.printed(alloc)?.as_bytes(), 2)?),
    }
}

/// Runs a command: `words` are those behind the program's name. The status is 0 where it was done, 1 where
/// an input was refused, 2 where the words were, 3 where reading failed or a file is missing or too large, 4
/// where writing failed, 5 where memory ran out; of several the greatest. A refusal or a fault gives one
/// line `error: SUBJECT: TEXT` on `err`.
pub fn run<S: Source, F: Files, K: Sink, E: Sink>(
    alloc: Global,
    words: &[String],
    input: &mut S,
    files: &mut F,
    out: &mut K,
    err: &mut E,
) -> u8
    ensures { Runs (words_of (map string_bytes words.now)) result
        (outside (S.left input.old) (S.faults input.old) (K.written out.old) (K.faults out.old)
        (F.map files.old) (F.counts files.old) (E.written err.old) (E.faults err.old))
        (outside (S.left input.new) (S.faults input.new) (K.written out.new) (K.faults out.new)
        (F.map files.new) (F.counts files.new) (E.written err.new) (E.faults err.new)) }
{
    match decide(alloc, words, files) {
        Ok(reply) => deliver(alloc, &reply, files, out, err),
        Err(stop) => stopped(&stop, err),
    }
}
