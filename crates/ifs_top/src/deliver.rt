//! A reply is written: its outputs in order, then its line.

ghost use Rattle.std.specs.Prelude.{◌≡◌, ◌⊎◌, ◌&&◌, codes, length, IfOk, IfSome, Result};
ghost use Rattle.ifs_outside.specs.Files.{SameCounts};
ghost use Rattle.ifs_top.specs.Outside.{holds, places};
ghost use Rattle.ifs_top.specs.Reply.{fault_line};
ghost use Rattle.ifs_top.specs.Steps.{WritesOne, WritesAll, Says, memory_line, Delivers, StopSays};

use crate::refusal::Stop;
use crate::reply::{Output, Reply, fault_line};
use ifs_bytes::Memory;
use ifs_outside::{Failed, Files, Sink, WriteCause, write_all};
use std::alloc::Global;

/// An output that wasn't written whole: its path, and why.
#[derive(Debug, Drop)]
pub struct Unwritten<'a> {
    pub path: &'a [u8],
    pub cause: WriteCause,
}

// Whether a file stays untouched: it holds the bytes of the output already, and is written only where it doesn't.
fn stays<F: Files>(output: &Output, files: &mut F) -> Result<bool, Failed>
    ensures tells { IfOk result (λ stays. IfSome (F.map files.old) (λ held. stays ≡ (output.now.if_changed && holds output.now.bytes (held output.now.path)))) }
    ensures keeps { F.map files.new ≡ F.map files.old }
    ensures counted { SameCounts result (F.counts files.old) (F.counts files.new) }
{
    if output.if_changed {
        files.same(output.path.as_bytes(), output.bytes.as_bytes())
    } else {
        Ok(false)
    }
}

// Writes one output.
fn write_output<F: Files, K: Sink>(
    output: &Output,
    files: &mut F,
    out: &mut K,
) -> Result<(), WriteCause>
    ensures { WritesOne result output.now
        (places (K.written out.old) (K.faults out.old) (F.map files.old) (F.counts files.old))
        (places (K.written out.new) (K.faults out.new) (F.map files.new) (F.counts files.new)) }
{
    if output.is_printed() {
        return write_all(out, output.bytes.as_bytes());
    }
    match stays(output, files) {
        Ok(true) => Ok(()),
        Ok(false) => files.write(output.path.as_bytes(), output.bytes.as_bytes()),
        Err(Failed) => Err(WriteCause::Failed),
    }
}

/// Writes the outputs in order, up to the first that isn't written whole.
pub fn write_outputs<'a, F: Files, K: Sink>(
    outputs: &'a [Output],
    files: &mut F,
    out: &mut K,
) -> Result<(), Unwritten<'a>>
    ensures { WritesAll result outputs.now
        (places (K.written out.old) (K.faults out.old) (F.map files.old) (F.counts files.old))
        (places (K.written out.new) (K.faults out.new) (F.map files.new) (F.counts files.new)) }
{
    match outputs {
        [] => Ok(()),
        [output, rest @ ..] => match write_output(output, files, out) {
            Ok(()) => write_outputs(rest, files, out),
            Err(cause) => Err(Unwritten {
                path: output.path.as_bytes(),
                cause,
            }),
        },
    }
}

/// Writes a line on standard error and gives the status, or a greater one where the line wasn't written.
pub fn say<E: Sink>(err: &mut E, line: &[u8], status: u8) -> u8
    ensures { Says line.now status result (E.written err.old) (E.written err.new) (E.faults err.old)
        (E.faults err.new) }
{
    match write_all(err, line) {
        Ok(()) => status,
        Err(WriteCause::Failed) => status.max(4),
        Err(WriteCause::Memory) => 5,
    }
}

// Says that memory ran out.
fn say_memory<E: Sink>(err: &mut E) -> u8
    ensures { Says memory_line 5 result (E.written err.old) (E.written err.new) (E.faults err.old) (E.faults err.new) }
{
    say(err, b"error: memory\n", 5)
}

// Says that an output wasn't written.
fn say_unwritten<E: Sink>(alloc: Global, path: &[u8], err: &mut E) -> u8
    ensures { Says (fault_line path.now (codes "write failed")) 4 result (E.written err.old)
        (E.written err.new) (E.faults err.old) (E.faults err.new)
        ⊎ Says memory_line 5 result (E.written err.old) (E.written err.new) (E.faults err.old)
        (E.faults err.new) }
{
    match fault_line(alloc, path, b"write failed") {
        Ok(line) => say(err, line.as_bytes(), 4),
        Err(Memory) => say_memory(err),
    }
}

/// Writes a reply and gives the status of the run.
pub fn deliver<F: Files, K: Sink, E: Sink>(
    alloc: Global,
    reply: &Reply,
    files: &mut F,
    out: &mut K,
    err: &mut E,
) -> u8
    ensures { Delivers reply.now result
        (places (K.written out.old) (K.faults out.old) (F.map files.old) (F.counts files.old))
        (places (K.written out.new) (K.faults out.new) (F.map files.new) (F.counts files.new))
        (E.written err.old) (E.written err.new) (E.faults err.old) (E.faults err.new) }
{
    match write_outputs(reply.outputs.as_slice(), files, out) {
        Ok(()) => say(err, reply.line.as_bytes(), reply.status),
        Err(
            Unwritten {
                path,
                cause: WriteCause::Failed,
            },
        ) => say_unwritten(alloc, path, err),
        Err(
            Unwritten {
                path: _,
                cause: WriteCause::Memory,
            },
        ) => say_memory(err),
    }
}

/// Says why a run stopped, and gives its status.
pub fn stopped<E: Sink>(stop: &Stop, err: &mut E) -> u8
    ensures { StopSays stop.now result (E.written err.old) (E.written err.new) (E.faults err.old) (E.faults err.new) }
{
    match stop {
        Stop::Unread(line) => say(err, line.as_bytes(), 3),
        Stop::Memory => say_memory(err),
    }
}
