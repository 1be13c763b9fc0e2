//! The path of the interpreter, .interp.

ghost use Rattle.std.specs.Prelude.{◌≡◌};
ghost use Rattle.std.specs.Option.{unwrap_or};
ghost use Rattle.std.specs.Result.{OnOk};
ghost use Rattle.link_core.specs.Contents as meant;
ghost use Rattle.link_strings.specs.Named.{InterpreterIsPut};

use crate::table::put_terminated;
use ifs_bytes::Memory;
use link_core::{EM_X86_64, LinkOptions, Machine};

// The path that was given, or the usual one of the machine with the number.
fn interpreter(options: &LinkOptions, number: u16) -> &[u8]
    ensures { result.now ≡ unwrap_or options.now.interp (meant.usual_interpreter number) }
{
    match &options.interp {
        Some(path) => path.as_bytes(),
        None => usual_interpreter(number),
    }
}

// The usual path for the machine with the number.
fn usual_interpreter(number: u16) -> &'static [u8]
    ensures { result.now ≡ meant.usual_interpreter number }
{
    if number == EM_X86_64 {
        b"/lib64/ld-linux-x86-64.so.2"
    } else {
        b"/lib/ld-linux-aarch64.so.1"
    }
}

/// Appends the bytes of .interp: the path of the interpreter, which is the one that was given or else the
/// machine's usual one, and a NUL.
#[tactic(auto, unfolding(link_core::specs::Contents::interpreter_of))]
pub fn put_interpreter<M: Machine>(
    out: &mut Vec<u8>,
    machine: &M,
    options: &LinkOptions,
) -> Result<(), Memory>
    ensures { OnOk result (InterpreterIsPut M.rules options.now out.old.items out.new.items) }
{
    put_terminated(out, interpreter(options, machine.number()))
}
