//! The command `stub`: the interface of libraries and texts, as a text and as a stub library.

ghost use Rattle.std.specs.Prelude.{◌≡◌, ◌<◌, ◌++◌, codes, length, IfOk, OnOk, Result};
ghost use Rattle.std.specs.Option.{option_copied};
ghost use Rattle.ifs_bytes.specs.Outcome.{UnlessMemory};
ghost use Rattle.ifs_stub.specs.Printed.{printed_stub_cause};
ghost use Rattle.ifs_words.specs.Usable.{CanStub, IsUsable};
ghost use Rattle.ifs_top.specs.declared.refusal.Refusal.TheVariants as refusals;
ghost use Rattle.ifs_top.specs.Refused.{or_refused};
ghost use Rattle.ifs_top.specs.Steps.{DecidesStub, Settles};
ghost use Rattle.ifs_top.specs.Stub.{output_at, outputs_of, stub_for, stub_of_inputs, text_output, text_path};

use crate::edits::{adjusted, merged, stripped_text};
use crate::inputs::{Input, interfaces_in, read_inputs};
use crate::refusal::{Refusal, Stop, refuse};
use crate::reply::{Output, Reply};
use ifs_bytes::{List, Memory, Text};
use ifs_interface::Interface;
use ifs_outside::Files;
use ifs_stub::{StubCause, emit};
use ifs_words::StubWords;
use std::alloc::Global;

// The stub library, where it is asked for.
fn stub_for(alloc: Global, path: Option<&Text>, interface: &Interface) -> Result<Text, StubCause>
    ensures { UnlessMemory StubCause.Memory result (stub_for (option_copied path.entry) interface.now) }
{
    match path {
        Some(_) => match emit(alloc, interface) {
            Ok(bytes) => Ok(Text::from_vec(bytes)),
            Err(cause) => Err(cause),
        },
        None => Ok(Text::new(alloc)),
    }
}

// The same, or the refusal.
fn stub_or_refused(
    alloc: Global,
    path: Option<&Text>,
    interface: &Interface,
) -> Result<Text, Refusal>
    ensures { UnlessMemory refusals.Memory result (or_refused (codes "stub") printed_stub_cause (stub_for (option_copied path.entry) interface.now)) }
{
    match stub_for(alloc, path, interface) {
        Ok(stub) => Ok(stub),
        Err(StubCause::Memory) => Err(Refusal::Memory),
        Err(cause) => {
            let text = cause.printed(alloc)?;
            Err(refuse(alloc, b"stub", text.as_bytes(), 1))
        }
    }
}

// Appends an output, where there is a path for it.
fn push_output(
    outputs: &mut Vec<Output>,
    alloc: Global,
    path: Option<&[u8]>,
    if_changed: bool,
    bytes: Text,
) -> Result<(), Memory>
    ensures { OnOk result (outputs.new.items ≡ outputs.old.items ++ output_at (option_copied path.entry) if_changed bytes) }
{
    if let Some(path) = path {
        outputs.push(Output {
            path: Text::from_slice(alloc, path)?,
            bytes,
            if_changed,
        })?;
    }
    Ok(())
}

// Where the text goes: to standard output where no output is asked for.
fn text_path(words: &StubWords) -> Option<&[u8]>
    ensures { option_copied result ≡ text_path words.now.output_ifs words.now.output_elf }
{
    match (&words.output_ifs, &words.output_elf) {
        (Some(ifs), _) => Some(ifs.as_bytes()),
        (None, Some(_)) => None,
        (None, None) => Some(b"-"),
    }
}

// Appends the text, where it is asked for.
fn push_text(
    outputs: &mut Vec<Output>,
    alloc: Global,
    words: &StubWords,
    interface: &Interface,
) -> Result<(), Memory>
    ensures { OnOk result (outputs.new.items ≡ outputs.old.items ++ text_output words.now interface.now) }
{
    let path = text_path(words);
    if path.is_none() {
        return Ok(());
    }
    let text = stripped_text(alloc, interface, &words.strip)?;
    push_output(outputs, alloc, path, words.write_if_changed, text)
}

// The reply with the text and the stub library, each where it is asked for.
#[tactic(auto, unfolding(crate::specs::Stub::outputs_of))]
fn outputs_of(
    alloc: Global,
    words: &StubWords,
    interface: &Interface,
    stub: Text,
) -> Result<Reply, Memory>
    ensures { IfOk result (λ reply. reply ≡ outputs_of words.now interface.now stub) }
{
    let mut outputs = Vec::new(alloc);
    push_text(&mut outputs, alloc, words, interface)?;
    let path = words.output_elf.as_ref().map(|path| path.as_bytes());
    push_output(&mut outputs, alloc, path, words.write_if_changed, stub)?;
    Ok(Reply {
        outputs: List::from_vec(outputs),
        line: Text::new(alloc),
        status: 0,
    })
}

// The reply to the inputs, which are let go.
#[tactic(auto, unfolding(crate::specs::Stub::stub_of_inputs))]
fn stub_of_inputs(alloc: Global, words: &StubWords, inputs: List<Input>) -> Result<Reply, Refusal>
    requires some { 0 < length inputs }
    requires usable { IsUsable words.now.adjust }
    ensures { UnlessMemory refusals.Memory result (stub_of_inputs words.now inputs) }
{
    let interfaces = interfaces_in(alloc, words.input_format, inputs)?;
    let whole = merged(alloc, interfaces)?;
    let interface = adjusted(alloc, whole, &words.adjust)?;
    let stub = stub_or_refused(alloc, words.output_elf.as_ref(), &interface)?;
    Ok(outputs_of(alloc, words, &interface, stub)?)
}

// The reply, or that of a refusal.
fn settled(reply: Result<Reply, Refusal>) -> Result<Reply, Stop>
    ensures { Settles reply result }
{
    match reply {
        Ok(reply) => Ok(reply),
        Err(Refusal::Fault(reply)) => Ok(reply),
        Err(Refusal::Memory) => Err(Stop::Memory),
    }
}

/// The reply to the words of `stub`.
pub fn stub<F: Files>(alloc: Global, words: &StubWords, files: &mut F) -> Result<Reply, Stop>
    requires { CanStub words.now }
    ensures answers { DecidesStub words.now result (F.map files.old) (F.counts files.old) (F.counts files.new) }
    ensures keeps { F.map files.new ≡ F.map files.old }
{
    match read_inputs(alloc, words.inputs.as_slice(), files)? {
        Ok(inputs) => settled(stub_of_inputs(alloc, words, inputs)),
        Err(refusal) => settled(Err(refusal)),
    }
}
