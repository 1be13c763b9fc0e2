//! The inputs of a command: they are read, then parsed.

ghost use Rattle.std.specs.Prelude.{◌≡◌, ◌+◌, ◌++◌, ◌∷◌, [], length, IfOk, IfSome, OnOk, Ok};
ghost use Rattle.ifs_bytes.specs.Outcome.{UnlessMemory};
ghost use Rattle.ifs_interface.specs.Extracted.{interface_of};
ghost use Rattle.ifs_top.specs.declared.refusal.Refusal.TheVariants as refusals;
ghost use Rattle.ifs_top.specs.Inputs.{begins_library, input_at, interface_in, is_library, library_in, read_inputs, text_in};
ghost use Rattle.ifs_top.specs.Refused.{each, refused, Pushes, PushesOne};
ghost use Rattle.ifs_top.specs.declared.refusal.Stop.TheVariants as stops;
ghost use Rattle.ifs_top.specs.Steps.{ReadsInputs};

use crate::limits::MOST_FILE_BYTES;
use crate::refusal::{Refusal, Stop, refuse};
use crate::reply::{fault, fault_line};
use elf_dyn::{ElfCause, Library};
use elf_file::Elf;
use ifs_bytes::{List, Memory, Text};
use ifs_interface::Interface;
use ifs_outside::{Files, ReadCause};
use ifs_stub::extract;
use ifs_text::{TextCause, read};
use ifs_words::InputFormat;
use std::alloc::Global;

/// An input: its path, and the bytes that it holds.
#[derive(Debug, Drop)]
pub struct Input {
    pub path: Text,
    pub bytes: Text,
}

// An input, or why it wasn't read.
fn read_input<F: Files>(
    alloc: Global,
    path: &Text,
    files: &mut F,
) -> Result<Result<Input, Refusal>, Stop>
    ensures value { IfOk result (λ input. IfSome (F.map files.old) (λ held. input ≡ input_at held path.now)) }
    ensures counts { ReadsInputs (path.now ∷ []) result (F.map files.old) (F.counts files.old) (F.counts files.new) }
    ensures keeps { F.map files.new ≡ F.map files.old }
{
    let name = path.as_bytes();
    let own = path.copy(alloc)?;
    match files.read(alloc, name, MOST_FILE_BYTES) {
        Ok(bytes) => Ok(Ok(Input {
            path: own,
            bytes: Text::from_vec(bytes),
        })),
        Err(ReadCause::Missing) => missed(alloc, name, b"missing"),
        Err(ReadCause::TooLarge) => missed(alloc, name, b"too large"),
        Err(ReadCause::Failed) => Err(Stop::Unread(fault_line(alloc, name, b"read failed")?)),
        Err(ReadCause::Memory) => Err(Stop::Memory),
    }
}

// The refusal of an input that isn't there.
fn missed(alloc: Global, path: &[u8], text: &[u8]) -> Result<Result<Input, Refusal>, Stop>
    ensures { UnlessMemory stops.Memory result (Ok (refused path.now text.now 3)) }
{
    match fault(alloc, path, text, 3) {
        Ok(reply) => Ok(Err(Refusal::Fault(reply))),
        Err(Memory) => Err(Stop::Memory),
    }
}

// Appends an input.
fn push_input(inputs: &mut Vec<Input>, input: Input) -> Result<(), Memory>
    ensures { OnOk result (inputs.new.items ≡ inputs.old.items ++ input ∷ []) }
{
    Ok(inputs.push(input)?)
}

// Appends the inputs at the paths in order, up to the first that isn't there.
fn push_inputs<F: Files>(
    alloc: Global,
    inputs: &mut Vec<Input>,
    paths: &[Text],
    files: &mut F,
) -> Result<Result<(), Refusal>, Stop>
    ensures value { IfOk result (λ done. IfSome (F.map files.old) (λ held. Pushes done inputs.old.items inputs.new.items (read_inputs held paths.now))) }
    ensures counts { ReadsInputs paths.now result (F.map files.old) (F.counts files.old) (F.counts files.new) }
    ensures keeps { F.map files.new ≡ F.map files.old }
    ensures all { IfOk result (λ done. IfOk done (λ _. length inputs.new.items ≡ length inputs.old.items + length paths.now)) }
{
    match paths {
        [] => Ok(Ok(())),
        [path, rest @ ..] => match read_input(alloc, path, files)? {
            Ok(input) => {
                push_input(inputs, input)?;
                push_inputs(alloc, inputs, rest, files)
            }
            Err(refusal) => Ok(Err(refusal)),
        },
    }
}

/// The inputs at the paths in order, or the first that isn't there; an error where reading failed or memory ran out.
pub fn read_inputs<F: Files>(
    alloc: Global,
    paths: &[Text],
    files: &mut F,
) -> Result<Result<List<Input>, Refusal>, Stop>
    ensures value { IfOk result (λ inputs. IfSome (F.map files.old) (λ held. inputs ≡ read_inputs held paths.now)) }
    ensures counts { ReadsInputs paths.now result (F.map files.old) (F.counts files.old) (F.counts files.new) }
    ensures keeps { F.map files.new ≡ F.map files.old }
    ensures all { IfOk result (λ inputs. IfOk inputs (λ found. length found ≡ length paths.now)) }
{
    let mut inputs = Vec::new(alloc);
    match push_inputs(alloc, &mut inputs, paths, files)? {
        Ok(()) => Ok(Ok(List::from_vec(inputs))),
        Err(refusal) => Ok(Err(refusal)),
    }
}

// Whether a file begins as an ELF file or an archive.
fn begins_library(bytes: &[u8]) -> bool
    ensures { result ≡ begins_library bytes.now }
{
    match Elf::parse(bytes) {
        Err(ElfCause::NotElf) => false,
        _ => true,
    }
}

// Whether an input is a library: as the words say, else by how it begins.
fn is_library(format: Option<InputFormat>, bytes: &[u8]) -> bool
    ensures { result ≡ is_library format bytes.now }
{
    match format {
        Some(InputFormat::Elf) => true,
        Some(InputFormat::Ifs) => false,
        None => begins_library(bytes),
    }
}

// The interface of a library, which is let go.
fn interface_of(alloc: Global, library: Library) -> Result<Interface, Memory>
    ensures { IfOk result (λ interface. interface ≡ interface_of library) }
{
    extract(alloc, &library)
}

// The interface of a library whose bytes are let go before it is made.
fn library_in(alloc: Global, input: Input) -> Result<Interface, Refusal>
    ensures { UnlessMemory refusals.Memory result (library_in input) }
{
    let Input { path, bytes } = input;
    match Library::parse(alloc, bytes.as_bytes()) {
        Ok(library) => {
            drop(bytes);
            Ok(interface_of(alloc, library)?)
        }
        Err(ElfCause::Memory) => Err(Refusal::Memory),
        Err(cause) => Err(refuse(alloc, path.as_bytes(), cause.printed(alloc)?.as_bytes(), 1)),
    }
}

// The interface that a text is.
fn text_in(alloc: Global, input: &Input) -> Result<Interface, Refusal>
    ensures { UnlessMemory refusals.Memory result (text_in input.now) }
{
    match read(alloc, input.bytes.as_bytes()) {
        Ok(interface) => Ok(interface),
        Err(TextCause::Memory) => Err(Refusal::Memory),
        Err(cause) => {
            let text = cause.printed(alloc)?;
            Err(refuse(alloc, input.path.as_bytes(), text.as_bytes(), 1))
        }
    }
}

// The interface of an input, which is let go.
#[tactic(auto, unfolding(crate::specs::Inputs::interface_in))]
fn interface_in(
    alloc: Global,
    format: Option<InputFormat>,
    input: Input,
) -> Result<Interface, Refusal>
    ensures { UnlessMemory refusals.Memory result (interface_in format input) }
{
    if is_library(format, input.bytes.as_bytes()) {
        library_in(alloc, input)
    } else {
        text_in(alloc, &input)
    }
}

// Appends the interface of an input.
fn push_interface(
    alloc: Global,
    interfaces: &mut Vec<Interface>,
    format: Option<InputFormat>,
    input: Input,
) -> Result<(), Refusal>
    ensures { PushesOne result interfaces.old.items interfaces.new.items (interface_in format input) }
{
    let interface = interface_in(alloc, format, input)?;
    push_whole(interfaces, interface)?;
    Ok(())
}

// Appends an interface.
fn push_whole(interfaces: &mut Vec<Interface>, interface: Interface) -> Result<(), Memory>
    ensures { OnOk result (interfaces.new.items ≡ interfaces.old.items ++ interface ∷ []) }
{
    Ok(interfaces.push(interface)?)
}

/// The interfaces of the inputs in order, or the first cause why an input has none. Each input is let go before the
/// next is looked at.
pub fn interfaces_in(
    alloc: Global,
    format: Option<InputFormat>,
    inputs: List<Input>,
) -> Result<List<Interface>, Refusal>
    ensures value { UnlessMemory refusals.Memory result (each (interface_in format) inputs) }
    ensures all { IfOk result (λ found. length found ≡ length inputs) }
{
    let mut interfaces = Vec::new(alloc);
    for input in inputs.into_vec() {
        push_interface(alloc, &mut interfaces, format, input)?;
    }
    Ok(List::from_vec(interfaces))
}
