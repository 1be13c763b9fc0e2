//! Commands with their values.

ghost use Rattle.std.specs.Prelude.{IfOk, map, string_bytes};
ghost use Rattle.ifs_bytes.specs.Outcome.{UnlessMemory};
ghost use Rattle.ifs_words.specs.Usable.{CanRun};
ghost use Rattle.ifs_words.specs.Words.{words_of};

use crate::cause::WordCause;
use crate::stub::stub_of;
use ifs_bytes::{List, Text};
use ifs_edit::{AdjustOptions, Strip};
use std::alloc::Global;

/// How an input is to be read.
#[derive(Clone, Copy, Debug, PartialEq, Eq)]
pub enum InputFormat {
    /// As an IFS text.
    Ifs,
    /// As a shared library.
    Elf,
}

/// What `stub` is asked for.
#[derive(Debug, Drop)]
pub struct StubWords {
    /// The paths of the inputs in order, 1 to 4,096 of them.
    pub inputs: List<Text>,
    /// How each input is to be read; None: by what it begins with.
    pub input_format: Option<InputFormat>,
    /// Where the text goes.
    pub output_ifs: Option<Text>,
    /// Where the stub library goes, another place than the text.
    pub output_elf: Option<Text>,
    /// What changes the interface.
    pub adjust: AdjustOptions,
    /// What is left out of the target in the text.
    pub strip: Strip,
    /// Whether outputs that are there already and are the same stay untouched.
    pub write_if_changed: bool,
}

/// A command with its values.
#[derive(Debug, Drop)]
pub enum Command {
    /// `stub`: texts and stub libraries of interfaces.
    Stub(StubWords),
}

impl Command {
    /// The command that the words behind the program's name ask for, or the first cause why they ask for none: the causes
    /// of single words at the first word that has one, in the order of `WordCause`, then those of all words together. An
    /// option and a value in the word behind it are one word here.
    pub fn parse(alloc: Global, words: &[String]) -> Result<Command, WordCause>
        ensures meant { UnlessMemory WordCause.Memory result (words_of (map string_bytes words.now)) }
        ensures usable { IfOk result CanRun }
    {
        command_of(alloc, words)
    }
}

// The command that the words ask for, or the first cause.
fn command_of(alloc: Global, words: &[String]) -> Result<Command, WordCause>
    ensures { UnlessMemory WordCause.Memory result (words_of (map string_bytes words.now)) }
{
    let [command, rest @ ..] = words else {
        return Err(WordCause::NoCommand);
    };
    if command.as_bytes() == b"stub".as_slice() {
        return Ok(Command::Stub(stub_of(alloc, rest)?));
    }
    let command = Text::from_slice(alloc, command.as_bytes())?;
    Err(WordCause::UnknownCommand(command))
}
