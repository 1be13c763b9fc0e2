//! Why words aren't understood.

ghost use Rattle.std.specs.Prelude.{◌≡◌, ◌++◌, decimal, IfOk, OnOk};
ghost use Rattle.ifs_words.specs.Printed.{with_one, with_two, printed_word_cause};

use ifs_bytes::{Memory, Text};
use std::alloc::Global;
use thiserror::Error;

/// Why the words of a command line aren't understood.
#[derive(Debug, PartialEq, Eq, Drop, Error)]
pub enum WordCause {
    /// There is no word.
    #[error("there is no command")]
    NoCommand,
    /// The first word is no command.
    #[error("the command isn't known")]
    UnknownCommand(Text),
    /// The word begins with `-`, and is no option of the command.
    #[error("the command has no such option")]
    UnknownOption(Text),
    /// The option needs a value, and no word is left.
    #[error("the option has no value")]
    MissingValue(Text),
    /// The flag has a value.
    #[error("the flag takes no value")]
    UnwantedValue(Text),
    /// The value of the option isn't of its form, is empty, or has a NUL.
    #[error("the value of the option isn't of its form")]
    BadValue(Text),
    /// The option or flag is there already.
    #[error("the option is given twice")]
    Repeated(Text),
    /// These two options don't go together.
    #[error("the options don't go together")]
    Conflict(Text, Text),
    /// There is no path of an input.
    #[error("there is no input")]
    NoInput,
    /// There are so many inputs, which are too many.
    #[error("there are too many inputs")]
    TooManyInputs(u64),
    /// The command needs this option.
    #[error("the command needs an option that isn't there")]
    MissingOption(Text),
    /// Memory ran out.
    #[error("memory ran out")]
    Memory,
}

impl From<Memory> for WordCause {
    ghost use Rattle.std.specs.Prelude.{◌≡◌};
    ghost use Rattle.ifs_words.specs.declared.cause.WordCause.TheVariants as causes;

    ghost from_gives = { λ _ cause. cause ≡ causes.Memory };

    fn from(_error: Memory) -> WordCause {
        WordCause::Memory
    }
}

// Appends the name of a cause, and one field behind it.
#[tactic(auto, unfolding(crate::specs::Printed::with_one))]
fn append_one(text: &mut Text, cause: &[u8], field: &[u8]) -> Result<(), Memory>
    ensures { OnOk result (text.new ≡ text.old ++ with_one cause.now field.now) }
{
    text.append(cause)?;
    text.append(field)?;
    text.append(b")")
}

// Appends the name of a cause, and a number behind it.
#[tactic(auto, unfolding(crate::specs::Printed::with_one))]
fn append_number(text: &mut Text, cause: &[u8], number: u64) -> Result<(), Memory>
    ensures { OnOk result (text.new ≡ text.old ++ with_one cause.now (decimal number)) }
{
    text.append(cause)?;
    text.append_number(number)?;
    text.append(b")")
}

// Appends the name of a cause, and two fields behind it.
#[tactic(auto, unfolding(crate::specs::Printed::with_two))]
fn append_two(text: &mut Text, cause: &[u8], one: &[u8], other: &[u8]) -> Result<(), Memory>
    ensures { OnOk result (text.new ≡ text.old ++ with_two cause.now one.now other.now) }
{
    text.append(cause)?;
    text.append(one)?;
    text.append(b", ")?;
    text.append(other)?;
    text.append(b")")
}

impl WordCause {
    /// The cause as text: its name, and its fields in parentheses, as `Conflict(--target, --arch)`.
    pub fn printed(&self, alloc: Global) -> Result<Text, Memory>
        ensures { IfOk result (λ text. text ≡ printed_word_cause self.now) }
    {
        let mut text = Text::new(alloc);
        self.append_to(&mut text)?;
        Ok(text)
    }

    // Appends the cause as text.
    fn append_to(&self, text: &mut Text) -> Result<(), Memory>
        ensures { OnOk result (text.new ≡ text.old ++ printed_word_cause self.now) }
    {
        match self {
            WordCause::NoCommand => text.append(b"NoCommand"),
            WordCause::UnknownCommand(word) => append_one(
                text,
                b"UnknownCommand(",
                word.as_bytes(),
            ),
            WordCause::UnknownOption(word) => append_one(text, b"UnknownOption(", word.as_bytes()),
            WordCause::MissingValue(option) => append_one(
                text,
                b"MissingValue(",
                option.as_bytes(),
            ),
            WordCause::UnwantedValue(flag) => append_one(text, b"UnwantedValue(", flag.as_bytes()),
            WordCause::BadValue(option) => append_one(text, b"BadValue(", option.as_bytes()),
            WordCause::Repeated(option) => append_one(text, b"Repeated(", option.as_bytes()),
            WordCause::Conflict(one, other) => append_two(
                text,
                b"Conflict(",
                one.as_bytes(),
                other.as_bytes(),
            ),
            WordCause::NoInput => text.append(b"NoInput"),
            WordCause::TooManyInputs(count) => append_number(text, b"TooManyInputs(", *count),
            WordCause::MissingOption(option) => append_one(
                text,
                b"MissingOption(",
                option.as_bytes(),
            ),
            WordCause::Memory => text.append(b"Memory"),
        }
    }
}
