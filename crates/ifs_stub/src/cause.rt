//! Why an interface has no stub.

ghost use Rattle.std.specs.Prelude.{◌≡◌, ◌++◌, codes, decimal, IfOk, OnOk};
ghost use Rattle.ifs_stub.specs.Printed.{printed_stub_cause};

use ifs_bytes::{Memory, Text};
use ifs_interface::TargetField;
use std::alloc::Global;

/// Why an interface has no stub.
#[derive(Debug, PartialEq, Eq, Drop)]
pub enum StubCause {
    /// A file needs this field of the target, and it isn't known.
    TargetIncomplete(TargetField),
    /// The size of the symbol of this name has no place in a file of 32 bits.
    SizeTooWide(Text),
    /// There are more symbols and needed libraries than a reader takes: how many.
    TooManySymbols(u64),
    /// The names have more bytes than a reader takes: how many; 2^64 - 1 stands for any more.
    NamesTooLarge(u64),
    /// Memory ran out.
    Memory,
}

impl From<Memory> for StubCause {
    ghost use Rattle.std.specs.Prelude.{◌≡◌};
    ghost use Rattle.ifs_stub.specs.declared.cause.StubCause.TheVariants as causes;

    ghost from_gives = { λ _ cause. cause ≡ causes.Memory };

    fn from(_error: Memory) -> StubCause {
        StubCause::Memory
    }
}

// Appends a number and a closing parenthesis.
fn append_number(text: &mut Text, number: u64) -> Result<(), Memory>
    ensures { OnOk result (text.new ≡ text.old ++ (decimal number ++ codes ")")) }
{
    text.append_number(number)?;
    text.append(b")")
}

// Appends bytes and a closing parenthesis.
fn append_bytes(text: &mut Text, bytes: &[u8]) -> Result<(), Memory>
    ensures { OnOk result (text.new ≡ text.old ++ (bytes.now ++ codes ")")) }
{
    text.append(bytes)?;
    text.append(b")")
}

impl StubCause {
    /// The cause as text: its name, and its field in parentheses, as `SizeTooWide(big)`.
    pub fn printed(&self, alloc: Global) -> Result<Text, Memory>
        ensures { IfOk result (λ text. text ≡ printed_stub_cause self.now) }
    {
        let mut text = Text::new(alloc);
        match self {
            StubCause::TargetIncomplete(field) => {
                text.append(b"TargetIncomplete(")?;
                append_bytes(&mut text, field.name())?;
            }
            StubCause::SizeTooWide(name) => {
                text.append(b"SizeTooWide(")?;
                append_bytes(&mut text, name.as_bytes())?;
            }
            StubCause::TooManySymbols(count) => {
                text.append(b"TooManySymbols(")?;
                append_number(&mut text, *count)?;
            }
            StubCause::NamesTooLarge(size) => {
                text.append(b"NamesTooLarge(")?;
                append_number(&mut text, *size)?;
            }
            StubCause::Memory => text.append(b"Memory")?,
        }
        Ok(text)
    }
}
