//! Causes as text.

ghost use Rattle.std.specs.Prelude.{◌≡◌, ◌++◌, codes, decimal, IfOk, OnOk};
ghost use Rattle.elf_object.specs.Printed.{printed_object_cause};

use crate::cause::ObjectCause;
use ifs_bytes::{Memory, Text};
use std::alloc::Global;

// Appends a name and a number in parentheses.
fn append_numbered(text: &mut Text, name: &[u8], number: u64) -> Result<(), Memory>
    ensures { OnOk result (text.new ≡ text.old ++ (name.now ++ decimal number ++ codes ")")) }
{
    text.append(name)?;
    text.append_number(number)?;
    text.append(b")")
}

impl ObjectCause {
    /// The cause as text: its name, and its field in parentheses, as `Elf(Truncated(456))`.
    pub fn printed(&self, alloc: Global) -> Result<Text, Memory>
        ensures { IfOk result (λ text. text ≡ printed_object_cause self.now) }
    {
        let mut text = Text::new(alloc);
        match self {
            ObjectCause::Elf(cause) => {
                text.append(b"Elf(")?;
                text.append(cause.printed(alloc)?.as_bytes())?;
                text.append(b")")?;
            }
            ObjectCause::BadRelocationTable(index) => {
                append_numbered(&mut text, b"BadRelocationTable(", *index)?
            }
            ObjectCause::CompressedSection(index) => {
                append_numbered(&mut text, b"CompressedSection(", *index)?
            }
            ObjectCause::IfuncDefinition(row) => {
                append_numbered(&mut text, b"IfuncDefinition(", *row)?
            }
            ObjectCause::Memory => text.append(b"Memory")?,
        }
        Ok(text)
    }
}
