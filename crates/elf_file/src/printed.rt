//! Causes as text.

ghost use Rattle.std.specs.Prelude.{◌≡◌, ◌++◌, codes, decimal, IfOk, OnOk};
ghost use Rattle.elf_file.specs.Printed.{printed_elf_cause, printed_name_place};

use crate::cause::{ElfCause, NamePlace};
use ifs_bytes::{Memory, Text};
use std::alloc::Global;

// Appends a name and a number in parentheses.
fn append_numbered(text: &mut Text, name: &[u8], number: u64) -> Result<(), Memory>
    ensures { OnOk result (text.new ≡ text.old ++ (name.now ++ decimal number ++ codes ")")) }
{
    text.append(name)?;
    text.append_number(number)?;
    text.append(b")")
}

// Appends a place.
fn append_place(text: &mut Text, place: NamePlace) -> Result<(), Memory>
    ensures { OnOk result (text.new ≡ text.old ++ printed_name_place place) }
{
    match place {
        NamePlace::Symbol(index) => append_numbered(text, b"Symbol(", index),
        NamePlace::Dynamic(index) => append_numbered(text, b"Dynamic(", index),
        NamePlace::Section(index) => append_numbered(text, b"Section(", index),
    }
}

impl ElfCause {
    /// The cause as text: its name, and its field in parentheses, as `Truncated(456)`.
    pub fn printed(&self, alloc: Global) -> Result<Text, Memory>
        ensures { IfOk result (λ text. text ≡ printed_elf_cause self.now) }
    {
        let mut text = Text::new(alloc);
        match *self {
            ElfCause::NotElf => text.append(b"NotElf")?,
            ElfCause::BadHeader => text.append(b"BadHeader")?,
            ElfCause::WrongKind => text.append(b"WrongKind")?,
            ElfCause::NoDynamic => text.append(b"NoDynamic")?,
            ElfCause::Truncated(at) => append_numbered(&mut text, b"Truncated(", at)?,
            ElfCause::BadName(place) => {
                text.append(b"BadName(")?;
                append_place(&mut text, place)?;
                text.append(b")")?;
            }
            ElfCause::TooMany(count) => append_numbered(&mut text, b"TooMany(", count)?,
            ElfCause::NamesTooLarge(size) => append_numbered(&mut text, b"NamesTooLarge(", size)?,
            ElfCause::Archive => text.append(b"Archive")?,
            ElfCause::Memory => text.append(b"Memory")?,
        }
        Ok(text)
    }
}
