//! Names in a string table of the file (gABI, "String Table").

ghost use Rattle.std.specs.Prelude.{◌≡◌};
ghost use Rattle.std.specs.Option.{option_copied};
ghost use Rattle.elf_dyn.specs.Strings.{StringsLie, string_table, name_of, unless_empty, bytes_of};

use crate::places::Strings;
use ifs_bytes::name_at;

/// The bytes of a string table.
pub fn table_of(bytes: &[u8], strings: Strings) -> &[u8]
    requires { StringsLie bytes.now strings }
    ensures { result.now ≡ string_table bytes.now strings }
{
    let from = strings.from as usize;
    let end = from + strings.size as usize;
    &bytes[from..end]
}

/// The name at a place of a string table; None where it doesn't start within the table, or doesn't end in it.
#[tactic(auto, unfolding(crate::specs::Strings::name_of))]
pub fn name_of(bytes: &[u8], strings: Strings, at: u64) -> Option<&[u8]>
    requires { StringsLie bytes.now strings }
    ensures { option_copied result ≡ name_of bytes.now strings at }
{
    name_at(table_of(bytes, strings), at)
}

/// The name, if it isn't empty.
pub fn unless_empty(name: Option<&[u8]>) -> Option<&[u8]>
    ensures { option_copied result ≡ unless_empty (option_copied name.entry) }
{
    match name {
        None => None,
        Some([]) => None,
        Some(bytes) => Some(bytes),
    }
}

/// How many bytes the name has, if there is one.
pub fn size_of(name: Option<&[u8]>) -> u64
    ensures { result ≡ bytes_of (option_copied name.entry) }
{
    match name {
        Some(bytes) => bytes.len() as u64,
        None => 0,
    }
}
