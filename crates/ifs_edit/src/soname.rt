//! Sonames.

ghost use Rattle.std.specs.Prelude.{◌≡◌, IfOk};
ghost use Rattle.std.specs.Option.{option_copied};

use ifs_bytes::{Memory, Text};
use std::alloc::Global;

// The same text, where there is one.
pub(crate) fn copied_soname(alloc: Global, soname: Option<&Text>) -> Result<Option<Text>, Memory>
    ensures { IfOk result (λ copy. copy ≡ option_copied soname.entry) }
{
    match soname {
        Some(text) => Ok(Some(text.copy(alloc)?)),
        None => Ok(None),
    }
}
