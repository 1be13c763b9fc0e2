//! Where strings start in their table.

ghost use Rattle.std.specs.Prelude.{◌≡◌, ◌<◌, ◌^◌, length, map};
ghost use Rattle.std.specs.Result.{IfOk};
ghost use Rattle.ifs_bytes.specs.Places.{places};
ghost use Rattle.link_core.specs.Strings as meant;
ghost use Rattle.link_strings.specs.Named.{strings_of};

use ifs_bytes::Memory;
use std::alloc::Global;

/// For each string its offset in bytes in the string table of all.
pub fn places_of(alloc: Global, names: &[&[u8]]) -> Result<Vec<u32>, Memory>
    requires { meant.string_table_size (strings_of names.now) < 2 ^ 32 }
    ensures { IfOk result (λ starts. starts.items
        ≡ map (meant.string_place (strings_of names.now)) (places 0 (length names.now))) }
{
    let mut starts = Vec::new(alloc);
    let mut at = 1u32;
    for name in names {
        starts.push(at)?;
        at += name.len() as u32 + 1;
    }
    Ok(starts)
}
