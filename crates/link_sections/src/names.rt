//! The names of sections.

ghost use Rattle.std.specs.Prelude.{◌≡◌, ◌++◌, IfOk, OnOk, map};
ghost use Rattle.link_core.specs.Headers as headers;
ghost use Rattle.link_core.specs.Layout as layout;
ghost use Rattle.link_placed.specs.Made.{link_of};
ghost use Rattle.link_strings.specs.Named.{strings_of};

use ifs_bytes::Memory;
use link_core::{Machine, OutSection};
use link_placed::Link;
use link_strings::put_strings;
use std::alloc::Global;

// Appends the names of sections.
fn push_names<'a>(all: &mut Vec<&'a [u8]>, sections: &'a [OutSection]) -> Result<(), Memory>
    ensures { OnOk result (strings_of all.new.items
        ≡ strings_of all.old.items ++ map (λ s. s.name) sections.now) }
{
    for section in sections {
        all.push(section.name.as_bytes())?;
    }
    Ok(())
}

/// The strings of .shstrtab in their order: the names of the sections, and its own.
pub(crate) fn section_names<'a, M: Machine>(
    alloc: Global,
    p: &'a Link<'_, M>,
) -> Result<Vec<&'a [u8]>, Memory>
    ensures { IfOk result (λ names. strings_of names.items ≡ layout.section_names (link_of M.rules p.now)) }
{
    p.is_made();
    let mut all = Vec::new(alloc);
    push_names(&mut all, p.layout().sections.as_slice())?;
    all.push(b".shstrtab")?;
    Ok(all)
}

/// Appends the bytes of .shstrtab.
#[tactic(auto, unfolding(link_core::specs::Headers::names_bytes))]
pub fn put_names<M: Machine>(
    alloc: Global,
    out: &mut Vec<u8>,
    p: &Link<'_, M>,
) -> Result<(), Memory>
    ensures { OnOk result (out.new.items ≡ out.old.items ++ headers.names_bytes (link_of M.rules p.now)) }
{
    let names = section_names(alloc, p)?;
    put_strings(out, names.as_slice())
}
