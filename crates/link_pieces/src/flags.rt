//! Flags of sections: a list for each object, with a flag for each of its sections.

ghost use Rattle.std.specs.Prelude.{◌≡◌, IfOk, false, map, slice_set};
ghost use Rattle.link_pieces.specs.Flags as meant;

use elf_object::Object;
use ifs_bytes::Memory;
use link_core::Member;
use std::alloc::Global;

// For each section of an object, whether it is loadable.
fn loadable_of(alloc: Global, object: &Object) -> Result<Vec<bool>, Memory>
    ensures { IfOk result (λ flags. flags.items ≡ meant.loadable_of object.now) }
{
    let sections = object.sections();
    let mut flags = Vec::with_capacity(alloc, sections.len())?;
    for section in sections {
        flags.push(section.is_loadable())?;
    }
    Ok(flags)
}

// The same for each object.
fn loadable_flags(alloc: Global, objects: &[Object]) -> Result<Vec<Vec<bool>>, Memory>
    ensures { IfOk result (λ all. meant.rows all.items ≡ map meant.loadable_of objects.now) }
{
    let mut all = Vec::with_capacity(alloc, objects.len())?;
    for object in objects {
        all.push(loadable_of(alloc, object)?)?;
    }
    Ok(all)
}

// Clears a flag, where it is there.
fn clear_flag(flags: &mut Vec<bool>, section: u32)
    ensures { flags.new.items ≡ slice_set flags.old.items section false }
{
    if (section as usize) < flags.len() {
        flags[section as usize] = false;
    }
}

// Clears the flag of a section, where it is there.
fn clear(all: &mut [Vec<bool>], member: &Member)
    ensures { meant.rows all.new ≡ meant.cleared member.now (meant.rows all.old) }
{
    let object = member.object as usize;
    if object < all.len() {
        clear_flag(&mut all[object], member.section);
    }
}

// Clears the flags of the dropped sections.
#[tactic(auto, using(crate::proofs::Clearing::none_cleared, crate::proofs::Clearing::next_cleared))]
fn clear_dropped(all: &mut [Vec<bool>], dropped: &[Member])
    ensures { meant.AreCleared dropped.now (meant.rows all.old) (meant.rows all.new) }
{
    for member in dropped {
        clear(all, member);
    }
}

/// For each object and each of its sections whether a link keeps it, where it drops these sections: it keeps the
/// loadable ones that aren't dropped (gABI, "Section Groups"). Entry `s` of item `i` is for section `s` of object `i`.
/// A dropped section that isn't there means nothing.
pub fn kept_flags(
    alloc: Global,
    dropped: &[Member],
    objects: &[Object],
) -> Result<Vec<Vec<bool>>, Memory>
    ensures { IfOk result (λ all. meant.rows all.items ≡ meant.kept_flags dropped.now objects.now) }
{
    let mut all = loadable_flags(alloc, objects)?;
    clear_dropped(&mut all, dropped);
    Ok(all)
}
