//! Which sections of an object a link keeps.

ghost use Rattle.std.specs.Prelude.{◌≡◌, ◌<◌, ◌^◌, length, IfOk};
ghost use Rattle.link_core.specs.Kept as meant;
ghost use Rattle.link_uses.specs.Passes as passes;

use elf_object::Object;
use ifs_bytes::Memory;
use indexmap::IndexSet;
use link_core::Member;
use std::alloc::Global;

/// The dropped sections as a set of pairs, object and section.
pub fn dropped_set(alloc: Global, dropped: &[Member]) -> Result<IndexSet<(u32, u32)>, Memory>
    ensures { IfOk result (λ set. passes.AreDropped dropped.now set.keys) }
{
    let mut set = IndexSet::new(alloc);
    for member in dropped {
        set.insert((member.object, member.section))?;
    }
    Ok(set)
}

// Whether a section of an object is kept.
#[tactic(auto, unfolding(link_core::specs::Kept::is_kept))]
fn is_kept(
    dropped: &[Member],
    set: &IndexSet<(u32, u32)>,
    object: u32,
    own: &Object,
    section: u32,
) -> bool
    requires { passes.AreDropped dropped.now set.now.keys }
    ensures { result ≡ meant.is_kept dropped.now object own.now section }
{
    match own.sections().get(section as usize) {
        Some(found) => found.is_loadable() && !set.contains(&(object, section)),
        None => false,
    }
}

/// Which sections of an object are kept, by the set of the dropped ones.
pub fn flags_of(
    alloc: Global,
    dropped: &[Member],
    set: &IndexSet<(u32, u32)>,
    object: u32,
    own: &Object,
) -> Result<Vec<bool>, Memory>
    requires set { passes.AreDropped dropped.now set.now.keys }
    requires small { length own.now.bytes < 2 ^ 32 }
    ensures { IfOk result (λ flags. passes.AreKept dropped.now object own.now flags.items) }
{
    own.is_read();
    let count = own.sections().len();
    let mut flags = Vec::with_capacity(alloc, count)?;
    for section in 0..count {
        flags.push(is_kept(dropped, set, object, own, section as u32))?;
    }
    Ok(flags)
}
