//! References to the thread pointer.

ghost use Rattle.std.specs.Prelude.{◌≡◌, [], false, nat_lt, slice_index_or, IfOk};
ghost use Rattle.std.specs.List.{list_any};
ghost use Rattle.link_core.specs.Entries.{flags_value};
ghost use Rattle.link_core.specs.Planned.{Planned};
ghost use Rattle.link_core.specs.References.{uses_of};
ghost use Rattle.link_pieces.specs.Flags.{rows};
ghost use Rattle.link_threads.specs.Pointer as meant;

use elf_object::{Object, Reference};
use ifs_bytes::Memory;
use link_core::{LinkOptions, Machine, Member, RefClass, Resolution};
use link_pieces::kept_flags;
use std::alloc::Global;

// Whether a class asks for the slot of a distance from the thread pointer.
fn is_of_pointer(class: RefClass) -> bool
    ensures { result ≡ meant.is_of_pointer class }
{
    match class {
        RefClass::Ie => true,
        RefClass::Nothing => false,
        RefClass::Abs64 => false,
        RefClass::Abs32 => false,
        RefClass::Pc => false,
        RefClass::Call => false,
        RefClass::Got => false,
        RefClass::Le => false,
        RefClass::Gd => false,
        RefClass::Ld => false,
        RefClass::Dtp => false,
        RefClass::Desc => false,
    }
}

// Whether a relocation type does.
fn is_of_kind<M: Machine>(machine: &M, kind: u32) -> bool
    ensures { result ≡ meant.is_of_kind M.rules kind }
{
    match machine.class(kind) {
        Some(class) => is_of_pointer(class),
        None => false,
    }
}

// Whether a section has its flag.
fn has_flag(flags: &[bool], section: u32) -> bool
    ensures { result ≡ slice_index_or flags.now section false }
{
    match flags.get(section as usize) {
        Some(flag) => *flag,
        None => false,
    }
}

// Whether a reference of a kept section does.
fn is_in_kept<M: Machine>(machine: &M, flags: &[bool], reference: &Reference) -> bool
    ensures { result ≡ meant.is_in_kept M.rules flags.now reference.now }
{
    has_flag(flags, reference.section) && is_of_kind(machine, reference.kind)
}

// Whether one of these references does.
fn has_in_kept<M: Machine>(machine: &M, flags: &[bool], references: &[Reference]) -> bool
    ensures { result ≡ list_any (meant.is_in_kept M.rules flags.now) references.now }
{
    references
        .iter()
        .any(|reference| is_in_kept(machine, flags, reference))
}

// Whether a reference of this object does.
fn is_in_object<M: Machine>(machine: &M, all: &[Vec<bool>], object: usize, own: &Object) -> bool
    ensures { result ≡ meant.is_in_object M.rules (rows all.now) (object, own.now) }
{
    match all.get(object) {
        Some(flags) => has_in_kept(machine, flags.as_slice(), own.references()),
        None => has_in_kept(machine, &[], own.references()),
    }
}

// Whether a reference of these objects does.
fn is_in_any<M: Machine>(machine: &M, all: &[Vec<bool>], objects: &[Object]) -> bool
    ensures { result ≡ meant.is_in_any M.rules (rows all.now) objects.now }
{
    for (object, own) in objects.iter().enumerate() {
        if is_in_object(machine, all, object, own) {
            return true;
        }
    }
    false
}

/// Whether some reference of a section that a link keeps, where it drops these, asks for the slot of a
/// symbol's distance from the thread pointer (initial exec).
pub fn has_initial_exec<M: Machine>(
    alloc: Global,
    machine: &M,
    dropped: &[Member],
    objects: &[Object],
) -> Result<bool, Memory>
    ensures { IfOk result (λ has. has
        ≡ list_any (meant.is_initial_exec M.rules) (uses_of dropped.now objects.now)) }
{
    let all = kept_flags(alloc, dropped, objects)?;
    Ok(is_in_any(machine, &all, objects))
}

/// Whether the made file's DT_FLAGS isn't 0: it is to be bound when it is loaded, or it is a library with a
/// reference of the class initial exec.
#[tactic(auto, unfolding(link_core::specs::Entries::flags_value))]
pub fn has_flags<M: Machine>(
    alloc: Global,
    machine: &M,
    options: &LinkOptions,
    objects: &[Object],
    r: &Resolution,
) -> Result<bool, Memory>
    ensures { IfOk result (λ has. (j : Planned) → j.rules ≡ M.rules → j.options ≡ options.now
        → j.objects ≡ objects.now → j.names ≡ r.now → has ≡ nat_lt 0 (flags_value j)) }
{
    if options.bind_now {
        return Ok(true);
    }
    if !options.kind.is_shared() {
        return Ok(false);
    }
    Ok(has_initial_exec(alloc, machine, r.dropped.as_slice(), objects)?)
}
