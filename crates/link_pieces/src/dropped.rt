//! Sections in groups that are dropped.

ghost use Rattle.std.specs.Prelude.{◌≡◌, ◌≤◌, ◌<◌, ◌^◌, ◌++◌, IfOk, OnOk, All, [], true, length};
ghost use Rattle.std.specs.Prelude.{fold, slice_set};
ghost use Rattle.std.specs.Option.{option_to_list};
ghost use Rattle.link_core.specs.Kept as kept;
ghost use Rattle.link_pieces.specs.Marks as meant;

use elf_object::{Group, Object};
use ifs_bytes::Memory;
use indexmap::IndexSet;
use link_core::Member;
use std::alloc::Global;
use std::marker::Model;

// The signatures of the groups so far, and the flags of an object's sections.
#[derive(Drop)]
struct Marks<'a> {
    seen: IndexSet<&'a [u8]>,
    flags: Vec<bool>,
}

impl<'a> Model for Marks<'a> {
    ghost use Rattle.link_pieces.specs.Marks.{Marks as MarksMeant, names};

    ghost Value = { MarksMeant };

    ghost view = { λ m. record { seen = names m.seen.keys; flags = m.flags.items } };
}

// Sets a flag, where it is there.
fn set_flag(flags: &mut Vec<bool>, section: u32)
    ensures { flags.new.items ≡ slice_set flags.old.items section true }
{
    if (section as usize) < flags.len() {
        flags[section as usize] = true;
    }
}

// Sets the flags of these sections, where they are there.
fn set_flags(flags: &mut Vec<bool>, members: &[u32])
    ensures { flags.new.items ≡ meant.marked flags.old.items members.now }
{
    for member in members {
        set_flag(flags, *member);
    }
}

// Whether a signature was noted before; it is noted from then on.
#[tactic(auto, using(crate::proofs::Keys::key_seen, crate::proofs::Keys::key_put))]
fn note<'a>(seen: &mut IndexSet<&'a [u8]>, signature: &'a [u8]) -> Result<bool, Memory>
    ensures known { IfOk result (λ is_known. is_known
        ≡ meant.is_seen (meant.names seen.old.keys) signature.now) }
    ensures noted { OnOk result (meant.names seen.new.keys
        ≡ meant.seen_with (meant.names seen.old.keys) signature.now) }
{
    let is_first = seen.insert(signature)?;
    Ok(!is_first)
}

impl<'a> Marks<'a> {
    // No signature, and no flags.
    fn new(alloc: Global) -> Marks<'a>
        ensures { result ≡ record { seen = []; flags = [] } }
    {
        Marks {
            seen: IndexSet::new(alloc),
            flags: Vec::new(alloc),
        }
    }

    // Notes the signature of a group. Sets the flags of its sections where it is a COMDAT group and a group
    // before it has that signature.
    fn add_group(&mut self, group: &'a Group) -> Result<(), Memory>
        ensures { OnOk result (self.new ≡ meant.after_group self.old group.now) }
    {
        let is_known = note(&mut self.seen, group.signature.as_bytes())?;
        if group.comdat && is_known {
            set_flags(&mut self.flags, group.members.as_slice());
        }
        Ok(())
    }

    // The same for groups in order.
    fn add_groups(&mut self, groups: &'a [Group]) -> Result<(), Memory>
        ensures { OnOk result (self.new ≡ fold meant.after_group self.old groups.now) }
    {
        for group in groups {
            self.add_group(group)?;
        }
        Ok(())
    }

    // The same for the groups of an object, which has the flags from then on.
    #[tactic(auto, using(crate::proofs::Marked::object_count))]
    fn add_object(&mut self, alloc: Global, object: &'a Object) -> Result<(), Memory>
        ensures exact { OnOk result (self.new ≡ meant.after_groups self.old.seen object.now) }
        ensures count { OnOk result (length self.new.flags ≡ length object.now.sections) }
    {
        self.flags = vec![in alloc; false; object.sections().len()]?;
        self.add_groups(object.groups())
    }
}

// Appends a section, where its flag is set.
fn push_member(
    all: &mut Vec<Member>,
    object: u32,
    section: u32,
    is_dropped: bool,
) -> Result<(), Memory>
    ensures { OnOk result (all.new.items
        ≡ all.old.items ++ option_to_list (meant.member_for object (section, is_dropped))) }
{
    if is_dropped {
        all.push(Member { object, section })?;
    }
    Ok(())
}

// Appends the sections of an object whose flags are set.
fn push_members(all: &mut Vec<Member>, object: u32, flags: &[bool]) -> Result<(), Memory>
    requires { length flags.now < 2 ^ 32 }
    ensures { OnOk result (all.new.items ≡ all.old.items ++ meant.members_by object flags.now) }
{
    for (section, is_dropped) in flags.iter().enumerate() {
        push_member(all, object, section as u32, *is_dropped)?;
    }
    Ok(())
}

// Appends the dropped sections of an object, and notes its signatures.
fn push_dropped<'a>(
    alloc: Global,
    marks: &mut Marks<'a>,
    all: &mut Vec<Member>,
    position: u32,
    object: &'a Object,
) -> Result<(), Memory>
    requires { length object.now.bytes < 2 ^ 32 }
    ensures { OnOk result (meant.done marks.new.seen all.new.items
        ≡ meant.after_object (meant.done marks.old.seen all.old.items) (position, object.now)) }
{
    object.is_read();
    marks.add_object(alloc, object)?;
    push_members(all, position, marks.flags.as_slice())
}

/// The sections that a link drops, by object and section, each once: those in a COMDAT group whose signature
/// an earlier group has, of any sort (gABI, "Section Groups"). Groups are in order of their objects, and
/// within one in order of its section table. A member that is no section of its object means nothing.
#[tactic(auto, using(crate::proofs::Marked::object_more, crate::proofs::Marked::objects_end))]
pub fn dropped_sections(alloc: Global, objects: &[Object]) -> Result<Vec<Member>, Memory>
    requires few { length objects.now ≤ 4096 }
    requires small { All (λ o. length o.bytes < 2 ^ 32) objects.now }
    ensures { IfOk result (λ all. all.items ≡ kept.dropped_sections objects.now) }
{
    let mut marks = Marks::new(alloc);
    let mut all = Vec::new(alloc);
    for (i, object) in objects.iter().enumerate() {
        push_dropped(alloc, &mut marks, &mut all, i as u32, object)?;
    }
    Ok(all)
}
