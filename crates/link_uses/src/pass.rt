//! The pass over the references.

ghost use Rattle.std.specs.Prelude.{◌≡◌, ◌<◌, ◌≤◌, ◌^◌, length, All, []};
ghost use Rattle.ifs_bytes.specs.Outcome.{UnlessMemory};
ghost use Rattle.link_targets.specs.Targets.{NamesAscend};
ghost use Rattle.link_needs.specs.Needs.{stopped};
ghost use Rattle.link_uses.specs.Uses.{seen};
ghost use Rattle.link_uses.specs.Passes as passes;

use crate::given::Given;
use crate::kept::{dropped_set, flags_of};
use crate::table::{has_flag, looked_up, targets_of};
use crate::taken::Taken;
use elf_object::Object;
use indexmap::IndexSet;
use link_core::{LinkStop, Machine};
use link_needs::{Use, needed_with};
use link_targets::Target;
use std::alloc::Global;

// One more reference of an object with these flags of kept sections and these symbols.
#[tactic(auto, unfolding(crate::specs::Passes::turn_with))]
fn pass_reference<'a, M: Machine>(
    alloc: Global,
    machine: &M,
    given: &Given<'_, 'a>,
    list: &mut Vec<Taken<'a>>,
    kept: &[bool],
    table: &[Option<Target>],
    used: Use<'a>,
) -> Result<(), LinkStop>
    ensures { UnlessMemory LinkStop.Memory (passes.left list.new.items result) (stopped
        (passes.turn_with M.rules given.now.options
        (passes.has_flag kept.now used.entry.reference.section)
        (passes.looked_up given.now.names used.entry.object table.now used.entry.reference.symbol)
        list.old.items used.entry)) }
{
    if !has_flag(kept, used.reference.section) {
        return Ok(());
    }
    let target = looked_up(given.names, used.object, table, used.reference.symbol);
    let needed = needed_with(alloc, machine, given.options, given.names, &used, &target)?;
    Ok(list.push(Taken { used, needed })?)
}

// The references of an object with these flags of kept sections and these symbols.
fn pass_references<'a, M: Machine>(
    alloc: Global,
    machine: &M,
    given: &Given<'_, 'a>,
    list: &mut Vec<Taken<'a>>,
    object: (u32, &'a Object),
    kept: &[bool],
    table: &[Option<Target>],
) -> Result<(), LinkStop>
    requires kept { passes.AreKept given.now.names.dropped object.0 object.1.now kept.now }
    requires targets { passes.AreTargets given.now object.0 object.1.now table.now }
    ensures { UnlessMemory LinkStop.Memory (passes.left list.new.items result) (stopped
        (passes.object_turn M.rules given.now list.old.items (object.entry.0, object.entry.1.now))) }
{
    let (position, own) = object;
    for reference in own.references() {
        let used = Use {
            object: position,
            own,
            reference,
        };
        pass_reference(alloc, machine, given, list, kept, table, used)?;
    }
    Ok(())
}

// The references of one more object, without those of the dropped sections.
fn pass_object<'a, M: Machine>(
    alloc: Global,
    machine: &M,
    given: &Given<'_, 'a>,
    dropped: &IndexSet<(u32, u32)>,
    list: &mut Vec<Taken<'a>>,
    object: (u32, &'a Object),
) -> Result<(), LinkStop>
    requires ascend { NamesAscend given.now.names }
    requires dropped { passes.AreDropped given.now.names.dropped dropped.now.keys }
    requires small { length object.1.now.bytes < 2 ^ 32 }
    ensures { UnlessMemory LinkStop.Memory (passes.left list.new.items result) (stopped
        (passes.object_turn M.rules given.now list.old.items (object.entry.0, object.entry.1.now))) }
{
    let kept = flags_of(
        alloc,
        given.names.dropped.as_slice(),
        dropped,
        object.0,
        object.1,
    )?;
    let table = targets_of(alloc, given, object.0, object.1, kept.as_slice())?;
    pass_references(
        alloc,
        machine,
        given,
        list,
        object,
        kept.as_slice(),
        table.as_slice(),
    )
}

/// The references of kept sections, each with what it needs, or the first refusal.
pub fn pass_objects<'a, M: Machine>(
    alloc: Global,
    machine: &M,
    given: &Given<'_, 'a>,
) -> Result<Vec<Taken<'a>>, LinkStop>
    requires ascend { NamesAscend given.now.names }
    requires few { length given.now.objects ≤ 4096 }
    requires small { All (λ o. length o.bytes < 2 ^ 32) given.now.objects }
    ensures { UnlessMemory LinkStop.Memory (seen result)
        (stopped (passes.goes_from M.rules given.now [] 0)) }
{
    let dropped = dropped_set(alloc, given.names.dropped.as_slice())?;
    let mut list = Vec::new(alloc);
    for i in 0..given.objects.len() {
        let own = &given.objects[i];
        pass_object(alloc, machine, given, &dropped, &mut list, (i as u32, own))?;
    }
    Ok(list)
}
