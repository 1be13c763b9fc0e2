//! What is known of an object before its references: the symbols in its rows.

ghost use Rattle.std.specs.Prelude.{◌≡◌, ◌<◌, ◌^◌, length, option_map, IfOk};
ghost use Rattle.link_targets.specs.Targets as targets;
ghost use Rattle.link_uses.specs.Passes as passes;

use crate::given::Given;
use elf_object::{ObjPlace, Object};
use ifs_bytes::Memory;
use link_core::Resolution;
use link_targets::{Target, no_symbol, target_at};
use std::alloc::Global;

/// Whether a section has its flag.
pub fn has_flag(flags: &[bool], section: u32) -> bool
    ensures { result ≡ passes.has_flag flags.now section }
{
    match flags.get(section as usize) {
        Some(flag) => *flag,
        None => false,
    }
}

// Whether the section of a place is kept, where it has one.
fn is_place_kept(
    given: &Given<'_, '_>,
    object: u32,
    own: &Object,
    kept: &[bool],
    place: ObjPlace,
) -> bool
    requires { passes.AreKept given.now.names.dropped object own.now kept.now }
    ensures { result ≡ targets.is_place_kept given.now.names.dropped object own.now place }
{
    match place {
        ObjPlace::Undefined | ObjPlace::Absolute | ObjPlace::Common => true,
        ObjPlace::In(section) => has_flag(kept, section),
    }
}

// Whether the section of a row's place is kept, where it has one.
fn is_row_kept(given: &Given<'_, '_>, object: u32, own: &Object, kept: &[bool], row: u32) -> bool
    requires { passes.AreKept given.now.names.dropped object own.now kept.now }
    ensures { result ≡ targets.is_row_kept given.now.names.dropped object own.now row }
{
    match own.symbols().get(row as usize) {
        Some(symbol) => is_place_kept(given, object, own, kept, symbol.place),
        None => true,
    }
}

// The symbol in a row of an object.
fn target_of(
    given: &Given<'_, '_>,
    object: u32,
    own: &Object,
    kept: &[bool],
    row: u32,
) -> Option<Target>
    requires ascend { targets.NamesAscend given.now.names }
    requires kept { passes.AreKept given.now.names.dropped object own.now kept.now }
    ensures { option_map (targets.target_seen given.now.names) result
        ≡ targets.target_at given.now.names given.now.objects object own.now row }
{
    let row_kept = is_row_kept(given, object, own, kept, row);
    target_at(given.names, given.objects, own, (object, row), row_kept)
}

/// The symbols in the rows of an object.
pub fn targets_of(
    alloc: Global,
    given: &Given<'_, '_>,
    object: u32,
    own: &Object,
    kept: &[bool],
) -> Result<Vec<Option<Target>>, Memory>
    requires ascend { targets.NamesAscend given.now.names }
    requires kept { passes.AreKept given.now.names.dropped object own.now kept.now }
    requires small { length own.now.bytes < 2 ^ 32 }
    ensures { IfOk result (λ table. passes.AreTargets given.now object own.now table.items) }
{
    own.is_read();
    let count = own.symbols().len();
    let mut table = Vec::with_capacity(alloc, count)?;
    for row in 0..count {
        table.push(target_of(given, object, own, kept, row as u32))?;
    }
    Ok(table)
}

/// The symbol in a row, by the table of the object's rows.
pub fn looked_up(
    names: &Resolution,
    object: u32,
    table: &[Option<Target>],
    row: u32,
) -> Option<Target>
    ensures { option_map (targets.target_seen names.now) result
        ≡ passes.looked_up names.now object table.now row }
{
    match table.get(row as usize) {
        Some(target) => *target,
        None => Some(no_symbol(names, object)),
    }
}
