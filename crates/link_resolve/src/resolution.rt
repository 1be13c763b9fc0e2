//! The resolution of a link.

ghost use Rattle.std.specs.Prelude.{◌≡◌, ◌≤◌, ◌<◌, ◌^◌, All, Ok, length, map};
ghost use Rattle.ifs_bytes.specs.Outcome.{UnlessMemory};
ghost use Rattle.link_core.specs.declared.refusal.LinkStop.TheVariants as stops;
ghost use Rattle.link_core.specs.Kept as kept;
ghost use Rattle.link_core.specs.Resolution as resolution;
ghost use Rattle.link_binding.specs.Libraries.{libraries_seen, side_of};
ghost use Rattle.link_resolve.specs.Names as meant;

use crate::names::{mentions_in, resolve_names, sections_in};
use elf_object::Object;
use ifs_bytes::List;
use ifs_interface::SharedLib;
use link_binding::{HeldLib, held_libs};
use link_checks::{check_machines, check_versions, needed_names};
use link_core::{Lib, LinkOptions, LinkStop, Member, NameRow, Resolution};
use link_pieces::dropped_sections;
use std::alloc::Global;

// The resolution with these rows.
fn resolved<S: SharedLib>(
    alloc: Global,
    options: &LinkOptions,
    libs: &[HeldLib<S>],
    rows: Vec<NameRow>,
    dropped: Vec<Member>,
) -> Result<Resolution, LinkStop>
    requires limit { length libs.now ≤ 256 }
    ensures { UnlessMemory stops.Memory result
        (Ok (meant.resolved_with options.now (libraries_seen S.facts libs.now) dropped.items rows.items)) }
{
    let needed = needed_names(alloc, options, libs, &rows)?;
    Ok(Resolution {
        names: List::from_vec(rows),
        needed: List::from_vec(needed),
        dropped: List::from_vec(dropped),
    })
}

// The resolution of the names of objects and libraries, where these sections are dropped.
fn resolve_by<S: SharedLib>(
    alloc: Global,
    options: &LinkOptions,
    objects: &[Object],
    libs: &[HeldLib<S>],
    dropped: Vec<Member>,
) -> Result<Resolution, LinkStop>
    requires few { length objects.now ≤ 4096 }
    requires small { All (λ o. length o.bytes < 2 ^ 32) objects.now }
    requires limit { length libs.now ≤ 256 }
    ensures { UnlessMemory stops.Memory result (meant.stopped (resolution.resolution_in
        (meant.scope_by dropped.items options.now objects.now (libraries_seen S.facts libs.now)) dropped.items)) }
{
    let mentions = mentions_in(alloc, &dropped, objects)?;
    let sections = sections_in(alloc, &dropped, objects)?;
    match resolve_names(alloc, options, libs, &sections, mentions) {
        Ok(names) => resolved(alloc, options, libs, names, dropped),
        Err(stop) => Err(stop),
    }
}

// The resolution against libraries that define no symbol versions.
fn resolve_held<S: SharedLib>(
    alloc: Global,
    options: &LinkOptions,
    objects: &[Object],
    libs: &[HeldLib<S>],
) -> Result<Resolution, LinkStop>
    requires few { length objects.now ≤ 4096 }
    requires small { All (λ o. length o.bytes < 2 ^ 32) objects.now }
    requires limit { length libs.now ≤ 256 }
    ensures { UnlessMemory stops.Memory result
        (meant.stopped (meant.resolution_with options.now objects.now (libraries_seen S.facts libs.now))) }
{
    match check_machines(objects, libs) {
        Ok(()) => {
            let dropped = dropped_sections(alloc, objects)?;
            resolve_by(alloc, options, objects, libs, dropped)
        }
        Err(stop) => Err(stop),
    }
}

/// What the names of a link stand for. Refused, in this order: the first library that defines symbol
/// versions; the first object, then the first library, that isn't for the machine of the first object; and of
/// all names, in byte order, the first that is defined twice, then the first that is wanted in vain where no
/// library may define it, then in a program the first that is wanted in vain; then what a library wants in
/// vain; then an entry that no object defines.
pub fn resolve<S: SharedLib>(
    alloc: Global,
    options: &LinkOptions,
    objects: &[Object],
    libs: &[Lib<S>],
) -> Result<Resolution, LinkStop>
    requires few { length objects.now ≤ 4096 }
    requires small { All (λ o. length o.bytes < 2 ^ 32) objects.now }
    requires limit { length libs.now ≤ 256 }
    ensures { UnlessMemory stops.Memory result
        (meant.stopped (resolution.resolution_of options.now objects.now (map (side_of S.facts) libs.now))) }
{
    match check_versions(libs) {
        Ok(()) => {
            let held = held_libs(alloc, libs)?;
            resolve_held(alloc, options, objects, &held)
        }
        Err(stop) => Err(stop),
    }
}
