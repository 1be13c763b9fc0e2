//! Inputs that can't be linked.

ghost use Rattle.std.specs.Prelude.{◌≡◌, ◌≤◌, ◌==◌, length, map, option_map};
ghost use Rattle.std.specs.List.{enumerate_from};
ghost use Rattle.link_checks.specs.Inputs.{is_linked, is_versioned, versioned_at};
ghost use Rattle.link_core.specs.declared.refusal.LinkRefusal.TheVariants as refusals;
ghost use Rattle.link_core.specs.Lists.{first_some};
ghost use Rattle.link_core.specs.Resolution as resolution;
ghost use Rattle.std.specs.Option.{option_map_or};
ghost use Rattle.std.specs.Prelude.{true};
ghost use Rattle.link_binding.specs.Libraries.{libraries_seen, side_of};
ghost use Rattle.link_names.specs.Named.{stopped_by};

use elf_object::Object;
use ifs_bytes::{Order, Width};
use ifs_interface::{MachineFact, SharedLib};
use link_binding::HeldLib;
use link_core::{EM_AARCH64, EM_X86_64, Lib, LibSource, LinkRefusal, LinkStop, Place};

// Whether a library defines symbol versions.
fn is_versioned<S>(source: &LibSource<S>) -> bool
    ensures { result ≡ is_versioned source.now }
{
    match source {
        LibSource::Held(_) => false,
        LibSource::Versioned => true,
        LibSource::Refused(_) => false,
    }
}

// The position of the first library that defines symbol versions.
#[tactic(auto, using(crate::proofs::Firsts::first_more, crate::proofs::Firsts::first_end))]
fn first_versioned<S: SharedLib>(libs: &[Lib<S>]) -> Option<u32>
    requires { length libs.now ≤ 256 }
    ensures { option_map refusals.Versioned result ≡ first_some versioned_at (enumerate_from 0 libs.now) }
{
    for (i, lib) in libs.iter().enumerate() {
        if is_versioned(&lib.source) {
            return Some(i as u32);
        }
    }
    None
}

/// Refuses the first library that defines symbol versions.
#[tactic(auto, using(crate::proofs::Firsts::versions_are))]
pub fn check_versions<S: SharedLib>(libs: &[Lib<S>]) -> Result<(), LinkStop>
    requires { length libs.now ≤ 256 }
    ensures { result ≡ stopped_by (resolution.versioned_side (map (side_of S.facts) libs.now)) }
{
    match first_versioned(libs) {
        Some(i) => Err(LinkStop::Refused(LinkRefusal::Versioned(i))),
        None => Ok(()),
    }
}

// Whether a machine, where it is known, is this one.
fn is_machine(known: Option<u16>, machine: u16) -> bool
    ensures { result ≡ option_map_or (λ m. m == machine) known true }
{
    match known {
        Some(m) => m == machine,
        None => true,
    }
}

// Whether a byte order, where it is known, has the lowest byte first.
fn is_little(known: Option<Order>) -> bool
    ensures { result ≡ option_map_or resolution.is_little known true }
{
    match known {
        Some(Order::Little) => true,
        Some(Order::Big) => false,
        None => true,
    }
}

// Whether a width, where it is known, is 64 bits.
fn is_wide(known: Option<Width>) -> bool
    ensures { result ≡ option_map_or resolution.is_wide known true }
{
    match known {
        Some(Width::W32) => false,
        Some(Width::W64) => true,
        None => true,
    }
}

// Whether nothing that is known of a library tells that it is for another machine.
fn is_for(machine: u16, fact: MachineFact) -> bool
    ensures { result ≡ resolution.is_for machine fact }
{
    is_machine(fact.machine, machine) && is_little(fact.order) && is_wide(fact.width)
}

// Whether an object for this machine can be linked with others of that machine.
fn is_linked(own: u16, machine: u16) -> bool
    ensures { result ≡ is_linked own machine }
{
    (own == EM_X86_64 || own == EM_AARCH64) && own == machine
}

// The first object that can't.
#[tactic(auto, using(crate::proofs::Firsts::first_more, crate::proofs::Firsts::first_end))]
fn other_object(machine: u16, objects: &[Object]) -> Option<Place>
    requires { length objects.now ≤ 4096 }
    ensures { option_map refusals.MachineMismatch result ≡ first_some (resolution.other_object machine) (enumerate_from 0 objects.now) }
{
    for (i, object) in objects.iter().enumerate() {
        if !is_linked(object.machine(), machine) {
            return Some(Place::Object(i as u32));
        }
    }
    None
}

// The first library that is for another machine.
#[tactic(auto, using(crate::proofs::Firsts::seen_more, crate::proofs::Firsts::seen_end))]
fn other_library<S: SharedLib>(machine: u16, libs: &[HeldLib<S>]) -> Option<Place>
    requires { length libs.now ≤ 256 }
    ensures { option_map refusals.MachineMismatch result ≡ first_some (resolution.other_library machine) (enumerate_from 0 (libraries_seen S.facts libs.now)) }
{
    for (i, held) in libs.iter().enumerate() {
        if !is_for(machine, held.lib.machine()) {
            return Some(Place::Library(i as u32));
        }
    }
    None
}

// The machine of a link: that of its first object.
fn machine_of(objects: &[Object]) -> u16
    ensures { result ≡ resolution.machine_of objects.now }
{
    match objects {
        [] => EM_X86_64,
        [first, ..] => first.machine(),
    }
}

// The first input that isn't for the machine of the first object.
#[tactic(auto, unfolding(link_core::specs::Resolution::other_machine))]
fn other_machine<S: SharedLib>(objects: &[Object], libs: &[HeldLib<S>]) -> Option<Place>
    requires few { length objects.now ≤ 4096 }
    requires limit { length libs.now ≤ 256 }
    ensures { option_map refusals.MachineMismatch result ≡ resolution.other_machine (resolution.machine_of objects.now) objects.now (libraries_seen S.facts libs.now) }
{
    let machine = machine_of(objects);
    match other_object(machine, objects) {
        Some(place) => Some(place),
        None => other_library(machine, libs),
    }
}

/// Refuses the first object, and then the first library, that isn't for the machine of the first object.
pub fn check_machines<S: SharedLib>(objects: &[Object], libs: &[HeldLib<S>]) -> Result<(), LinkStop>
    requires few { length objects.now ≤ 4096 }
    requires limit { length libs.now ≤ 256 }
    ensures { result ≡ stopped_by (resolution.other_machine (resolution.machine_of objects.now) objects.now (libraries_seen S.facts libs.now)) }
{
    match other_machine(objects, libs) {
        Some(place) => Err(LinkStop::Refused(LinkRefusal::MachineMismatch(place))),
        None => Ok(()),
    }
}
