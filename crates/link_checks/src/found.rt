//! Names among those of a link.

ghost use Rattle.std.specs.Prelude.{◌≡◌, true, false, map, find};
ghost use Rattle.std.specs.Option.{option_copied, option_map_or};
ghost use Rattle.ifs_bytes.specs.Outcome.{UnlessMemory};
ghost use Rattle.ifs_interface.specs.Interface.{ascends};
ghost use Rattle.link_core.specs.declared.refusal.LinkStop.TheVariants as stops;
ghost use Rattle.link_names.specs.Named.{stopped_by};
ghost use Rattle.link_checks.specs.Found.{entry_missing, is_defined_at, is_offered_at, name_in};
ghost use Rattle.std.specs.Ordering.{nat_cmp};
ghost use Rattle.std.specs.Cmp.Lexicographic.{slice_cmp};

use link_binding::is_offered;
use link_core::{Bound, LinkOptions, LinkRefusal, LinkStop};
use link_names::Name;
use std::alloc::Global;
use std::cmp::Ordering;

// The order of a name and another one, byte by byte.
fn against(name: &Name, other: &[u8]) -> Ordering
    ensures { result ≡ slice_cmp nat_cmp name.now.row.name other.now }
{
    name.row.name.as_bytes().cmp(other)
}

// The name with these bytes.
fn name_in<'a>(names: &'a [Name], name: &[u8]) -> Option<&'a Name>
    requires { ascends (map (λ n. n.row.name) names.now) ≡ true }
    ensures { option_copied result ≡ name_in names.now name.now }
{
    match names.binary_search_by(|n| against(n, name)) {
        Ok(place) => Some(&names[place]),
        Err(_place) => None,
    }
}

/// Whether an object defines the name, or asks for room for it, and others may see it. The names stand in byte
/// order.
pub fn is_offered_among(names: &[Name], name: &[u8]) -> bool
    requires { ascends (map (λ n. n.row.name) names.now) ≡ true }
    ensures { result ≡ option_map_or is_offered_at (name_in names.now name.now) false }
{
    match name_in(names, name) {
        Some(found) => is_offered(found.row.bound, found.row.visibility),
        None => false,
    }
}

// Whether an object defines a name.
fn is_defined(bound: Bound) -> bool
    ensures { result ≡ is_defined_at bound }
{
    match bound {
        Bound::Object(_, _) => true,
        Bound::Common => false,
        Bound::Provided => false,
        Bound::Library(_) => false,
        Bound::Import => false,
        Bound::Zero => false,
    }
}

// Whether an object defines the name.
fn is_defined_among(names: &[Name], name: &[u8]) -> bool
    requires { ascends (map (λ n. n.row.name) names.now) ≡ true }
    ensures { result ≡ option_map_or (λ n. is_defined_at n.row.bound) (name_in names.now name.now) false }
{
    match name_in(names, name) {
        Some(found) => is_defined(found.row.bound),
        None => false,
    }
}

/// Refuses a program that starts at a name that no object defines. The names stand in byte order.
pub fn check_entry(alloc: Global, options: &LinkOptions, names: &[Name]) -> Result<(), LinkStop>
    requires { ascends (map (λ n. n.row.name) names.now) ≡ true }
    ensures { UnlessMemory stops.Memory result (stopped_by (entry_missing options.now names.now)) }
{
    if options.kind.is_shared() || is_defined_among(names, options.entry_name.as_bytes()) {
        return Ok(());
    }
    let name = options.entry_name.copy(alloc)?;
    Err(LinkStop::Refused(LinkRefusal::NoEntry(name)))
}
