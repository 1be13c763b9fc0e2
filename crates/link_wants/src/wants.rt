//! What libraries want.

ghost use Rattle.std.specs.Prelude.{◌≡◌, ◌≤◌, true, length, map, option_map};
ghost use Rattle.std.specs.List as lists;
ghost use Rattle.std.specs.Option.{option_copied, option_map_or};
ghost use Rattle.std.specs.Prelude.{false};
ghost use Rattle.ifs_bytes.specs.Outcome.{UnlessMemory};
ghost use Rattle.ifs_interface.specs.Interface.{ascends};
ghost use Rattle.ifs_interface.specs.Triple.{same_name};
ghost use Rattle.link_core.specs.declared.refusal.LinkStop.TheVariants as stops;
ghost use Rattle.link_core.specs.Lists.{first_some};
ghost use Rattle.link_core.specs.Resolution as resolution;
ghost use Rattle.link_binding.specs.Libraries.{libraries_seen, seen};
ghost use Rattle.link_names.specs.Bounds.{AreInOrder};
ghost use Rattle.link_names.specs.Named.{stopped_by};
ghost use Rattle.link_wants.specs.Least.{is_missing_by};
ghost use Rattle.link_wants.specs.Wants.{missing_in, refused, undefined_by, undefined_with};

use crate::least::least_missing;
use ifs_bytes::Text;
use ifs_interface::SharedLib;
use link_binding::HeldLib;
use link_core::{LinkOptions, LinkRefusal, LinkStop};
use link_names::Name;
use std::alloc::Global;

// Whether a library has this soname.
fn has_soname<S: SharedLib>(lib: &S, name: &[u8]) -> bool
    ensures { result ≡ option_map_or (same_name name.now) (S.facts lib.now).soname false }
{
    match lib.soname() {
        Some(soname) => name == soname,
        None => false,
    }
}

// Whether one of the libraries has it.
fn is_soname<S: SharedLib>(libs: &[HeldLib<S>], name: &[u8]) -> bool
    ensures { result ≡ resolution.is_soname (libraries_seen S.facts libs.now) name.now }
{
    for held in libs {
        if has_soname(held.lib, name) {
            return true;
        }
    }
    false
}

// Whether a needed library, if there is one, is given.
fn is_given<S: SharedLib>(libs: &[HeldLib<S>], needed: Option<&[u8]>) -> bool
    ensures { result ≡ option_map_or (resolution.is_soname (libraries_seen S.facts libs.now)) (option_copied needed.entry) true }
{
    match needed {
        Some(name) => is_soname(libs, name),
        None => true,
    }
}

// Whether all libraries that this one needs are given.
fn has_needed<S: SharedLib>(libs: &[HeldLib<S>], lib: &S) -> bool
    ensures { result ≡ lists.list_all (resolution.is_soname (libraries_seen S.facts libs.now)) (S.facts lib.now).needed }
{
    for i in 0..lib.needed_len() {
        if !is_given(libs, lib.needed(i)) {
            return false;
        }
    }
    true
}

// The least name that a library wants in vain, where all libraries that it needs are given.
fn missing_of<'a, S: SharedLib>(
    names: &[Name],
    libs: &[HeldLib<S>],
    sections: &[&[u8]],
    lib: &'a S,
) -> Option<&'a [u8]>
    requires names { ascends (map (λ n. n.row.name) names.now) ≡ true }
    requires order { AreInOrder sections.now }
    ensures { option_copied result ≡ missing_in (is_missing_by names.now (libraries_seen S.facts libs.now) sections.now) (libraries_seen S.facts libs.now) (S.facts lib.now) }
{
    if has_needed(libs, lib) {
        least_missing(names, libs, sections, lib)
    } else {
        None
    }
}

// A name, and the position of the library that wants it.
struct Missing<'a> {
    library: u32,
    name: &'a [u8],
}

impl<'a> Drop for Missing<'a> {
    fn drop(self) {
        let Missing {
            library: _,
            name: _,
        } = self;
    }
}

// The first library that wants a name in vain, with the least such name.
#[tactic(auto, using(link_checks::proofs::Firsts::seen_more, link_checks::proofs::Firsts::seen_end))]
fn first_missing<'a, S: SharedLib>(
    names: &[Name],
    libs: &[HeldLib<'a, S>],
    sections: &[&[u8]],
) -> Option<Missing<'a>>
    requires names { ascends (map (λ n. n.row.name) names.now) ≡ true }
    requires order { AreInOrder sections.now }
    requires limit { length libs.now ≤ 256 }
    ensures { option_map refused result ≡ first_some (undefined_with (is_missing_by names.now (libraries_seen S.facts libs.now) sections.now) (libraries_seen S.facts libs.now)) (lists.enumerate_from 0 (libraries_seen S.facts libs.now)) }
{
    for (i, held) in libs.iter().enumerate() {
        if let Some(name) = missing_of(names, libs, sections, held.lib) {
            return Some(Missing {
                library: i as u32,
                name,
            });
        }
    }
    None
}

/// Refuses the first library, all of whose needed libraries are given, that wants a name strongly for which nothing
/// is there: no library defines it, the link doesn't provide it, and the made file doesn't offer it. The names of the
/// link, and those of its output sections, stand in byte order.
pub fn check_libraries<S: SharedLib>(
    alloc: Global,
    options: &LinkOptions,
    names: &[Name],
    libs: &[HeldLib<S>],
    sections: &[&[u8]],
) -> Result<(), LinkStop>
    requires names { ascends (map (λ n. n.row.name) names.now) ≡ true }
    requires order { AreInOrder sections.now }
    requires limit { length libs.now ≤ 256 }
    ensures { UnlessMemory stops.Memory result (stopped_by (undefined_by (is_missing_by names.now (libraries_seen S.facts libs.now) sections.now) options.now (libraries_seen S.facts libs.now))) }
{
    if options.kind.is_shared() || options.allow_shlib_undefined {
        return Ok(());
    }
    match first_missing(names, libs, sections) {
        Some(missing) => {
            let name = Text::from_slice(alloc, missing.name)?;
            Err(LinkStop::Refused(LinkRefusal::LibraryUndefined(name, missing.library)))
        }
        None => Ok(()),
    }
}
