//! The libraries that a link is made against.

ghost use Rattle.std.specs.Prelude.{◌≡◌, ◌≤◌, ◌++◌, IfOk, OnOk, length, map, option_map, unwrap_or};
ghost use Rattle.std.specs.List.{enumerate_from};
ghost use Rattle.std.specs.Option.{option_to_list};
ghost use Rattle.link_core.specs.Binding.{Taken, taken_from};
ghost use Rattle.link_core.specs.Lists.{first_some};
ghost use Rattle.link_core.specs.Side.{held_by, libraries_of};
ghost use Rattle.link_core.specs.Resolution as resolution;
ghost use Rattle.link_binding.specs.Libraries.{libraries_seen, side_of};

use ifs_bytes::Memory;
use ifs_interface::{Fact, SharedLib};
use link_core::{Lib, LibSource};
use std::alloc::Global;

/// A library that can be linked against.
pub struct HeldLib<'a, S> {
    /// The name by which the made file asks for it: its soname, and that of its file where it has none.
    pub name: &'a [u8],
    /// The library.
    pub lib: &'a S,
}

impl<'a, S> Drop for HeldLib<'a, S> {
    fn drop(self) {
        let HeldLib { name: _, lib: _ } = self;
    }
}

// The name by which the made file asks for a library.
fn name_of<'a, S: SharedLib>(file_name: &'a [u8], lib: &'a S) -> &'a [u8]
    ensures { result.now ≡ unwrap_or (S.facts lib.now).soname file_name.now }
{
    match lib.soname() {
        Some(soname) => soname,
        None => file_name,
    }
}

// Appends a library, where it is held.
fn push_held<'a, S: SharedLib>(
    held: &mut Vec<HeldLib<'a, S>>,
    lib: &'a Lib<S>,
) -> Result<(), Memory>
    ensures { OnOk result (libraries_seen S.facts held.new.items
        ≡ libraries_seen S.facts held.old.items ++ option_to_list (held_by (side_of S.facts lib.now))) }
{
    match &lib.source {
        LibSource::Held(source) => {
            let name = name_of(lib.file_name.as_bytes(), source);
            Ok(held.push(HeldLib { name, lib: source })?)
        }
        LibSource::Versioned => Ok(()),
        LibSource::Refused(_) => Ok(()),
    }
}

/// The libraries that are held, in order.
pub fn held_libs<'a, S: SharedLib>(
    alloc: Global,
    libs: &'a [Lib<S>],
) -> Result<Vec<HeldLib<'a, S>>, Memory>
    ensures { IfOk result (λ held. libraries_seen S.facts held.items
        ≡ libraries_of (map (side_of S.facts) libs.now)) }
{
    let mut held = Vec::new(alloc);
    for lib in libs {
        push_held(&mut held, lib)?;
    }
    Ok(held)
}

/// The position of the first library that defines the name, and what the name is there.
#[tactic(auto, using(crate::proofs::Libraries::first_more, crate::proofs::Libraries::first_end))]
pub fn first_library<S: SharedLib>(libs: &[HeldLib<S>], name: &[u8]) -> Option<(u32, Fact)>
    requires { length libs.now ≤ 256 }
    ensures { option_map (λ found. Taken found.0 found.1) result
        ≡ first_some (taken_from name.now) (enumerate_from 0 (libraries_seen S.facts libs.now)) }
{
    for (i, held) in libs.iter().enumerate() {
        if let Some(fact) = held.lib.fact(name) {
            return Some((i as u32, fact));
        }
    }
    None
}

/// Whether one of the libraries defines the name.
pub fn is_defined_by_one<S: SharedLib>(libs: &[HeldLib<S>], name: &[u8]) -> bool
    ensures { result ≡ resolution.is_defined_by_one (libraries_seen S.facts libs.now) name.now }
{
    for held in libs {
        if held.lib.fact(name).is_some() {
            return true;
        }
    }
    false
}
