//! The names that libraries want from elsewhere.

ghost use Rattle.std.specs.Prelude.{◌≡◌, ℕ, List, ◌++◌, ◌||◌, IfOk, OnOk, is_some, length, map, option_map};
ghost use Rattle.std.specs.List as lists;
ghost use Rattle.std.specs.Option.{option_to_list};
ghost use Rattle.ifs_interface.specs.Facts.{wanted_of};
ghost use Rattle.ifs_interface.specs.Wanted.{seen};
ghost use Rattle.link_binding.specs.Libraries.{libraries_seen};
ghost use Rattle.link_binding.specs.WantedNames.{AreInNameOrder, AreWantedBy, has_name, wants};

use crate::library::HeldLib;
use ifs_bytes::Memory;
use ifs_interface::{SharedLib, Wanted};
use std::alloc::Global;

// Appends a wanted name, where there is one.
fn push_some<'a>(wanted: &mut Vec<Wanted<'a>>, name: Option<Wanted<'a>>) -> Result<(), Memory>
    ensures { OnOk result (map seen wanted.new.items ≡ map seen wanted.old.items ++ option_to_list (option_map seen name.entry)) }
{
    match name {
        Some(name) => Ok(wanted.push(name)?),
        None => Ok(()),
    }
}

// Appends the names that a library wants.
fn push_wanted<'a, S: SharedLib>(wanted: &mut Vec<Wanted<'a>>, lib: &'a S) -> Result<(), Memory>
    ensures { OnOk result ((name : List ℕ) → has_name name wanted.new.items ≡ (has_name name wanted.old.items || is_some (wanted_of (S.facts lib.now) name))) }
{
    for i in 0..lib.wanted_len() {
        push_some(wanted, lib.wanted(i))?;
    }
    Ok(())
}

// The names that the libraries want, one library after the other.
fn all_wanted<'a, S: SharedLib>(
    alloc: Global,
    libs: &[HeldLib<'a, S>],
) -> Result<Vec<Wanted<'a>>, Memory>
    ensures { IfOk result (λ wanted. (name : List ℕ) → has_name name wanted.items ≡ lists.list_any (wants name) (libraries_seen S.facts libs.now)) }
{
    let mut wanted = Vec::new(alloc);
    for held in libs {
        push_wanted(&mut wanted, held.lib)?;
    }
    Ok(wanted)
}

/// The names that the libraries want, in byte order.
pub fn wanted_names<'a, S: SharedLib>(
    alloc: Global,
    libs: &[HeldLib<'a, S>],
) -> Result<Vec<Wanted<'a>>, Memory>
    ensures { IfOk result (λ wanted. AreWantedBy (libraries_seen S.facts libs.now) wanted.items) }
{
    let mut wanted = all_wanted(alloc, libs)?;
    wanted.sort_unstable_by(|a, b| a.name.cmp(b.name));
    Ok(wanted)
}

/// Whether the name is one of those, which stand in byte order.
pub fn is_wanted(wanted: &[Wanted], name: &[u8]) -> bool
    requires { AreInNameOrder wanted.now }
    ensures { result ≡ has_name name.now wanted.now }
{
    match wanted.binary_search_by(|w| w.name.cmp(name)) {
        Ok(_place) => true,
        Err(_place) => false,
    }
}
