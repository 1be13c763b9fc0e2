//! The row of a name.

ghost use Rattle.std.specs.Prelude.{◌≡◌, ◌≤◌, ◌==◌, ◌&&◌, IfOk, length};
ghost use Rattle.std.specs.List as lists;
ghost use Rattle.link_core.specs.Exports as exports;
ghost use Rattle.link_binding.specs.Libraries.{libraries_seen};
ghost use Rattle.link_binding.specs.Row.{is_bound_here, is_offered_by, is_shown, row_by};
ghost use Rattle.link_binding.specs.WantedNames.{AreWantedBy};
ghost use Rattle.link_core.specs.declared.constants.TheConstants.{STV_DEFAULT};

use crate::bind::bind_name;
use crate::library::{HeldLib, is_defined_by_one};
use crate::wanted::is_wanted;
use ifs_bytes::{Memory, Text};
use ifs_interface::{SharedLib, Wanted};
use link_core::{Bound, LinkOptions, NameRow, STV_DEFAULT, STV_PROTECTED};
use link_mentions::{Mention, are_weak, strictest};
use std::alloc::Global;

// Whether a name is an object's definition, or room in the made file.
fn is_bound_here(bound: Bound) -> bool
    ensures { result ≡ is_bound_here bound }
{
    match bound {
        Bound::Object(_, _) => true,
        Bound::Common => true,
        Bound::Provided => false,
        Bound::Library(_) => false,
        Bound::Import => false,
        Bound::Zero => false,
    }
}

/// Whether a name is the made file's own, and others may see it.
pub fn is_offered(bound: Bound, visibility: u8) -> bool
    ensures { result ≡ is_offered_by bound visibility }
{
    is_bound_here(bound) && (visibility == STV_DEFAULT || visibility == STV_PROTECTED)
}

// Whether a library defines or wants the name.
#[tactic(auto, using(crate::proofs::Spoken::spoken_by_parts))]
fn is_spoken_of<S: SharedLib>(libs: &[HeldLib<S>], wanted: &[Wanted], name: &[u8]) -> bool
    requires { AreWantedBy (libraries_seen S.facts libs.now) wanted.now }
    ensures { result ≡ lists.list_any (exports.is_spoken_of name.now) (libraries_seen S.facts libs.now) }
{
    is_wanted(wanted, name) || is_defined_by_one(libs, name)
}

// Whether the made file defines the name for others.
fn is_exported<S: SharedLib>(
    options: &LinkOptions,
    libs: &[HeldLib<S>],
    wanted: &[Wanted],
    name: &[u8],
    offered: bool,
) -> bool
    requires { AreWantedBy (libraries_seen S.facts libs.now) wanted.now }
    ensures { result ≡ (offered && is_shown options.now (libraries_seen S.facts libs.now) name.now) }
{
    offered
        && (options.kind.is_shared() || options.export_dynamic || is_spoken_of(libs, wanted, name))
}

// Whether another file's definition may take the place of this one.
fn is_preemptible(options: &LinkOptions, offered: bool, visibility: u8) -> bool
    ensures { result ≡ (offered && exports.is_shared options.now.kind && visibility == STV_DEFAULT) }
{
    offered && options.kind.is_shared() && visibility == STV_DEFAULT
}

/// The row of a name with these mentions. `wanted` are the names that the libraries want.
pub fn row_of<S: SharedLib>(
    alloc: Global,
    options: &LinkOptions,
    libs: &[HeldLib<S>],
    wanted: &[Wanted],
    provided: bool,
    name: &[u8],
    mentions: &[Mention],
) -> Result<NameRow, Memory>
    requires limit { length libs.now ≤ 256 }
    requires wanted { AreWantedBy (libraries_seen S.facts libs.now) wanted.now }
    ensures { IfOk result (λ row. row ≡ row_by options.now (libraries_seen S.facts libs.now) provided name.now mentions.now) }
{
    let bind = bind_name(provided, libs, name, mentions);
    let visibility = strictest(mentions);
    let offered = is_offered(bind.bound, visibility);
    let exported = is_exported(options, libs, wanted, name, offered);
    let preemptible = is_preemptible(options, offered, visibility);
    Ok(NameRow {
        name: Text::from_slice(alloc, name)?,
        bound: bind.bound,
        class: bind.class,
        weak_only: are_weak(mentions),
        visibility,
        exported,
        preemptible,
    })
}
