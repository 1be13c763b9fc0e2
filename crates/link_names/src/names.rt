//! What all names stand for.

ghost use Rattle.std.specs.Prelude.{◌≡◌, ◌≤◌, ◌++◌, ◌∷◌, [], IfOk, OnOk, length, map};
ghost use Rattle.link_binding.specs.Libraries.{libraries_seen};
ghost use Rattle.link_binding.specs.WantedNames.{AreWantedBy};
ghost use Rattle.link_names.specs.Bounds.{AreInOrder, is_provided_by};
ghost use Rattle.link_names.specs.Named as named;

use crate::provided::is_provided;
use ifs_bytes::Memory;
use ifs_interface::{SharedLib, Wanted};
use link_binding::{HeldLib, row_of};
use link_core::{Bound, LinkOptions, NameRow};
use link_mentions::{Mention, Run, first_strong_want};
use std::alloc::Global;

/// A name, and who wants it in vain.
#[derive(Debug, Drop)]
pub struct Name {
    /// The row of the name.
    pub row: NameRow,
    /// The position of the first object that wants the name not only weakly, where nothing is there for it.
    pub unmet: Option<u32>,
}

// The name of mentions that have one name.
pub(crate) fn run_name<'b, 'a>(mentions: &'b [Mention<'a>]) -> &'a [u8]
    ensures { result.now ≡ named.run_name mentions.now }
{
    match mentions {
        [] => &[],
        [first, ..] => first.name(),
    }
}

// Whether nothing is there for the name.
fn is_bound_nowhere(bound: Bound) -> bool
    ensures { result ≡ named.is_bound_nowhere bound }
{
    match bound {
        Bound::Object(_, _) => false,
        Bound::Common => false,
        Bound::Provided => false,
        Bound::Library(_) => false,
        Bound::Import => true,
        Bound::Zero => true,
    }
}

// The object of the first mention that wants a name for which there is nothing.
fn unmet(bound: Bound, mentions: &[Mention]) -> Option<u32>
    ensures { result ≡ named.unmet_by bound mentions.now }
{
    if !is_bound_nowhere(bound) {
        return None;
    }
    match first_strong_want(mentions) {
        Some(mention) => Some(mention.object()),
        None => None,
    }
}

// The name of a run.
fn name_of<S: SharedLib>(
    alloc: Global,
    options: &LinkOptions,
    libs: &[HeldLib<S>],
    wanted: &[Wanted],
    sections: &[&[u8]],
    mentions: &[Mention],
) -> Result<Name, Memory>
    requires limit { length libs.now ≤ 256 }
    requires wanted { AreWantedBy (libraries_seen S.facts libs.now) wanted.now }
    requires order { AreInOrder sections.now }
    ensures { IfOk result (λ name. name ≡ named.name_by options.now (libraries_seen S.facts libs.now) (is_provided_by sections.now) mentions.now) }
{
    let name = run_name(mentions);
    let provided = is_provided(sections, name);
    let row = row_of(alloc, options, libs, wanted, provided, name, mentions)?;
    let unmet = unmet(row.bound, mentions);
    Ok(Name { row, unmet })
}

// Appends a name.
fn push_name(names: &mut Vec<Name>, name: Name) -> Result<(), Memory>
    ensures { OnOk result (names.new.items ≡ names.old.items ++ name ∷ []) }
{
    Ok(names.push(name)?)
}

/// The names of these runs. `wanted` are the names that the libraries want, and `sections` the names of the output
/// sections, in byte order.
pub fn names_of<S: SharedLib>(
    alloc: Global,
    options: &LinkOptions,
    libs: &[HeldLib<S>],
    wanted: &[Wanted],
    sections: &[&[u8]],
    runs: &[Run],
) -> Result<Vec<Name>, Memory>
    requires limit { length libs.now ≤ 256 }
    requires wanted { AreWantedBy (libraries_seen S.facts libs.now) wanted.now }
    requires order { AreInOrder sections.now }
    ensures { IfOk result (λ names. names.items ≡ map (named.name_by options.now (libraries_seen S.facts libs.now) (is_provided_by sections.now)) runs.now) }
{
    let mut names = Vec::with_capacity(alloc, runs.len())?;
    for run in runs {
        push_name(
            &mut names,
            name_of(alloc, options, libs, wanted, sections, run.mentions())?,
        )?;
    }
    Ok(names)
}
