//! The names of a link, by what objects mention and what libraries define and want.

ghost use Rattle.std.specs.Prelude.{◌≡◌, ◌≤◌, ◌<◌, ◌^◌, All, IfOk, length, map, true};
ghost use Rattle.ifs_bytes.specs.Outcome.{UnlessMemory};
ghost use Rattle.ifs_interface.specs.Interface.{ascends};
ghost use Rattle.link_core.specs.declared.refusal.LinkStop.TheVariants as stops;
ghost use Rattle.link_core.specs.Mentions as said;
ghost use Rattle.link_core.specs.OutputNames as outputs;
ghost use Rattle.link_binding.specs.Libraries.{libraries_seen};
ghost use Rattle.link_mentions.specs.ByName.{by_name};
ghost use Rattle.link_names.specs.Bounds.{AreInOrder};
ghost use Rattle.link_names.specs.Flags.{AreSmall};
ghost use Rattle.link_outputs.specs.Grouped.{AreNamesOf, grouped};
ghost use Rattle.link_resolve.specs.Names as meant;

use crate::refused::check_names;
use elf_object::Object;
use ifs_bytes::Memory;
use ifs_interface::SharedLib;
use link_binding::{HeldLib, wanted_names};
use link_checks::rows_of;
use link_core::{LinkOptions, LinkStop, Member, NameRow};
use link_mentions::{Mention, Run, runs_of, sorted};
use link_names::{mentions_of, names_of};
use link_outputs::{group, kept_pieces, section_names};
use link_pieces::kept_flags;
use std::alloc::Global;

// Does nothing, and is there for its clause: the numbers of symbols have 32 bits.
fn has_few_symbols(objects: &[Object])
    requires { All (λ o. length o.bytes < 2 ^ 32) objects.now }
    ensures { AreSmall objects.now }
{
    for object in objects {
        object.is_read();
    }
}

/// What objects mention, where these sections of them are dropped.
#[tactic(auto, using(crate::proofs::Flagged::mentions_flagged, link_outputs::proofs::Kept::flags_long))]
pub fn mentions_in<'a>(
    alloc: Global,
    dropped: &[Member],
    objects: &'a [Object],
) -> Result<Vec<Mention<'a>>, Memory>
    requires few { length objects.now ≤ 4096 }
    requires small { All (λ o. length o.bytes < 2 ^ 32) objects.now }
    ensures { IfOk result (λ mentions. mentions.items ≡ said.mentions_of dropped.now objects.now) }
{
    let flags = kept_flags(alloc, dropped, objects)?;
    has_few_symbols(objects);
    mentions_of(alloc, &flags, objects)
}

/// The names of the output sections, in byte order, where these sections of objects are dropped.
pub fn sections_in<'a>(
    alloc: Global,
    dropped: &[Member],
    objects: &'a [Object],
) -> Result<Vec<&'a [u8]>, Memory>
    requires few { length objects.now ≤ 4096 }
    requires small { All (λ o. length o.bytes < 2 ^ 32) objects.now }
    ensures { IfOk result (λ names.
        AreNamesOf (grouped (outputs.kept_pieces dropped.now objects.now)) names.items) }
{
    let pieces = kept_pieces(alloc, dropped, objects)?;
    let groups = group(alloc, &pieces)?;
    section_names(alloc, &groups)
}

// The rows of the names of these runs, or the first refusal.
#[tactic(auto, using(crate::proofs::Listed::refused_rows))]
fn rows_in<S: SharedLib>(
    alloc: Global,
    options: &LinkOptions,
    libs: &[HeldLib<S>],
    sections: &[&[u8]],
    runs: &[Run],
) -> Result<Vec<NameRow>, LinkStop>
    requires limit { length libs.now ≤ 256 }
    requires order { AreInOrder sections.now }
    requires names { ascends (map (λ n. n.row.name)
        (meant.names_by options.now (libraries_seen S.facts libs.now) sections.now runs.now)) ≡ true }
    ensures { UnlessMemory stops.Memory (meant.listed result)
        (meant.rows_in options.now (libraries_seen S.facts libs.now) sections.now runs.now) }
{
    let wanted = wanted_names(alloc, libs)?;
    let names = names_of(alloc, options, libs, &wanted, sections, runs)?;
    match check_names(alloc, options, libs, sections, runs, &names) {
        Ok(()) => Ok(rows_of(alloc, names)?),
        Err(stop) => Err(stop),
    }
}

/// The rows of the mentioned names in byte order, or the first refusal. `sections` are the names of the
/// output sections, in byte order.
#[tactic(auto, using(link_mentions::proofs::Sorting::sorted_runs, crate::proofs::Listed::names_ascend))]
pub fn resolve_names<S: SharedLib>(
    alloc: Global,
    options: &LinkOptions,
    libs: &[HeldLib<S>],
    sections: &[&[u8]],
    mentions: Vec<Mention>,
) -> Result<Vec<NameRow>, LinkStop>
    requires limit { length libs.now ≤ 256 }
    requires order { AreInOrder sections.now }
    ensures { UnlessMemory stops.Memory (meant.listed result)
        (meant.rows_in options.now (libraries_seen S.facts libs.now) sections.now (by_name mentions.entry.items)) }
{
    let sorted = sorted(mentions)?;
    let runs = runs_of(alloc, &sorted)?;
    rows_in(alloc, options, libs, sections, &runs)
}
