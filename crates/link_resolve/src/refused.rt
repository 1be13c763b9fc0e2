//! The first refusal of the names of a link.

ghost use Rattle.std.specs.Prelude.{◌≡◌, ◌≤◌, length, map, true};
ghost use Rattle.ifs_bytes.specs.Outcome.{UnlessMemory};
ghost use Rattle.ifs_interface.specs.Interface.{ascends};
ghost use Rattle.link_core.specs.declared.refusal.LinkStop.TheVariants as stops;
ghost use Rattle.link_binding.specs.Libraries.{libraries_seen};
ghost use Rattle.link_names.specs.Bounds.{AreInOrder};
ghost use Rattle.link_names.specs.Named.{stopped_by};
ghost use Rattle.link_resolve.specs.Names as meant;

use ifs_interface::SharedLib;
use link_binding::HeldLib;
use link_checks::check_entry;
use link_core::{LinkOptions, LinkStop, OutKind};
use link_mentions::Run;
use link_names::{Name, check_hidden, check_once, check_undefined};
use link_wants::check_libraries;
use std::alloc::Global;

// A shared library leaves undefined names to the program.
fn check_programs(alloc: Global, options: &LinkOptions, names: &[Name]) -> Result<(), LinkStop>
    ensures { UnlessMemory stops.Memory result (stopped_by (meant.undefined_in options.now names.now)) }
{
    match options.kind {
        OutKind::Shared => Ok(()),
        OutKind::Exec => check_undefined(alloc, names),
        OutKind::Pie => check_undefined(alloc, names),
    }
}

/// Refuses the first name that is defined twice, wanted in vain where no library may define it, or wanted in
/// vain; then what a library wants in vain; then an entry that no object defines.
pub fn check_names<S: SharedLib>(
    alloc: Global,
    options: &LinkOptions,
    libs: &[HeldLib<S>],
    sections: &[&[u8]],
    runs: &[Run],
    names: &[Name],
) -> Result<(), LinkStop>
    requires names { ascends (map (λ n. n.row.name) names.now) ≡ true }
    requires order { AreInOrder sections.now }
    requires limit { length libs.now ≤ 256 }
    ensures { UnlessMemory stops.Memory result (stopped_by
        (meant.refused_by options.now (libraries_seen S.facts libs.now) sections.now runs.now names.now)) }
{
    check_once(alloc, runs)?;
    check_hidden(alloc, names)?;
    check_programs(alloc, options, names)?;
    check_libraries(alloc, options, names, libs, sections)?;
    check_entry(alloc, options, names)
}
