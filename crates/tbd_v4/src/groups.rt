//! Names in groups of equal targets.

ghost use Rattle.std.specs.Prelude.{◌≡◌, ◌<◌, ◌++◌, length, OnOk};
ghost use Rattle.std.specs.Ordering.{nat_cmp};
ghost use Rattle.std.specs.Cmp.Lexicographic.{slice_cmp};
ghost use Rattle.std.specs.List.Sorted.{IsSortedByKey};
ghost use Rattle.tbd_core.specs.Groups.{run_size};
ghost use Rattle.tbd_v4.specs.Listed.{targets_of};
ghost use Rattle.tbd_v4.specs.Lines.{groups_text, groups_of_key};

use crate::lines::append_group;
use crate::listed::{Listed, sorted};
use ifs_bytes::{Memory, Text};
use tbd_core::TbdTarget;

// How many names at the front have the targets of the first.
fn run_length(entries: &[Listed]) -> usize
    requires { 0 < length entries.now }
    ensures { result ≡ run_size targets_of entries.now }
{
    let targets = entries[0].targets();
    entries
        .iter()
        .take_while(|entry| entry.targets() == targets)
        .count()
}

// Appends the groups of names in order of their targets.
fn append_runs(
    out: &mut Text,
    alone: bool,
    targets: &[TbdTarget],
    sorted: &[Listed],
) -> Result<(), Memory>
    requires { IsSortedByKey targets_of (slice_cmp nat_cmp) sorted.now }
    ensures { OnOk result (out.new ≡ out.old ++ groups_text alone targets.now sorted.now) }
{
    let mut start = 0;
    while start < sorted.len() {
        let (_, rest) = sorted.split_at(start);
        let (run, _) = rest.split_at(run_length(rest));
        append_group(out, alone, targets, run)?;
        start += run.len();
    }
    Ok(())
}

// Appends the groups of names.
fn append_groups(
    out: &mut Text,
    alone: bool,
    targets: &[TbdTarget],
    entries: Vec<Listed<'_>>,
) -> Result<(), Memory>
    ensures { OnOk result (out.new ≡ out.old ++ groups_text alone targets.now entries.entry.items) }
{
    let sorted = sorted(entries)?;
    append_runs(out, alone, targets, sorted.as_slice())
}

/// Appends a key and its groups, if there are some.
#[tactic(auto, unfolding(crate::specs::Lines::groups_of_key))]
pub(crate) fn append_key(
    out: &mut Text,
    key: &[u8],
    alone: bool,
    targets: &[TbdTarget],
    entries: Vec<Listed<'_>>,
) -> Result<(), Memory>
    ensures { OnOk result (out.new ≡ out.old ++ groups_of_key key.now alone targets.now entries.entry.items) }
{
    if entries.is_empty() {
        return Ok(());
    }
    out.append(key)?;
    out.push(b'\n')?;
    append_groups(out, alone, targets, entries)
}
