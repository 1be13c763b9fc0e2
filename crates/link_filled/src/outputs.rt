//! The output sections of a link.

ghost use Rattle.std.specs.Prelude.{◌≡◌, ◌≤◌, ◌<◌, ◌^◌, All, IfOk, length};
ghost use Rattle.link_core.specs.Planned.{Planned};
ghost use Rattle.link_tables.specs.Filled.{outputs_filled};

use crate::filling::fill_all;
use elf_object::Object;
use ifs_bytes::Memory;
use link_commons::rooms;
use link_core::Resolution;
use link_outputs::{group, kept_pieces};
use link_tables::FilledOutput;
use std::alloc::Global;

/// The output sections of a link in order of first appearance, each with what stands in it: its pieces by
/// priority, those of one priority by object and section, and in `.bss` the common symbols after them, in
/// order of their names.
pub fn fill_outputs(
    alloc: Global,
    objects: &[Object],
    r: &Resolution,
) -> Result<Vec<FilledOutput>, Memory>
    requires few { length objects.now ≤ 4096 }
    requires small { All (λ o. length o.bytes < 2 ^ 32) objects.now }
    ensures { IfOk result (λ all. (j : Planned) → j.objects ≡ objects.now → j.names ≡ r.now
        → all.items ≡ outputs_filled j) }
{
    let pieces = kept_pieces(alloc, r.dropped.as_slice(), objects)?;
    let groups = group(alloc, &pieces)?;
    let rooms = rooms(alloc, objects, r)?;
    let all = fill_all(alloc, &groups, &rooms)?;
    Ok(all)
}
