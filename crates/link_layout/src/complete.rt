//! The layout of a link, by what it is made from alone.

ghost use Rattle.std.specs.Prelude.{◌≡◌, ◌≤◌, ◌<◌, ◌^◌, All, length};
ghost use Rattle.ifs_bytes.specs.Outcome.{UnlessMemory};
ghost use Rattle.link_core.specs.Layout as layout;
ghost use Rattle.link_positions.specs.Whole.{stopped};

use crate::layout::lay_out_by;
use elf_object::Object;
use link_core::{Layout, LinkOptions, LinkStop, Machine, Plan, Resolution};
use link_filled::fill_outputs;
use link_threads::has_flags;
use std::alloc::Global;

/// Where everything of the made file stands. Refused with ImageTooLarge, at the first of these: the bytes of
/// memory that the image takes, the number of its output sections, or the bytes of the names of its sections
/// are above their limits.
pub fn lay_out<M: Machine>(
    alloc: Global,
    machine: &M,
    options: &LinkOptions,
    objects: &[Object],
    r: &Resolution,
    p: &Plan,
) -> Result<Layout, LinkStop>
    requires few { length objects.now ≤ 4096 }
    requires small { All (λ o. length o.bytes < 2 ^ 32) objects.now }
    ensures { UnlessMemory LinkStop.Memory result
        (stopped (layout.layout_of M.rules options.now objects.now r.now p.now)) }
{
    let outputs = fill_outputs(alloc, objects, r)?;
    let flags = has_flags(alloc, machine, options, objects, r)?;
    lay_out_by(alloc, machine, options, objects, r, p, &outputs, flags)
}
