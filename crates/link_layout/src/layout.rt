//! The layout of a link.

ghost use Rattle.std.specs.Prelude.{◌≡◌, nat_lt};
ghost use Rattle.std.specs.List.{list_any};
ghost use Rattle.ifs_bytes.specs.Outcome.{UnlessMemory};
ghost use Rattle.ifs_interface.specs.Triple.{same_name};
ghost use Rattle.link_core.specs.Entries.{flags_value};
ghost use Rattle.link_core.specs.Layout as layout;
ghost use Rattle.link_tables.specs.Filled.{outputs_filled};
ghost use Rattle.link_positions.specs.Whole.{stopped};

use elf_object::Object;
use link_core::{Layout, LinkOptions, LinkStop, Machine, Plan, Resolution};
use link_positions::lay_out_from;
use link_tables::{FilledOutput, Present, count_all};
use std::alloc::Global;

// Whether the output section has the name.
fn has_name(output: &FilledOutput, name: &[u8]) -> bool
    ensures { result ≡ same_name output.now.name name.now }
{
    output.name.as_bytes() == name
}

// Whether there is an output section of the name.
fn has_output(outputs: &[FilledOutput], name: &[u8]) -> bool
    ensures { result ≡ list_any (λ output. same_name output.name name.now) outputs.now }
{
    outputs.iter().any(|output| has_name(output, name))
}

/// Where everything of the made file stands, by its output sections. `flags` says whether DT_FLAGS isn't 0. Refused with
/// ImageTooLarge, at the first of these: the bytes of memory that the image takes, the number of its output sections, or the
/// bytes of the names of its sections are above their limits.
#[tactic(auto, unfolding(link_core::specs::Layout::layout_of))]
pub fn lay_out_by<M: Machine>(
    alloc: Global,
    machine: &M,
    options: &LinkOptions,
    objects: &[Object],
    r: &Resolution,
    p: &Plan,
    outputs: &[FilledOutput],
    flags: bool,
) -> Result<Layout, LinkStop>
    requires outputs { outputs.now ≡ outputs_filled (record { rules = M.rules; options = options.now; objects = objects.now; names = r.now; plan = p.now }) }
    requires flags { flags ≡ nat_lt 0 (flags_value (record { rules = M.rules; options = options.now; objects = objects.now; names = r.now; plan = p.now })) }
    ensures { UnlessMemory LinkStop.Memory result (stopped (layout.layout_of M.rules options.now objects.now r.now p.now)) }
{
    let present = Present {
        preinit_array: has_output(outputs, b".preinit_array"),
        init_array: has_output(outputs, b".init_array"),
        fini_array: has_output(outputs, b".fini_array"),
        flags,
    };
    let n = count_all(machine, options, objects, r, p, present);
    lay_out_from(alloc, options.kind, machine.page(), &n, outputs)
}
