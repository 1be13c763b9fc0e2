//! The plan of a link.

ghost use Rattle.std.specs.Prelude.{◌≡◌, IfOk};
ghost use Rattle.ifs_bytes.specs.Outcome.{UnlessMemory};
ghost use Rattle.link_core.specs.Plan as meant;
ghost use Rattle.link_needs.specs.Needs.{stopped};
ghost use Rattle.link_uses.specs.Comes.{Comes};
ghost use Rattle.link_plan.specs.Lists as made;

use crate::names::{exports_of, imports_of};
use elf_object::Object;
use ifs_bytes::{List, Memory};
use link_core::{LinkOptions, LinkStop, Machine, Plan, Resolution};
use link_needs::Lists;
use link_uses::{Taken, taken_uses, uses_are_kept_beside_needs};
use std::alloc::Global;

// The lists of what these references need.
fn lists_of(alloc: Global, taken: &[Taken<'_>]) -> Result<Lists, Memory>
    ensures { IfOk result (λ lists. lists ≡ made.lists_of (made.needs_of taken.now)) }
{
    let mut lists = Lists::new(alloc);
    for item in taken {
        lists.add(&item.needed)?;
    }
    Ok(lists)
}

// The plan of these names and lists.
fn plan_with(alloc: Global, names: &Resolution, lists: &Lists) -> Result<Plan, Memory>
    ensures { IfOk result (λ plan. plan ≡ made.plan_with names.now lists.now) }
{
    let rows = names.names.as_slice();
    Ok(Plan {
        got: List::from_vec(Vec::from_slice(alloc, lists.got())?),
        plt: List::from_vec(Vec::from_slice(alloc, lists.plt())?),
        moves: List::from_vec(Vec::from_slice(alloc, lists.moves())?),
        imports: List::from_vec(imports_of(alloc, rows)?),
        exports: List::from_vec(exports_of(alloc, rows)?),
    })
}

/// What the references of the kept sections of these objects need, where `names` is what their names stand
/// for under the same options. The first reference, by object, section and index, that can't be taken or
/// can't have what it needs gives the refusal: Unsupported, Discarded, TlsMismatch, TextRelocation, NotPic,
/// CopyRelocation or CanonicalPlt. There are at most 4,096 objects, each of fewer than 2^32 bytes.
pub fn plan<M: Machine>(
    alloc: Global,
    machine: &M,
    options: &LinkOptions,
    objects: &[Object],
    names: &Resolution,
) -> Result<Plan, LinkStop>
    requires { Comes options.now objects.now names.now }
    ensures { UnlessMemory LinkStop.Memory result
        (stopped (meant.plan_of M.rules options.now objects.now names.now)) }
{
    uses_are_kept_beside_needs();
    let taken = taken_uses(alloc, machine, options, objects, names)?;
    let lists = lists_of(alloc, taken.as_slice())?;
    Ok(plan_with(alloc, names, &lists)?)
}
