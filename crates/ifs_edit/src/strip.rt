//! An interface whose target says less.

ghost use Rattle.std.specs.Prelude.{◌≡◌, IfOk};
ghost use Rattle.ifs_edit.specs.Stripped.{stripped, target_left};

use crate::soname::copied_soname;
use ifs_bytes::Memory;
use ifs_interface::{Interface, Target, copied_symbols, copied_texts, parts};
use std::alloc::Global;

/// What is left out of a target.
#[derive(Clone, Copy, Debug, PartialEq, Eq)]
pub struct Strip {
    /// The machine.
    pub arch: bool,
    /// The size of addresses.
    pub width: bool,
    /// The byte order.
    pub order: bool,
    /// All of it.
    pub target: bool,
}

/// The interface with less of its target, for a text: nothing of it, or its parts without those that are left out,
/// in place of a triple too. The only error is want of memory.
pub fn strip_target(
    alloc: Global,
    interface: &Interface,
    options: &Strip,
) -> Result<Interface, Memory>
    ensures { IfOk result (λ i. i ≡ stripped interface.now options.now) }
{
    Ok(Interface::from_sorted(
        copied_soname(alloc, interface.soname())?,
        target_left(alloc, interface.target(), options)?,
        copied_texts(alloc, interface.needed_list())?,
        copied_symbols(alloc, interface.symbols())?,
    ))
}

// What is left of the target.
fn target_left(alloc: Global, target: &Target, options: &Strip) -> Result<Target, Memory>
    ensures { IfOk result (λ left. left ≡ target_left options.now target.now) }
{
    if options.target {
        return Ok(Target {
            triple: None,
            machine: None,
            order: None,
            width: None,
        });
    }
    if !(options.arch || options.width || options.order) {
        return target.copy(alloc);
    }
    let own = parts(target);
    Ok(Target {
        triple: None,
        machine: if options.arch { None } else { own.machine },
        order: if options.order { None } else { own.order },
        width: if options.width { None } else { own.width },
    })
}
