//! Libraries that weren't read.

ghost use Rattle.std.specs.Prelude.{◌≡◌, ◌≤◌, length, map};
ghost use Rattle.ifs_bytes.specs.Outcome.{UnlessMemory};
ghost use Rattle.link_core.specs.declared.refusal.LinkStop.TheVariants as stops;
ghost use Rattle.link_core.specs.Link.{sides_checked};
ghost use Rattle.link_core.specs.Lists.{unrefused};
ghost use Rattle.link_binding.specs.Libraries.{side_of};
ghost use Rattle.link_libs.specs.Unread.{stopped, unread_at};

use ifs_interface::SharedLib;
use link_core::{Lib, LibSource, LinkRefusal, LinkStop};
use std::alloc::Global;

// Refuses the library at a position, where it wasn't read.
fn check_side<S>(alloc: Global, position: u32, source: &LibSource<S>) -> Result<(), LinkStop>
    ensures { UnlessMemory stops.Memory result (stopped (unrefused (unread_at (position, source.now)))) }
{
    match source {
        LibSource::Held(_) => Ok(()),
        LibSource::Versioned => Ok(()),
        LibSource::Refused(cause) => {
            let own = cause.copy(alloc)?;
            Err(LinkStop::Refused(LinkRefusal::BadLibrary(position, own)))
        }
    }
}

/// Refuses the first library that couldn't be read, with BadLibrary: its position, and a copy of its cause.
/// It takes memory for that copy alone.
pub fn check_sides<S: SharedLib>(alloc: Global, libs: &[Lib<S>]) -> Result<(), LinkStop>
    requires { length libs.now ≤ 256 }
    ensures { UnlessMemory stops.Memory result (stopped (sides_checked (map (side_of S.facts) libs.now))) }
{
    for (i, lib) in libs.iter().enumerate() {
        check_side(alloc, i as u32, &lib.source)?;
    }
    Ok(())
}
