//! The positions of targets.

ghost use Rattle.std.specs.Prelude.{◌≡◌, ◌<◌, ◌^◌, length, position, option_map};
ghost use Rattle.ifs_interface.specs.Triple.{same_name};
ghost use Rattle.tbd_core.specs.Places.{place_of};

use crate::dylib::TbdTarget;

// The place of the target of a name.
fn at(targets: &[TbdTarget], name: &[u8]) -> Option<usize>
    ensures { result ≡ place_of targets.now name.now }
{
    targets
        .iter()
        .position(|target| target.name.as_bytes() == name)
}

/// The position of the target of a name, from 0; None where the library has none of that name. A library has few
/// targets: they are gone through.
pub fn place_of(targets: &[TbdTarget], name: &[u8]) -> Option<u64>
    ensures { result ≡ place_of targets.now name.now }
{
    Some(at(targets, name)? as u64)
}
