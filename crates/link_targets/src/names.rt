//! The names of a link, which stand in byte order.

ghost use Rattle.std.specs.Prelude.{◌≡◌, true, map};
ghost use Rattle.std.specs.Ordering.{nat_cmp};
ghost use Rattle.std.specs.Cmp.Lexicographic.{slice_cmp};
ghost use Rattle.ifs_interface.specs.Interface.{ascends};
ghost use Rattle.link_core.specs.References.{place_of_name};

use link_core::{NameRow, Resolution};
use std::cmp::Ordering;

// The order of the name of a row and another name, byte by byte.
fn against(row: &NameRow, name: &[u8]) -> Ordering
    ensures { result ≡ slice_cmp nat_cmp row.now.name name.now }
{
    row.name.as_bytes().cmp(name)
}

/// The position of a name among the names of a link, and 0 where it isn't there. The names stand in byte order,
/// each once.
pub fn name_place(names: &Resolution, name: &[u8]) -> usize
    requires { ascends (map (λ row. row.name) names.now.names) ≡ true }
    ensures { result ≡ place_of_name names.now name.now }
{
    let rows = names.names.as_slice();
    match rows.binary_search_by(|row| against(row, name)) {
        Ok(place) => place,
        Err(_place) => 0,
    }
}
