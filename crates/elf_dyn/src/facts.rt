//! What a library's rows say of a name.

ghost use Rattle.std.specs.Prelude.{◌≡◌, filter, map, slice_get, option_map};
ghost use Rattle.std.specs.Option.{option_flatten};
ghost use Rattle.ifs_interface.specs.Extracted.{is_defined};
ghost use Rattle.ifs_interface.specs.Facts.{defined_in, wanted_row};
ghost use Rattle.ifs_interface.specs.Wanted.{seen};
ghost use Rattle.elf_dyn.specs.ByName.{IsIndex};

use crate::by_name::first_named;
use crate::constants::STB_WEAK;
use ifs_interface::{DynRow, Fact, Wanted, fact_of_type};

/// What a name is, where a row defines it; `defined` has the places of the rows that define their name.
pub fn fact_in(rows: &[DynRow], defined: &[usize], name: &[u8]) -> Option<Fact>
    requires { IsIndex rows.now (filter is_defined rows.now) defined.now }
    ensures { result ≡ defined_in rows.now name.now }
{
    match first_named(rows, defined, name) {
        Some(row) => Some(fact_of_type(row.kind)),
        None => None,
    }
}

/// The name of row `i`, where no row defines it.
#[tactic(auto, unfolding(ifs_interface::specs::Facts::wanted_row))]
pub fn wanted_at<'a>(rows: &'a [DynRow], defined: &[usize], i: usize) -> Option<Wanted<'a>>
    requires { IsIndex rows.now (filter is_defined rows.now) defined.now }
    ensures { option_map seen result ≡ option_flatten (slice_get (map (wanted_row rows.now) rows.now) i) }
{
    let row = rows.get(i)?;
    let name = row.name.as_bytes();
    if fact_in(rows, defined, name).is_some() {
        return None;
    }
    Some(Wanted {
        name,
        strong: row.binding != STB_WEAK,
    })
}
