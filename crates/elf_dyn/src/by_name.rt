//! Rows in byte order of their names, and looked up by name.

ghost use Rattle.std.specs.Prelude.{◌≡◌, true, filter, slice_get, option_and_then, IfOk};
ghost use Rattle.std.specs.List.{find};
ghost use Rattle.std.specs.Option.{option_copied};
ghost use Rattle.ifs_interface.specs.Triple.{same_name};
ghost use Rattle.elf_dyn.specs.ByName.{are_places, rows_at, AreInNameOrder, IsIndex};
ghost use Rattle.elf_dyn.specs.Found.{comes_before_at, is_defined_at, if_named};

use crate::ranked::{compare, usual_front, with_ranks};
use ifs_bytes::Memory;
use ifs_interface::DynRow;
use std::alloc::Global;

/// The places of all rows in byte order of their names, those of one name in the order that they have.
pub fn places_by_name(alloc: Global, rows: &[DynRow]) -> Result<Vec<usize>, Memory>
    ensures { IfOk result (λ places. IsIndex rows.now rows.now places.items) }
{
    let mut sorted = with_ranks(alloc, usual_front(rows), rows)?;
    sorted.sort_by(|a, b| compare(a, b))?;
    Ok(sorted.iter().map(|ranked| ranked.place).collect(alloc)?)
}

// Whether the row at a place defines its name.
fn is_defined_at(rows: &[DynRow], place: usize) -> bool
    ensures { result ≡ is_defined_at rows.now place }
{
    match rows.get(place) {
        Some(row) => row.shndx != 0,
        None => false,
    }
}

/// Those of the places at which rows define their name.
pub fn defined_places(
    alloc: Global,
    rows: &[DynRow],
    places: &[usize],
) -> Result<Vec<usize>, Memory>
    ensures { IfOk result (λ defined. defined.items ≡ filter (is_defined_at rows.now) places.now) }
{
    Ok(
        places
            .iter()
            .copied()
            .filter(|place| is_defined_at(rows, *place))
            .collect(alloc)?,
    )
}

// Whether the name of the row at a place comes before a name.
fn comes_before_at(rows: &[DynRow], name: &[u8], place: usize) -> bool
    ensures { result ≡ comes_before_at rows.now name.now place }
{
    match rows.get(place) {
        Some(row) => row.name.as_bytes().cmp(name).is_lt(),
        None => false,
    }
}

/// The first row of a name among the rows at places, which stand in byte order of their names.
pub fn first_named<'a>(rows: &'a [DynRow], places: &[usize], name: &[u8]) -> Option<&'a DynRow>
    requires order { AreInNameOrder (rows_at rows.now places.now) }
    requires places { are_places rows.now places.now ≡ true }
    ensures { option_copied result ≡ find (λ row. same_name row.name name.now) (rows_at rows.now places.now) }
{
    let at = places.partition_point(|place| comes_before_at(rows, name, *place));
    row_if_named(rows, places, at, name)
}

// The row at a place, the one at `at` of the places, if it has the name.
fn row_if_named<'a>(
    rows: &'a [DynRow],
    places: &[usize],
    at: usize,
    name: &[u8],
) -> Option<&'a DynRow>
    ensures { option_copied result
        ≡ if_named name.now (option_and_then (slice_get rows.now) (slice_get places.now at)) }
{
    let row = rows.get(*places.get(at)?)?;
    if row.name.as_bytes() == name {
        Some(row)
    } else {
        None
    }
}
