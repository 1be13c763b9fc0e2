//! One symbol for each name among rows.

ghost use Rattle.std.specs.Prelude.{◌≡◌, ◌<◌, ◌++◌, true, IfOk, OnOk, length, map, slice_get};
ghost use Rattle.std.specs.List.{list_all};
ghost use Rattle.std.specs.Option.{option_to_list};
ghost use Rattle.ifs_interface.specs.Extracted.{symbol_named, visible_names};
ghost use Rattle.ifs_interface.specs.Interface.{ascends, is_proper_name, names_of};
ghost use Rattle.elf_dyn.specs.ByName.{rows_at, IsSortedByName};
ghost use Rattle.ifs_stub.specs.Rows.{pointed, run_length, symbols_by_name, AreInNameOrder};

use crate::described::described;
use ifs_bytes::Memory;
use ifs_interface::{DynRow, Symbol};
use std::alloc::Global;

// Appends the row at a place, if there is one.
fn push_row_at<'a>(
    sorted: &mut Vec<&'a DynRow>,
    rows: &'a [DynRow],
    place: usize,
) -> Result<(), Memory>
    ensures { OnOk result (pointed sorted.new.items
        ≡ pointed sorted.old.items ++ option_to_list (slice_get rows.now place)) }
{
    match rows.get(place) {
        Some(row) => Ok(sorted.push(row)?),
        None => Ok(()),
    }
}

// The rows at places.
fn rows_at<'a>(
    alloc: Global,
    rows: &'a [DynRow],
    places: &[usize],
) -> Result<Vec<&'a DynRow>, Memory>
    ensures { IfOk result (λ sorted. pointed sorted.items ≡ rows_at rows.now places.now) }
{
    let mut sorted = Vec::with_capacity(alloc, places.len())?;
    for place in places {
        push_row_at(&mut sorted, rows, *place)?;
    }
    Ok(sorted)
}

// How many rows at the front have the name of the first.
fn run_length(rows: &[&DynRow]) -> usize
    requires { 0 < length rows.now }
    ensures { result ≡ run_length (pointed rows.now) }
{
    let name = &rows[0].name;
    rows.iter().take_while(|row| row.name == *name).count()
}

// One symbol for each name of rows that stand in byte order of their names.
fn collapsed(alloc: Global, rows: &[&DynRow]) -> Result<Vec<Symbol>, Memory>
    requires { AreInNameOrder rows.now }
    ensures { IfOk result (λ symbols. symbols.items ≡ symbols_by_name (pointed rows.now)) }
{
    let mut symbols = Vec::with_capacity(alloc, rows.len())?;
    let mut start = 0;
    while start < rows.len() {
        let (_, rest) = rows.split_at(start);
        let (run, _) = rest.split_at(run_length(rest));
        symbols.push(described(alloc, run)?)?;
        start += run.len();
    }
    Ok(symbols)
}

/// The symbols of a library's rows: one for each name, in byte order. A name with a row that defines it is
/// described by the first such row; any other by its first row, and is weak where all its rows are. The places
/// are those of the rows in byte order of their names.
pub fn symbols_of(alloc: Global, rows: &[DynRow], places: &[usize]) -> Result<Vec<Symbol>, Memory>
    requires { IsSortedByName rows.now (rows_at rows.now places.now) }
    ensures symbols { IfOk result (λ symbols. symbols.items ≡ map (symbol_named rows.now) (visible_names rows.now)) }
    ensures ascending { IfOk result (λ symbols. ascends (names_of symbols.items) ≡ true) }
    ensures proper { IfOk result (λ symbols. list_all (λ row. is_proper_name row.name) rows.now ≡ true
        → list_all is_proper_name (names_of symbols.items) ≡ true) }
{
    let sorted = rows_at(alloc, rows, places)?;
    collapsed(alloc, sorted.as_slice())
}
