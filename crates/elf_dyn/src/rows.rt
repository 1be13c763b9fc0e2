//! The rows of the dynamic symbol table (gABI, "Symbol Table").

ghost use Rattle.std.specs.Prelude.{◌≡◌, ◌&&◌, ◌<◌, ◌≤◌, ◌+◌, ◌++◌, is_none, option_map, IfOk, OnOk, Result};
ghost use Rattle.std.specs.Option.{option_copied, option_to_list};
ghost use Rattle.ifs_bytes.specs.Carried.{carried};
ghost use Rattle.elf_dyn.specs.Rows.{RowsLie, row, row_name, binding_of, type_of, is_candidate, candidate_count, bad_row, unless_bad, candidate_size, candidate_bytes, named_row, visible_row, visible_rows};
ghost use Rattle.elf_dyn.specs.Strings.{StringsLie};

use crate::constants::{STB_LOCAL, STV_DEFAULT, STV_PROTECTED};
use crate::names::{Lengths, Names};
use crate::places::{Rows, Strings};
use crate::strings::{name_of, unless_empty};
use elf_file::{ElfCause, NamePlace, Row, symbol_row_at, symbol_size};
use ifs_bytes::{Memory, Text};
use ifs_interface::DynRow;
use std::alloc::Global;

/// Row `i`.
pub fn row(bytes: &[u8], rows: Rows, i: u64) -> Row
    requires lie { RowsLie bytes.now rows }
    requires within { i < rows.count }
    ensures { result ≡ row bytes.now rows i }
{
    let at = rows.from as usize + i as usize * symbol_size(rows.width);
    symbol_row_at(bytes, at, rows.order, rows.width)
}

// Whether other files may bind to a row, if it has a name.
fn is_candidate(row: Row) -> bool
    ensures { result ≡ is_candidate row }
{
    let visibility = row.other % 4;
    row.info / 16 != STB_LOCAL && (visibility == STV_DEFAULT || visibility == STV_PROTECTED)
}

// Whether row `i` is a candidate.
fn is_candidate_at(bytes: &[u8], rows: Rows, i: u64) -> bool
    requires lie { RowsLie bytes.now rows }
    requires within { i < rows.count }
    ensures { result ≡ is_candidate (row bytes.now rows i) }
{
    is_candidate(row(bytes, rows, i))
}

/// How many rows are candidates: others may bind to them, if they have a name.
#[tactic(auto, unfolding(crate::specs::Rows::candidate_count), using(ifs_bytes::proofs::Range::count_more, ifs_bytes::proofs::Range::count_end))]
pub fn candidate_count(bytes: &[u8], rows: Rows) -> u64
    requires { RowsLie bytes.now rows }
    ensures exact { result ≡ candidate_count bytes.now rows }
    ensures within { result ≤ rows.count }
{
    let mut total = 0;
    for i in 1..rows.count {
        if is_candidate_at(bytes, rows, i) {
            total += 1;
        }
    }
    total
}

// Whether row `i` is a candidate whose name is bad.
fn is_bad(names: &Names, rows: Rows, i: u64) -> bool
    requires lie { RowsLie names.now.bytes.now rows }
    requires within { i < rows.count }
    ensures { result ≡ (is_candidate (row names.now.bytes.now rows i)
        && is_none (row_name names.now.bytes.now rows names.now.strings i)) }
{
    let row = row(names.bytes, rows, i);
    is_candidate(row) && names.none_at(u64::from(row.name))
}

// The first candidate whose name is bad.
#[tactic(auto, unfolding(crate::specs::Rows::bad_row), using(ifs_bytes::proofs::Range::find_here, ifs_bytes::proofs::Range::find_later, ifs_bytes::proofs::Range::find_end))]
fn bad_row(names: &Names, rows: Rows) -> Option<u64>
    requires { RowsLie names.now.bytes.now rows }
    ensures { result ≡ bad_row names.now.bytes.now rows names.now.strings }
{
    for i in 1..rows.count {
        if is_bad(names, rows, i) {
            return Some(i);
        }
    }
    None
}

/// Looks at the names of the candidates.
pub fn check_names(bytes: &[u8], rows: Rows, strings: Strings) -> Result<(), ElfCause>
    requires lie { RowsLie bytes.now rows }
    requires strings_lie { StringsLie bytes.now strings }
    ensures { result ≡ unless_bad (bad_row bytes.now rows strings) }
{
    let names = Names::new(bytes, strings);
    match bad_row(&names, rows) {
        Some(i) => Err(ElfCause::BadName(NamePlace::Symbol(i))),
        None => Ok(()),
    }
}

// How many bytes the name of row `i` has, where it is a candidate.
fn candidate_size(lengths: &Lengths, rows: Rows, i: u64) -> u64
    requires lie { RowsLie lengths.now.names.bytes.now rows }
    requires within { i < rows.count }
    ensures { result
        ≡ candidate_size lengths.now.names.bytes.now rows lengths.now.names.strings i }
{
    let row = row(lengths.names.bytes, rows, i);
    if !is_candidate(row) {
        return 0;
    }
    lengths.at(u64::from(row.name))
}

// How many bytes the names of the candidates have together; 2^64 - 1 stands for any more.
#[tactic(auto, unfolding(crate::specs::Rows::candidate_bytes), using(ifs_bytes::proofs::Range::sum_more, ifs_bytes::proofs::Range::sum_end))]
fn candidate_total(lengths: &Lengths, rows: Rows) -> u64
    requires { RowsLie lengths.now.names.bytes.now rows }
    ensures { result
        ≡ carried (candidate_bytes lengths.now.names.bytes.now rows lengths.now.names.strings) }
{
    let mut total = 0u64;
    for i in 1..rows.count {
        total = total.saturating_add(candidate_size(lengths, rows, i));
    }
    total
}

/// How many bytes the names of the candidates have together; 2^64 - 1 stands for any more.
pub fn candidate_bytes(
    alloc: Global,
    bytes: &[u8],
    rows: Rows,
    strings: Strings,
) -> Result<u64, Memory>
    requires lie { RowsLie bytes.now rows }
    requires strings_lie { StringsLie bytes.now strings }
    ensures { IfOk result (λ total. total ≡ carried (candidate_bytes bytes.now rows strings)) }
{
    let lengths = Lengths::new(alloc, bytes, strings)?;
    Ok(candidate_total(&lengths, rows))
}

// A row with its name, where it has one.
fn named_row(alloc: Global, row: Row, name: Option<&[u8]>) -> Result<Option<DynRow>, Memory>
    ensures { IfOk result (λ named. named ≡ option_map (named_row row) (option_copied name.entry)) }
{
    match name {
        Some(bytes) => Ok(Some(DynRow {
            name: Text::from_slice(alloc, bytes)?,
            binding: row.info / 16,
            kind: row.info % 16,
            shndx: row.shndx,
            value: row.value,
            size: row.size,
        })),
        None => Ok(None),
    }
}

// Row `i`, where it is visible.
fn visible_row(
    alloc: Global,
    bytes: &[u8],
    rows: Rows,
    strings: Strings,
    i: u64,
) -> Result<Option<DynRow>, Memory>
    requires lie { RowsLie bytes.now rows }
    requires strings_lie { StringsLie bytes.now strings }
    requires within { i < rows.count }
    ensures { IfOk result (λ visible. visible ≡ visible_row bytes.now rows strings i) }
{
    let row = row(bytes, rows, i);
    if is_candidate(row) {
        named_row(
            alloc,
            row,
            unless_empty(name_of(bytes, strings, u64::from(row.name))),
        )
    } else {
        Ok(None)
    }
}

// Appends the row, if there is one.
fn push_row(rows: &mut Vec<DynRow>, row: Option<DynRow>) -> Result<(), Memory>
    ensures { OnOk result (rows.new.items ≡ rows.old.items ++ option_to_list row) }
{
    if let Some(row) = row {
        rows.push(row)?;
    }
    Ok(())
}

/// The visible rows, in order: at most `most` are expected, for which room is taken at once.
#[tactic(auto, unfolding(crate::specs::Rows::visible_rows), using(ifs_bytes::proofs::Range::filter_map_end))]
pub fn visible_rows(
    alloc: Global,
    bytes: &[u8],
    rows: Rows,
    strings: Strings,
    most: u64,
) -> Result<Vec<DynRow>, Memory>
    requires lie { RowsLie bytes.now rows }
    requires strings_lie { StringsLie bytes.now strings }
    ensures { IfOk result (λ visible. visible.items ≡ visible_rows bytes.now rows strings) }
{
    let mut visible = Vec::with_capacity(alloc, most as usize)?;
    for i in 1..rows.count {
        push_row(&mut visible, visible_row(alloc, bytes, rows, strings, i)?)?;
    }
    Ok(visible)
}
