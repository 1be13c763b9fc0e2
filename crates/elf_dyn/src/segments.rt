//! A library's parts by its program headers (gABI, "Program Header", "Dynamic Section").

ghost use Rattle.std.specs.Prelude.{◌≡◌, ◌==◌, ◌+◌, ◌*◌, ◌<◌, ◌≤◌, length, IfOk, IfSome, Result};
ghost use Rattle.elf_file.specs.Header.{segment_in};
ghost use Rattle.elf_dyn.specs.Entries.{EntriesLie};
ghost use Rattle.elf_dyn.specs.Library.{PlacesLie};
ghost use Rattle.elf_dyn.specs.Rows.{RowsLie};
ghost use Rattle.elf_dyn.specs.Segments.{first_segment, is_dynamic, holds, mapped, hash_table, addresses_of, strings_by_address, row_count, rows_by_address, entries_by_segment, places_by_segments};
ghost use Rattle.elf_dyn.specs.Strings.{StringsLie};

use crate::addresses::{Addresses, HashTable, addresses_of};
use crate::constants::{PT_DYNAMIC, PT_LOAD};
use crate::entries::entry_count;
use crate::hash::{rows_by_gnu_hash, rows_by_hash};
use crate::places::{Entries, Places, Rows, Strings};
use crate::sections::record_count;
use elf_file::{Elf, ElfCause, Segment, dynamic_size, symbol_size};
use ifs_bytes::has_room;

// The segment with the number `i`.
fn segment(elf: &Elf, i: u64) -> Segment
    requires { i < elf.now.header.phnum }
    ensures { result ≡ segment_in elf.now.bytes elf.now.header i }
{
    elf.segment(i).unwrap()
}

// Whether the segment with the number `i` has the dynamic entries.
fn is_dynamic(elf: &Elf, i: u64) -> bool
    requires { i < elf.now.header.phnum }
    ensures { result ≡ is_dynamic (segment_in elf.now.bytes elf.now.header i) }
{
    segment(elf, i).kind == PT_DYNAMIC
}

// Whether the segment with the number `i` gives an address bytes of the file.
fn holds(elf: &Elf, address: u64, i: u64) -> bool
    requires { i < elf.now.header.phnum }
    ensures { result ≡ holds address (segment_in elf.now.bytes elf.now.header i) }
{
    let segment = segment(elf, i);
    let end = u128::from(segment.vaddr) + u128::from(segment.filesz);
    segment.kind == PT_LOAD && segment.vaddr <= address && u128::from(address) < end
}

// The first segment with dynamic entries.
#[tactic(auto, using(ifs_bytes::proofs::Range::find_here, ifs_bytes::proofs::Range::find_later, ifs_bytes::proofs::Range::find_end))]
fn dynamic_segment(elf: &Elf) -> Option<Segment>
    ensures { result ≡ first_segment elf.now.bytes elf.now.header is_dynamic }
{
    for i in 0..elf.header().phnum {
        if is_dynamic(elf, i) {
            return Some(segment(elf, i));
        }
    }
    None
}

// The first segment that gives an address bytes of the file.
#[tactic(auto, using(ifs_bytes::proofs::Range::find_here, ifs_bytes::proofs::Range::find_later, ifs_bytes::proofs::Range::find_end))]
fn holding_segment(elf: &Elf, address: u64) -> Option<Segment>
    ensures { result ≡ first_segment elf.now.bytes elf.now.header (holds address) }
{
    for i in 0..elf.header().phnum {
        if holds(elf, address, i) {
            return Some(segment(elf, i));
        }
    }
    None
}

// Where an address stands in the file.
#[tactic(auto, unfolding(crate::specs::Segments::mapped))]
fn mapped(elf: &Elf, address: u64) -> Result<u64, ElfCause>
    ensures { result ≡ mapped elf.now.bytes elf.now.header address }
{
    match holding_segment(elf, address) {
        Some(segment) => {
            let within = address.saturating_sub(segment.vaddr);
            Ok(segment.offset.saturating_add(within))
        }
        None => Err(ElfCause::Truncated(address)),
    }
}

// The string table.
#[tactic(auto, unfolding(crate::specs::Segments::strings_by_address))]
fn strings_by_address(elf: &Elf, addresses: Addresses) -> Result<Strings, ElfCause>
    ensures exact { result ≡ strings_by_address elf.now.bytes elf.now.header addresses }
    ensures lie { IfOk result (StringsLie elf.now.bytes) }
{
    let from = mapped(elf, addresses.strings)?;
    if !has_room(elf.bytes(), from, addresses.strings_size, 1) {
        return Err(ElfCause::Truncated(from));
    }
    Ok(Strings {
        from,
        size: addresses.strings_size,
    })
}

// The number of rows by the hash table.
#[tactic(auto, unfolding(crate::specs::Segments::row_count))]
fn row_count(elf: &Elf, table: HashTable) -> Result<u64, ElfCause>
    ensures { result ≡ row_count elf.now.bytes elf.now.header table }
{
    let bytes = elf.bytes();
    let order = elf.header().order;
    match table {
        HashTable::SysV(address) => rows_by_hash(bytes, order, mapped(elf, address)?),
        HashTable::Gnu(address) => {
            let at = mapped(elf, address)?;
            rows_by_gnu_hash(bytes, order, elf.header().width, at)
        }
    }
}

// The rows, whose number is known.
#[tactic(auto, unfolding(crate::specs::Segments::rows_by_address))]
fn rows_by_address(elf: &Elf, addresses: Addresses, count: u64) -> Result<Rows, ElfCause>
    ensures exact { result ≡ rows_by_address elf.now.bytes elf.now.header addresses count }
    ensures lie { IfOk result (RowsLie elf.now.bytes) }
{
    let order = elf.header().order;
    let width = elf.header().width;
    let from = mapped(elf, addresses.symbols)?;
    if !has_room(elf.bytes(), from, count, symbol_size(width)) {
        return Err(ElfCause::Truncated(from));
    }
    Ok(Rows {
        order,
        width,
        from,
        count,
    })
}

// The dynamic entries.
#[tactic(auto, unfolding(crate::specs::Segments::entries_by_segment))]
fn entries_by_segment(elf: &Elf) -> Result<Entries, ElfCause>
    ensures exact { result ≡ entries_by_segment elf.now.bytes elf.now.header }
    ensures lie { IfOk result (EntriesLie elf.now.bytes) }
{
    let order = elf.header().order;
    let width = elf.header().width;
    let Some(segment) = dynamic_segment(elf) else {
        return Err(ElfCause::NoDynamic);
    };
    if !has_room(elf.bytes(), segment.offset, segment.filesz, 1) {
        return Err(ElfCause::Truncated(segment.offset));
    }
    Ok(Entries {
        order,
        width,
        from: segment.offset,
        room: record_count(segment.filesz, dynamic_size(width)),
    })
}

/// The places by segments.
#[tactic(auto, unfolding(crate::specs::Segments::places_by_segments))]
pub fn places_by_segments(elf: &Elf) -> Result<Places, ElfCause>
    ensures exact { result ≡ places_by_segments elf.now.bytes elf.now.header }
    ensures lie { IfOk result (PlacesLie elf.now.bytes) }
{
    let entries = entries_by_segment(elf)?;
    let addresses = addresses_of(elf.bytes(), entries, entry_count(elf.bytes(), entries))?;
    let strings = strings_by_address(elf, addresses)?;
    let count = row_count(elf, addresses.hash)?;
    let rows = rows_by_address(elf, addresses, count)?;
    Ok(Places {
        entries,
        entry_strings: strings,
        rows,
        row_strings: strings,
    })
}
