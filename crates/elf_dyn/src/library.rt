//! A shared library.

ghost use Rattle.std.specs.Prelude.{◌≡◌, ◌<◌, ◌≤◌, IfOk, Ok, Result};
ghost use Rattle.std.specs.Option.{option_copied};
ghost use Rattle.ifs_bytes.specs.Outcome.{UnlessMemory};
ghost use Rattle.ifs_interface.specs.Library.{HasProperNames};
ghost use Rattle.elf_dyn.specs.ByName.{IsIndex};
ghost use Rattle.elf_dyn.specs.Entries.{entry_count};
ghost use Rattle.elf_dyn.specs.Library.{IsRead, PlacesLie, places_of, listed_count, name_bytes, checked, library_at, library_of};

use crate::by_name::{defined_places, places_by_name};
use crate::constants::{DT_VERDEF, ET_DYN, MOST_NAME_BYTES, MOST_ROWS, SHT_DYNAMIC, SHT_DYNSYM};
use crate::entries::{entry_count, first_with, needed_bytes, needed_count, needed_of, soname_of};
use crate::facts::{fact_in, wanted_at};
use crate::places::Places;
use crate::rows::{candidate_bytes, candidate_count, visible_rows};
use crate::sections::{first_section, places_by_sections};
use crate::segments::places_by_segments;
use crate::strings::size_of;
use crate::{entries, rows};
use elf_file::{Elf, ElfCause, Header};
use ifs_bytes::{List, Memory, Order, Text, Width};
use ifs_interface::{DynRow, Fact, MachineFact, SharedLib, Wanted};
use std::alloc::Global;
use std::marker::Model;

/// A shared library that was read: its machine, soname, needed libraries and visible rows. Beside them it has
/// the places of the rows in byte order of their names, and those of the rows that define their name.
#[derive(Debug, Drop)]
pub struct Library {
    machine: u16,
    order: Order,
    width: Width,
    soname: Option<Text>,
    needed: List<Text>,
    rows: List<DynRow>,
    versioned: bool,
    by_name: List<usize>,
    defined: List<usize>,
}

impl Model for Library {
    ghost use Rattle.ifs_interface.specs.Library.{LibraryRecord, HasProperNames};
    ghost use Rattle.std.specs.Prelude.{filter};
    ghost use Rattle.ifs_interface.specs.Extracted.{is_defined};
    ghost use Rattle.elf_dyn.specs.ByName.{IsIndex};
    ghost use Rattle.elf_dyn.specs.Library.{IsRead};

    ghost Value = { LibraryRecord };

    ghost view = { λ l. record { machine = l.machine; order = l.order; width = l.width; soname = l.soname; needed = l.needed; rows = l.rows; versioned = l.versioned } };

    ghost invariant = { λ l. IsRead (record { machine = l.machine; order = l.order; width = l.width; soname = l.soname; needed = l.needed; rows = l.rows; versioned = l.versioned }) × HasProperNames (record { machine = l.machine; order = l.order; width = l.width; soname = l.soname; needed = l.needed; rows = l.rows; versioned = l.versioned }) × IsIndex l.rows l.rows l.by_name × IsIndex l.rows (filter is_defined l.rows) l.defined };
}

impl Library {
    /// The library in the bytes of a file, or the first cause why it can't be read: a cause of `Elf::parse`;
    /// WrongKind, the file is no shared object; NoDynamic, Truncated or BadHeader, its dynamic entries, their
    /// strings, its symbols or theirs have no place in the file; BadName of the soname or a needed library;
    /// TooMany, candidate rows and needed libraries are more than `MOST_ROWS`; BadName of a row; NamesTooLarge,
    /// all names have more than `MOST_NAME_BYTES` bytes.
    #[tactic(auto, unfolding(crate::specs::Library::library_of))]
    pub fn parse(alloc: Global, bytes: &[u8]) -> Result<Library, ElfCause>
        ensures { UnlessMemory ElfCause.Memory result (library_of bytes.now) }
    {
        let elf = Elf::parse(bytes)?;
        let header = *elf.header();
        if header.kind != ET_DYN {
            return Err(ElfCause::WrongKind);
        }
        let places = places_of(&elf)?;
        let count = entry_count(bytes, places.entries);
        check(alloc, bytes, &places, count)?;
        Ok(read(alloc, bytes, &header, &places, count)?)
    }

    /// The machine that it is for, e_machine.
    pub fn machine_number(&self) -> u16
        ensures { result ≡ self.now.machine }
    {
        self.machine
    }

    /// Its byte order.
    pub fn order(&self) -> Order
        ensures { result ≡ self.now.order }
    {
        self.order
    }

    /// Its width.
    pub fn width(&self) -> Width
        ensures { result ≡ self.now.width }
    {
        self.width
    }

    /// Its own name.
    pub fn soname_text(&self) -> Option<&Text>
        ensures { option_copied result ≡ self.now.soname }
    {
        self.soname.as_ref()
    }

    /// The names of the libraries that it needs, in order.
    pub fn needed_texts(&self) -> &[Text]
        ensures { result.now ≡ self.now.needed }
    {
        self.needed.as_slice()
    }

    /// Its visible rows, in the order of its symbol table.
    pub fn rows(&self) -> &[DynRow]
        ensures rows { result.now ≡ self.now.rows }
        ensures names { HasProperNames self.now }
        ensures read { IsRead self.now }
    {
        self.rows.as_slice()
    }

    /// The places of its rows in byte order of their names, those of one name in the order of its symbol table.
    pub fn by_name(&self) -> &[usize]
        ensures { IsIndex self.now.rows self.now.rows result.now }
    {
        self.by_name.as_slice()
    }

    /// Whether it defines symbol versions (DT_VERDEF).
    pub fn is_versioned(&self) -> bool
        ensures { result ≡ self.now.versioned }
    {
        self.versioned
    }
}

impl SharedLib for Library {
    ghost use Rattle.std.specs.Prelude.{map};
    ghost use Rattle.ifs_interface.specs.Facts.{facts_of_library, wanted_row};

    ghost facts = { facts_of_library };

    ghost wanted_list = { λ l. map (wanted_row l.rows) l.rows };

    fn soname(&self) -> Option<&[u8]> {
        match &self.soname {
            Some(text) => Some(text.as_bytes()),
            None => None,
        }
    }

    fn needed_len(&self) -> usize {
        self.needed.as_slice().len()
    }

    fn needed(&self, i: usize) -> Option<&[u8]> {
        match self.needed.as_slice().get(i) {
            Some(text) => Some(text.as_bytes()),
            None => None,
        }
    }

    fn fact(&self, name: &[u8]) -> Option<Fact> {
        fact_in(self.rows.as_slice(), self.defined.as_slice(), name)
    }

    fn wanted_len(&self) -> usize {
        self.rows.as_slice().len()
    }

    fn wanted(&self, i: usize) -> Option<Wanted<'_>> {
        wanted_at(self.rows.as_slice(), self.defined.as_slice(), i)
    }

    fn machine(&self) -> MachineFact {
        MachineFact {
            machine: Some(self.machine),
            order: Some(self.order),
            width: Some(self.width),
        }
    }
}

// Where its parts stand: by sections where both are there, else by segments.
#[tactic(auto, unfolding(crate::specs::Library::places_of))]
fn places_of(elf: &Elf) -> Result<Places, ElfCause>
    ensures exact { result ≡ places_of elf.now.bytes elf.now.header }
    ensures lie { IfOk result (PlacesLie elf.now.bytes) }
{
    let dynamics = first_section(elf, SHT_DYNAMIC);
    let symbols = first_section(elf, SHT_DYNSYM);
    match (dynamics, symbols) {
        (Some(dynamics), Some(symbols)) => places_by_sections(elf, &dynamics, &symbols),
        (None, _) => places_by_segments(elf),
        (Some(_), None) => places_by_segments(elf),
    }
}

// How many candidates and needed libraries there are.
#[tactic(auto, unfolding(crate::specs::Library::listed_count))]
fn listed_count(bytes: &[u8], places: &Places, count: u64) -> u64
    requires lie { PlacesLie bytes.now places.now }
    requires within { count ≤ places.now.entries.room }
    ensures { result ≡ listed_count bytes.now places.now count }
{
    candidate_count(bytes, places.rows) + needed_count(bytes, places.entries, count)
}

// How many bytes the names have together.
#[tactic(auto, unfolding(crate::specs::Library::name_bytes))]
fn name_bytes(alloc: Global, bytes: &[u8], places: &Places, count: u64) -> Result<u64, Memory>
    requires lie { PlacesLie bytes.now places.now }
    requires within { count ≤ places.now.entries.room }
    ensures { IfOk result (λ total. total ≡ name_bytes bytes.now places.now count) }
{
    let soname = size_of(soname_of(bytes, places.entries, places.entry_strings, count));
    let needed = needed_bytes(alloc, bytes, places.entries, places.entry_strings, count)?;
    let candidates = candidate_bytes(alloc, bytes, places.rows, places.row_strings)?;
    Ok(candidates.saturating_add(soname.saturating_add(needed)))
}

// Looks at the names and the limits.
#[tactic(auto, unfolding(crate::specs::Library::checked))]
fn check(alloc: Global, bytes: &[u8], places: &Places, count: u64) -> Result<(), ElfCause>
    requires lie { PlacesLie bytes.now places.now }
    requires within { count ≤ places.now.entries.room }
    ensures { UnlessMemory ElfCause.Memory result (checked bytes.now places.now count) }
{
    entries::check_names(bytes, places.entries, places.entry_strings, count)?;
    let listed = listed_count(bytes, places, count);
    if listed > MOST_ROWS {
        return Err(ElfCause::TooMany(listed));
    }
    rows::check_names(bytes, places.rows, places.row_strings)?;
    let size = name_bytes(alloc, bytes, places, count)?;
    if size > MOST_NAME_BYTES {
        return Err(ElfCause::NamesTooLarge(size));
    }
    Ok(())
}

// The soname as a text.
fn soname_text(alloc: Global, name: Option<&[u8]>) -> Result<Option<Text>, Memory>
    ensures { IfOk result (λ soname. soname ≡ option_copied name.entry) }
{
    match name {
        Some(bytes) => Ok(Some(Text::from_slice(alloc, bytes)?)),
        None => Ok(None),
    }
}

// The library whose parts stand at these places.
#[tactic(auto, unfolding(crate::specs::Library::library_at))]
fn read(
    alloc: Global,
    bytes: &[u8],
    header: &Header,
    places: &Places,
    count: u64,
) -> Result<Library, Memory>
    requires lie { PlacesLie bytes.now places.now }
    requires within { count ≤ places.now.entries.room }
    requires read { library_of bytes.now ≡ Ok (library_at bytes.now header.now places.now count) }
    ensures { IfOk result (λ library. library ≡ library_at bytes.now header.now places.now count) }
{
    let entries = places.entries;
    let soname = soname_of(bytes, entries, places.entry_strings, count);
    let most = candidate_count(bytes, places.rows);
    let rows = visible_rows(alloc, bytes, places.rows, places.row_strings, most)?;
    let by_name = places_by_name(alloc, &rows)?;
    let defined = defined_places(alloc, &rows, &by_name)?;
    Ok(Library {
        machine: header.machine,
        order: header.order,
        width: header.width,
        soname: soname_text(alloc, soname)?,
        needed: List::from_vec(needed_of(alloc, bytes, entries, places.entry_strings, count)?),
        rows: List::from_vec(rows),
        versioned: first_with(bytes, entries, count, DT_VERDEF).is_some(),
        by_name: List::from_vec(by_name),
        defined: List::from_vec(defined),
    })
}
