//! A relocatable object.

ghost use Rattle.std.specs.Prelude.{◌≡◌, None, IfOk, Result, true};
ghost use Rattle.ifs_bytes.specs.Outcome.{UnlessMemory};
ghost use Rattle.elf_file.specs.ElfFile.{HeaderFits};
ghost use Rattle.elf_object.specs.Object as meant;
ghost use Rattle.elf_object.specs.Groups.{bad_group};
ghost use Rattle.elf_object.specs.Parts.{SectionsLie, PartsLie};
ghost use Rattle.elf_object.specs.References.{bad_table, AreFirstFrom};

use crate::cause::ObjectCause;
use crate::constants::ET_REL;
use crate::group::{Group, bad_group, groups_of};
use crate::parts::{Parts, outside, parts_of, section};
use crate::reference::{Reference, bad_table, first_tables, references_of};
use crate::section::{ObjSection, compressed_section, sections_of, unnamed_section};
use crate::symbol::{ObjSymbol, ifunc_row, symbols_of, unnamed_row, unplaced_row};
use elf_file::{Elf, ElfCause, Header, NamePlace};
use ifs_bytes::{List, Memory, Order, Text, Width};
use std::alloc::Global;
use std::marker::Model;

/// A relocatable object that was read, with the bytes of its file.
#[derive(Debug, Drop)]
pub struct Object {
    machine: u16,
    bytes: Text,
    sections: List<ObjSection>,
    symbols: List<ObjSymbol>,
    references: List<Reference>,
    groups: List<Group>,
}

impl Model for Object {
    ghost use Rattle.elf_object.specs.Record.{ObjectRecord};
    ghost use Rattle.elf_object.specs.Object.{IsRead};

    ghost Value = { ObjectRecord };

    ghost view = { λ o. record { machine = o.machine; bytes = o.bytes; sections = o.sections; symbols = o.symbols; references = o.references; groups = o.groups } };

    ghost invariant = { λ o. IsRead (record { machine = o.machine; bytes = o.bytes; sections = o.sections; symbols = o.symbols; references = o.references; groups = o.groups }) };
}

impl Object {
    /// The object in the bytes of a file, which it owns from then on, or the first cause why it can't be
    /// read: a cause of `Elf::parse`; `WrongKind`, the file is no relocatable object of 64 bits with the
    /// lowest byte first; `Truncated`, the bytes of a section aren't all in the file; `BadHeader`, an
    /// alignment is none, or the names of sections or of symbols are no string table; `BadName` of a section,
    /// then of a row; `BadHeader`, a row or a group names a section, or a group a row, that isn't there;
    /// `BadRelocationTable`; `CompressedSection`; `IfuncDefinition`. The bytes of a refused file are let go.
    pub fn parse(alloc: Global, bytes: Text) -> Result<Object, ObjectCause>
        ensures { UnlessMemory ObjectCause.Memory result (meant.object_of bytes) }
    {
        let read = read(alloc, bytes.as_bytes())?;
        Ok(Object {
            machine: read.machine,
            bytes,
            sections: List::from_vec(read.sections),
            symbols: List::from_vec(read.symbols),
            references: List::from_vec(read.references),
            groups: List::from_vec(read.groups),
        })
    }

    /// Does nothing, and is there for its clause: the object is the one of its own bytes, which have room for the
    /// tables of its sections and of its symbols.
    pub fn is_read(&self)
        ensures { meant.IsRead self.now }
    {
        let _ = &self.bytes;
    }

    /// The machine that it is for, e_machine.
    pub fn machine(&self) -> u16
        ensures { result ≡ self.now.machine }
    {
        self.machine
    }

    /// The bytes of its file.
    pub fn bytes(&self) -> &[u8]
        ensures { result.now ≡ self.now.bytes }
    {
        self.bytes.as_bytes()
    }

    /// Its sections: position i is entry i of the file's table, entry 0 included.
    pub fn sections(&self) -> &[ObjSection]
        ensures { result.now ≡ self.now.sections }
    {
        self.sections.as_slice()
    }

    /// Its symbols: position i is row i of the file's table, row 0 included.
    pub fn symbols(&self) -> &[ObjSymbol]
        ensures { result.now ≡ self.now.symbols }
    {
        self.symbols.as_slice()
    }

    /// The references of its loadable sections, in order of section and index.
    pub fn references(&self) -> &[Reference]
        ensures { result.now ≡ self.now.references }
    {
        self.references.as_slice()
    }

    /// Its groups, in the order of the file's section table.
    pub fn groups(&self) -> &[Group]
        ensures { result.now ≡ self.now.groups }
    {
        self.groups.as_slice()
    }
}

// What is read of an object beside its bytes.
#[derive(Drop)]
struct Contents {
    machine: u16,
    sections: Vec<ObjSection>,
    symbols: Vec<ObjSymbol>,
    references: Vec<Reference>,
    groups: Vec<Group>,
}

// Whether the file is a relocatable object of 64 bits, with the lowest byte first.
fn is_relocatable(header: &Header) -> bool
    ensures { result ≡ meant.is_relocatable header.now }
{
    header.kind == ET_REL && is_little(header.order) && is_wide(header.width)
}

fn is_little(order: Order) -> bool
    ensures { result ≡ meant.is_little order }
{
    match order {
        Order::Little => true,
        Order::Big => false,
    }
}

fn is_wide(width: Width) -> bool
    ensures { result ≡ meant.is_wide width }
{
    match width {
        Width::W32 => false,
        Width::W64 => true,
    }
}

// The file with its header, where it is such an object and its sections lie in it.
#[tactic(auto, unfolding(crate::specs::Object::object_header))]
fn object_header(bytes: &[u8]) -> Result<Elf<'_>, ObjectCause>
    ensures exact { meant.header_of_elf result ≡ meant.object_header bytes.now }
    ensures bytes { IfOk result (λ elf. elf.bytes ≡ bytes.now) }
    ensures lie { IfOk result (λ elf. SectionsLie elf.bytes elf.header) }
    ensures wide { IfOk result (λ elf. meant.is_wide elf.header.width ≡ true) }
    ensures fits { IfOk result (λ elf. HeaderFits elf.bytes elf.header) }
{
    let elf = Elf::parse(bytes)?;
    if !is_relocatable(elf.header()) {
        return Err(ObjectCause::Elf(ElfCause::WrongKind));
    }
    match outside(&elf) {
        Some(i) => {
            let offset = section(&elf, i).offset;
            Err(ObjectCause::Elf(ElfCause::Truncated(offset)))
        }
        None => Ok(elf),
    }
}

// Looks at names, section numbers and groups.
#[tactic(auto, unfolding(crate::specs::Object::checked_names))]
fn check_names(elf: &Elf, parts: &Parts) -> Result<(), ObjectCause>
    requires { PartsLie elf.now.bytes elf.now.header parts.now }
    ensures exact { result ≡ meant.checked_names elf.now.bytes elf.now.header parts.now }
    ensures good { IfOk result (λ _. bad_group elf.now.bytes elf.now.header parts.now ≡ None) }
{
    if let Some(i) = unnamed_section(elf, parts) {
        return Err(ObjectCause::Elf(ElfCause::BadName(NamePlace::Section(i))));
    }
    if let Some(i) = unnamed_row(elf, parts) {
        return Err(ObjectCause::Elf(ElfCause::BadName(NamePlace::Symbol(i))));
    }
    if unplaced_row(elf, parts).is_some() {
        return Err(ObjectCause::Elf(ElfCause::BadHeader));
    }
    match bad_group(elf, parts) {
        Some(_) => Err(ObjectCause::Elf(ElfCause::BadHeader)),
        None => Ok(()),
    }
}

// Looks at relocation tables, compressed sections and indirect functions.
#[tactic(auto, unfolding(crate::specs::Object::checked_tables))]
fn check_tables(elf: &Elf, parts: &Parts, tables: &[Option<u64>]) -> Result<(), ObjectCause>
    requires lie { PartsLie elf.now.bytes elf.now.header parts.now }
    requires first { AreFirstFrom elf.now.bytes elf.now.header 0 tables.now }
    ensures exact { result ≡ meant.checked_tables elf.now.bytes elf.now.header parts.now }
    ensures good { IfOk result (λ _. bad_table elf.now.bytes elf.now.header parts.now ≡ None) }
{
    if let Some(i) = bad_table(elf, parts, tables) {
        return Err(ObjectCause::BadRelocationTable(i));
    }
    if let Some(i) = compressed_section(elf) {
        return Err(ObjectCause::CompressedSection(i));
    }
    match ifunc_row(elf, parts) {
        Some(i) => Err(ObjectCause::IfuncDefinition(i)),
        None => Ok(()),
    }
}

// The contents of an object without a fault.
#[tactic(auto, unfolding(crate::specs::Object::object_at))]
fn read_all(
    alloc: Global,
    elf: &Elf,
    parts: &Parts,
    tables: &[Option<u64>],
) -> Result<Contents, Memory>
    requires lie { PartsLie elf.now.bytes elf.now.header parts.now }
    requires first { AreFirstFrom elf.now.bytes elf.now.header 0 tables.now }
    requires groups { bad_group elf.now.bytes elf.now.header parts.now ≡ None }
    requires tables { bad_table elf.now.bytes elf.now.header parts.now ≡ None }
    ensures { IfOk result (λ read. meant.with_bytes elf.now.bytes read
        ≡ meant.object_at elf.now.bytes elf.now.header parts.now) }
{
    Ok(Contents {
        machine: elf.header().machine,
        sections: sections_of(alloc, elf, parts)?,
        symbols: symbols_of(alloc, elf, parts)?,
        references: references_of(alloc, elf, parts, tables)?,
        groups: groups_of(alloc, elf, parts)?,
    })
}

// The contents of the object in the bytes of a file, or the first cause.
#[tactic(auto, unfolding(crate::specs::Object::object_of))]
fn read(alloc: Global, bytes: &[u8]) -> Result<Contents, ObjectCause>
    ensures exact { UnlessMemory ObjectCause.Memory (meant.read_with bytes.now result) (meant.object_of bytes.now) }
    ensures room { IfOk result (λ read. meant.HasRoom (meant.with_bytes bytes.now read)) }
{
    let elf = object_header(bytes)?;
    let parts = parts_of(&elf)?;
    check_names(&elf, &parts)?;
    let tables = first_tables(alloc, &elf)?;
    check_tables(&elf, &parts, &tables)?;
    Ok(read_all(alloc, &elf, &parts, &tables)?)
}
