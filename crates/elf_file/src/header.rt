//! The file header (gABI, "ELF Header").

ghost use Rattle.std.specs.Prelude.{◌≡◌, ◌+◌, ◌*◌, ◌≤◌, length, is_ok, IfOk};
ghost use Rattle.ifs_bytes.specs.Outcome.{appended};
ghost use Rattle.elf_file.specs.ElfFile.{HeaderFits};
ghost use Rattle.elf_file.specs.Header as meant;
ghost use Rattle.elf_file.specs.Tables as tables;
ghost use Rattle.elf_file.specs.Written.{FitsHeader, header_bytes, ident_bytes};

use crate::cause::ElfCause;
use crate::fields::{FileHeader, file_header_at};
use crate::form::Form;
use crate::put::{Field, put_fields, word};
use crate::section::section_header_at;
use crate::sizes::{header_size, section_size, segment_size};
use ifs_bytes::{Memory, Order, Width, has_room};

/// What the file header says. The numbers of program and section headers are those that count, whichever
/// field they stand in.
#[derive(Clone, Copy, Debug, PartialEq, Eq)]
pub struct Header {
    /// EI_DATA: the byte order of numbers.
    pub order: Order,
    /// EI_CLASS: the size of addresses, offsets and sizes.
    pub width: Width,
    /// e_type.
    pub kind: u16,
    /// e_machine.
    pub machine: u16,
    /// e_entry: the address where the program starts.
    pub entry_point: u64,
    /// e_phoff: where the program headers start in the file.
    pub phoff: u64,
    /// The number of program headers.
    pub phnum: u64,
    /// e_shoff: where the section headers start in the file, 0 where there are none.
    pub shoff: u64,
    /// The number of section headers.
    pub shnum: u64,
    /// The number of the section that holds the names of sections.
    pub shstrndx: u64,
}

// Whether the file is an archive of objects, or one that names its objects' files.
fn is_archive(file: &[u8]) -> bool
    ensures { result ≡ meant.is_archive file.now }
{
    file.starts_with(b"!<arch>\n") || file.starts_with(b"!<thin>\n")
}

// The width that EI_CLASS stands for.
fn width_of(class: u8) -> Option<Width>
    ensures { result ≡ meant.width_of class }
{
    match class {
        1 => Some(Width::W32),
        2 => Some(Width::W64),
        _ => None,
    }
}

// The order that EI_DATA stands for.
fn order_of(code: u8) -> Option<Order>
    ensures { result ≡ meant.order_of code }
{
    match code {
        1 => Some(Order::Little),
        2 => Some(Order::Big),
        _ => None,
    }
}

// The form of the file by e_ident.
#[tactic(auto, unfolding(crate::specs::Header::form_of))]
fn form_of(file: &[u8]) -> Result<Form, ElfCause>
    ensures { result ≡ meant.form_of file.now }
{
    if file.len() < 16 {
        return Err(ElfCause::Truncated(0));
    }
    let Some(width) = width_of(file[4]) else {
        return Err(ElfCause::BadHeader);
    };
    let Some(order) = order_of(file[5]) else {
        return Err(ElfCause::BadHeader);
    };
    if file[6] != 1 {
        return Err(ElfCause::BadHeader);
    }
    Ok(Form { order, width })
}

// Whether the tables of the file have records of the width's size.
fn has_known_sizes(fields: &FileHeader, width: Width) -> bool
    ensures { result ≡ meant.has_known_sizes fields.now width }
{
    fields.phnum != 0xffff
        && (fields.phnum == 0 || usize::from(fields.phentsize) == segment_size(width))
        && (fields.shoff == 0 || usize::from(fields.shentsize) == section_size(width))
}

// The number of section headers, and that of the section with their names, where there are any.
#[tactic(auto, unfolding(crate::specs::Header::counted_sections))]
fn counted_sections(file: &[u8], fields: &FileHeader, form: Form) -> Result<(u64, u64), ElfCause>
    ensures exact { result ≡ meant.counted_sections file.now fields.now form }
    ensures fits { IfOk result (λ s. fields.now.shoff + s.0 * tables.section_size form.width ≤ length file.now) }
{
    let size = section_size(form.width);
    if !has_room(file, fields.shoff, 1, size) {
        return Err(ElfCause::Truncated(fields.shoff));
    }
    let first = section_header_at(file, fields.shoff as usize, form.order, form.width);
    let count = if fields.shnum == 0 {
        first.size
    } else {
        u64::from(fields.shnum)
    };
    if !has_room(file, fields.shoff, count, size) {
        return Err(ElfCause::Truncated(fields.shoff));
    }
    let names = if fields.shstrndx == 0xffff {
        u64::from(first.link)
    } else {
        u64::from(fields.shstrndx)
    };
    Ok((count, names))
}

// The header, where the form of the file and the fields of its file header are known.
#[tactic(auto, unfolding(crate::specs::Header::tables_of))]
fn tables_of(file: &[u8], fields: &FileHeader, form: Form) -> Result<Header, ElfCause>
    ensures exact { result ≡ meant.tables_of file.now fields.now form }
    ensures fits { IfOk result (λ h. HeaderFits file.now h) }
{
    if !has_known_sizes(fields, form.width) {
        return Err(ElfCause::BadHeader);
    }
    let phnum = u64::from(fields.phnum);
    if !has_room(file, fields.phoff, phnum, segment_size(form.width)) {
        return Err(ElfCause::Truncated(fields.phoff));
    }
    let (shnum, shstrndx) = if fields.shoff == 0 {
        (0, u64::from(fields.shstrndx))
    } else {
        counted_sections(file, fields, form)?
    };
    Ok(Header {
        order: form.order,
        width: form.width,
        kind: fields.kind,
        machine: fields.machine,
        entry_point: fields.entry,
        phoff: fields.phoff,
        phnum,
        shoff: fields.shoff,
        shnum,
        shstrndx,
    })
}

/// The header of the file, or the first cause why it can't be read.
#[tactic(auto, unfolding(crate::specs::Header::header_of))]
pub fn header_of(file: &[u8]) -> Result<Header, ElfCause>
    ensures exact { result ≡ meant.header_of file.now }
    ensures fits { IfOk result (λ h. HeaderFits file.now h) }
{
    if is_archive(file) {
        return Err(ElfCause::Archive);
    }
    if !file.starts_with(b"\x7fELF") {
        return Err(ElfCause::NotElf);
    }
    let form = form_of(file)?;
    if file.len() < header_size(form.width) {
        return Err(ElfCause::Truncated(0));
    }
    let fields = file_header_at(file, 0, form.order, form.width);
    tables_of(file, &fields, form)
}

// The bytes of e_ident.
fn ident(order: Order, width: Width) -> [u8; 16]
    ensures { result ≡ ident_bytes order width }
{
    let class = match width {
        Width::W32 => 1,
        Width::W64 => 2,
    };
    let code = match order {
        Order::Little => 1,
        Order::Big => 2,
    };
    [
        0x7f, b'E', b'L', b'F', class, code, 1, 0, 0, 0, 0, 0, 0, 0, 0, 0,
    ]
}

/// Appends the file header of a file with these tables, whose values fit their fields; where memory runs
/// out `out` stays as it was. e_flags and what stands behind EI_VERSION are 0.
#[tactic(auto, unfolding(crate::specs::Written::header_bytes))]
pub fn put_header(out: &mut Vec<u8>, header: &Header) -> Result<(), Memory>
    requires { FitsHeader header.now }
    ensures { out.new.items ≡ appended (is_ok result) out.old.items (header_bytes header.now) }
{
    let width = header.width;
    let fields = [
        Field::Two(header.kind),
        Field::Two(header.machine),
        Field::Four(1),
        word(header.entry_point, width),
        word(header.phoff, width),
        word(header.shoff, width),
        Field::Four(0),
        Field::Two(header_size(width) as u16),
        Field::Two(segment_size(width) as u16),
        Field::Two(header.phnum as u16),
        Field::Two(section_size(width) as u16),
        Field::Two(header.shnum as u16),
        Field::Two(header.shstrndx as u16),
    ];
    let start = out.len();
    out.extend_from_slice(&ident(header.order, width))?;
    let done = put_fields(out, &fields, header.order);
    if done.is_err() {
        out.truncate(start);
    }
    done
}
