//! Where the parts of an object stand in its file (gABI, "Sections").

ghost use Rattle.std.specs.Prelude.{◌≡◌, ◌==◌, ◌<◌, IfOk, IfSome, not, true, Result};
ghost use Rattle.elf_file.specs.Header.{section_in};
ghost use Rattle.elf_object.specs.Parts.{has_bytes, is_outside, outside, is_alignment, misaligned, first_of, strings_of, span_of, span_if, bytes_in, parts_with, parts_of, word_in, word_count, SpanLies, SectionsLie, PartsLie};

use crate::cause::ObjectCause;
use crate::constants::{
    MOST_ALIGN, SHT_NOBITS, SHT_NULL, SHT_STRTAB, SHT_SYMTAB, SHT_SYMTAB_SHNDX,
};
use elf_file::{Elf, ElfCause, SectionHeader};
use ifs_bytes::{Order, has_room, u32_at};

/// Bytes of the file: their offset, and how many there are.
#[derive(Clone, Copy, Debug, PartialEq, Eq)]
pub struct Span {
    pub from: u64,
    pub size: u64,
}

/// The names of sections; the number of the symbol table, its rows, their names, and the section numbers of
/// rows that have no room there.
#[derive(Clone, Copy, Debug, PartialEq, Eq)]
pub struct Parts {
    pub names: Span,
    pub table: Option<u64>,
    pub rows: Span,
    pub strings: Span,
    pub numbers: Span,
}

const NOWHERE: Span = Span { from: 0, size: 0 };

/// The bytes of a section.
pub fn span_of(section: &SectionHeader) -> Span
    ensures { result ≡ span_of section.now }
{
    Span {
        from: section.offset,
        size: section.size,
    }
}

/// The bytes of a span.
pub fn bytes_in(bytes: &[u8], span: Span) -> &[u8]
    requires { SpanLies bytes.now span }
    ensures { result.now ≡ bytes_in bytes.now span }
{
    let from = span.from as usize;
    let end = from + span.size as usize;
    &bytes[from..end]
}

/// Word `k` of a span.
#[tactic(auto, using(crate::proofs::Division::record_within))]
pub fn word_in(bytes: &[u8], span: Span, k: u64) -> u32
    requires lie { SpanLies bytes.now span }
    requires within { k < word_count span }
    ensures { result ≡ word_in bytes.now span k }
{
    u32_at(bytes, span.from as usize + k as usize * 4, Order::Little)
}

/// Section header `i`.
pub fn section(elf: &Elf, i: u64) -> SectionHeader
    requires { i < elf.now.header.shnum }
    ensures { result ≡ section_in elf.now.bytes elf.now.header i }
{
    elf.section(i).unwrap()
}

// Whether section `i` has a type.
fn has_type(elf: &Elf, kind: u32, i: u64) -> bool
    requires { i < elf.now.header.shnum }
    ensures { result ≡ ((section_in elf.now.bytes elf.now.header i).kind == kind) }
{
    section(elf, i).kind == kind
}

/// The first section of a type (sh_type).
#[tactic(auto, unfolding(crate::specs::Parts::first_of), using(ifs_bytes::proofs::Range::find_here, ifs_bytes::proofs::Range::find_later, ifs_bytes::proofs::Range::find_end))]
pub fn first_of(elf: &Elf, kind: u32) -> Option<u64>
    ensures exact { result ≡ first_of elf.now.bytes elf.now.header kind }
    ensures within { IfSome result (λ i. i < elf.now.header.shnum) }
    ensures kind { IfSome result (λ i. (section_in elf.now.bytes elf.now.header i).kind ≡ kind) }
{
    for i in 0..elf.header().shnum {
        if has_type(elf, kind, i) {
            return Some(i);
        }
    }
    None
}

// Whether the bytes of section `i` aren't all in the file.
fn is_outside(elf: &Elf, i: u64) -> bool
    requires { i < elf.now.header.shnum }
    ensures { result ≡ is_outside elf.now.bytes (section_in elf.now.bytes elf.now.header i) }
{
    let section = section(elf, i);
    let has_bytes = section.kind != SHT_NULL && section.kind != SHT_NOBITS;
    has_bytes && !has_room(elf.bytes(), section.offset, section.size, 1)
}

/// The first section whose bytes aren't all in the file.
#[tactic(auto, unfolding(crate::specs::Parts::outside), using(ifs_bytes::proofs::Range::find_here, ifs_bytes::proofs::Range::find_later, ifs_bytes::proofs::Range::find_end))]
pub fn outside(elf: &Elf) -> Option<u64>
    ensures exact { result ≡ outside elf.now.bytes elf.now.header }
    ensures within { IfSome result (λ i. i < elf.now.header.shnum) }
{
    for i in 0..elf.header().shnum {
        if is_outside(elf, i) {
            return Some(i);
        }
    }
    None
}

/// Whether a number is 0 or a power of two up to `MOST_ALIGN`.
pub fn is_alignment(number: u64) -> bool
    ensures { result ≡ is_alignment number }
{
    number == 0 || (number <= MOST_ALIGN && number.is_power_of_two())
}

// Whether section `i` has another alignment.
fn is_misaligned(elf: &Elf, i: u64) -> bool
    requires { i < elf.now.header.shnum }
    ensures { result ≡ not (is_alignment (section_in elf.now.bytes elf.now.header i).align) }
{
    !is_alignment(section(elf, i).align)
}

// The first section with another alignment.
#[tactic(auto, unfolding(crate::specs::Parts::misaligned), using(ifs_bytes::proofs::Range::find_here, ifs_bytes::proofs::Range::find_later, ifs_bytes::proofs::Range::find_end))]
fn misaligned(elf: &Elf) -> Option<u64>
    ensures { result ≡ misaligned elf.now.bytes elf.now.header }
{
    for i in 0..elf.header().shnum {
        if is_misaligned(elf, i) {
            return Some(i);
        }
    }
    None
}

/// The bytes of section `i`, which lie in the file.
pub fn lying_span(elf: &Elf, i: u64) -> Span
    requires lie { SectionsLie elf.now.bytes elf.now.header }
    requires within { i < elf.now.header.shnum }
    requires bytes { has_bytes (section_in elf.now.bytes elf.now.header i) ≡ true }
    ensures exact { result ≡ span_of (section_in elf.now.bytes elf.now.header i) }
    ensures lies { SpanLies elf.now.bytes result }
{
    span_of(&section(elf, i))
}

// The bytes of the section with the number `link`, where it is a string table.
#[tactic(auto, unfolding(crate::specs::Parts::strings_of))]
fn strings_of(elf: &Elf, link: u64) -> Result<Span, ObjectCause>
    requires { SectionsLie elf.now.bytes elf.now.header }
    ensures exact { result ≡ strings_of elf.now.bytes elf.now.header link }
    ensures lies { IfOk result (SpanLies elf.now.bytes) }
{
    if link >= elf.header().shnum {
        return Err(ObjectCause::Elf(ElfCause::BadHeader));
    }
    if section(elf, link).kind != SHT_STRTAB {
        return Err(ObjectCause::Elf(ElfCause::BadHeader));
    }
    Ok(lying_span(elf, link))
}

// The bytes of the first section of section numbers, if there is one.
fn numbers(elf: &Elf) -> Span
    requires { SectionsLie elf.now.bytes elf.now.header }
    ensures exact { result
        ≡ span_if elf.now.bytes elf.now.header (first_of elf.now.bytes elf.now.header SHT_SYMTAB_SHNDX) }
    ensures lies { SpanLies elf.now.bytes result }
{
    match first_of(elf, SHT_SYMTAB_SHNDX) {
        Some(i) => lying_span(elf, i),
        None => NOWHERE,
    }
}

// The parts, by the names of sections and the number of the symbol table.
#[tactic(auto, unfolding(crate::specs::Parts::parts_with))]
fn parts_with(elf: &Elf, names: Span, table: Option<u64>) -> Result<Parts, ObjectCause>
    requires lie { SectionsLie elf.now.bytes elf.now.header }
    requires names_lie { SpanLies elf.now.bytes names }
    requires within { IfSome table (λ i. i < elf.now.header.shnum) }
    requires kind { IfSome table (λ i. (section_in elf.now.bytes elf.now.header i).kind ≡ SHT_SYMTAB) }
    ensures exact { result ≡ parts_with elf.now.bytes elf.now.header names table }
    ensures lie { IfOk result (PartsLie elf.now.bytes elf.now.header) }
{
    match table {
        None => Ok(Parts {
            names,
            table,
            rows: NOWHERE,
            strings: NOWHERE,
            numbers: NOWHERE,
        }),
        Some(i) => {
            let strings = strings_of(elf, u64::from(section(elf, i).link))?;
            Ok(Parts {
                names,
                table,
                rows: lying_span(elf, i),
                strings,
                numbers: numbers(elf),
            })
        }
    }
}

/// The parts of a file whose sections lie in it, or `BadHeader`: an alignment is none, or one of both string
/// tables isn't there.
#[tactic(auto, unfolding(crate::specs::Parts::parts_of))]
pub fn parts_of(elf: &Elf) -> Result<Parts, ObjectCause>
    requires { SectionsLie elf.now.bytes elf.now.header }
    ensures exact { result ≡ parts_of elf.now.bytes elf.now.header }
    ensures lie { IfOk result (PartsLie elf.now.bytes elf.now.header) }
{
    if misaligned(elf).is_some() {
        return Err(ObjectCause::Elf(ElfCause::BadHeader));
    }
    let names = strings_of(elf, elf.header().shstrndx)?;
    parts_with(elf, names, first_of(elf, SHT_SYMTAB))
}
