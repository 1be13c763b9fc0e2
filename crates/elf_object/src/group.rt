//! Groups of sections (gABI, "Section Groups").

ghost use Rattle.std.specs.Prelude.{◌≡◌, ◌<◌, ◌++◌, nat_le, false, None, IfOk, OnOk};
ghost use Rattle.std.specs.Option.{option_to_list};
ghost use Rattle.elf_file.specs.Header.{section_in};
ghost use Rattle.elf_object.specs.Parts.{PartsLie, SpanLies, word_in, word_count};
ghost use Rattle.elf_object.specs.Groups as meant;
ghost use Rattle.elf_object.specs.Symbols.{row_count};

use crate::constants::{GRP_COMDAT, SHT_GROUP, STT_SECTION};
use crate::parts::{Parts, Span, lying_span, section, word_in};
use crate::section::section_name;
use crate::symbol::{ObjPlace, place_of, row_at, row_count, row_name};
use elf_file::Elf;
use ifs_bytes::{List, Memory, Text};
use std::alloc::Global;

/// A group: sections that a link keeps or drops together.
#[derive(Debug, PartialEq, Eq, Drop)]
pub struct Group {
    /// Its name.
    pub signature: Text,
    /// Whether one group of its signature is enough for a link (GRP_COMDAT).
    pub comdat: bool,
    /// The numbers of its sections, in order.
    pub members: List<u32>,
}

// Whether the word `k` of a group is the number of no section.
fn is_stray(elf: &Elf, span: Span, k: u64) -> bool
    requires lie { SpanLies elf.now.bytes span }
    requires within { k < word_count span }
    ensures { result ≡ nat_le elf.now.header.shnum (word_in elf.now.bytes span k) }
{
    elf.header().shnum <= u64::from(word_in(elf.bytes(), span, k))
}

// The first member that is the number of no section.
#[tactic(auto, unfolding(crate::specs::Groups::stray_member), using(ifs_bytes::proofs::Range::find_here, ifs_bytes::proofs::Range::find_later, ifs_bytes::proofs::Range::find_end))]
fn stray_member(elf: &Elf, span: Span) -> Option<u64>
    requires { SpanLies elf.now.bytes span }
    ensures { result ≡ meant.stray_member elf.now.bytes elf.now.header span }
{
    for k in 1..span.size / 4 {
        if is_stray(elf, span, k) {
            return Some(k);
        }
    }
    None
}

// Whether section `i` is a bad group.
#[tactic(auto, unfolding(crate::specs::Groups::is_bad_group))]
fn is_bad_group(elf: &Elf, parts: &Parts, i: u64) -> bool
    requires lie { PartsLie elf.now.bytes elf.now.header parts.now }
    requires within { i < elf.now.header.shnum }
    ensures { result ≡ meant.is_bad_group elf.now.bytes elf.now.header parts.now
        (section_in elf.now.bytes elf.now.header i) }
{
    let header = section(elf, i);
    if header.kind != SHT_GROUP {
        return false;
    }
    header.size == 0
        || header.size % 4 != 0
        || row_count(parts) <= u64::from(header.info)
        || stray_member(elf, lying_span(elf, i)).is_some()
}

/// The first bad group.
#[tactic(auto, unfolding(crate::specs::Groups::bad_group), using(ifs_bytes::proofs::Range::find_here, ifs_bytes::proofs::Range::find_later, ifs_bytes::proofs::Range::find_end))]
pub fn bad_group(elf: &Elf, parts: &Parts) -> Option<u64>
    requires { PartsLie elf.now.bytes elf.now.header parts.now }
    ensures { result ≡ meant.bad_group elf.now.bytes elf.now.header parts.now }
{
    for i in 0..elf.header().shnum {
        if is_bad_group(elf, parts, i) {
            return Some(i);
        }
    }
    None
}

// The name of a group whose symbol is row `i`.
#[tactic(auto, unfolding(crate::specs::Groups::signature_of, crate::specs::Symbols::symbol_of, crate::specs::Sections::section_at))]
fn signature_of<'a>(elf: &Elf<'a>, parts: &Parts, i: u64) -> &'a [u8]
    requires lie { PartsLie elf.now.bytes elf.now.header parts.now }
    requires within { i < row_count parts.now }
    ensures { result.now ≡ meant.signature_of elf.now.bytes elf.now.header parts.now i }
{
    let row = row_at(elf, parts, i);
    let name = row_name(elf, parts, i).unwrap_or(&[]);
    match place_of(elf, parts, i, &row) {
        Some(ObjPlace::In(number)) => {
            if row.info % 16 == STT_SECTION && name.is_empty() {
                section_name(elf, parts, u64::from(number)).unwrap_or(&[])
            } else {
                name
            }
        }
        Some(ObjPlace::Undefined) => name,
        Some(ObjPlace::Absolute) => name,
        Some(ObjPlace::Common) => name,
        None => name,
    }
}

// The members of a group.
#[tactic(auto, using(crate::proofs::Range::map_turn, crate::proofs::Range::map_end))]
fn members_of(alloc: Global, bytes: &[u8], span: Span) -> Result<Vec<u32>, Memory>
    requires { SpanLies bytes.now span }
    ensures { IfOk result (λ members. members.items ≡ meant.members_of bytes.now span) }
{
    let count = span.size / 4;
    let mut members = Vec::new(alloc);
    for k in 1..count {
        members.push(word_in(bytes, span, k))?;
    }
    Ok(members)
}

// Section `i`, where it is a group.
#[tactic(auto, unfolding(crate::specs::Groups::group_at, crate::specs::Groups::is_bad_group))]
fn group_at(alloc: Global, elf: &Elf, parts: &Parts, i: u64) -> Result<Option<Group>, Memory>
    requires lie { PartsLie elf.now.bytes elf.now.header parts.now }
    requires within { i < elf.now.header.shnum }
    requires good { meant.is_bad_group elf.now.bytes elf.now.header parts.now
        (section_in elf.now.bytes elf.now.header i) ≡ false }
    ensures { IfOk result (λ group. group ≡ meant.group_at elf.now.bytes elf.now.header parts.now i) }
{
    let header = section(elf, i);
    if header.kind != SHT_GROUP {
        return Ok(None);
    }
    let span = lying_span(elf, i);
    let signature = signature_of(elf, parts, u64::from(header.info));
    Ok(Some(Group {
        signature: Text::from_slice(alloc, signature)?,
        comdat: word_in(elf.bytes(), span, 0) == GRP_COMDAT,
        members: List::from_vec(members_of(alloc, elf.bytes(), span)?),
    }))
}

// Appends the group, if there is one.
fn push_group(groups: &mut Vec<Group>, group: Option<Group>) -> Result<(), Memory>
    ensures { OnOk result (groups.new.items ≡ groups.old.items ++ option_to_list group) }
{
    if let Some(group) = group {
        groups.push(group)?;
    }
    Ok(())
}

/// The groups of an object without a bad one, in order.
#[tactic(auto, unfolding(crate::specs::Groups::groups_of), using(ifs_bytes::proofs::Range::filter_map_turn, ifs_bytes::proofs::Range::filter_map_end, crate::proofs::Lying::no_bad_group))]
pub fn groups_of(alloc: Global, elf: &Elf, parts: &Parts) -> Result<Vec<Group>, Memory>
    requires lie { PartsLie elf.now.bytes elf.now.header parts.now }
    requires good { meant.bad_group elf.now.bytes elf.now.header parts.now ≡ None }
    ensures { IfOk result (λ groups. groups.items ≡ meant.groups_of elf.now.bytes elf.now.header parts.now) }
{
    let mut groups = Vec::new(alloc);
    for i in 0..elf.header().shnum {
        push_group(&mut groups, group_at(alloc, elf, parts, i)?)?;
    }
    Ok(groups)
}
