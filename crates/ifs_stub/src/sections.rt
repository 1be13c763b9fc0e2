//! The section headers of a stub file.

ghost use Rattle.std.specs.Prelude.{◌≡◌, ◌++◌, OnOk};
ghost use Rattle.elf_file.specs.Written.{FitsSection};
ghost use Rattle.ifs_stub.specs.StubFile.{null_section, symbols_section, strings_section, hash_section, dynamic_section, names_section, written_section, section_part};

use crate::layout::{Plan, SECTION_NAMES_SIZE};
use elf_file::{SectionHeader, dynamic_size, put_section, symbol_size};
use ifs_bytes::Memory;

// The section of no bytes.
#[tactic(auto, using(crate::proofs::Fits::fits))]
fn null_section(plan: &Plan) -> SectionHeader
    ensures exact { result ≡ null_section }
    ensures fits { FitsSection result plan.now.form.width }
{
    SectionHeader {
        name: 0,
        kind: 0,
        flags: 0,
        addr: 0,
        offset: 0,
        size: 0,
        link: 0,
        info: 0,
        align: 0,
        entsize: 0,
    }
}

// .dynsym.
#[tactic(auto, using(crate::proofs::Fits::fits))]
fn symbols_section(plan: &Plan) -> SectionHeader
    ensures exact { result ≡ symbols_section plan.now }
    ensures fits { FitsSection result plan.now.form.width }
{
    let start = u64::from(plan.layout.symbols);
    SectionHeader {
        name: 1,
        kind: 11,
        flags: 2,
        addr: start,
        offset: start,
        size: u64::from(plan.layout.symbols_size),
        link: 2,
        info: 1,
        align: plan.form.width.bytes() as u64,
        entsize: symbol_size(plan.form.width) as u64,
    }
}

// .dynstr.
#[tactic(auto, using(crate::proofs::Fits::fits))]
fn strings_section(plan: &Plan) -> SectionHeader
    ensures exact { result ≡ strings_section plan.now }
    ensures fits { FitsSection result plan.now.form.width }
{
    let start = u64::from(plan.layout.strings);
    SectionHeader {
        name: 9,
        kind: 3,
        flags: 2,
        addr: start,
        offset: start,
        size: u64::from(plan.sizes.strings),
        link: 0,
        info: 0,
        align: 1,
        entsize: 0,
    }
}

// .hash.
#[tactic(auto, using(crate::proofs::Fits::fits))]
fn hash_section(plan: &Plan) -> SectionHeader
    ensures exact { result ≡ hash_section plan.now }
    ensures fits { FitsSection result plan.now.form.width }
{
    let start = u64::from(plan.layout.hash);
    SectionHeader {
        name: 17,
        kind: 5,
        flags: 2,
        addr: start,
        offset: start,
        size: u64::from(plan.layout.hash_size),
        link: 1,
        info: 0,
        align: plan.form.width.bytes() as u64,
        entsize: 4,
    }
}

// .dynamic.
#[tactic(auto, using(crate::proofs::Fits::fits))]
fn dynamic_section(plan: &Plan) -> SectionHeader
    ensures exact { result ≡ dynamic_section plan.now }
    ensures fits { FitsSection result plan.now.form.width }
{
    let start = u64::from(plan.layout.dynamic);
    SectionHeader {
        name: 23,
        kind: 6,
        flags: 2,
        addr: start,
        offset: start,
        size: u64::from(plan.layout.dynamic_size),
        link: 2,
        info: 0,
        align: plan.form.width.bytes() as u64,
        entsize: dynamic_size(plan.form.width) as u64,
    }
}

// .shstrtab.
#[tactic(auto, using(crate::proofs::Fits::fits))]
fn names_section(plan: &Plan) -> SectionHeader
    ensures exact { result ≡ names_section plan.now }
    ensures fits { FitsSection result plan.now.form.width }
{
    SectionHeader {
        name: 32,
        kind: 3,
        flags: 0,
        addr: 0,
        offset: u64::from(plan.layout.names),
        size: u64::from(SECTION_NAMES_SIZE),
        link: 0,
        info: 0,
        align: 1,
        entsize: 0,
    }
}

// Appends a section header of a plan.
fn put_planned(out: &mut Vec<u8>, plan: &Plan, section: &SectionHeader) -> Result<(), Memory>
    requires { FitsSection section.now plan.now.form.width }
    ensures { OnOk result (out.new.items ≡ out.old.items ++ written_section plan.now section.now) }
{
    put_section(out, section, plan.form.order, plan.form.width)
}

/// Appends the section headers.
#[tactic(auto, unfolding(crate::specs::StubFile::section_part))]
pub fn put_sections(out: &mut Vec<u8>, plan: &Plan) -> Result<(), Memory>
    ensures { OnOk result (out.new.items ≡ out.old.items ++ section_part plan.now) }
{
    put_planned(out, plan, &null_section(plan))?;
    put_planned(out, plan, &symbols_section(plan))?;
    put_planned(out, plan, &strings_section(plan))?;
    put_planned(out, plan, &hash_section(plan))?;
    put_planned(out, plan, &dynamic_section(plan))?;
    put_planned(out, plan, &names_section(plan))
}
