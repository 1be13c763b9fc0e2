//! The sections of the image that the link makes (gABI, "Special Sections").

ghost use Rattle.std.specs.Prelude.{◌≡◌, ◌*◌, ◌+◌, IfOk};
ghost use Rattle.link_tables.specs.Sections as meant;

use crate::counts::Counts;
use crate::section::{Section, push_if, table};
use ifs_bytes::Memory;
use link_core::{SHF_EXECINSTR, SHF_WRITE, SHT_DYNAMIC, SHT_DYNSYM, SHT_HASH};
use std::alloc::Global;

/// Bytes of a program.
const SHT_PROGBITS: u32 = 1;
/// Strings.
const SHT_STRTAB: u32 = 3;
/// Relocations with addends.
const SHT_RELA: u32 = 4;
/// What is only read.
const READ: u64 = 2;
/// What is executed.
const CODE: u64 = READ + SHF_EXECINSTR;
/// What is written.
const DATA: u64 = READ + SHF_WRITE;

// So many items of one size, and more bytes.
fn room(count: u128, each: u128, more: u128) -> u128
    ensures { result ≡ meant.room count each more }
{
    count.saturating_mul(each).saturating_add(more)
}

/// The tables that are only read, in their order.
#[tactic(auto, unfolding(crate::specs::Sections::read_tables))]
pub fn read_tables(alloc: Global, n: &Counts) -> Result<Vec<Section>, Memory>
    ensures { IfOk result (λ sections. sections.items ≡ meant.read_tables n.now) }
{
    let mut sections = Vec::new(alloc);
    let path = room(n.interpreter, 1, 0);
    let interp = table(alloc, b".interp", SHT_PROGBITS, READ, 1, path)?;
    push_if(&mut sections, n.program, interp)?;
    let dynsym = table(alloc, b".dynsym", SHT_DYNSYM, READ, 8, room(n.rows, 24, 0))?;
    push_if(&mut sections, true, dynsym)?;
    let dynstr = table(alloc, b".dynstr", SHT_STRTAB, READ, 1, n.strings)?;
    push_if(&mut sections, true, dynstr)?;
    let hash = table(alloc, b".hash", SHT_HASH, READ, 8, room(n.rows, 8, 8))?;
    push_if(&mut sections, true, hash)?;
    let moves = table(alloc, b".rela.dyn", SHT_RELA, READ, 8, room(n.moves, 24, 0))?;
    push_if(&mut sections, n.moves > 0, moves)?;
    let calls = table(alloc, b".rela.plt", SHT_RELA, READ, 8, room(n.calls, 24, 0))?;
    push_if(&mut sections, n.calls > 0, calls)?;
    Ok(sections)
}

/// The tables that are executed.
#[tactic(auto, unfolding(crate::specs::Sections::code_tables))]
pub fn code_tables(alloc: Global, n: &Counts) -> Result<Vec<Section>, Memory>
    ensures { IfOk result (λ sections. sections.items ≡ meant.code_tables n.now) }
{
    let mut sections = Vec::new(alloc);
    let size = room(n.calls, 16, u128::from(n.header));
    let plt = table(alloc, b".plt", SHT_PROGBITS, CODE, 16, size)?;
    push_if(&mut sections, n.calls > 0, plt)?;
    Ok(sections)
}

/// The tables that are written, in their order.
#[tactic(auto, unfolding(crate::specs::Sections::written_tables))]
pub fn written_tables(alloc: Global, n: &Counts) -> Result<Vec<Section>, Memory>
    ensures { IfOk result (λ sections. sections.items ≡ meant.written_tables n.now) }
{
    let mut sections = Vec::new(alloc);
    let entries = table(
        alloc,
        b".dynamic",
        SHT_DYNAMIC,
        DATA,
        8,
        room(n.entries, 16, 0),
    )?;
    push_if(&mut sections, true, entries)?;
    let words = table(alloc, b".got", SHT_PROGBITS, DATA, 8, room(n.words, 8, 0))?;
    push_if(&mut sections, n.words > 0, words)?;
    let slots = table(
        alloc,
        b".got.plt",
        SHT_PROGBITS,
        DATA,
        8,
        room(n.calls, 8, 24),
    )?;
    push_if(&mut sections, true, slots)?;
    Ok(sections)
}
