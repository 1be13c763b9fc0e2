//! The program headers, each by a function of its own.

ghost use Rattle.std.specs.Prelude.{◌≡◌};
ghost use Rattle.link_core.specs.Headers as meant;
ghost use Rattle.link_placed.specs.Made.{link_of};
ghost use Rattle.link_placed.specs.Tables.{table_name};
ghost use Rattle.link_segments.specs.Rows as rows;

use crate::starts::{base_of, code_address, code_end, offset_of, read_end, written_address};
use crate::there::{segment_count, written_flags};
use elf_file::Segment;
use link_core::{
    Machine, PF_R, PF_W, PF_X, PT_DYNAMIC, PT_GNU_STACK, PT_INTERP, PT_LOAD, PT_PHDR, PT_TLS,
};
use link_placed::{Link, Table};

// A header with these fields; p_paddr is p_vaddr.
fn segment_for<M: Machine>(
    p: &Link<'_, M>,
    kind: u32,
    flags: u32,
    address: u64,
    filesz: u64,
    memsz: u64,
    align: u64,
) -> Segment
    ensures { result ≡ meant.segment_for (link_of M.rules p.now) kind flags address filesz memsz align }
{
    Segment {
        kind,
        flags,
        offset: offset_of(p, address),
        vaddr: address,
        paddr: address,
        filesz,
        memsz,
        align,
    }
}

// The header of a table.
fn table_segment<M: Machine>(
    p: &Link<'_, M>,
    kind: u32,
    flags: u32,
    table: Table,
    align: u64,
) -> Segment
    ensures { result ≡ meant.table_segment (link_of M.rules p.now) p.now.layout kind flags
        (table_name table) align }
{
    let size = p.size(table);
    segment_for(p, kind, flags, p.address(table), size, size, align)
}

/// The header of the program headers: they stand behind the file header.
pub(crate) fn header_row<M: Machine>(p: &Link<'_, M>) -> Segment
    ensures { result ≡ rows.header_row (link_of M.rules p.now) }
{
    let size = 56 * segment_count(p);
    segment_for(
        p,
        PT_PHDR,
        PF_R,
        base_of(p.options().kind) + 64,
        size,
        size,
        8,
    )
}

/// The header of .interp.
pub(crate) fn interpreter_row<M: Machine>(p: &Link<'_, M>) -> Segment
    ensures { result ≡ rows.interpreter_row (link_of M.rules p.now) p.now.layout }
{
    table_segment(p, PT_INTERP, PF_R, Table::Interp, 1)
}

/// The header of what is only read, from the first byte of the file on.
pub(crate) fn read_row<M: Machine>(p: &Link<'_, M>) -> Segment
    ensures { result ≡ rows.read_row (link_of M.rules p.now) p.now.layout }
{
    let base = base_of(p.options().kind);
    let size = read_end(p).saturating_sub(base);
    segment_for(p, PT_LOAD, PF_R, base, size, size, p.machine().page())
}

/// The header of code.
pub(crate) fn code_row<M: Machine>(p: &Link<'_, M>) -> Segment
    ensures { result ≡ rows.code_row (link_of M.rules p.now) p.now.layout }
{
    let start = code_address(p);
    let size = code_end(p).saturating_sub(start);
    segment_for(
        p,
        PT_LOAD,
        PF_R + PF_X,
        start,
        size,
        size,
        p.machine().page(),
    )
}

/// The header of what is written.
pub(crate) fn written_row<M: Machine>(p: &Link<'_, M>) -> Segment
    ensures { result ≡ rows.written_row (link_of M.rules p.now) p.now.layout }
{
    let start = written_address(p);
    segment_for(
        p,
        PT_LOAD,
        written_flags(p),
        start,
        p.ends().file.saturating_sub(start),
        p.layout().end.saturating_sub(start),
        p.machine().page(),
    )
}

/// The header of .dynamic.
pub(crate) fn dynamic_row<M: Machine>(p: &Link<'_, M>) -> Segment
    ensures { result ≡ rows.dynamic_row (link_of M.rules p.now) p.now.layout }
{
    table_segment(p, PT_DYNAMIC, PF_R + PF_W, Table::Dynamic, 8)
}

/// The header of thread-local data.
pub(crate) fn thread_row<M: Machine>(p: &Link<'_, M>) -> Segment
    ensures { result ≡ rows.thread_row (link_of M.rules p.now) p.now.layout }
{
    let l = p.layout();
    segment_for(
        p,
        PT_TLS,
        PF_R,
        l.tls_start,
        l.tls_file,
        l.tls_size,
        l.tls_align,
    )
}

/// A stack that is only read and written.
pub(crate) fn stack_row() -> Segment
    ensures { result ≡ meant.stack_segment }
{
    Segment {
        kind: PT_GNU_STACK,
        flags: PF_R + PF_W,
        offset: 0,
        vaddr: 0,
        paddr: 0,
        filesz: 0,
        memsz: 0,
        align: 0,
    }
}
