//! Where the segments start and end.

ghost use Rattle.std.specs.Prelude.{◌≡◌, ◌≤◌, nat_lt, length};
ghost use Rattle.link_core.specs.Aligned as aligned;
ghost use Rattle.link_core.specs.Layout as layout;
ghost use Rattle.link_places.specs.Bounds as meant;

use crate::segments::Segments;
use link_core::OutKind;
use link_tables::{Section, aligned, ends_at};

/// Where the segments start and end: addresses, of which 2^128 - 1 stands for any greater one.
#[derive(Clone, Copy, Debug, PartialEq, Eq)]
pub struct Bounds {
    /// Whether there is a thread-local segment.
    pub threads: bool,
    /// Where the sections start that are only read.
    pub read_start: u128,
    /// Where those start that are executed.
    pub code_start: u128,
    /// The alignment of the thread-local segment.
    pub tls_align: u64,
    /// Where the thread-local sections start.
    pub tls_start: u128,
    /// Where those end that have bytes in the file.
    pub tls_file_end: u128,
    /// Where their zeros end.
    pub tls_end: u128,
    /// Where the other sections start that are written.
    pub data_start: u128,
    /// Where those end.
    pub written_end: u128,
    /// How many bytes of memory the image takes.
    pub span: u128,
}

// Where a file of a kind is linked to.
fn base_of(kind: OutKind) -> u128
    ensures exact { result ≡ layout.base_of kind }
    ensures small { result ≤ 4194304 }
{
    match kind {
        OutKind::Exec => 0x40_0000,
        OutKind::Pie => 0,
        OutKind::Shared => 0,
    }
}

// A number, where something is there.
fn count_if(there: bool, count: u128) -> u128
    ensures exact { result ≡ meant.count_if there count }
    ensures small { result ≤ count }
{
    if there { count } else { 0 }
}

// How many segment headers there are.
fn header_count(program: bool, code: bool, threads: bool) -> u128
    ensures exact { result ≡ meant.header_count program code threads }
    ensures small { result ≤ 8 }
{
    4 + count_if(program, 2) + count_if(code, 1) + count_if(threads, 1)
}

// Whether there are sections.
fn some(sections: &[Section]) -> bool
    ensures { result ≡ meant.some sections.now }
{
    !sections.is_empty()
}

// Whether there is a thread-local segment.
fn has_threads(s: &Segments) -> bool
    ensures { result ≡ meant.has_threads s.now }
{
    some(s.thread.as_slice()) || some(s.zeros.as_slice())
}

// Behind the headers.
fn read_start(kind: OutKind, s: &Segments) -> u128
    ensures { result ≡ meant.read_start kind s.now }
{
    let count = header_count(!kind.is_shared(), some(s.code.as_slice()), has_threads(s));
    base_of(kind) + (64 + 56 * count)
}

// The greatest alignment, 1 at least.
fn greatest_align(sections: &[Section]) -> u64
    ensures { result ≡ aligned.greatest_align (λ s. s.align) sections.now }
{
    let mut greatest = 1u64;
    for section in sections {
        greatest = greatest.max(section.align);
    }
    greatest
}

// The alignment of the thread-local segment.
fn tls_align(s: &Segments) -> u64
    ensures { result ≡ meant.tls_align s.now }
{
    greatest_align(s.thread.as_slice()).max(greatest_align(s.zeros.as_slice()))
}

// Where the file ends in memory, behind where it is linked to.
fn span_by(base: u128, threads: bool, written: u128, tls: u128) -> u128
    ensures { result ≡ meant.span_by base threads written tls }
{
    let end = if threads { written.max(tls) } else { written };
    end.saturating_sub(base)
}

/// Where the segments start and end, for a kind of file and a page of so many bytes.
#[tactic(auto, unfolding(crate::specs::Bounds::bounds_of, crate::specs::Bounds::code_start, crate::specs::Bounds::written_start, crate::specs::Bounds::tls_start, crate::specs::Bounds::tls_file_end, crate::specs::Bounds::tls_end, crate::specs::Bounds::data_start, crate::specs::Bounds::written_end))]
pub fn find_bounds(kind: OutKind, page: u64, s: &Segments) -> Bounds
    ensures { result ≡ meant.bounds_of kind page s.now }
{
    let read_start = read_start(kind, s);
    let code_start = aligned(page, ends_at(s.read.as_slice(), read_start));
    let written_start = aligned(page, ends_at(s.code.as_slice(), code_start));
    let tls_align = tls_align(s);
    let tls_start = aligned(tls_align, written_start);
    let tls_file_end = ends_at(s.thread.as_slice(), tls_start);
    let tls_end = ends_at(s.zeros.as_slice(), tls_file_end);
    let data_start = if some(s.thread.as_slice()) {
        tls_file_end
    } else {
        written_start
    };
    let written_end = ends_at(s.written.as_slice(), data_start);
    let threads = has_threads(s);
    Bounds {
        threads,
        read_start,
        code_start,
        tls_align,
        tls_start,
        tls_file_end,
        tls_end,
        data_start,
        written_end,
        span: span_by(base_of(kind), threads, written_end, tls_end),
    }
}
