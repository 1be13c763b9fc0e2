//! The whole layout, within its limits.

ghost use Rattle.std.specs.Prelude.{◌≡◌, IfOk};
ghost use Rattle.ifs_bytes.specs.Outcome.{UnlessMemory};
ghost use Rattle.link_places.specs.Placed as placed;
ghost use Rattle.link_tables.specs.Capped.{capped};
ghost use Rattle.link_positions.specs.Whole as meant;

use crate::next::Next;
use crate::standing::{carried, push_outputs};
use ifs_bytes::{List, Memory};
use link_core::{
    Layout, LinkRefusal, LinkStop, MOST_IMAGE_BYTES, MOST_OUTPUT_SECTIONS, OutKind, OutSection,
};
use link_places::{Bounds, Segments, find_bounds, make_segments, place_all};
use link_tables::{Counts, FilledOutput};
use std::alloc::Global;

// How many bytes the names of sections have, each with its NUL.
fn section_names(sections: &[OutSection]) -> u128
    ensures { result ≡ capped (meant.section_names sections.now) }
{
    let mut total = 0u128;
    for section in sections {
        total = total.saturating_add(section.name.as_bytes().len() as u128 + 1);
    }
    total
}

// How many bytes .shstrtab has: a NUL, those names, and its own.
fn names_room(sections: &[OutSection]) -> u128
    ensures { result ≡ meant.names_room sections.now }
{
    section_names(sections).saturating_add(11)
}

// A number, where something is there.
fn if_there(there: bool, n: u64) -> u64
    ensures { result ≡ meant.if_there there n }
{
    if there { n } else { 0 }
}

// A number that is above a limit.
fn too_large(n: u128) -> LinkStop
    ensures { result ≡ LinkStop.Refused (meant.too_large n) }
{
    LinkStop::Refused(LinkRefusal::ImageTooLarge(carried(n)))
}

// Everything at its place.
#[tactic(auto, unfolding(crate::specs::Whole::whole))]
fn whole(
    alloc: Global,
    b: &Bounds,
    s: &Segments,
    outputs: &[FilledOutput],
    sections: Vec<OutSection>,
) -> Result<Layout, Memory>
    requires { sections.items ≡ placed.placed_by b.now s.now }
    ensures { IfOk result (λ layout. layout ≡ meant.whole b.now s.now outputs.now) }
{
    let mut pieces = Vec::new(alloc);
    let mut commons = Vec::new(alloc);
    push_outputs(
        &mut pieces,
        &mut commons,
        &sections,
        Next::first_of(s),
        outputs,
    )?;
    Ok(Layout {
        sections: List::from_vec(sections),
        pieces: List::from_vec(pieces),
        commons: List::from_vec(commons),
        end: carried(b.written_end),
        tls_start: if_there(b.threads, carried(b.tls_start)),
        tls_file: if_there(
            b.threads,
            carried(b.tls_file_end.saturating_sub(b.tls_start)),
        ),
        tls_size: if_there(b.threads, carried(b.tls_end.saturating_sub(b.tls_start))),
        tls_align: if_there(b.threads, b.tls_align),
    })
}

// Everything at its place, or the first limit that isn't kept.
#[tactic(auto, unfolding(crate::specs::Whole::limited))]
fn limited(
    alloc: Global,
    b: &Bounds,
    s: &Segments,
    outputs: &[FilledOutput],
) -> Result<Layout, LinkStop>
    ensures { UnlessMemory LinkStop.Memory result (meant.stopped (meant.limited b.now s.now outputs.now)) }
{
    if b.span > u128::from(MOST_IMAGE_BYTES) {
        return Err(too_large(b.span));
    }
    if outputs.len() as u64 > MOST_OUTPUT_SECTIONS {
        return Err(too_large(outputs.len() as u128));
    }
    let sections = place_all(alloc, b, s)?;
    let names = names_room(&sections);
    if names > u128::from(MOST_IMAGE_BYTES) {
        return Err(too_large(names));
    }
    Ok(whole(alloc, b, s, outputs, sections)?)
}

/// The layout of an image of a kind, with a page of so many bytes, by the counts of its tables and its output sections. Refused
/// with ImageTooLarge, at the first of these: the bytes of memory that it takes, the number of its output sections, or the bytes
/// of the names of its sections are above their limits.
#[tactic(auto, unfolding(crate::specs::Whole::layout_from))]
pub fn lay_out_from(
    alloc: Global,
    kind: OutKind,
    page: u64,
    n: &Counts,
    outputs: &[FilledOutput],
) -> Result<Layout, LinkStop>
    ensures { UnlessMemory LinkStop.Memory result (meant.stopped (meant.layout_from kind page n.now outputs.now)) }
{
    let segments = make_segments(alloc, n, outputs)?;
    let bounds = find_bounds(kind, page, &segments);
    limited(alloc, &bounds, &segments, outputs)
}
