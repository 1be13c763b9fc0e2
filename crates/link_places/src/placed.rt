//! Sections at their places.

ghost use Rattle.std.specs.Prelude.{◌≡◌, ◌++◌, ◌∷◌, [], IfOk, OnOk};
ghost use Rattle.ifs_bytes.specs.Carried as carried;
ghost use Rattle.link_places.specs.Placed as meant;

use crate::bounds::Bounds;
use crate::segments::Segments;
use ifs_bytes::Memory;
use link_core::OutSection;
use link_tables::{Section, aligned};
use std::alloc::Global;

/// A number in 64 bits, where 2^64 - 1 stands for any greater one.
pub fn carried(n: u128) -> u64
    ensures { result ≡ carried.carried n }
{
    n.min(u128::from(u64::MAX)) as u64
}

// Appends a section at an address.
fn push_placed(
    alloc: Global,
    placed: &mut Vec<OutSection>,
    section: &Section,
    at: u128,
) -> Result<(), Memory>
    ensures { OnOk result (placed.new.items ≡ placed.old.items ++ meant.placed_at section.now at ∷ []) }
{
    placed.push(OutSection {
        name: section.name.copy(alloc)?,
        kind: section.kind,
        flags: section.flags,
        address: carried(at),
        size: carried(section.size),
        align: section.align,
    })?;
    Ok(())
}

// Appends sections, the first of which starts at a place or behind it.
#[tactic(auto, using(crate::proofs::Turns::placed_turn, crate::proofs::Turns::placed_end))]
fn push_all(
    alloc: Global,
    placed: &mut Vec<OutSection>,
    sections: &[Section],
    at: u128,
) -> Result<(), Memory>
    ensures { OnOk result (placed.new.items ≡ placed.old.items ++ meant.placed_from at sections.now) }
{
    let mut end = at;
    for section in sections {
        let address = aligned(section.align, end);
        push_placed(alloc, placed, section, address)?;
        end = address.saturating_add(section.size);
    }
    Ok(())
}

/// All sections at their places, in order.
#[tactic(auto, unfolding(crate::specs::Placed::placed_by))]
pub fn place_all(alloc: Global, b: &Bounds, s: &Segments) -> Result<Vec<OutSection>, Memory>
    ensures { IfOk result (λ sections. sections.items ≡ meant.placed_by b.now s.now) }
{
    let mut placed = Vec::new(alloc);
    push_all(alloc, &mut placed, s.read.as_slice(), b.read_start)?;
    push_all(alloc, &mut placed, s.code.as_slice(), b.code_start)?;
    push_all(alloc, &mut placed, s.thread.as_slice(), b.tls_start)?;
    push_all(alloc, &mut placed, s.zeros.as_slice(), b.tls_file_end)?;
    push_all(alloc, &mut placed, s.written.as_slice(), b.data_start)?;
    Ok(placed)
}
