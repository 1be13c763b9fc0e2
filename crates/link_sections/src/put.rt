//! The section headers, one after the other.

ghost use Rattle.std.specs.Prelude.{◌≡◌, ◌++◌, ◌<◌, length, map, OnOk};
ghost use Rattle.std.specs.List.{enumerate_from};
ghost use Rattle.link_core.specs.Headers as headers;
ghost use Rattle.link_placed.specs.Made.{link_of};
ghost use Rattle.link_sections.specs.Rows as meant;

use crate::names::section_names;
use crate::rows::{names_row, null_row, section_row};
use elf_file::{SectionHeader, put_section};
use ifs_bytes::{Memory, Order, Width};
use link_core::{Machine, OutSection};
use link_placed::Link;
use link_strings::places_of;
use std::alloc::Global;

// Appends a header.
fn put(out: &mut Vec<u8>, row: SectionHeader) -> Result<(), Memory>
    ensures { OnOk result (out.new.items ≡ out.old.items ++ meant.row_bytes row) }
{
    put_section(out, &row, Order::Little, Width::W64)
}

// Appends the headers of sections.
fn put_each<M: Machine>(
    out: &mut Vec<u8>,
    p: &Link<'_, M>,
    starts: &[u32],
    sections: &[OutSection],
) -> Result<(), Memory>
    ensures { OnOk result (out.new.items ≡ out.old.items
        ++ meant.rows_bytes (map (meant.row_in starts.now (link_of M.rules p.now)) (enumerate_from 0 sections.now))) }
{
    for i in 0..sections.len() {
        put(out, section_row(p, starts, i, &sections[i]))?;
    }
    Ok(())
}

// Appends all headers.
#[tactic(auto, unfolding(crate::specs::Rows::all_bytes))]
fn put_rows<M: Machine>(out: &mut Vec<u8>, p: &Link<'_, M>, starts: &[u32]) -> Result<(), Memory>
    ensures { OnOk result (out.new.items ≡ out.old.items
        ++ meant.all_bytes starts.now (link_of M.rules p.now) p.now.layout) }
{
    put(out, null_row())?;
    put_each(out, p, starts, p.layout().sections.as_slice())?;
    put(out, names_row(p, starts))
}

/// Appends the bytes of the section headers.
pub fn put_sections<M: Machine>(
    alloc: Global,
    out: &mut Vec<u8>,
    p: &Link<'_, M>,
) -> Result<(), Memory>
    ensures { OnOk result (out.new.items
        ≡ out.old.items ++ headers.section_header_bytes (link_of M.rules p.now) p.now.layout) }
{
    p.is_made();
    let names = section_names(alloc, p)?;
    let starts = places_of(alloc, names.as_slice())?;
    put_rows(out, p, starts.as_slice())
}
