//! What the rows of common symbols say: their sizes, and the number of .bss.

ghost use Rattle.std.specs.Prelude.{◌≡◌, ◌<◌, ◌^◌, ◌∷◌, IfOk, List, OnOk, filter, length, position};
ghost use Rattle.link_tables.specs.Filled.{outputs_filled};
ghost use Rattle.link_dynsym.specs.Made.{link_of};
ghost use Rattle.link_dynsym.specs.Rows as meant;

use crate::link::Link;
use ifs_bytes::Memory;
use indexmap::IndexMap;
use link_commons::{Room, rooms};
use link_core::{Machine, OutClass};
use link_places::same_class;
use link_tables::FilledOutput;
use std::alloc::Global;

/// What the rows of common symbols say beside their addresses.
#[derive(Drop)]
pub struct CommonRows {
    /// The room of each common symbol, by the position of its name.
    pub found: IndexMap<u64, Room>,
    /// The number of .bss in the section header table.
    pub section: u16,
}

// Notes a room, in place of what was noted before for the same name.
fn note(found: &mut IndexMap<u64, Room>, room: &Room) -> Result<(), Memory>
    ensures { OnOk result ((rooms : List Room) → meant.AreFound rooms found.old
        → meant.AreFound (room.now ∷ rooms) found.new) }
{
    found.insert(room.name, *room)?;
    Ok(())
}

// From each name to the first room of it.
fn first_rooms(alloc: Global, rooms: &[Room]) -> Result<IndexMap<u64, Room>, Memory>
    ensures { IfOk result (λ found. meant.AreFound rooms.now found) }
{
    let mut found = IndexMap::new(alloc);
    let count = rooms.len();
    for i in 0..count {
        note(&mut found, &rooms[count - 1 - i])?;
    }
    Ok(found)
}

/// The size of the common symbol whose name is at a position, 0 where there is none.
pub fn size_of(commons: &CommonRows, name: u64) -> u64
    ensures { result ≡ meant.size_in commons.now.found name }
{
    match commons.found.get(&name) {
        Some(room) => room.size,
        None => 0,
    }
}

// Whether an output section is .bss.
fn is_bss(output: &FilledOutput) -> bool
    ensures { result ≡ meant.is_bss output.now }
{
    output.name.as_bytes() == b".bss".as_slice() && same_class(output.class, OutClass::B)
}

// The place of .bss among the output sections.
fn bss_place(outputs: &[FilledOutput]) -> Option<usize>
    ensures { result ≡ position meant.is_bss outputs.now }
{
    outputs.iter().position(|output| is_bss(output))
}

// How many output sections are of the class of .bss.
fn zeroed(outputs: &[FilledOutput]) -> usize
    ensures { result ≡ length (filter meant.is_zeroed outputs.now) }
{
    outputs
        .iter()
        .filter(|output| same_class(output.class, OutClass::B))
        .count()
}

// The output sections before .bss, or all of them where there is none.
fn before_bss(outputs: &[FilledOutput]) -> &[FilledOutput]
    ensures { result.now ≡ meant.before_bss outputs.now }
{
    match bss_place(outputs) {
        Some(at) => {
            let (before, _) = outputs.split_at(at);
            before
        }
        None => outputs,
    }
}

// The number of .bss among all sections.
#[tactic(auto, using(crate::proofs::Numbers::bss_fits))]
fn bss_number<M: Machine>(p: &Link<'_, M>) -> u16
    ensures { result ≡ meant.bss_number (outputs_filled (link_of M.rules p.now)) (length p.now.layout.sections) }
{
    p.is_made();
    let outputs = p.outputs();
    let behind = zeroed(outputs) as u128;
    let sections = p.layout().sections.as_slice().len() as u128;
    (sections + zeroed(before_bss(outputs)) as u128 + 1).saturating_sub(behind) as u16
}

/// What the rows of the common symbols of a link say.
#[tactic(auto, using(crate::proofs::CommonSizes::commons_are))]
pub fn common_rows<M: Machine>(alloc: Global, p: &Link<'_, M>) -> Result<CommonRows, Memory>
    ensures { IfOk result (λ c. meant.AreCommons (link_of M.rules p.now) c.found c.section) }
{
    p.is_made();
    let all = rooms(alloc, p.objects(), p.names())?;
    let found = first_rooms(alloc, all.as_slice())?;
    Ok(CommonRows {
        found,
        section: bss_number(p),
    })
}
