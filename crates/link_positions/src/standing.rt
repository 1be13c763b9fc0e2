//! Pieces and common symbols at their addresses.

ghost use Rattle.std.specs.Prelude.{◌≡◌, ◌++◌, ◌+◌, OnOk};
ghost use Rattle.ifs_bytes.specs.Carried as carried;
ghost use Rattle.link_positions.specs.Standing as meant;

use crate::next::Next;
use ifs_bytes::Memory;
use link_core::{CommonAt, OutSection, PieceAt};
use link_tables::{FilledOutput, Item, Thing, aligned};

/// A number in 64 bits, where 2^64 - 1 stands for any greater one.
pub fn carried(n: u128) -> u64
    ensures { result ≡ carried.carried n }
{
    n.min(u128::from(u64::MAX)) as u64
}

// The address of a place behind an address.
fn address_of(address: u64, place: u128) -> u64
    ensures { result ≡ carried.carried (address + place) }
{
    carried(u128::from(address).saturating_add(place))
}

// Appends a piece, or a common symbol.
fn push_thing(
    pieces: &mut Vec<PieceAt>,
    commons: &mut Vec<CommonAt>,
    out: u32,
    address: u64,
    thing: Thing,
) -> Result<(), Memory>
    ensures pieces { OnOk result (pieces.new.items ≡ pieces.old.items ++ meant.piece_of out address thing) }
    ensures commons { OnOk result (commons.new.items ≡ commons.old.items ++ meant.common_of address thing) }
{
    match thing {
        Thing::Piece(object, section) => pieces.push(PieceAt {
            object,
            section,
            out,
            address,
        })?,
        Thing::Common(name) => commons.push(CommonAt { name, address })?,
    }
    Ok(())
}

// Appends what stands in an output section at an address.
fn push_items(
    pieces: &mut Vec<PieceAt>,
    commons: &mut Vec<CommonAt>,
    out: u32,
    address: u64,
    items: &[Item],
) -> Result<(), Memory>
    ensures pieces { OnOk result (pieces.new.items ≡ pieces.old.items ++ meant.pieces_from out address 0 items.now) }
    ensures commons { OnOk result (commons.new.items ≡ commons.old.items ++ meant.commons_from address 0 items.now) }
{
    let mut end = 0u128;
    for item in items {
        let place = aligned(item.align, end);
        push_thing(pieces, commons, out, address_of(address, place), item.thing)?;
        end = place.saturating_add(u128::from(item.size));
    }
    Ok(())
}

// The address of a section by its position.
fn address_at(sections: &[OutSection], n: u32) -> u64
    ensures { result ≡ meant.address_at sections.now n }
{
    match sections.get(n as usize) {
        Some(section) => section.address,
        None => 0,
    }
}

/// Appends what stands in all output sections.
pub fn push_outputs(
    pieces: &mut Vec<PieceAt>,
    commons: &mut Vec<CommonAt>,
    sections: &[OutSection],
    first: Next,
    outputs: &[FilledOutput],
) -> Result<(), Memory>
    ensures pieces { OnOk result (pieces.new.items ≡ pieces.old.items ++ meant.pieces_in sections.now first outputs.now) }
    ensures commons { OnOk result (commons.new.items ≡ commons.old.items ++ meant.commons_in sections.now first outputs.now) }
{
    let mut next = first;
    for output in outputs {
        let out = next.at(output.class);
        let address = address_at(sections, out);
        push_items(pieces, commons, out, address, output.items.as_slice())?;
        next = next.behind(output.class);
    }
    Ok(())
}
