//! An output section with what stands in it.

ghost use Rattle.std.specs.Prelude.{◌≡◌, ◌++◌, map, IfOk, OnOk};
ghost use Rattle.std.specs.List.{list_any};
ghost use Rattle.link_core.specs.Commons.{bss};
ghost use Rattle.link_core.specs.Contents as contents;
ghost use Rattle.link_core.specs.OutputNames as meant;
ghost use Rattle.link_outputs.specs.Grouped.{empty_group};
ghost use Rattle.link_filled.specs.Fills.{all_filled, filled_by, piece_item, room_item, rooms_in};

use crate::order::ordered;
use ifs_bytes::{List, Memory, Text};
use link_commons::Room;
use link_core::{OutClass, SHF_EXECINSTR};
use link_outputs::{Grouped, Piece};
use link_tables::{FilledOutput, Item, Thing};
use std::alloc::Global;

const SHT_NOBITS: u32 = 8;

const SHT_PROGBITS: u32 = 1;

const SHT_X86_64_UNWIND: u32 = 0x7000_0001;

// The piece as a thing.
fn piece_item(piece: &Piece<'_>) -> Item
    ensures { result ≡ piece_item piece.now }
{
    Item {
        thing: Thing::Piece(piece.object, piece.section),
        align: piece.input.align,
        size: piece.input.size,
    }
}

// The common symbol as a thing.
fn room_item(room: &Room) -> Item
    ensures { result ≡ room_item room.now }
{
    Item {
        thing: Thing::Common(room.name),
        align: room.align,
        size: room.size,
    }
}

// Appends the pieces.
fn push_pieces(items: &mut Vec<Item>, pieces: &[Piece<'_>]) -> Result<(), Memory>
    ensures { OnOk result (items.new.items ≡ items.old.items ++ map piece_item pieces.now) }
{
    for piece in pieces {
        items.push(piece_item(piece))?;
    }
    Ok(())
}

// Appends the common symbols.
fn push_rooms(items: &mut Vec<Item>, rooms: &[Room]) -> Result<(), Memory>
    ensures { OnOk result (items.new.items ≡ items.old.items ++ map room_item rooms.now) }
{
    for room in rooms {
        items.push(room_item(room))?;
    }
    Ok(())
}

// Whether a class has no bytes in the file.
fn is_zeros(class: OutClass) -> bool
    ensures { result ≡ contents.is_zeros class }
{
    match class {
        OutClass::R => false,
        OutClass::X => false,
        OutClass::W => false,
        OutClass::T => false,
        OutClass::Z => true,
        OutClass::B => true,
    }
}

// The type in the file of a section of this type.
fn plain_kind(kind: u32) -> u32
    ensures { result ≡ contents.plain_kind kind }
{
    if kind == SHT_X86_64_UNWIND {
        SHT_PROGBITS
    } else {
        kind
    }
}

// The type of the first piece.
fn first_kind(pieces: &[Piece<'_>]) -> u32
    ensures { result ≡ contents.first_kind pieces.now }
{
    match pieces {
        [] => SHT_NOBITS,
        [first, ..] => plain_kind(first.input.kind),
    }
}

// Whether a piece is executed.
fn is_executed(piece: &Piece<'_>) -> bool
    ensures { result ≡ meant.is_executable piece.now.input }
{
    piece.input.flags / SHF_EXECINSTR % 2 == 1
}

// Whether one of the pieces is.
fn has_executed(pieces: &[Piece<'_>]) -> bool
    ensures { result ≡ list_any (λ p. meant.is_executable p.input) pieces.now }
{
    pieces.iter().any(|piece| is_executed(piece))
}

// Whether common symbols stand in the output section.
fn is_bss(name: &[u8], class: OutClass) -> bool
    ensures { result ≡ meant.same_output (record { name = name.now; class = class }) bss }
{
    match class {
        OutClass::R => false,
        OutClass::X => false,
        OutClass::W => false,
        OutClass::T => false,
        OutClass::Z => false,
        OutClass::B => name == b".bss".as_slice(),
    }
}

// What stands in an output section, by its pieces in order.
fn items_of(
    alloc: Global,
    group: &Grouped<'_>,
    pieces: &[Piece<'_>],
    rooms: &[Room],
) -> Result<Vec<Item>, Memory>
    ensures { IfOk result (λ items. items.items
        ≡ map piece_item pieces.now ++ map room_item (rooms_in rooms.now group.now.output)) }
{
    let mut items = Vec::with_capacity(alloc, pieces.len())?;
    push_pieces(&mut items, pieces)?;
    if is_bss(group.name, group.class) {
        push_rooms(&mut items, rooms)?;
    }
    Ok(items)
}

/// The output section of these pieces, with the rooms of the common symbols of the link: its pieces by
/// priority, those of one priority in their order, and in `.bss` the common symbols behind them.
#[tactic(auto, unfolding(crate::specs::Fills::filled_by))]
pub fn fill(alloc: Global, group: &Grouped<'_>, rooms: &[Room]) -> Result<FilledOutput, Memory>
    ensures { IfOk result (λ output. output ≡ filled_by rooms.now group.now) }
{
    let pieces = ordered(alloc, group.pieces.as_slice())?;
    let kind = if is_zeros(group.class) {
        SHT_NOBITS
    } else {
        first_kind(&pieces)
    };
    Ok(FilledOutput {
        name: Text::from_slice(alloc, group.name)?,
        class: group.class,
        kind,
        executable: has_executed(&pieces),
        items: List::from_vec(items_of(alloc, group, &pieces, rooms)?),
    })
}

// Whether one of the output sections is the .bss that has common symbols.
fn has_bss(groups: &[Grouped<'_>]) -> bool
    ensures { result ≡ list_any (λ g. meant.same_output g.output bss) groups.now }
{
    groups.iter().any(|group| is_bss(group.name, group.class))
}

// A .bss that only common symbols make.
fn fill_bss(alloc: Global, rooms: &[Room]) -> Result<FilledOutput, Memory>
    ensures { IfOk result (λ output. output ≡ filled_by rooms.now (empty_group bss)) }
{
    let group = Grouped {
        name: b".bss",
        class: OutClass::B,
        pieces: Vec::new(alloc),
    };
    fill(alloc, &group, rooms)
}

// Appends the output sections, filled.
fn push_filled(
    alloc: Global,
    all: &mut Vec<FilledOutput>,
    groups: &[Grouped<'_>],
    rooms: &[Room],
) -> Result<(), Memory>
    ensures { OnOk result (all.new.items ≡ all.old.items ++ map (filled_by rooms.now) groups.now) }
{
    for group in groups {
        all.push(fill(alloc, group, rooms)?)?;
    }
    Ok(())
}

/// All output sections, filled, and last a `.bss` that only common symbols make.
pub fn fill_all(
    alloc: Global,
    groups: &[Grouped<'_>],
    rooms: &[Room],
) -> Result<Vec<FilledOutput>, Memory>
    ensures { IfOk result (λ all. all.items ≡ all_filled rooms.now groups.now) }
{
    let mut all = Vec::new(alloc);
    push_filled(alloc, &mut all, groups, rooms)?;
    if !rooms.is_empty() && !has_bss(groups) {
        all.push(fill_bss(alloc, rooms)?)?;
    }
    Ok(all)
}
