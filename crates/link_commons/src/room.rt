//! The room of each common symbol.

ghost use Rattle.std.specs.Prelude.{◌≡◌, ◌++◌, map, IfOk, OnOk, if◌then◌else◌, ◌∷◌, []};
ghost use Rattle.link_core.specs.Planned.{Planned};
ghost use Rattle.link_commons.specs.Asked.{asked_in};
ghost use Rattle.link_commons.specs.Rooms.{is_common, room_with, rooms_of, rooms_if};

use crate::asked::{Asked, asked_by, asked_for};
use elf_object::Object;
use ifs_bytes::Memory;
use link_core::{Bound, NameRow, Resolution};
use std::alloc::Global;
use std::collections::BTreeMap;

/// The room of a common symbol.
#[derive(Clone, Copy, Debug, PartialEq, Eq)]
pub struct Room {
    /// The position of the symbol's name among the names of the link.
    pub name: u64,
    /// Its alignment in bytes, 1 or more.
    pub align: u64,
    /// How many bytes it has.
    pub size: u64,
}

// Whether a name is a common symbol's.
fn is_common(bound: Bound) -> bool
    ensures { result ≡ is_common bound }
{
    match bound {
        Bound::Object(_, _) => false,
        Bound::Common => true,
        Bound::Provided => false,
        Bound::Library(_) => false,
        Bound::Import => false,
        Bound::Zero => false,
    }
}

// The room of the name at this position, under which this is asked for.
fn room_with(name: usize, asked: Asked) -> Room
    ensures { result ≡ room_with name asked }
{
    Room {
        name: name as u64,
        align: asked.align.max(1),
        size: asked.size,
    }
}

// Appends the room of the name at this position, if it is a common symbol's.
fn push_room(
    rooms: &mut Vec<Room>,
    asked: &BTreeMap<&[u8], Asked>,
    at: usize,
    row: &NameRow,
) -> Result<(), Memory>
    ensures { OnOk result (rooms.new.items ≡ rooms.old.items ++ rooms_if (asked_in asked.now) (at, row.now)) }
{
    if is_common(row.bound) {
        let room = room_with(at, asked_for(asked, row.name.as_bytes()));
        Ok(rooms.push(room)?)
    } else {
        Ok(())
    }
}

/// The room of each common symbol, in order of the names: how much the objects ask for under its name.
pub fn rooms(alloc: Global, objects: &[Object], r: &Resolution) -> Result<Vec<Room>, Memory>
    ensures { IfOk result (λ rooms. (j : Planned) → j.objects ≡ objects.now → j.names ≡ r.now → rooms.items ≡ rooms_of j) }
{
    let asked = asked_by(alloc, objects)?;
    let mut rooms = Vec::new(alloc);
    for (at, row) in r.names.as_slice().iter().enumerate() {
        push_room(&mut rooms, &asked, at, row)?;
    }
    Ok(rooms)
}
