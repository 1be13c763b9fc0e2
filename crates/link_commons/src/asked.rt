//! What objects ask for under each name.

ghost use Rattle.std.specs.Prelude.{◌≡◌, ℕ, List, [], ◌∷◌, if◌then◌else◌, not, ◌&&◌, OnOk, IfOk};
ghost use Rattle.ifs_interface.specs.Triple.{same_name};
ghost use Rattle.link_core.specs.Mentions as said;
ghost use Rattle.link_commons.specs.Asked.{asked_in, asks, gathered, more, more_of, nothing};

use elf_object::{ObjPlace, ObjSymbol, Object};
use ifs_bytes::Memory;
use link_core::STB_LOCAL;
use std::alloc::Global;
use std::collections::BTreeMap;

/// The greatest alignment and the greatest size that are asked for.
#[derive(Clone, Copy, Debug, PartialEq, Eq)]
pub struct Asked {
    /// In bytes; 0 where nothing is asked for.
    pub align: u64,
    /// In bytes.
    pub size: u64,
}

/// Where nothing is asked for.
pub fn nothing() -> Asked
    ensures { result ≡ nothing }
{
    Asked { align: 0, size: 0 }
}

// What is asked for with one more row.
fn more(asked: Asked, row: &ObjSymbol) -> Asked
    ensures { result ≡ more asked row.now }
{
    Asked {
        align: asked.align.max(row.value),
        size: asked.size.max(row.size),
    }
}

// Whether a symbol has no place yet.
fn is_common_place(place: ObjPlace) -> bool
    ensures { result ≡ said.is_common_place place }
{
    match place {
        ObjPlace::Undefined => false,
        ObjPlace::Absolute => false,
        ObjPlace::Common => true,
        ObjPlace::In(_) => false,
    }
}

// Whether nothing is left of a name.
fn is_unnamed(name: &[u8]) -> bool
    ensures { result ≡ said.is_unnamed name.now }
{
    match name {
        [] => true,
        [_, ..] => false,
    }
}

// Whether a row asks for room under a name that other objects see.
fn is_room(row: &ObjSymbol) -> bool
    ensures { result ≡ (not (said.is_local row.now) && said.is_common_place row.now.place) }
{
    row.binding != STB_LOCAL && !is_unnamed(row.name.as_bytes()) && is_common_place(row.place)
}

/// What is asked for under the name.
pub fn asked_for(asked: &BTreeMap<&[u8], Asked>, name: &[u8]) -> Asked
    ensures { result ≡ asked_in asked.now name.now }
{
    match asked.get(name) {
        Some(found) => *found,
        None => nothing(),
    }
}

// Notes what a row asks for under its name.
fn note<'a>(asked: &mut BTreeMap<&'a [u8], Asked>, row: &'a ObjSymbol) -> Result<(), Memory>
    ensures { OnOk result ((q : List ℕ) → asked_in asked.new q
        ≡ (if same_name row.now.name q then more (asked_in asked.old q) row.now else asked_in asked.old q)) }
{
    let name = row.name.as_bytes();
    let now = more(asked_for(asked, name), row);
    asked.insert(name, now)?;
    Ok(())
}

// Notes a row, if it asks for room.
#[tactic(auto, using(crate::proofs::Noted::row_noted))]
fn note_row<'a>(asked: &mut BTreeMap<&'a [u8], Asked>, row: &'a ObjSymbol) -> Result<(), Memory>
    ensures { OnOk result ((q : List ℕ) → asked_in asked.new q ≡ more_of (asked_in asked.old q) (asks q) (row.now ∷ [])) }
{
    if is_room(row) {
        note(asked, row)
    } else {
        Ok(())
    }
}

// Notes the rows of an object.
fn note_rows<'a>(asked: &mut BTreeMap<&'a [u8], Asked>, rows: &'a [ObjSymbol]) -> Result<(), Memory>
    ensures { OnOk result ((q : List ℕ) → asked_in asked.new q ≡ more_of (asked_in asked.old q) (asks q) rows.now) }
{
    for row in rows {
        note_row(asked, row)?;
    }
    Ok(())
}

/// What the objects ask for, by name.
pub fn asked_by<'a>(
    alloc: Global,
    objects: &'a [Object],
) -> Result<BTreeMap<&'a [u8], Asked>, Memory>
    ensures { IfOk result (λ asked. (q : List ℕ) → asked_in asked q ≡ gathered q nothing objects.now) }
{
    let mut asked = BTreeMap::new(alloc);
    for object in objects {
        note_rows(&mut asked, object.symbols())?;
    }
    Ok(asked)
}
