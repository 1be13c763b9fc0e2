//! What a symbol is to the made file.

ghost use Rattle.std.specs.Prelude.{◌≡◌};
ghost use Rattle.link_core.specs.References as references;
ghost use Rattle.link_tables.specs.States as meant;

use elf_object::{ObjPlace, Object};
use link_core::{Bound, NameRow, RefState, SymbolId};

// Where the row of an object is defined.
fn place_of(objects: &[Object], object: u32, row: u32) -> ObjPlace
    ensures { result ≡ references.place_of objects.now object row }
{
    match objects.get(object as usize) {
        None => ObjPlace::Undefined,
        Some(object) => match object.symbols().get(row as usize) {
            None => ObjPlace::Undefined,
            Some(symbol) => symbol.place,
        },
    }
}

// What a definition is: a place in a section, or a number.
fn state_at(place: ObjPlace) -> RefState
    ensures { result ≡ references.state_at place }
{
    match place {
        ObjPlace::Undefined => RefState::Abs,
        ObjPlace::Absolute => RefState::Abs,
        ObjPlace::Common => RefState::Abs,
        ObjPlace::In(_) => RefState::Own,
    }
}

// What a name is by what it is bound to.
fn state_by(objects: &[Object], bound: Bound) -> RefState
    ensures { result ≡ references.state_by objects.now bound }
{
    match bound {
        Bound::Object(object, row) => state_at(place_of(objects, object, row)),
        Bound::Common => RefState::Own,
        Bound::Provided => RefState::Own,
        Bound::Library(_) => RefState::Imp,
        Bound::Import => RefState::Imp,
        Bound::Zero => RefState::Zero,
    }
}

// What a name is.
#[tactic(auto, unfolding(link_core::specs::References::state_of_name))]
fn state_of_name(objects: &[Object], row: &NameRow) -> RefState
    ensures { result ≡ references.state_of_name objects.now row.now }
{
    if row.preemptible {
        RefState::Imp
    } else {
        state_by(objects, row.bound)
    }
}

// What the name at a position is.
fn name_state(objects: &[Object], names: &[NameRow], n: u64) -> RefState
    ensures { result ≡ meant.name_state objects.now names.now n }
{
    match names.get(n as usize) {
        None => RefState::Zero,
        Some(row) => state_of_name(objects, row),
    }
}

// What a local symbol is.
fn local_state(objects: &[Object], object: u32, row: u32) -> RefState
    ensures { result ≡ meant.local_state objects.now object row }
{
    if row == 0 {
        RefState::Abs
    } else {
        state_at(place_of(objects, object, row))
    }
}

/// What a symbol is to the made file, by the names of the link; a name that isn't there stands for 0.
#[tactic(auto, unfolding(crate::specs::States::state_of))]
pub fn state_of(objects: &[Object], names: &[NameRow], symbol: SymbolId) -> RefState
    ensures { result ≡ meant.state_of objects.now names.now symbol }
{
    match symbol {
        SymbolId::Name(n) => name_state(objects, names, n),
        SymbolId::Local(object, row) => local_state(objects, object, row),
        SymbolId::Module => RefState::Own,
    }
}
