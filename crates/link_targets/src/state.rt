//! What a symbol is to the made file.

ghost use Rattle.std.specs.Prelude.{◌≡◌};
ghost use Rattle.std.specs.Option.{option_copied};
ghost use Rattle.link_core.specs.OutputNames as outputs;
ghost use Rattle.link_core.specs.References as meant;

use elf_object::{ObjPlace, ObjSection, ObjSymbol, Object};
use ifs_interface::Fact;
use link_core::{Bound, NameRow, RefState, SHF_TLS};

/// Whether each thread has a section for itself.
pub fn is_threaded(section: &ObjSection) -> bool
    ensures { result ≡ outputs.is_threaded section.now }
{
    section.flags / SHF_TLS % 2 == 1
}

// Whether the section of that number is there, and each thread has it for itself.
pub fn is_threaded_in(object: &Object, section: u32) -> bool
    ensures { result ≡ meant.is_threaded_in object.now section }
{
    match object.sections().get(section as usize) {
        Some(section) => is_threaded(section),
        None => false,
    }
}

// A row of an object.
fn symbol_of(objects: &[Object], object: u32, row: u32) -> Option<&ObjSymbol>
    ensures { option_copied result ≡ meant.symbol_of objects.now object row }
{
    match objects.get(object as usize) {
        Some(object) => object.symbols().get(row as usize),
        None => None,
    }
}

// Where the row of an object is defined.
fn place_of(objects: &[Object], object: u32, row: u32) -> ObjPlace
    ensures { result ≡ meant.place_of objects.now object row }
{
    match symbol_of(objects, object, row) {
        Some(symbol) => symbol.place,
        None => ObjPlace::Undefined,
    }
}

// What a definition is: it has a place in a section, or only a value.
fn state_at(place: ObjPlace) -> RefState
    ensures { result ≡ meant.state_at place }
{
    match place {
        ObjPlace::Undefined | ObjPlace::Absolute | ObjPlace::Common => RefState::Abs,
        ObjPlace::In(_) => RefState::Own,
    }
}

// What is bound so is, where the made file's own definition counts.
fn state_by(objects: &[Object], bound: Bound) -> RefState
    ensures { result ≡ meant.state_by objects.now bound }
{
    match bound {
        Bound::Object(object, row) => state_at(place_of(objects, object, row)),
        Bound::Common | Bound::Provided => RefState::Own,
        Bound::Library(_) | Bound::Import => RefState::Imp,
        Bound::Zero => RefState::Zero,
    }
}

/// What a name is to the made file.
#[tactic(auto, unfolding(link_core::specs::References::state_of_name))]
pub fn state_of_name(objects: &[Object], row: &NameRow) -> RefState
    ensures { result ≡ meant.state_of_name objects.now row.now }
{
    if row.preemptible {
        RefState::Imp
    } else {
        state_by(objects, row.bound)
    }
}

// Whether a place is in a section that each thread has for itself.
fn is_threaded_at(objects: &[Object], object: u32, place: ObjPlace) -> bool
    ensures { result ≡ meant.is_threaded_at objects.now object place }
{
    match place {
        ObjPlace::Undefined | ObjPlace::Absolute | ObjPlace::Common => false,
        ObjPlace::In(section) => match objects.get(object as usize) {
            Some(object) => is_threaded_in(object, section),
            None => false,
        },
    }
}

// Whether what is bound so is thread-local, by where it stands.
fn is_threaded_by(objects: &[Object], bound: Bound) -> bool
    ensures { result ≡ meant.is_threaded_by objects.now bound }
{
    match bound {
        Bound::Object(object, row) => {
            is_threaded_at(objects, object, place_of(objects, object, row))
        }
        Bound::Common | Bound::Provided | Bound::Library(_) | Bound::Import | Bound::Zero => false,
    }
}

fn is_tls(class: Fact) -> bool
    ensures { result ≡ meant.is_tls class }
{
    match class {
        Fact::Tls => true,
        Fact::NoType | Fact::Func | Fact::Object => false,
    }
}

fn is_imported(state: RefState) -> bool
    ensures { result ≡ meant.is_imported state }
{
    match state {
        RefState::Imp => true,
        RefState::Own | RefState::Abs | RefState::Zero => false,
    }
}

/// Whether a name is thread-local: what is found when the file is loaded by its class, the rest by where it
/// stands.
#[tactic(auto, unfolding(link_core::specs::References::is_threaded_name))]
pub fn is_threaded_name(objects: &[Object], row: &NameRow) -> bool
    ensures { result ≡ meant.is_threaded_name objects.now row.now }
{
    if is_imported(state_of_name(objects, row)) {
        is_tls(row.class)
    } else {
        is_threaded_by(objects, row.bound)
    }
}
