//! Values of the rows of objects.

ghost use Rattle.std.specs.Prelude.{◌≡◌};
ghost use Rattle.std.specs.Option.{option_copied};
ghost use Rattle.link_core.specs.References.{symbol_of};
ghost use Rattle.link_values.specs.Rows as meant;

use elf_object::{ObjPlace, ObjSymbol, Object};
use link_where::Pieces;

/// The value of a row that is defined at a place with a value, modulo 2^64: 0 where it is defined nowhere.
pub fn place_value(pieces: &Pieces, object: u32, place: ObjPlace, value: u64) -> u64
    ensures { result ≡ meant.value_in pieces.now object place value }
{
    match place {
        ObjPlace::Undefined => 0,
        ObjPlace::Common => 0,
        ObjPlace::Absolute => value,
        ObjPlace::In(section) => pieces.address(object, section).wrapping_add(value),
    }
}

// The row of an object.
fn symbol_of(objects: &[Object], object: u32, row: u32) -> Option<&ObjSymbol>
    ensures { option_copied result ≡ symbol_of objects.now object row }
{
    let own = objects.get(object as usize)?;
    own.symbols().get(row as usize)
}

/// The value of a row of an object's symbol table, modulo 2^64; 0 where it isn't there.
pub fn row_value(objects: &[Object], pieces: &Pieces, object: u32, row: u32) -> u64
    ensures { result ≡ meant.row_in objects.now pieces.now object row }
{
    match symbol_of(objects, object, row) {
        Some(symbol) => place_value(pieces, object, symbol.place, symbol.value),
        None => 0,
    }
}

/// Law: by the pieces of a layout these are the values that the layout gives.
#[tactic(auto, using(crate::proofs::OfLayout::value_is, crate::proofs::OfLayout::row_is))]
pub fn values_are_of_the_layout()
    ensures places { meant.PlacesHaveValues }
    ensures rows { meant.RowsHaveValues }
{}
