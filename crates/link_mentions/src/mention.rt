//! What one row of an object says of a name.

ghost use Rattle.std.specs.Prelude.{◌≡◌};
ghost use Rattle.link_core.specs.Mentions.{is_placed, is_common_place};

use elf_object::{ObjPlace, ObjSymbol};
use link_core::STB_WEAK;
use std::marker::Model;

/// A mention of a name: a row of an object that other objects see.
#[derive(Debug, Drop)]
pub struct Mention<'a> {
    object: u32,
    row: u32,
    place: ObjPlace,
    symbol: &'a ObjSymbol,
}

impl<'a> Model for Mention<'a> {
    ghost use Rattle.link_core.specs.Mentions as said;

    ghost Value = { said.Mention };

    ghost view = { λ m. record { object = m.object; row = m.row; symbol = record m.symbol.now { place = m.place } } };
}

// Whether a symbol stands somewhere.
fn is_placed(place: ObjPlace) -> bool
    ensures { result ≡ is_placed place }
{
    match place {
        ObjPlace::Undefined => false,
        ObjPlace::Absolute => true,
        ObjPlace::Common => false,
        ObjPlace::In(_) => true,
    }
}

// Whether a symbol is room that is asked for.
fn is_common_place(place: ObjPlace) -> bool
    ensures { result ≡ is_common_place place }
{
    match place {
        ObjPlace::Undefined => false,
        ObjPlace::Absolute => false,
        ObjPlace::Common => true,
        ObjPlace::In(_) => false,
    }
}

impl<'a> Mention<'a> {
    ghost use Rattle.link_core.specs.Mentions as said;

    /// What the row of this number of the object at this position says, where its symbol has this place.
    pub fn new(object: u32, row: u32, place: ObjPlace, symbol: &'a ObjSymbol) -> Mention<'a>
        ensures { result ≡ record { object = object; row = row; symbol = record symbol.now { place = place } } }
    {
        Mention {
            object,
            row,
            place,
            symbol,
        }
    }

    /// The position of the object.
    pub fn object(&self) -> u32
        ensures { result ≡ self.now.object }
    {
        self.object
    }

    /// The row of its symbol table.
    pub fn row(&self) -> u32
        ensures { result ≡ self.now.row }
    {
        self.row
    }

    /// The name.
    pub fn name(&self) -> &'a [u8]
        ensures { result.now ≡ self.now.symbol.name }
    {
        self.symbol.name.as_bytes()
    }

    /// Its type, the low half of st_info.
    pub fn kind(&self) -> u8
        ensures { result ≡ self.now.symbol.kind }
    {
        self.symbol.kind
    }

    /// Its visibility.
    pub fn visibility(&self) -> u8
        ensures { result ≡ self.now.symbol.visibility }
    {
        self.symbol.visibility
    }

    /// Its value: where it asks for room, the alignment of that.
    pub fn value(&self) -> u64
        ensures { result ≡ self.now.symbol.value }
    {
        self.symbol.value
    }

    /// How many bytes it has.
    pub fn size(&self) -> u64
        ensures { result ≡ self.now.symbol.size }
    {
        self.symbol.size
    }

    /// Whether it is STB_WEAK.
    pub fn is_weak(&self) -> bool
        ensures { result ≡ said.is_weak self.now }
    {
        self.symbol.binding == STB_WEAK
    }

    /// Whether it defines the name.
    pub fn is_definition(&self) -> bool
        ensures { result ≡ said.is_definition self.now }
    {
        is_placed(self.place)
    }

    /// Whether it defines the name, and isn't weak.
    pub fn is_strong_definition(&self) -> bool
        ensures { result ≡ said.is_strong_definition self.now }
    {
        self.is_definition() && !self.is_weak()
    }

    /// Whether it asks for room for the name (SHN_COMMON).
    pub fn is_common(&self) -> bool
        ensures { result ≡ said.is_common self.now }
    {
        is_common_place(self.place)
    }

    /// Whether it wants the name from elsewhere, and a link fails without it.
    pub fn is_strong_want(&self) -> bool
        ensures { result ≡ said.is_strong_want self.now }
    {
        !self.is_definition() && !self.is_common() && !self.is_weak()
    }
}
