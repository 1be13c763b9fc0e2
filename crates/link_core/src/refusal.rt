//! Why a link is refused.

ghost use Rattle.std.specs.Prelude.{◌≡◌, IfOk};

use crate::input::LibCause;
use elf_object::ObjectCause;
use ifs_bytes::{Memory, Text};
use std::alloc::{AllocError, AllocFailed, Global};

/// The place of a reference: an entry of a relocation table.
#[derive(Clone, Copy, Debug, PartialEq, Eq)]
pub struct At {
    /// The position of the object among the objects of the link.
    pub object: u32,
    /// The number of the section that the reference patches.
    pub section: u32,
    /// The position of the reference in the relocation table of that section.
    pub index: u32,
}

/// An input of a link, by its position.
#[derive(Clone, Copy, Debug, PartialEq, Eq)]
pub enum Place {
    /// The object at this position.
    Object(u32),
    /// The library at this position.
    Library(u32),
}

/// Why a link is refused. Of the causes that hold, the first in this order is given.
#[derive(Debug, PartialEq, Eq, Drop)]
pub enum LinkRefusal {
    /// The object at this position can't be read.
    BadObject(u32, ObjectCause),
    /// The library at this position can't be read.
    BadLibrary(u32, LibCause),
    /// The library at this position defines symbol versions.
    Versioned(u32),
    /// The input is for a machine that can't be linked for, or for another one than the first object.
    MachineMismatch(Place),
    /// Two objects, or one of them twice, define the name: their positions.
    Duplicate(Text, u32, u32),
    /// The name isn't default, so no library may define it, and no object does.
    HiddenUndefined(Text),
    /// Nothing defines the name, which the object at this position wants.
    Undefined(Text, u32),
    /// Nothing defines the name, which the library at this position wants.
    LibraryUndefined(Text, u32),
    /// No object defines the name at which the program starts.
    NoEntry(Text),
    /// The reference has this type, which isn't taken, or not there.
    Unsupported(At, u32),
    /// The reference is to a section that was left out.
    Discarded(At),
    /// The reference takes the symbol for thread-local and it isn't, or the other way round.
    TlsMismatch(At),
    /// The reference would need a dynamic relocation in a section that isn't writable.
    TextRelocation(At),
    /// The reference has a type that works at a fixed address alone.
    NotPic(At),
    /// The reference would need a copy of the library's data of this name.
    CopyRelocation(Text, At),
    /// The reference would need an address of its own for the library's function of this name.
    CanonicalPlt(Text, At),
    /// A limit of the image: the size or number that is above it, or 2^64 - 1 where that is greater.
    ImageTooLarge(u64),
    /// The value of the reference, which isn't in the range of its type.
    Overflow(At, i128),
    /// The value of the reference isn't a multiple of what its type asks for.
    Misaligned(At),
}

impl LinkRefusal {
    /// An equal refusal.
    pub fn copy(&self, alloc: Global) -> Result<LinkRefusal, Memory>
        ensures { IfOk result (λ copy. copy ≡ self.now) }
    {
        Ok(match self {
            LinkRefusal::BadObject(at, cause) => LinkRefusal::BadObject(*at, *cause),
            LinkRefusal::BadLibrary(at, cause) => LinkRefusal::BadLibrary(*at, cause.copy(alloc)?),
            LinkRefusal::Versioned(at) => LinkRefusal::Versioned(*at),
            LinkRefusal::MachineMismatch(place) => LinkRefusal::MachineMismatch(*place),
            LinkRefusal::Duplicate(name, one, other) => {
                LinkRefusal::Duplicate(name.copy(alloc)?, *one, *other)
            }
            LinkRefusal::HiddenUndefined(name) => LinkRefusal::HiddenUndefined(name.copy(alloc)?),
            LinkRefusal::Undefined(name, at) => LinkRefusal::Undefined(name.copy(alloc)?, *at),
            LinkRefusal::LibraryUndefined(name, at) => {
                LinkRefusal::LibraryUndefined(name.copy(alloc)?, *at)
            }
            LinkRefusal::NoEntry(name) => LinkRefusal::NoEntry(name.copy(alloc)?),
            LinkRefusal::Unsupported(at, kind) => LinkRefusal::Unsupported(*at, *kind),
            LinkRefusal::Discarded(at) => LinkRefusal::Discarded(*at),
            LinkRefusal::TlsMismatch(at) => LinkRefusal::TlsMismatch(*at),
            LinkRefusal::TextRelocation(at) => LinkRefusal::TextRelocation(*at),
            LinkRefusal::NotPic(at) => LinkRefusal::NotPic(*at),
            LinkRefusal::CopyRelocation(name, at) => {
                LinkRefusal::CopyRelocation(name.copy(alloc)?, *at)
            }
            LinkRefusal::CanonicalPlt(name, at) => {
                LinkRefusal::CanonicalPlt(name.copy(alloc)?, *at)
            }
            LinkRefusal::ImageTooLarge(size) => LinkRefusal::ImageTooLarge(*size),
            LinkRefusal::Overflow(at, value) => LinkRefusal::Overflow(*at, *value),
            LinkRefusal::Misaligned(at) => LinkRefusal::Misaligned(*at),
        })
    }
}

/// Why a part of a link came to no end.
#[derive(Debug, PartialEq, Eq, Drop)]
pub enum LinkStop {
    /// The link is refused.
    Refused(LinkRefusal),
    /// Memory ran out.
    Memory,
}

impl From<Memory> for LinkStop {
    ghost use Rattle.std.specs.Prelude.{◌≡◌};
    ghost use Rattle.link_core.specs.declared.refusal.LinkStop.TheVariants as stops;

    ghost from_gives = { λ _ stop. stop ≡ stops.Memory };

    fn from(_error: Memory) -> LinkStop {
        LinkStop::Memory
    }
}

impl From<AllocError> for LinkStop {
    ghost use Rattle.std.specs.Prelude.{◌≡◌};
    ghost use Rattle.link_core.specs.declared.refusal.LinkStop.TheVariants as stops;

    ghost from_gives = { λ _ stop. stop ≡ stops.Memory };

    fn from(_error: AllocError) -> LinkStop {
        LinkStop::Memory
    }
}

impl<T: Drop> From<AllocFailed<T>> for LinkStop {
    ghost use Rattle.std.specs.Prelude.{◌≡◌};
    ghost use Rattle.link_core.specs.declared.refusal.LinkStop.TheVariants as stops;

    ghost from_gives = { λ _ stop. stop ≡ stops.Memory };

    fn from(_error: AllocFailed<T>) -> LinkStop {
        LinkStop::Memory
    }
}

/// The answer of a link.
#[derive(Debug, PartialEq, Eq, Drop)]
pub enum Answer {
    /// The bytes of the file that was made.
    Image(Text),
    /// Why there is none.
    Refused(LinkRefusal),
}
