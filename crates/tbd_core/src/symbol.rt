//! The symbols of a dynamic library, with the targets that each is there for.

ghost use Rattle.std.specs.Prelude.{◌≡◌, IfOk};
ghost use Rattle.std.specs.Ordering.{nat_cmp};
ghost use Rattle.std.specs.Cmp.Lexicographic.{slice_cmp};
ghost use Rattle.tbd_core.specs.Keys.{section_rank, kind_rank, part_rank, key_of};

use ifs_bytes::{List, Memory, Text};
use std::alloc::Global;
use std::cmp::Ordering;

/// Where a symbol stands to the library.
#[derive(Clone, Copy, Debug, PartialEq, Eq)]
pub enum Section {
    /// The library defines it and offers it.
    Exported,
    /// The library offers it from another library.
    Reexported,
    /// The library wants it from elsewhere.
    Undefined,
}

/// What a symbol is.
#[derive(Clone, Copy, Debug, PartialEq, Eq)]
pub enum SymbolKind {
    /// A symbol of C or the like.
    Global,
    /// A class of Objective-C.
    ObjcClass,
    /// The exception type of a class of Objective-C.
    ObjcEhType,
    /// An instance variable of a class of Objective-C.
    ObjcIvar,
    /// A weak symbol: a weak definition, or a weak reference where it is undefined.
    Weak,
    /// Thread-local data.
    ThreadLocal,
}

/// The part of the library that a symbol is in.
#[derive(Clone, Copy, Debug, PartialEq, Eq)]
pub enum Part {
    /// It isn't known which.
    Any,
    /// The data segments.
    Data,
    /// The text segment.
    Code,
}

/// A symbol, and the positions of the targets that it is there for.
#[derive(Debug, PartialEq, Eq, Drop)]
pub struct TbdSymbol {
    /// Where it stands to the library.
    pub section: Section,
    /// What it is.
    pub kind: SymbolKind,
    /// The part of the library that it is in.
    pub segment: Part,
    /// Its name: bytes, not empty, without NUL.
    pub name: Text,
    /// Positions in the library's list of targets, from 0.
    pub targets: List<u64>,
}

impl Section {
    /// The place in the order of sections.
    pub fn rank(self) -> u8
        ensures { result ≡ section_rank self }
    {
        match self {
            Section::Exported => 0,
            Section::Reexported => 1,
            Section::Undefined => 2,
        }
    }
}

impl SymbolKind {
    /// The place in the order of kinds.
    pub fn rank(self) -> u8
        ensures { result ≡ kind_rank self }
    {
        match self {
            SymbolKind::Global => 0,
            SymbolKind::ObjcClass => 1,
            SymbolKind::ObjcEhType => 2,
            SymbolKind::ObjcIvar => 3,
            SymbolKind::Weak => 4,
            SymbolKind::ThreadLocal => 5,
        }
    }
}

impl Part {
    /// The place in the order of parts.
    pub fn rank(self) -> u8
        ensures { result ≡ part_rank self }
    {
        match self {
            Part::Any => 0,
            Part::Data => 1,
            Part::Code => 2,
        }
    }
}

impl TbdSymbol {
    /// The order of symbols: by section, kind, segment, and then by the bytes of the name.
    pub fn order(&self, other: &TbdSymbol) -> Ordering
        ensures { result ≡ slice_cmp nat_cmp (key_of self.now) (key_of other.now) }
    {
        match self.section.rank().cmp(&other.section.rank()) {
            Ordering::Equal => {}
            unequal => return unequal,
        }
        match self.kind.rank().cmp(&other.kind.rank()) {
            Ordering::Equal => {}
            unequal => return unequal,
        }
        match self.segment.rank().cmp(&other.segment.rank()) {
            Ordering::Equal => self.name.cmp(&other.name),
            unequal => unequal,
        }
    }

    /// An equal symbol.
    pub fn copy(&self, alloc: Global) -> Result<TbdSymbol, Memory>
        ensures { IfOk result (λ copy. copy ≡ self.now) }
    {
        Ok(TbdSymbol {
            section: self.section,
            kind: self.kind,
            segment: self.segment,
            name: self.name.copy(alloc)?,
            targets: List::from_vec(Vec::from_slice(alloc, self.targets.as_slice())?),
        })
    }
}
