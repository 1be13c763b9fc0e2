//! What the references of a link need.

use crate::refusal::At;
use ifs_bytes::List;

/// What a slot of .got is for.
#[derive(Clone, Copy, Debug, PartialEq, Eq, Hash)]
pub enum Slot {
    /// An address: one slot.
    Got,
    /// An offset from the thread pointer: one slot.
    Tp,
    /// A module and an offset in its thread-local storage: a pair of slots.
    TlsPair,
    /// The made file's own module and the offset 0: a pair of slots.
    Module,
    /// A descriptor of a thread-local symbol: a pair of slots.
    Desc,
}

/// A symbol of a link.
#[derive(Clone, Copy, Debug, PartialEq, Eq, Hash)]
pub enum SymbolId {
    /// The name at this position of the resolution's names.
    Name(u64),
    /// The local symbol of the object at this position, in this row of its symbol table. Row 0 stands for all its
    /// symbols that have no section and no value.
    Local(u32, u32),
    /// The made file itself.
    Module,
}

/// A slot of .got, or a pair of slots.
#[derive(Clone, Copy, Debug, PartialEq, Eq, Hash)]
pub struct GotSlot {
    /// Whose it is.
    pub symbol: SymbolId,
    /// What it is for.
    pub slot: Slot,
}

/// A dynamic relocation of a field in a section.
#[derive(Clone, Copy, Debug, PartialEq, Eq)]
pub struct DynReloc {
    /// The reference that it stands for.
    pub at: At,
    /// The name that a loader looks up, by its position; None exactly where `relative` is true.
    pub symbol: Option<u64>,
    /// Whether a loader adds the load address alone.
    pub relative: bool,
}

/// What the references of a link need, each once, in order of the first need.
#[derive(Debug, PartialEq, Eq, Drop)]
pub struct Plan {
    /// The slots and pairs of .got.
    pub got: List<GotSlot>,
    /// The names with an entry in .plt, by their positions.
    pub plt: List<u64>,
    /// The dynamic relocations of fields of sections, in the order of the references.
    pub moves: List<DynReloc>,
    /// The names that the made file wants from libraries, by their positions, in name order.
    pub imports: List<u64>,
    /// The names that it defines for others, by their positions, in name order.
    pub exports: List<u64>,
}
