//! A row of a machine's table of relocation types.

use crate::class::RefClass;

/// How a relocation type's value follows from the symbol, the addend and the place.
#[derive(Clone, Copy, Debug, PartialEq, Eq)]
pub enum Formula {
    /// 0.
    Zero,
    /// S + A.
    Symbol,
    /// S + A - P.
    SymbolFromPlace,
    /// Page(S + A) - Page(P).
    SymbolPageFromPlace,
    /// L + A - P.
    CallFromPlace,
    /// G.
    Slot,
    /// G + A - P.
    SlotFromPlace,
    /// Page(G) - Page(P).
    SlotPageFromPlace,
    /// OFF + A.
    Offset,
    /// TP + A.
    ThreadPointer,
}

/// The bits `[high:low]` of a value, which go into a field from its bit `at` on.
#[derive(Clone, Copy, Debug, PartialEq, Eq)]
pub struct Bits {
    /// The highest bit of the value that is taken.
    pub high: u32,
    /// The lowest one.
    pub low: u32,
    /// The bit of the field where the lowest one goes.
    pub at: u32,
}

/// Which bits of a field a value replaces; the others stay.
#[derive(Clone, Copy, Debug, PartialEq, Eq)]
pub enum Field {
    /// None.
    Unchanged,
    /// One run of bits.
    One(Bits),
    /// Two runs of bits, as in ADR and ADRP.
    Two(Bits, Bits),
}

/// Which values a relocation type takes.
#[derive(Clone, Copy, Debug, PartialEq, Eq)]
pub enum Range {
    /// All.
    Any,
    /// Those from the first number to below the second one.
    Within(i128, i128),
}

/// A row of a table of relocation types.
#[derive(Clone, Copy, Debug, PartialEq, Eq)]
pub struct Rule {
    /// What the type asks of the link.
    pub class: RefClass,
    /// Its value.
    pub formula: Formula,
    /// The size of its field in bytes: 0, 4 or 8.
    pub size: u64,
    /// The bits that the value replaces.
    pub field: Field,
    /// The values that it takes.
    pub range: Range,
    /// What a value has to be a multiple of.
    pub multiple: u32,
}
