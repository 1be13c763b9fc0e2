//! The words that a link and its machine share.

/// What a relocation type asks of the link, whatever bits it patches.
#[derive(Clone, Copy, Debug, PartialEq, Eq)]
pub enum RefClass {
    /// Nothing is patched.
    Nothing,
    /// An address of 64 bits.
    Abs64,
    /// An address that has to fit fewer bits.
    Abs32,
    /// An address as seen from the place, or a part of one.
    Pc,
    /// A call or a jump, which may go through the procedure linkage table.
    Call,
    /// The slot that holds the symbol's address.
    Got,
    /// The symbol's distance from the thread pointer (local exec).
    Le,
    /// The slot that holds that distance (initial exec).
    Ie,
    /// The pair of slots of module and offset (general dynamic).
    Gd,
    /// The pair of slots of this module (local dynamic).
    Ld,
    /// The symbol's offset in its module's block.
    Dtp,
    /// The pair of slots of a descriptor.
    Desc,
}

/// What the formulas of the relocation types speak of, by the names of the psABIs.
#[derive(Clone, Copy, Debug, PartialEq, Eq)]
pub struct Values {
    /// S, the address of the symbol.
    pub s: u64,
    /// A, the addend.
    pub a: i64,
    /// P, the address of the field.
    pub p: u64,
    /// G, the address of the symbol's slot in the global offset table.
    pub g: u64,
    /// L, the address of the symbol's entry in the procedure linkage table, or of the symbol.
    pub l: u64,
    /// The symbol's distance from the thread pointer.
    pub tp: i128,
    /// The symbol's offset in the block of thread-local storage.
    pub off: u64,
}

/// Why a value doesn't go into a field.
#[derive(Clone, Copy, Debug, PartialEq, Eq)]
pub enum PatchCause {
    /// The value isn't in the range of the relocation type; it is carried.
    Overflow(i128),
    /// The value is in the range, and not a multiple of what the type asks for.
    Misaligned,
}
