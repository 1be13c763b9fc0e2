//! What one reference needs.

use crate::plan::Slot;

/// What the symbol of a reference is to the made file.
#[derive(Clone, Copy, Debug, PartialEq, Eq)]
pub enum RefState {
    /// Something in the made file, at a place that moves with it.
    Own,
    /// A number.
    Abs,
    /// An undefined weak name that stands for 0.
    Zero,
    /// Something that is found when the file is loaded.
    Imp,
}

/// What a reference needs.
#[derive(Clone, Copy, Debug, PartialEq, Eq)]
pub enum Need {
    /// Nothing more: its field takes its value.
    Value,
    /// A slot or a pair of .got.
    Slot(Slot),
    /// An entry of .plt.
    Plt,
    /// A dynamic relocation that adds the load address.
    Relative,
    /// A dynamic relocation that looks the name up.
    Symbolic,
    /// Nothing, since what it speaks of was left out: its field becomes 0.
    Clear,
}

/// Why a reference can't have what it needs.
#[derive(Clone, Copy, Debug, PartialEq, Eq)]
pub enum Unmet {
    /// A dynamic relocation in a section that isn't writable.
    TextRelocation,
    /// A place that is known when the file is made.
    NotPic,
    /// A copy of data of a library.
    CopyRelocation,
    /// An address in the program for a function of a library.
    CanonicalPlt,
}
