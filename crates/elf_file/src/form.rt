//! The form of a file: the byte order and the width of its fields.

use ifs_bytes::{Order, Width};

/// One of the four forms of ELF files (gABI, "ELF Identification").
#[derive(Clone, Copy, Debug, PartialEq, Eq)]
pub struct Form {
    /// The byte order of numbers.
    pub order: Order,
    /// The size of addresses, offsets and sizes.
    pub width: Width,
}
