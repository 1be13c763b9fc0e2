//! Output sections with what stands in them.

use ifs_bytes::{List, Text};
use link_core::OutClass;

/// What stands in an output section.
#[derive(Clone, Copy, Debug, PartialEq, Eq)]
pub enum Thing {
    /// The section of the object: the position of the object, and the number of the section.
    Piece(u32, u32),
    /// The common symbol of the name at this position.
    Common(u64),
}

/// A thing, with the room that it asks for.
#[derive(Clone, Copy, Debug, PartialEq, Eq)]
pub struct Item {
    /// What it is.
    pub thing: Thing,
    /// Its alignment in bytes; 0 counts as 1.
    pub align: u64,
    /// Its size in bytes.
    pub size: u64,
}

/// An output section.
#[derive(Debug, PartialEq, Eq, Drop)]
pub struct FilledOutput {
    /// Its name.
    pub name: Text,
    /// What it needs of memory.
    pub class: OutClass,
    /// Its type, sh_type.
    pub kind: u32,
    /// Whether one of its pieces is executed.
    pub executable: bool,
    /// What stands in it, in order.
    pub items: List<Item>,
}
