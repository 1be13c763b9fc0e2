//! Where the parts of a library stand in its file.

use ifs_bytes::{Order, Width};

/// A string table: its offset and its size in bytes.
#[derive(Clone, Copy, Debug, PartialEq, Eq)]
pub struct Strings {
    pub from: u64,
    pub size: u64,
}

/// The dynamic entries: the offset of the first, and for how many their table has room.
#[derive(Clone, Copy, Debug, PartialEq, Eq)]
pub struct Entries {
    pub order: Order,
    pub width: Width,
    pub from: u64,
    pub room: u64,
}

/// The rows of the dynamic symbol table: the offset of row 0, and how many there are.
#[derive(Clone, Copy, Debug, PartialEq, Eq)]
pub struct Rows {
    pub order: Order,
    pub width: Width,
    pub from: u64,
    pub count: u64,
}

/// Where a library's parts stand in its file, by its sections or by its segments: all that is read once the
/// headers were.
#[derive(Clone, Copy, Debug, PartialEq, Eq)]
pub struct Places {
    pub entries: Entries,
    pub entry_strings: Strings,
    pub rows: Rows,
    pub row_strings: Strings,
}
