//! A row of a dynamic symbol table.

use ifs_bytes::Text;

/// A visible row of a library's dynamic symbol table (gABI, "Symbol Table").
#[derive(Debug, PartialEq, Eq, Drop)]
pub struct DynRow {
    /// The symbol's name, never empty.
    pub name: Text,
    /// The binding, the high half of st_info: 1 is GLOBAL, 2 is WEAK; never 0, LOCAL.
    pub binding: u8,
    /// The type, the low half of st_info, as STT_FUNC, 2.
    pub kind: u8,
    /// The section index, 0 where the symbol is undefined.
    pub shndx: u16,
    /// The symbol's address or offset.
    pub value: u64,
    /// The symbol's size in bytes, 0 where it has none.
    pub size: u64,
}
