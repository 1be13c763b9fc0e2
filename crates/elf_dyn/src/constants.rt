//! Numbers of the gABI, and the limits of a library.

/// e_type of a shared library ("ELF Header").
pub const ET_DYN: u16 = 3;
/// sh_type of a string table ("Sections").
pub const SHT_STRTAB: u32 = 3;
/// sh_type of the dynamic entries.
pub const SHT_DYNAMIC: u32 = 6;
/// sh_type of the dynamic symbol table.
pub const SHT_DYNSYM: u32 = 11;
/// p_type of a segment that is loaded ("Program Header").
pub const PT_LOAD: u32 = 1;
/// p_type of the dynamic entries.
pub const PT_DYNAMIC: u32 = 2;
/// d_tag behind the last entry ("Dynamic Section").
pub const DT_NULL: u64 = 0;
/// d_tag of a needed library's name.
pub const DT_NEEDED: u64 = 1;
/// d_tag of the address of the SysV hash table.
pub const DT_HASH: u64 = 4;
/// d_tag of the address of the string table.
pub const DT_STRTAB: u64 = 5;
/// d_tag of the address of the symbol table.
pub const DT_SYMTAB: u64 = 6;
/// d_tag of the string table's size.
pub const DT_STRSZ: u64 = 10;
/// d_tag of the library's own name.
pub const DT_SONAME: u64 = 14;
/// d_tag of the address of the GNU hash table.
pub const DT_GNU_HASH: u64 = 0x6fff_fef5;
/// d_tag of the address of the definitions of symbol versions.
pub const DT_VERDEF: u64 = 0x6fff_fffc;
/// The binding of a symbol that no other file sees ("Symbol Table").
pub const STB_LOCAL: u8 = 0;
/// The binding of a symbol that gives way to another of its name.
pub const STB_WEAK: u8 = 2;
/// The visibility of a symbol as its binding says.
pub const STV_DEFAULT: u8 = 0;
/// The visibility of a symbol that others see and can't replace.
pub const STV_PROTECTED: u8 = 3;

/// The most candidate rows and DT_NEEDED entries that a library may have together.
pub const MOST_ROWS: u64 = 1_000_000;
/// The most bytes that a library's names may have together.
pub const MOST_NAME_BYTES: u64 = 33_554_432;
