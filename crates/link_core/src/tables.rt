//! Numbers of the gABI that the tables of the made file have ("Sections", "Program Header", "Dynamic Section", "Symbol Table",
//! "ELF Header"), and limits of the made file.

/// A hash table of symbols.
pub const SHT_HASH: u32 = 5;
/// The dynamic section.
pub const SHT_DYNAMIC: u32 = 6;
/// The dynamic symbol table.
pub const SHT_DYNSYM: u32 = 11;

/// A symbol that all files see.
pub const STB_GLOBAL: u8 = 1;
/// A symbol of which no type is said.
pub const STT_NOTYPE: u8 = 0;
/// Data.
pub const STT_OBJECT: u8 = 1;
/// Code that is called.
pub const STT_FUNC: u8 = 2;

/// A program at fixed addresses.
pub const ET_EXEC: u16 = 2;
/// A file that may be loaded at any address.
pub const ET_DYN: u16 = 3;

/// What is loaded.
pub const PT_LOAD: u32 = 1;
/// The dynamic section.
pub const PT_DYNAMIC: u32 = 2;
/// The path of the interpreter.
pub const PT_INTERP: u32 = 3;
/// The program headers themselves.
pub const PT_PHDR: u32 = 6;
/// The block of thread-local storage.
pub const PT_TLS: u32 = 7;
/// The stack.
pub const PT_GNU_STACK: u32 = 0x6474_e551;
/// It is executed.
pub const PF_X: u32 = 1;
/// It is written.
pub const PF_W: u32 = 2;
/// It is read.
pub const PF_R: u32 = 4;

/// The last entry.
pub const DT_NULL: u64 = 0;
/// A needed library, by the offset of its name.
pub const DT_NEEDED: u64 = 1;
/// The size of the relocations of calls.
pub const DT_PLTRELSZ: u64 = 2;
/// The address of .got.plt.
pub const DT_PLTGOT: u64 = 3;
/// The address of the hash table.
pub const DT_HASH: u64 = 4;
/// The address of the strings.
pub const DT_STRTAB: u64 = 5;
/// The address of the symbols.
pub const DT_SYMTAB: u64 = 6;
/// The address of the relocations.
pub const DT_RELA: u64 = 7;
/// Their size.
pub const DT_RELASZ: u64 = 8;
/// The size of one.
pub const DT_RELAENT: u64 = 9;
/// The size of the strings.
pub const DT_STRSZ: u64 = 10;
/// The size of a symbol.
pub const DT_SYMENT: u64 = 11;
/// The address of the function that runs first.
pub const DT_INIT: u64 = 12;
/// The address of the function that runs last.
pub const DT_FINI: u64 = 13;
/// The soname, by its offset.
pub const DT_SONAME: u64 = 14;
/// The sort of the relocations of calls.
pub const DT_PLTREL: u64 = 20;
/// A word for debuggers.
pub const DT_DEBUG: u64 = 21;
/// The address of the relocations of calls.
pub const DT_JMPREL: u64 = 23;
/// The address of the functions that run at the start.
pub const DT_INIT_ARRAY: u64 = 25;
/// The address of the functions that run at the end.
pub const DT_FINI_ARRAY: u64 = 26;
/// The size of the first of these tables.
pub const DT_INIT_ARRAYSZ: u64 = 27;
/// The size of the second one.
pub const DT_FINI_ARRAYSZ: u64 = 28;
/// Where libraries are looked for, by the offset of the text.
pub const DT_RUNPATH: u64 = 29;
/// Flags.
pub const DT_FLAGS: u64 = 30;
/// The address of the functions that run before those of libraries.
pub const DT_PREINIT_ARRAY: u64 = 32;
/// Their size.
pub const DT_PREINIT_ARRAYSZ: u64 = 33;
/// All names are bound when the file is loaded.
pub const DF_BIND_NOW: u64 = 8;
/// The library has references to the thread pointer, so it can't be loaded later.
pub const DF_STATIC_TLS: u64 = 16;

/// How many bytes of memory an image may take, and how many bytes the names of its sections.
pub const MOST_IMAGE_BYTES: u64 = 268_435_456;
/// How many output sections an image may have.
pub const MOST_OUTPUT_SECTIONS: u64 = 60_000;
