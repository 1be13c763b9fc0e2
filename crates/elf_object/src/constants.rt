//! Numbers of the gABI and of the psABI of x86-64, and the limits of an object.

/// e_type of a relocatable object ("ELF Header").
pub const ET_REL: u16 = 1;
/// sh_type of a section header without a section ("Sections").
pub const SHT_NULL: u32 = 0;
/// sh_type of bytes whose meaning is the program's own.
pub const SHT_PROGBITS: u32 = 1;
/// sh_type of the symbol table.
pub const SHT_SYMTAB: u32 = 2;
/// sh_type of a string table.
pub const SHT_STRTAB: u32 = 3;
/// sh_type of relocation entries with addends.
pub const SHT_RELA: u32 = 4;
/// sh_type of notes.
pub const SHT_NOTE: u32 = 7;
/// sh_type of zeros that have no bytes in the file.
pub const SHT_NOBITS: u32 = 8;
/// sh_type of relocation entries without addends.
pub const SHT_REL: u32 = 9;
/// sh_type of addresses of functions that run at the start.
pub const SHT_INIT_ARRAY: u32 = 14;
/// sh_type of addresses of functions that run at the end.
pub const SHT_FINI_ARRAY: u32 = 15;
/// sh_type of addresses of functions that run before all others.
pub const SHT_PREINIT_ARRAY: u32 = 16;
/// sh_type of a group of sections.
pub const SHT_GROUP: u32 = 17;
/// sh_type of the section numbers that have no room in the symbol table.
pub const SHT_SYMTAB_SHNDX: u32 = 18;
/// sh_type of unwinding tables on x86-64 (psABI, "Sections").
pub const SHT_X86_64_UNWIND: u32 = 0x7000_0001;
/// The flag of a section that is loaded into memory.
pub const SHF_ALLOC: u64 = 2;
/// The flag of a section whose bytes are compressed.
pub const SHF_COMPRESSED: u64 = 0x800;
/// The first section number that is reserved for another meaning ("Special Section Indexes").
pub const SHN_LORESERVE: u16 = 0xff00;
/// The section number of a symbol whose value is its address.
pub const SHN_ABS: u16 = 0xfff1;
/// The section number of a symbol that has no place yet.
pub const SHN_COMMON: u16 = 0xfff2;
/// The section number of a symbol whose section number stands in SHT_SYMTAB_SHNDX.
pub const SHN_XINDEX: u16 = 0xffff;
/// The type of the symbol of a section ("Symbol Table").
pub const STT_SECTION: u8 = 3;
/// The type of a function that says at run time which function is meant (GNU).
pub const STT_GNU_IFUNC: u8 = 10;
/// The flags of a group of which a link keeps one ("Section Groups").
pub const GRP_COMDAT: u32 = 1;

/// How many bytes a row of the symbol table has, Elf64_Sym.
pub const ROW_SIZE: u64 = 24;
/// How many bytes an entry of a relocation table has, Elf64_Rela ("Relocation").
pub const ENTRY_SIZE: u64 = 24;

/// The greatest alignment that a section or a common symbol may ask for.
pub const MOST_ALIGN: u64 = 65_536;
/// How many entries of a relocation table can be numbered in 32 bits.
pub const MOST_ENTRIES: u64 = 4_294_967_296;
/// The name of a section that is loaded and that a link leaves out: it is made for the objects together.
pub const PROPERTY_NOTE: &[u8] = b".note.gnu.property";
