//! Numbers of the gABI that a link speaks of ("Sections", "Symbol Table", "ELF Header").

/// The section is written when the file runs.
pub const SHF_WRITE: u64 = 1;
/// The section is executed.
pub const SHF_EXECINSTR: u64 = 4;
/// Each thread has the section for itself.
pub const SHF_TLS: u64 = 0x400;

/// A symbol that its own object alone sees.
pub const STB_LOCAL: u8 = 0;
/// A symbol that gives way to another definition, and may stay undefined.
pub const STB_WEAK: u8 = 2;

/// A symbol in thread-local storage.
pub const STT_TLS: u8 = 6;

/// A symbol that other files see, and may define in its place.
pub const STV_DEFAULT: u8 = 0;
/// A symbol that no other file sees or is handed.
pub const STV_INTERNAL: u8 = 1;
/// A symbol that no other file sees.
pub const STV_HIDDEN: u8 = 2;
/// A symbol that other files see, and can't define in its place.
pub const STV_PROTECTED: u8 = 3;

/// The machine of x86-64.
pub const EM_X86_64: u16 = 62;
/// The machine of AArch64.
pub const EM_AARCH64: u16 = 183;
