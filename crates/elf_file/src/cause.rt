//! Why an ELF file can't be read.

use ifs_bytes::Memory;
use std::alloc::{AllocError, AllocFailed};

/// Where the name stands that can't be read: a row of the symbol table, an entry of the dynamic table or a
/// section, by its number from 0.
#[derive(Clone, Copy, Debug, PartialEq, Eq)]
pub enum NamePlace {
    /// The row with this number.
    Symbol(u64),
    /// The dynamic entry with this number.
    Dynamic(u64),
    /// The section with this number.
    Section(u64),
}

/// Why an ELF file can't be read.
#[derive(Clone, Copy, Debug, PartialEq, Eq)]
pub enum ElfCause {
    /// The file doesn't begin with the magic number of ELF files.
    NotElf,
    /// The file header says what no header of these forms may say.
    BadHeader,
    /// The file is of another kind (e_type) than the one that is wanted.
    WrongKind,
    /// A shared library has no dynamic table.
    NoDynamic,
    /// Bytes that the file names aren't in it: the offset where they start, or the address where no
    /// segment holds it.
    Truncated(u64),
    /// A name has no end in its string table.
    BadName(NamePlace),
    /// There are more rows, entries or names than the reader takes: how many.
    TooMany(u64),
    /// The names have more bytes than the reader takes: how many.
    NamesTooLarge(u64),
    /// The file is an archive of objects.
    Archive,
    /// Memory ran out.
    Memory,
}

impl From<Memory> for ElfCause {
    ghost use Rattle.std.specs.Prelude.{◌≡◌};
    ghost use Rattle.elf_file.specs.declared.cause.ElfCause.TheVariants as causes;

    ghost from_gives = { λ _ cause. cause ≡ causes.Memory };

    fn from(_error: Memory) -> ElfCause {
        ElfCause::Memory
    }
}

impl From<AllocError> for ElfCause {
    ghost use Rattle.std.specs.Prelude.{◌≡◌};
    ghost use Rattle.elf_file.specs.declared.cause.ElfCause.TheVariants as causes;

    ghost from_gives = { λ _ cause. cause ≡ causes.Memory };

    fn from(_error: AllocError) -> ElfCause {
        ElfCause::Memory
    }
}

impl<T: Drop> From<AllocFailed<T>> for ElfCause {
    ghost use Rattle.std.specs.Prelude.{◌≡◌};
    ghost use Rattle.elf_file.specs.declared.cause.ElfCause.TheVariants as causes;

    ghost from_gives = { λ _ cause. cause ≡ causes.Memory };

    fn from(_error: AllocFailed<T>) -> ElfCause {
        ElfCause::Memory
    }
}
