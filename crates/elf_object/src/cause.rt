//! Why a relocatable object can't be read.

use elf_file::ElfCause;
use ifs_bytes::Memory;

/// Why a relocatable object can't be read.
#[derive(Clone, Copy, Debug, PartialEq, Eq)]
pub enum ObjectCause {
    /// What any ELF file may be refused for. `WrongKind`: it is no relocatable object, or none of 64 bits
    /// with the lowest byte first.
    Elf(ElfCause),
    /// The section with this number is a relocation table that can't be applied.
    BadRelocationTable(u64),
    /// The section with this number is loaded and its bytes are compressed.
    CompressedSection(u64),
    /// The row with this number defines an indirect function.
    IfuncDefinition(u64),
    /// Memory ran out.
    Memory,
}

impl From<ElfCause> for ObjectCause {
    ghost use Rattle.std.specs.Prelude.{◌≡◌};
    ghost use Rattle.elf_object.specs.declared.cause.ObjectCause.TheVariants as causes;

    ghost from_gives = { λ cause result. result ≡ causes.Elf cause };

    fn from(cause: ElfCause) -> ObjectCause {
        ObjectCause::Elf(cause)
    }
}

impl From<Memory> for ObjectCause {
    ghost use Rattle.std.specs.Prelude.{◌≡◌};
    ghost use Rattle.elf_object.specs.declared.cause.ObjectCause.TheVariants as causes;

    ghost from_gives = { λ _ cause. cause ≡ causes.Memory };

    fn from(_error: Memory) -> ObjectCause {
        ObjectCause::Memory
    }
}
