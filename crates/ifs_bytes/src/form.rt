//! The two choices that make the four forms of ELF files (gABI, "ELF Identification").

ghost use Rattle.std.specs.Prelude.{◌≡◌};
ghost use Rattle.ifs_bytes.specs.Field.{word_size};

/// The byte order of numbers, EI_DATA.
#[derive(Clone, Copy, Debug, PartialEq, Eq)]
pub enum Order {
    /// The lowest byte first, ELFDATA2LSB.
    Little,
    /// The highest byte first, ELFDATA2MSB.
    Big,
}

/// The size of addresses, offsets and sizes, EI_CLASS.
#[derive(Clone, Copy, Debug, PartialEq, Eq)]
pub enum Width {
    /// 32 bits, ELFCLASS32.
    W32,
    /// 64 bits, ELFCLASS64.
    W64,
}

impl Width {
    /// How many bytes an address, an offset or a size has: 4 or 8.
    pub fn bytes(self) -> usize
        ensures { result ≡ word_size self }
    {
        match self {
            Width::W32 => 4,
            Width::W64 => 8,
        }
    }
}
