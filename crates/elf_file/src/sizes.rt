//! How many bytes the records have, and the places in them that follow no rule.

ghost use Rattle.std.specs.Prelude.{◌≡◌, ◌+◌, ◌≤◌};
ghost use Rattle.elf_file.specs.Tables as tables;
ghost use Rattle.ifs_bytes.specs.Field.{word_size};

use ifs_bytes::Width;

/// How many bytes the file header has, e_ehsize.
pub fn header_size(width: Width) -> usize
    ensures { result ≡ tables.header_size width }
{
    match width {
        Width::W32 => 52,
        Width::W64 => 64,
    }
}

/// How many bytes a section header has, e_shentsize.
pub fn section_size(width: Width) -> usize
    ensures { result ≡ tables.section_size width }
{
    match width {
        Width::W32 => 40,
        Width::W64 => 64,
    }
}

/// How many bytes a program header has, e_phentsize.
pub fn segment_size(width: Width) -> usize
    ensures { result ≡ tables.segment_size width }
{
    match width {
        Width::W32 => 32,
        Width::W64 => 56,
    }
}

/// How many bytes a row of a symbol table has.
pub fn symbol_size(width: Width) -> usize
    ensures { result ≡ tables.symbol_size width }
{
    match width {
        Width::W32 => 16,
        Width::W64 => 24,
    }
}

/// How many bytes a dynamic entry has.
pub fn dynamic_size(width: Width) -> usize
    ensures { result ≡ tables.dynamic_size width }
{
    match width {
        Width::W32 => 8,
        Width::W64 => 16,
    }
}

/// Where p_flags stands in a program header.
pub fn flags_place(width: Width) -> usize
    ensures place { result ≡ tables.flags_place width }
    ensures within { result + 4 ≤ tables.segment_size width }
{
    match width {
        Width::W32 => 24,
        Width::W64 => 4,
    }
}

/// Where p_align stands in a program header.
pub fn align_place(width: Width) -> usize
    ensures place { result ≡ tables.align_place width }
    ensures within { result + word_size width ≤ tables.segment_size width }
{
    match width {
        Width::W32 => 28,
        Width::W64 => 48,
    }
}

/// Where st_info stands in a row of a symbol table.
pub fn info_place(width: Width) -> usize
    ensures place { result ≡ tables.info_place width }
    ensures within { result + 4 ≤ tables.symbol_size width }
{
    match width {
        Width::W32 => 12,
        Width::W64 => 4,
    }
}
