//! Fields that several records have need of, and those of the file header as they stand.

ghost use Rattle.std.specs.Prelude.{◌≡◌, ◌+◌, ◌*◌, ◌<◌, ◌≤◌, length};
ghost use Rattle.ifs_bytes.specs.Field.{number_at};
ghost use Rattle.ifs_bytes.specs.declared.form.Order.{Order};
ghost use Rattle.elf_file.specs.Tables.{header_size, file_header_at};

use ifs_bytes::{Order, Width, u16_at, word_at};

/// The byte at the offset `at`, which lies in `bytes`: a number that no order changes.
#[tactic(auto, unfolding(ifs_bytes::specs::Field::number_at))]
pub fn byte_at(bytes: &[u8], at: usize) -> u8
    requires { at < length bytes.now }
    ensures { (order : Order) → result ≡ number_at bytes.now at 1 order }
{
    bytes[at]
}

/// The fields of the file header behind e_ident, as they stand.
#[derive(Clone, Copy, Debug, PartialEq, Eq)]
pub struct FileHeader {
    /// e_type.
    pub kind: u16,
    /// e_machine.
    pub machine: u16,
    /// e_entry.
    pub entry: u64,
    /// e_phoff.
    pub phoff: u64,
    /// e_shoff.
    pub shoff: u64,
    /// e_phentsize.
    pub phentsize: u16,
    /// e_phnum.
    pub phnum: u16,
    /// e_shentsize.
    pub shentsize: u16,
    /// e_shnum.
    pub shnum: u16,
    /// e_shstrndx.
    pub shstrndx: u16,
}

/// The fields of the file header at the offset `at`, which lies in `bytes`.
#[tactic(auto, unfolding(crate::specs::Tables::file_header_at), using(crate::proofs::ByWord::header_size_is))]
pub fn file_header_at(bytes: &[u8], at: usize, order: Order, width: Width) -> FileHeader
    requires { at + header_size width ≤ length bytes.now }
    ensures { result ≡ file_header_at bytes.now at order width }
{
    let w = width.bytes();
    FileHeader {
        kind: u16_at(bytes, at + 16, order),
        machine: u16_at(bytes, at + 18, order),
        entry: word_at(bytes, at + 24, order, width),
        phoff: word_at(bytes, at + (24 + w), order, width),
        shoff: word_at(bytes, at + (24 + 2 * w), order, width),
        phentsize: u16_at(bytes, at + (30 + 3 * w), order),
        phnum: u16_at(bytes, at + (32 + 3 * w), order),
        shentsize: u16_at(bytes, at + (34 + 3 * w), order),
        shnum: u16_at(bytes, at + (36 + 3 * w), order),
        shstrndx: u16_at(bytes, at + (38 + 3 * w), order),
    }
}
