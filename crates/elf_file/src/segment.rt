//! Program headers (gABI, "Program Header").

ghost use Rattle.std.specs.Prelude.{◌≡◌, ◌+◌, ◌≤◌, length, is_ok};
ghost use Rattle.ifs_bytes.specs.Outcome.{appended};
ghost use Rattle.elf_file.specs.Tables.{segment_size, segment_at};
ghost use Rattle.elf_file.specs.Written.{FitsSegment, segment_bytes};

use crate::put::{Field, put_fields, word};
use crate::sizes::{align_place, flags_place};
use ifs_bytes::{Memory, Order, Width, u32_at, word_at};

/// A program header, Elf32_Phdr or Elf64_Phdr.
#[derive(Clone, Copy, Debug, PartialEq, Eq)]
pub struct Segment {
    /// p_type.
    pub kind: u32,
    /// p_flags.
    pub flags: u32,
    /// p_offset: where the bytes stand in the file.
    pub offset: u64,
    /// p_vaddr: the address in memory.
    pub vaddr: u64,
    /// p_paddr.
    pub paddr: u64,
    /// p_filesz: how many bytes stand in the file.
    pub filesz: u64,
    /// p_memsz: how many bytes it has in memory.
    pub memsz: u64,
    /// p_align.
    pub align: u64,
}

/// The program header at the offset `at`, which lies in `bytes`.
#[tactic(auto, unfolding(crate::specs::Tables::segment_at), using(crate::proofs::ByWord::segment_size_is))]
pub fn segment_at(bytes: &[u8], at: usize, order: Order, width: Width) -> Segment
    requires { at + segment_size width ≤ length bytes.now }
    ensures { result ≡ segment_at bytes.now at order width }
{
    let w = width.bytes();
    Segment {
        kind: u32_at(bytes, at, order),
        flags: u32_at(bytes, at + flags_place(width), order),
        offset: word_at(bytes, at + w, order, width),
        vaddr: word_at(bytes, at + 2 * w, order, width),
        paddr: word_at(bytes, at + 3 * w, order, width),
        filesz: word_at(bytes, at + 4 * w, order, width),
        memsz: word_at(bytes, at + 5 * w, order, width),
        align: word_at(bytes, at + align_place(width), order, width),
    }
}

/// Appends a program header, whose values fit their fields; where memory runs out `out` stays as it was.
#[tactic(auto, unfolding(crate::specs::Written::segment_bytes))]
pub fn put_segment(out: &mut Vec<u8>, s: &Segment, order: Order, width: Width) -> Result<(), Memory>
    requires { FitsSegment s.now width }
    ensures { out.new.items ≡ appended (is_ok result) out.old.items (segment_bytes s.now order width) }
{
    let kind = Field::Four(s.kind);
    let flags = Field::Four(s.flags);
    let offset = word(s.offset, width);
    let vaddr = word(s.vaddr, width);
    let paddr = word(s.paddr, width);
    let filesz = word(s.filesz, width);
    let memsz = word(s.memsz, width);
    let align = word(s.align, width);
    let fields = match width {
        Width::W32 => [kind, offset, vaddr, paddr, filesz, memsz, flags, align],
        Width::W64 => [kind, flags, offset, vaddr, paddr, filesz, memsz, align],
    };
    put_fields(out, &fields, order)
}
