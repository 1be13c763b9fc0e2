//! Entries of dynamic tables (gABI, "Dynamic Section").

ghost use Rattle.std.specs.Prelude.{◌≡◌, ◌+◌, ◌≤◌, length, is_ok, Some, None, if◌then◌else◌};
ghost use Rattle.ifs_bytes.specs.Field.{lies};
ghost use Rattle.ifs_bytes.specs.Outcome.{appended};
ghost use Rattle.elf_file.specs.Tables.{dynamic_size, dynamic_at};
ghost use Rattle.elf_file.specs.Written.{FitsDyn, dynamic_bytes};

use crate::put::{put_fields, word};
use crate::sizes;
use ifs_bytes::{Memory, Order, Width, has_room, word_at};

/// A dynamic entry, Elf32_Dyn or Elf64_Dyn.
#[derive(Clone, Copy, Debug, PartialEq, Eq)]
pub struct Dyn {
    /// d_tag.
    pub tag: u64,
    /// d_val or d_ptr: a number or an address, by the tag.
    pub value: u64,
}

/// The entry at the offset `at`, which lies in `bytes`.
#[tactic(auto, unfolding(crate::specs::Tables::dynamic_at), using(crate::proofs::ByWord::dynamic_size_is))]
pub fn dynamic_entry_at(bytes: &[u8], at: usize, order: Order, width: Width) -> Dyn
    requires { at + dynamic_size width ≤ length bytes.now }
    ensures { result ≡ dynamic_at bytes.now at order width }
{
    Dyn {
        tag: word_at(bytes, at, order, width),
        value: word_at(bytes, at + width.bytes(), order, width),
    }
}

/// The entry at the offset `at`; None exactly where it doesn't lie in `bytes`.
pub fn dyn_at(bytes: &[u8], at: u64, order: Order, width: Width) -> Option<Dyn>
    ensures { result ≡ (if lies bytes.now at (dynamic_size width) then Some (dynamic_at bytes.now at order width) else None) }
{
    if has_room(bytes, at, 1, sizes::dynamic_size(width)) {
        Some(dynamic_entry_at(bytes, at as usize, order, width))
    } else {
        None
    }
}

/// Appends an entry, whose values fit their fields; where memory runs out `out` stays as it was.
#[tactic(auto, unfolding(crate::specs::Written::dynamic_bytes))]
pub fn put_dyn(out: &mut Vec<u8>, d: &Dyn, order: Order, width: Width) -> Result<(), Memory>
    requires { FitsDyn d.now width }
    ensures { out.new.items ≡ appended (is_ok result) out.old.items (dynamic_bytes d.now order width) }
{
    let fields = [word(d.tag, width), word(d.value, width)];
    put_fields(out, &fields, order)
}
