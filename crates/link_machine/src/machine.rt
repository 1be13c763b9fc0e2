//! The one trait of machines.

ghost use Rattle.std.specs.Prelude.{◌≡◌, ◌≤ℤ◌, ◌*◌, ◌^◌, ◌<◌, ◌≤◌, pos, neg_ℤ, is_some, true, IfOk, option_map, length};
ghost use Rattle.link_machine.specs.Rules.{MachineRules, class_of, width_of, value_of, patch_of, padded, IsNear};

use crate::class::{PatchCause, RefClass, Values};
use crate::dynamic::DynamicTypes;

/// A machine: its table of relocation types and its procedure linkage table. No call takes memory.
pub trait Machine {
    /// The machine's tables.
    ghost rules: { MachineRules };

    /// Its number in file headers (gABI, e_machine).
    fn number(&self) -> u16
        ensures { result ≡ rules.number };

    /// The size of its pages in bytes, to which segments are aligned.
    fn page(&self) -> u64
        ensures { result ≡ rules.page };

    /// What a relocation type asks of the link; None exactly for a type that isn't in the table.
    fn class(&self, kind: u32) -> Option<RefClass>
        ensures { result ≡ class_of rules kind };

    /// The size in bytes of a relocation type's field: 0, 4 or 8.
    fn width(&self, kind: u32) -> u64
        requires { is_some (class_of rules kind) ≡ true }
        ensures is { result ≡ width_of rules kind }
        ensures small { width_of rules kind ≤ 8 };

    /// The types of dynamic relocations.
    fn dynamic(&self) -> DynamicTypes
        ensures { result ≡ rules.dynamic };

    /// The value of a reference, by its type's formula. Nothing wraps.
    fn value(&self, kind: u32, values: &Values) -> i128
        requires known { is_some (class_of rules kind) ≡ true }
        requires tp_low { neg_ℤ (pos (2 ^ 66)) ≤ℤ values.now.tp }
        requires tp_high { values.now.tp ≤ℤ pos (2 ^ 66) }
        ensures { result ≡ value_of rules kind values.now };

    /// The field's number `old` with the value in the bits that the type names. Overflow, with the value,
    /// exactly where the value isn't in the type's range; else Misaligned exactly where it isn't the
    /// multiple that the type asks for.
    fn patch(&self, kind: u32, value: i128, old: u64) -> Result<u64, PatchCause>
        requires known { is_some (class_of rules kind) ≡ true }
        requires fits { old < 2 ^ (8 * width_of rules kind) }
        ensures patched { result ≡ patch_of rules kind value old }
        ensures fits_still { IfOk result (λ new. new < 2 ^ (8 * width_of rules kind)) };

    /// The length in bytes of the procedure linkage table's header: 16 or 32.
    fn header_len(&self) -> u64
        ensures is { result ≡ rules.header_len }
        ensures small { rules.header_len ≤ 32 };

    /// The header of a procedure linkage table at the address `at`, for a table of its slots at `got_plt`.
    /// Bytes past the header's length are 0.
    fn plt_header(&self, at: u64, got_plt: u64) -> [u8; 32]
        requires { IsNear at got_plt }
        ensures padded { result ≡ padded 32 (rules.plt_header at got_plt) }
        ensures size { length (rules.plt_header at got_plt) ≡ rules.header_len };

    /// The entry at the address `at` with the position `index`, for its slot and the table's header.
    fn plt_entry(&self, at: u64, slot: u64, header: u64, index: u32) -> [u8; 16]
        requires near_slot { IsNear at slot }
        requires near_header { IsNear at header }
        ensures { result ≡ rules.plt_entry at slot header index };
}
