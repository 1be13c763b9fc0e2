//! The procedure linkage table.

ghost use Rattle.std.specs.Prelude.{◌≡◌, ◌-ℤ◌, ◌+◌, ◌^◌, ◌<◌, pos, true};
ghost use Rattle.link_machine.specs.A64.{a64_header, adrp, add12, load8, jump_through};
ghost use Rattle.link_machine.specs.Patch.{is_sound, patched};
ghost use Rattle.link_machine.specs.Rules.{padded};
ghost use Rattle.link_machine.specs.Values.{page_of};

use crate::table;
use link_machine::{Field, pages_apart, put_field};

/// An instruction with a value in the bits of its field.
#[tactic(auto, using(crate::proofs::Words::patched_word))]
fn with_value(field: Field, value: i128, instruction: u32) -> u32
    requires { is_sound 4 field ≡ true }
    ensures { result ≡ patched field value instruction }
{
    put_field(field, value, u64::from(instruction)) as u32
}

/// adrp x16, the page of a slot, at the address `at`.
fn load_page(at: u128, slot: u128) -> u32
    requires at { at < 2 ^ 65 }
    requires slot { slot < 2 ^ 65 }
    ensures { result ≡ patched adrp (page_of (pos slot) -ℤ page_of (pos at)) 0x90000010 }
{
    with_value(
        table::adrp(),
        pages_apart(slot as i128, at as i128),
        0x9000_0010,
    )
}

/// ldr x17, [x16, the slot's place in its page].
fn load_slot(slot: u128) -> u32
    requires { slot < 2 ^ 65 }
    ensures { result ≡ patched load8 (pos slot) 0xf9400211 }
{
    with_value(table::load8(), slot as i128, 0xf940_0211)
}

/// add x16, x16, the slot's place in its page.
fn add_place(slot: u128) -> u32
    requires { slot < 2 ^ 65 }
    ensures { result ≡ patched add12 (pos slot) 0x91000210 }
{
    with_value(table::add12(), slot as i128, 0x9100_0210)
}

/// The jump through a slot, at the address `at`; its last instruction is br x17.
fn jump_through(at: u128, slot: u128) -> [u8; 16]
    requires at { at < 2 ^ 65 }
    requires slot { slot < 2 ^ 65 }
    ensures { result ≡ jump_through at slot }
{
    let [a, b, c, d] = load_page(at, slot).to_le_bytes();
    let [e, f, g, h] = load_slot(slot).to_le_bytes();
    let [i, j, k, l] = add_place(slot).to_le_bytes();
    [a, b, c, d, e, f, g, h, i, j, k, l, 0x20, 0x02, 0x1f, 0xd6]
}

/// The header at the address `at`, for a table of slots at `got_plt`: stp x16, x30, [sp, #-16]!, the jump
/// through the third slot, and nop three times.
pub fn header(at: u64, got_plt: u64) -> [u8; 32]
    ensures { result ≡ padded 32 (a64_header at got_plt) }
{
    let [a, b, c, d, e, f, g, h, i, j, k, l, m, n, o, p] = jump_through(
        u128::from(at) + 4,
        u128::from(got_plt) + 16,
    );
    [
        0xf0, 0x7b, 0xbf, 0xa9, a, b, c, d, e, f, g, h, i, j, k, l, m, n, o, p, 0x1f, 0x20, 0x03,
        0xd5, 0x1f, 0x20, 0x03, 0xd5, 0x1f, 0x20, 0x03, 0xd5,
    ]
}

/// The entry at the address `at`, for its slot.
pub fn entry(at: u64, slot: u64) -> [u8; 16]
    ensures { result ≡ jump_through at slot }
{
    jump_through(u128::from(at), u128::from(slot))
}
