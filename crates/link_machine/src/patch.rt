//! Fields: how a value goes into the bits that a relocation type names.

ghost use Rattle.std.specs.Prelude.{◌≡◌, ◌≤◌, ◌<◌, ◌^◌, ◌*◌, ◌/◌, ◌%◌, ◌+◌, true, IfOk};
ghost use Rattle.link_machine.specs.Patch.{with_bits, are_sound, patched, is_sound, modulo, is_within, is_multiple, is_rule_sound, patch_by};

use crate::class::PatchCause;
use crate::rule::{Bits, Field, Range, Rule};

/// 2^64.
const TWO_64: i128 = 0x1_0000_0000_0000_0000;

/// The lowest `k` bits of a number.
#[tactic(auto, using(crate::proofs::Runs::below_room))]
fn below(n: u128, k: u32) -> u128
    requires small { n < 2 ^ 64 }
    requires in_word { k ≤ 64 }
    ensures value { result ≡ n % 2 ^ k }
    ensures room { result < 2 ^ k }
{
    n - ((n >> k) << k)
}

/// A number without its lowest `k` bits.
#[tactic(auto, using(crate::proofs::Runs::above_64))]
fn above(n: u128, k: u32) -> u128
    requires small { n < 2 ^ 64 }
    requires in_word { k ≤ 64 }
    ensures value { result ≡ n / 2 ^ k * 2 ^ k }
    ensures room { result + 2 ^ k ≤ 2 ^ 64 }
{
    (n >> k) << k
}

/// A run of `count` bits, moved to the bit `at`.
#[tactic(auto, using(crate::proofs::Runs::shifted_whole, crate::proofs::Runs::shifted_room))]
fn moved(run: u128, at: u32, count: u32) -> u128
    requires small { run < 2 ^ count }
    requires in_word { at + count ≤ 64 }
    ensures value { result ≡ run * 2 ^ at }
    ensures room { result + 2 ^ at ≤ 2 ^ (at + count) }
{
    run << at
}

/// The field's number with its bits replaced by those of the value.
fn put_bits(bits: Bits, value: u64, old: u64) -> u64
    requires { are_sound 8 bits ≡ true }
    ensures { result ≡ with_bits bits value old }
{
    let count = bits.high - bits.low + 1;
    let old = u128::from(old);
    let new = moved(below(u128::from(value >> bits.low), count), bits.at, count);
    (below(old, bits.at) + new + above(old, bits.at + count)) as u64
}

/// The field's number with all bits of the field replaced by those of the value.
pub fn put_field(field: Field, value: i128, old: u64) -> u64
    requires { is_sound 8 field ≡ true }
    ensures { result ≡ patched field value old }
{
    let value = value.rem_euclid(TWO_64) as u64;
    match field {
        Field::Unchanged => old,
        Field::One(bits) => put_bits(bits, value, old),
        Field::Two(first, second) => put_bits(second, value, put_bits(first, value, old)),
    }
}

/// Whether a value is in a range.
fn is_within(range: Range, value: i128) -> bool
    ensures { result ≡ is_within range value }
{
    match range {
        Range::Any => true,
        Range::Within(least, end) => least <= value && value < end,
    }
}

/// Whether a value is a multiple of a number.
fn is_multiple(multiple: u32, value: i128) -> bool
    requires { 0 < multiple }
    ensures { result ≡ is_multiple multiple value }
{
    multiple == 1 || value.rem_euclid(i128::from(multiple)) == 0
}

/// The field's number after the patch by a rule, or why there is none.
#[tactic(auto, using(crate::proofs::Fits::patched_fits), unfolding(crate::specs::Patch::patch_by))]
pub fn patch_by(rule: &Rule, value: i128, old: u64) -> Result<u64, PatchCause>
    requires sound { is_rule_sound rule.now ≡ true }
    requires fits { old < 2 ^ (8 * rule.now.size) }
    ensures patched { result ≡ patch_by rule.now value old }
    ensures fits_still { IfOk result (λ new. new < 2 ^ (8 * rule.now.size)) }
{
    if !is_within(rule.range, value) {
        return Err(PatchCause::Overflow(value));
    }
    if !is_multiple(rule.multiple, value) {
        return Err(PatchCause::Misaligned);
    }
    Ok(put_field(rule.field, value, old))
}
