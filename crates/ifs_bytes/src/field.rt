//! Fields: numbers of 16, 32 or 64 bits at an offset (gABI, "Data Representation").

ghost use Rattle.std.specs.Prelude.{◌≡◌, ◌≤◌, ◌<◌, ◌^◌, ◌+◌, ◌*◌, length, is_ok};
ghost use Rattle.ifs_bytes.specs.Outcome.{appended};
ghost use Rattle.ifs_bytes.specs.Field.{field, number_at, number_bytes, lies, word_size};

use crate::form::{Order, Width};
use crate::memory::Memory;
use byteorder::{BigEndian, ByteOrder, LittleEndian};

/// The number of 16 bits at the offset `at`, which lies in `bytes`.
#[tactic(auto, unfolding(crate::specs::Field::number_at))]
pub fn u16_at(bytes: &[u8], at: usize, order: Order) -> u16
    requires { at + 2 ≤ length bytes.now }
    ensures { result ≡ number_at bytes.now at 2 order }
{
    let (_, rest) = bytes.split_at(at);
    match order {
        Order::Little => LittleEndian::read_u16(rest),
        Order::Big => BigEndian::read_u16(rest),
    }
}

/// The number of 32 bits at the offset `at`, which lies in `bytes`.
#[tactic(auto, unfolding(crate::specs::Field::number_at))]
pub fn u32_at(bytes: &[u8], at: usize, order: Order) -> u32
    requires { at + 4 ≤ length bytes.now }
    ensures { result ≡ number_at bytes.now at 4 order }
{
    let (_, rest) = bytes.split_at(at);
    match order {
        Order::Little => LittleEndian::read_u32(rest),
        Order::Big => BigEndian::read_u32(rest),
    }
}

/// The number of 64 bits at the offset `at`, which lies in `bytes`.
#[tactic(auto, unfolding(crate::specs::Field::number_at))]
pub fn u64_at(bytes: &[u8], at: usize, order: Order) -> u64
    requires { at + 8 ≤ length bytes.now }
    ensures { result ≡ number_at bytes.now at 8 order }
{
    let (_, rest) = bytes.split_at(at);
    match order {
        Order::Little => LittleEndian::read_u64(rest),
        Order::Big => BigEndian::read_u64(rest),
    }
}

/// The number of the width's size at the offset `at`, which lies in `bytes`.
pub fn word_at(bytes: &[u8], at: usize, order: Order, width: Width) -> u64
    requires { at + word_size width ≤ length bytes.now }
    ensures { result ≡ number_at bytes.now at (word_size width) order }
{
    match width {
        Width::W32 => u64::from(u32_at(bytes, at, order)),
        Width::W64 => u64_at(bytes, at, order),
    }
}

/// Whether `count` records of `size` bytes stand from the offset `at`.
pub fn has_room(bytes: &[u8], at: u64, count: u64, size: usize) -> bool
    ensures { result ≡ lies bytes.now at (count * size) }
{
    u128::from(at) + u128::from(count) * size as u128 <= bytes.len() as u128
}

/// The number of 16 bits at the offset `at`; None exactly where it doesn't lie in `bytes`.
pub fn get_u16(bytes: &[u8], at: u64, order: Order) -> Option<u16>
    ensures { result ≡ field bytes.now at 2 order }
{
    if has_room(bytes, at, 1, 2) {
        Some(u16_at(bytes, at as usize, order))
    } else {
        None
    }
}

/// The number of 32 bits at the offset `at`; None exactly where it doesn't lie in `bytes`.
pub fn get_u32(bytes: &[u8], at: u64, order: Order) -> Option<u32>
    ensures { result ≡ field bytes.now at 4 order }
{
    if has_room(bytes, at, 1, 4) {
        Some(u32_at(bytes, at as usize, order))
    } else {
        None
    }
}

/// The number of 64 bits at the offset `at`; None exactly where it doesn't lie in `bytes`.
pub fn get_u64(bytes: &[u8], at: u64, order: Order) -> Option<u64>
    ensures { result ≡ field bytes.now at 8 order }
{
    if has_room(bytes, at, 1, 8) {
        Some(u64_at(bytes, at as usize, order))
    } else {
        None
    }
}

/// The number of the width's size at the offset `at`; None exactly where it doesn't lie in `bytes`.
pub fn get_word(bytes: &[u8], at: u64, order: Order, width: Width) -> Option<u64>
    ensures { result ≡ field bytes.now at (word_size width) order }
{
    if has_room(bytes, at, 1, width.bytes()) {
        Some(word_at(bytes, at as usize, order, width))
    } else {
        None
    }
}

/// Appends the two bytes of a number; where memory runs out `out` stays as it was.
pub fn put_u16(out: &mut Vec<u8>, value: u16, order: Order) -> Result<(), Memory>
    ensures { out.new.items ≡ appended (is_ok result) out.old.items (number_bytes 2 value order) }
{
    let mut bytes = [0; 2];
    match order {
        Order::Little => LittleEndian::write_u16(&mut bytes, value),
        Order::Big => BigEndian::write_u16(&mut bytes, value),
    }
    Ok(out.extend_from_slice(&bytes)?)
}

/// Appends the four bytes of a number; where memory runs out `out` stays as it was.
pub fn put_u32(out: &mut Vec<u8>, value: u32, order: Order) -> Result<(), Memory>
    ensures { out.new.items ≡ appended (is_ok result) out.old.items (number_bytes 4 value order) }
{
    let mut bytes = [0; 4];
    match order {
        Order::Little => LittleEndian::write_u32(&mut bytes, value),
        Order::Big => BigEndian::write_u32(&mut bytes, value),
    }
    Ok(out.extend_from_slice(&bytes)?)
}

/// Appends the eight bytes of a number; where memory runs out `out` stays as it was.
pub fn put_u64(out: &mut Vec<u8>, value: u64, order: Order) -> Result<(), Memory>
    ensures { out.new.items ≡ appended (is_ok result) out.old.items (number_bytes 8 value order) }
{
    let mut bytes = [0; 8];
    match order {
        Order::Little => LittleEndian::write_u64(&mut bytes, value),
        Order::Big => BigEndian::write_u64(&mut bytes, value),
    }
    Ok(out.extend_from_slice(&bytes)?)
}

/// Appends the bytes of a number of the width's size; where memory runs out `out` stays as it was.
pub fn put_word(out: &mut Vec<u8>, value: u64, order: Order, width: Width) -> Result<(), Memory>
    requires { value < 256 ^ word_size width }
    ensures { out.new.items ≡ appended (is_ok result) out.old.items (number_bytes (word_size width) value order) }
{
    match width {
        Width::W32 => put_u32(out, value as u32, order),
        Width::W64 => put_u64(out, value, order),
    }
}
