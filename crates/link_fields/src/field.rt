//! Fields of 0 to 8 bytes and words of 8, the lowest byte first.

ghost use Rattle.std.specs.Prelude.{◌≡◌, ◌≤◌, ◌+◌, ◌++◌, length, OnOk};
ghost use Rattle.ifs_bytes.specs.Field.{number_at, number_bytes};
ghost use Rattle.ifs_bytes.specs.declared.form.Order.TheVariants.{Little};
ghost use Rattle.link_core.specs.Got.{words_bytes};
ghost use Rattle.link_core.specs.Patch.{with_field};

use byteorder::{ByteOrder, LittleEndian};
use ifs_bytes::{Memory, Order, put_u64};

/// The number in the `size` bytes at the offset `at`, which lie in `bytes`; `size` is at most 8.
#[tactic(auto, unfolding(ifs_bytes::specs::Field::number_at))]
pub fn field_at(bytes: &[u8], at: usize, size: usize) -> u64
    requires small { size ≤ 8 }
    requires room { at + size ≤ length bytes.now }
    ensures { result ≡ number_at bytes.now at size Little }
{
    if size == 0 {
        return 0;
    }
    let (_, rest) = bytes.split_at(at);
    LittleEndian::read_uint(rest, size)
}

/// Writes the lowest `size` bytes of a value over those at the offset `at`, which lie in `bytes`; `size`
/// is at most 8.
#[tactic(auto, using(crate::proofs::Written::field_put))]
pub fn put_field(bytes: &mut [u8], at: usize, size: usize, value: u64)
    requires small { size ≤ 8 }
    requires room { at + size ≤ length bytes.old }
    ensures { bytes.new ≡ with_field bytes.old at size value }
{
    bytes[at..at + size].copy_from_slice(&value.to_le_bytes()[..size]);
}

// Appends a word of 8 bytes.
fn put_one(out: &mut Vec<u8>, word: u64) -> Result<(), Memory>
    ensures { OnOk result (out.new.items ≡ out.old.items ++ number_bytes 8 word Little) }
{
    put_u64(out, word, Order::Little)
}

/// Appends words of 8 bytes each.
pub fn put_words(out: &mut Vec<u8>, words: &[u64]) -> Result<(), Memory>
    ensures { OnOk result (out.new.items ≡ out.old.items ++ words_bytes words.now) }
{
    for word in words {
        put_one(out, *word)?;
    }
    Ok(())
}
