//! The hash of a name.

ghost use Rattle.std.specs.Prelude.{◌≡◌, ◌<◌, ◌^◌};
ghost use Rattle.link_core.specs.HashTable as meant;

// The hash with one more byte of the name: four bits to the left, and the highest four go into the lowest
// eight.
fn hash_step(hash: u32, byte: u8) -> u32
    ensures { result ≡ meant.hash_step hash byte }
{
    let sum = ((u64::from(hash) * 16 + u64::from(byte)) % 0x1_0000_0000) as u32;
    (sum % 0x1000_0000) ^ (sum / 0x1000_0000 * 16)
}

/// The hash of a name (gABI, "Hash Table").
#[tactic(auto, unfolding(link_core::specs::HashTable::hash_of))]
pub fn hash_of(name: &[u8]) -> u32
    ensures { result ≡ meant.hash_of name.now }
{
    name.iter().fold(0, |hash, byte| hash_step(hash, *byte))
}
