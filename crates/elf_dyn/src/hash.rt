//! The number of rows of the dynamic symbol table, by a hash table of it.

ghost use Rattle.std.specs.Prelude.{◌≡◌, ◌+◌, ◌*◌, ◌^◌, ◌<◌, ◌≤◌, ◌&&◌, nat_lt, length, IfOk, OnOk, IfSome, Result};
ghost use Rattle.std.specs.Bool.{OnFalse};
ghost use Rattle.std.specs.List.{find};
ghost use Rattle.ifs_bytes.specs.Places.{places};
ghost use Rattle.elf_dyn.specs.Hash.{word_in, rows_by_hash, ends_chain, chain_length, buckets_in, rows_by_chains, rows_by_gnu_hash};

use elf_file::ElfCause;
use ifs_bytes::{Order, Width, get_u32};

// The hash word at an offset.
#[tactic(auto, unfolding(crate::specs::Hash::word_in))]
fn word_in(bytes: &[u8], order: Order, at: u64) -> Result<u32, ElfCause>
    ensures exact { result ≡ word_in bytes.now order at }
    ensures lies { OnOk result (at + 4 ≤ length bytes.now) }
{
    match get_u32(bytes, at, order) {
        Some(word) => Ok(word),
        None => Err(ElfCause::Truncated(at)),
    }
}

/// The number of rows by the SysV hash table at an offset.
pub fn rows_by_hash(bytes: &[u8], order: Order, at: u64) -> Result<u64, ElfCause>
    ensures { result ≡ rows_by_hash bytes.now order at }
{
    Ok(u64::from(word_in(bytes, order, at.saturating_add(4))?))
}

// Whether all buckets are below the first hashed row, one more among them.
fn still_below(all_below: bool, bucket: u32, first: u32) -> bool
    ensures { result ≡ (all_below && nat_lt bucket first) }
{
    all_below && bucket < first
}

// The greatest of the buckets from an offset on, and whether all are below the first hashed row.
#[tactic(auto, unfolding(crate::specs::Hash::words_in))]
fn buckets(
    bytes: &[u8],
    order: Order,
    at: u64,
    count: u32,
    first: u32,
) -> Result<(u32, bool), ElfCause>
    ensures { result ≡ buckets_in bytes.now order at count first }
{
    let mut place = at;
    let mut greatest = 0u32;
    let mut all_below = true;
    for _turn in 0..count {
        let bucket = word_in(bytes, order, place)?;
        place += 4;
        greatest = greatest.max(bucket);
        all_below = still_below(all_below, bucket, first);
    }
    Ok((greatest, all_below))
}

// Whether the word at an offset ends a chain, or doesn't stand in the file.
fn ends_chain(bytes: &[u8], order: Order, at: u64) -> bool
    ensures exact { result ≡ ends_chain bytes.now order at }
    ensures lies { OnFalse result (at + 4 ≤ length bytes.now) }
{
    match get_u32(bytes, at, order) {
        Some(word) => word % 2 == 1,
        None => true,
    }
}

// Which of the words from an offset on is the first that ends a chain, or doesn't stand in the file.
#[tactic(auto, using(ifs_bytes::proofs::Range::find_here, ifs_bytes::proofs::Range::find_later, ifs_bytes::proofs::Range::find_end))]
fn chain_end(bytes: &[u8], order: Order, from: u64) -> Option<u64>
    ensures exact { result ≡ find (λ i. ends_chain bytes.now order (from + 4 * i)) (places 0 (length bytes.now + 1)) }
    ensures fits { IfSome result (λ i. from + 4 * i < 2 ^ 64) }
    ensures within { IfSome result (λ i. i ≤ length bytes.now) }
{
    let mut place = from;
    for i in 0..bytes.len() as u64 + 1 {
        if ends_chain(bytes, order, place) {
            return Some(i);
        }
        place += 4;
    }
    None
}

// How many words the chain from an offset on has.
#[tactic(auto, unfolding(crate::specs::Hash::chain_length))]
fn chain_length(bytes: &[u8], order: Order, from: u64) -> Result<u64, ElfCause>
    ensures exact { result ≡ chain_length bytes.now order from }
    ensures within { IfOk result (λ n. n ≤ length bytes.now + 1) }
{
    match chain_end(bytes, order, from) {
        Some(i) => {
            word_in(bytes, order, from + 4 * i)?;
            Ok(i + 1)
        }
        None => Ok(0),
    }
}

// The number of rows, where the chain word of the first hashed row stands at an offset.
#[tactic(auto, unfolding(crate::specs::Hash::rows_by_chains))]
fn rows_by_chains(
    bytes: &[u8],
    order: Order,
    first: u32,
    chains: u64,
    greatest: u32,
    all_below: bool,
) -> Result<u64, ElfCause>
    requires { chains < 2 ^ 63 + 2 ^ 40 }
    ensures { result ≡ rows_by_chains bytes.now order first chains (greatest, all_below) }
{
    if all_below {
        return Ok(u64::from(first));
    }
    let from = chains + 4 * u64::from(greatest.saturating_sub(first));
    let more = chain_length(bytes, order, from)?;
    Ok(u64::from(greatest) + more)
}

/// The number of rows by the GNU hash table at an offset.
#[tactic(auto, unfolding(crate::specs::Hash::rows_by_gnu_hash))]
pub fn rows_by_gnu_hash(bytes: &[u8], order: Order, width: Width, at: u64) -> Result<u64, ElfCause>
    ensures { result ≡ rows_by_gnu_hash bytes.now order width at }
{
    let count = word_in(bytes, order, at)?;
    let first = word_in(bytes, order, at + 4)?;
    let blooms = word_in(bytes, order, at + 8)?;
    let start = at + 16 + u64::from(blooms) * width.bytes() as u64;
    let (greatest, all_below) = buckets(bytes, order, start, count, first)?;
    rows_by_chains(
        bytes,
        order,
        first,
        start + 4 * u64::from(count),
        greatest,
        all_below,
    )
}
