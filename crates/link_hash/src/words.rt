//! The words of the table, and their bytes.

ghost use Rattle.std.specs.Prelude.{◌≡◌, ◌+◌, ◌++◌, ◌<◌, ◌^◌, ◌∷◌, flat_map, length};
ghost use Rattle.std.specs.Result.{IfOk, OnOk};
ghost use Rattle.ifs_bytes.specs.Field.{number_bytes};
ghost use Rattle.link_core.specs.HashTable as meant;
ghost use Rattle.link_hash.specs.Chained.{names_of};

use crate::chains::{Chains, link_rows};
use ifs_bytes::{Memory, Order, put_u32};
use std::alloc::Global;

// The words by the rows of all buckets.
fn joined(alloc: Global, count: u32, chains: &Chains) -> Result<Vec<u32>, Memory>
    ensures { IfOk result (λ words. words.items
        ≡ count ∷ count ∷ chains.now.heads.items ++ 0 ∷ chains.now.nexts.items) }
{
    let mut words = Vec::new(alloc);
    words.push(count)?;
    words.push(count)?;
    words.extend_from_slice(&chains.heads)?;
    words.push(0)?;
    words.extend_from_slice(&chains.nexts)?;
    Ok(words)
}

/// The words of .hash for the names of the rows behind row 0: how many buckets and how many rows there are,
/// the first row of each bucket, and the next row of each row's bucket; 0 ends a bucket.
#[tactic(auto, using(crate::proofs::Linked::all_linked))]
pub fn hash_words(alloc: Global, names: &[&[u8]]) -> Result<Vec<u32>, Memory>
    requires { length names.now + 1 < 2 ^ 32 }
    ensures { IfOk result (λ words. words.items ≡ meant.hash_words (names_of names.now)) }
{
    let chains = link_rows(alloc, names)?;
    joined(alloc, names.len() as u32 + 1, &chains)
}

/// Appends the four bytes of each word, the lowest first.
pub fn put_words(out: &mut Vec<u8>, words: &[u32]) -> Result<(), Memory>
    ensures { OnOk result (out.new.items
        ≡ out.old.items ++ flat_map (λ word. number_bytes 4 word Order.Little) words.now) }
{
    for word in words {
        put_u32(out, *word, Order::Little)?;
    }
    Ok(())
}
