//! The first row of each bucket, and the row that follows each row in its bucket.

ghost use Rattle.std.specs.Prelude.{◌≡◌, ◌+◌, ◌<◌, ◌^◌, length};
ghost use Rattle.std.specs.Result.{IfOk};
ghost use Rattle.link_hash.specs.Chained.{Chained, names_of};

use crate::hash::hash_of;
use ifs_bytes::Memory;
use std::alloc::Global;

/// The rows of a table's buckets; 0 is no row.
#[derive(Drop)]
pub struct Chains {
    /// For each bucket its first row.
    pub heads: Vec<u32>,
    /// For each name the next row of its bucket.
    pub nexts: Vec<u32>,
}

// Puts the row of the name at `i` before the rows of its bucket that are linked.
fn put_before(names: &[&[u8]], heads: &mut [u32], nexts: &mut [u32], i: usize)
    requires room { length names.now + 1 < 2 ^ 32 }
    requires within { i < length names.now }
    requires linked { Chained (names_of names.now) (i + 1) heads.old nexts.old }
    ensures { Chained (names_of names.now) i heads.new nexts.new }
{
    let bucket = (hash_of(names[i]) % (names.len() as u32 + 1)) as usize;
    nexts[i] = heads[bucket];
    heads[bucket] = i as u32 + 1;
}

/// The rows of all buckets.
pub fn link_rows(alloc: Global, names: &[&[u8]]) -> Result<Chains, Memory>
    requires { length names.now + 1 < 2 ^ 32 }
    ensures { IfOk result (λ chains. Chained (names_of names.now) 0 chains.heads.items chains.nexts.items) }
{
    let count = names.len();
    let mut heads = vec![in alloc; 0u32; count + 1]?;
    let mut nexts = vec![in alloc; 0u32; count]?;
    for behind in 0..count {
        put_before(names, &mut heads, &mut nexts, count - 1 - behind);
    }
    Ok(Chains { heads, nexts })
}
