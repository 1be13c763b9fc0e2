//! How many words of .got stand before each slot.

ghost use Rattle.std.specs.Prelude.{◌≡◌, IfOk};
ghost use Rattle.link_index.specs.Index.{starts_from};

use ifs_bytes::Memory;
use link_core::GotSlot;
use link_tables::slot_words;
use std::alloc::Global;

/// How many words stand before each slot, and how many there are.
pub fn starts_from(alloc: Global, got: &[GotSlot]) -> Result<Vec<u128>, Memory>
    ensures { IfOk result (λ starts. starts.items ≡ starts_from 0 got.now) }
{
    let mut starts = Vec::new(alloc);
    let mut total = 0u128;
    for slot in got {
        starts.push(total)?;
        total += slot_words(slot.slot);
    }
    starts.push(total)?;
    Ok(starts)
}
