//! Distances in thread-local storage.

ghost use Rattle.std.specs.Prelude.{◌≡◌, ◌<◌, ◌^◌};
ghost use Rattle.link_core.specs.Aligned as meant;
ghost use Rattle.link_core.specs.Value as values;
ghost use Rattle.link_core.specs.Planned.{Planned};

use link_core::{EM_X86_64, Layout, Machine};
use link_tables::aligned;

/// How far an address is from the start of the thread-local segment, modulo 2^64.
#[tactic(auto, unfolding(link_core::specs::Value::block_offset))]
pub fn block_offset(l: &Layout, s: u64) -> u64
    ensures { result ≡ values.block_offset l.now s }
{
    s.wrapping_sub(l.tls_start)
}

// The least multiple of an alignment that isn't below a number.
#[tactic(auto, using(crate::proofs::Rounded::aligned_low, crate::proofs::Rounded::aligned_fits))]
fn rounded(align: u64, at: u64) -> u128
    ensures is { result ≡ meant.aligned align at }
    ensures low { result < 2 ^ 66 }
{
    aligned(align, u128::from(at))
}

/// How far what stands at an offset of the block is from the thread pointer, which is at the end of the
/// block, rounded up (x86-64), or 16 bytes before it, rounded up (AArch64).
#[tactic(auto, unfolding(link_core::specs::Value::pointer_offset))]
pub fn pointer_offset<M: Machine>(machine: &M, l: &Layout, off: u64) -> i128
    ensures { (j : Planned) → j.rules ≡ M.rules → result ≡ values.pointer_offset j l.now off }
{
    if machine.number() == EM_X86_64 {
        i128::from(off) - rounded(l.tls_align, l.tls_size) as i128
    } else {
        i128::from(off) + rounded(l.tls_align, 16) as i128
    }
}
