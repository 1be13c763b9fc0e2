//! Sections one after the other.

ghost use Rattle.std.specs.Prelude.{◌≡◌};
ghost use Rattle.link_core.specs.Aligned as aligned;
ghost use Rattle.link_tables.specs.Capped.{capped};

use crate::section::Section;

/// The least multiple of an alignment that isn't below a place; an alignment of 0 counts as 1. 2^128 - 1 stands for any greater
/// place.
#[tactic(auto, using(crate::proofs::Multiples::aligned_here, crate::proofs::Multiples::aligned_above))]
pub fn aligned(align: u64, at: u128) -> u128
    ensures { result ≡ capped (aligned.aligned align at) }
{
    let align = u128::from(align.max(1));
    let over = at % align;
    if over == 0 {
        at
    } else {
        at.saturating_add(align - over)
    }
}

/// Where sections end that start from a place on, each at the least multiple of its alignment behind what is before it. 2^128 - 1
/// stands for any greater place.
#[tactic(auto, unfolding(link_core::specs::Aligned::end_from))]
pub fn ends_at(sections: &[Section], at: u128) -> u128
    ensures { result ≡ capped (aligned.end_from (λ s. s.align) (λ s. s.size) at sections.now) }
{
    let mut end = at;
    for section in sections {
        end = aligned(section.align, end).saturating_add(section.size);
    }
    end
}
