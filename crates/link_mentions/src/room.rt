//! The room that mentions of one name ask for together.

ghost use Rattle.std.specs.Prelude.{◌≡◌};
ghost use Rattle.link_core.specs.Binding as binding;

use crate::mention::Mention;

/// How many bytes the common symbol of the name has: the most that one asks for.
#[tactic(auto, unfolding(link_core::specs::Binding::common_size), using(crate::proofs::Greatest::greatest_more, crate::proofs::Greatest::greatest_less, crate::proofs::Greatest::greatest_end))]
pub fn common_size(mentions: &[Mention]) -> u64
    ensures { result ≡ binding.common_size mentions.now }
{
    let mut greatest = 0;
    for mention in mentions {
        if mention.is_common() {
            greatest = mention.size().max(greatest);
        }
    }
    greatest
}

/// Its alignment: the greatest that one asks for, 1 at least.
#[tactic(auto, unfolding(link_core::specs::Binding::common_align), using(crate::proofs::Greatest::greatest_more, crate::proofs::Greatest::greatest_less, crate::proofs::Greatest::greatest_end))]
pub fn common_align(mentions: &[Mention]) -> u64
    ensures { result ≡ binding.common_align mentions.now }
{
    let mut greatest = 0;
    for mention in mentions {
        if mention.is_common() {
            greatest = mention.value().max(greatest);
        }
    }
    greatest.max(1)
}
