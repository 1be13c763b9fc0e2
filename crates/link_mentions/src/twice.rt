//! Names that are defined twice.

ghost use Rattle.std.specs.Prelude.{◌≡◌, ◌∷◌, filter};
ghost use Rattle.link_core.specs.Mentions.{is_strong_definition};
ghost use Rattle.link_mentions.specs.Twice.{objects_of_two};

use crate::mention::Mention;
use crate::one_name::first_strong_definition;

// The object of a definition, and that of the next.
#[tactic(auto, using(crate::proofs::First::two_by_find))]
fn with_next(one: &Mention, others: &[Mention]) -> Option<(u32, u32)>
    ensures { result ≡ objects_of_two (one.now ∷ filter is_strong_definition others.now) }
{
    match first_strong_definition(others) {
        Some(other) => Some((one.object(), other.object())),
        None => None,
    }
}

/// The positions of the objects of the first two definitions that aren't weak, where there are two.
pub fn defined_twice(mentions: &[Mention]) -> Option<(u32, u32)>
    ensures { result ≡ objects_of_two (filter is_strong_definition mentions.now) }
{
    let mut rest = mentions;
    while let [first, others @ ..] = rest {
        if first.is_strong_definition() {
            return with_next(first, others);
        }
        rest = others;
    }
    None
}
