//! What the mentions of one name say together.

ghost use Rattle.std.specs.Prelude.{◌≡◌, ◌==◌, filter, slice_get};
ghost use Rattle.std.specs.List.{find};
ghost use Rattle.std.specs.Option.{option_copied};
ghost use Rattle.link_core.specs.Mentions as said;
ghost use Rattle.link_core.specs.Binding as binding;
ghost use Rattle.link_core.specs.Resolution as resolution;
ghost use Rattle.std.specs.List as lists;

use crate::mention::Mention;
use link_core::{STT_TLS, STV_DEFAULT, STV_HIDDEN, STV_INTERNAL, STV_PROTECTED};

/// The first definition that isn't weak.
#[tactic(auto, using(crate::proofs::First::find_more, crate::proofs::First::find_end))]
pub fn first_strong_definition<'b, 'a>(mentions: &'b [Mention<'a>]) -> Option<&'b Mention<'a>>
    ensures { option_copied result ≡ find said.is_strong_definition mentions.now }
{
    for mention in mentions {
        if mention.is_strong_definition() {
            return Some(mention);
        }
    }
    None
}

/// The first definition.
#[tactic(auto, using(crate::proofs::First::find_more, crate::proofs::First::find_end))]
pub fn first_definition<'b, 'a>(mentions: &'b [Mention<'a>]) -> Option<&'b Mention<'a>>
    ensures { option_copied result ≡ find said.is_definition mentions.now }
{
    for mention in mentions {
        if mention.is_definition() {
            return Some(mention);
        }
    }
    None
}

/// The first mention that wants the name from elsewhere and isn't weak.
#[tactic(auto, using(crate::proofs::First::find_more, crate::proofs::First::find_end))]
pub fn first_strong_want<'b, 'a>(mentions: &'b [Mention<'a>]) -> Option<&'b Mention<'a>>
    ensures { option_copied result ≡ find said.is_strong_want mentions.now }
{
    for mention in mentions {
        if mention.is_strong_want() {
            return Some(mention);
        }
    }
    None
}

/// Whether one asks for room.
pub fn has_common(mentions: &[Mention]) -> bool
    ensures { result ≡ lists.list_any said.is_common mentions.now }
{
    mentions.iter().any(|mention| mention.is_common())
}

/// Whether all are weak.
pub fn are_weak(mentions: &[Mention]) -> bool
    ensures { result ≡ said.are_weak mentions.now }
{
    mentions.iter().all(|mention| mention.is_weak())
}

/// Whether the first says that the name is thread-local.
pub fn is_first_threaded(mentions: &[Mention]) -> bool
    ensures { result ≡ resolution.is_first_threaded mentions.now }
{
    match mentions {
        [] => false,
        [first, ..] => first.kind() == STT_TLS,
    }
}

// Whether one has the visibility.
fn one_has(visibility: u8, mentions: &[Mention]) -> bool
    ensures { result ≡ said.one_has visibility mentions.now }
{
    mentions
        .iter()
        .any(|mention| mention.visibility() == visibility)
}

/// The strictest visibility of them, in the order internal, hidden, protected, default.
#[tactic(auto, unfolding(link_core::specs::Mentions::strictest))]
pub fn strictest(mentions: &[Mention]) -> u8
    ensures { result ≡ said.strictest mentions.now }
{
    if one_has(STV_INTERNAL, mentions) {
        STV_INTERNAL
    } else if one_has(STV_HIDDEN, mentions) {
        STV_HIDDEN
    } else if one_has(STV_PROTECTED, mentions) {
        STV_PROTECTED
    } else {
        STV_DEFAULT
    }
}
