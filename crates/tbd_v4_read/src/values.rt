//! The values of a text: which forms they have, and what they stand for.

ghost use Rattle.std.specs.Prelude.{◌≡◌, ◌^◌, codes};
ghost use Rattle.std.specs.Option.{option_copied};
ghost use Rattle.yaml_nodes.specs.Nodes.{text_of};
ghost use Rattle.yaml_maps.specs.Maps.{value_at};
ghost use Rattle.tbd_core.specs.Version.{number_below};
ghost use Rattle.tbd_v4_read.specs.Values.{name_in, version_in, byte_in, all_names, are_names, some_names, are_group_targets, is_text, stands_in, stands_again, all_differ, different_names, are_library_targets, is_four};

use ifs_bytes::number_of;
use tbd_core::{Version, is_proper_name, version_named};
use yaml_maps::{is, value_at};
use yaml_profile::{Entry, Node};

/// A name, which has a byte and no NUL.
#[tactic(auto, unfolding(crate::specs::Values::name_in))]
pub(crate) fn name_in<'a>(node: &'a Node<'_>) -> Option<&'a [u8]>
    ensures { option_copied result ≡ name_in node.now }
{
    let name = node.as_scalar()?;
    if is_proper_name(name) {
        Some(name)
    } else {
        None
    }
}

/// A version.
#[tactic(auto, unfolding(crate::specs::Values::version_in))]
pub(crate) fn version_in(node: &Node) -> Option<Version>
    ensures { result ≡ version_in node.now }
{
    version_named(node.as_scalar()?)
}

// A number below 256.
fn byte_number(digits: &[u8]) -> Option<u8>
    ensures { result ≡ number_below (2 ^ 8) digits.now }
{
    u8::try_from(number_of(digits, 10)?).ok()
}

/// A number of 8 bits.
#[tactic(auto, unfolding(crate::specs::Values::byte_in))]
pub(crate) fn byte_in(node: &Node) -> Option<u8>
    ensures { result ≡ byte_in node.now }
{
    byte_number(node.as_scalar()?)
}

// Whether each item is a name.
#[tactic(auto, unfolding(crate::specs::Values::all_names))]
fn all_names(items: &[Node]) -> bool
    ensures { result ≡ all_names items.now }
{
    for item in items {
        if name_in(item).is_none() {
            return false;
        }
    }
    true
}

/// Whether a value is a sequence of names.
#[tactic(auto, unfolding(crate::specs::Values::are_names))]
pub(crate) fn are_names(value: &Node) -> bool
    ensures { result ≡ are_names value.now }
{
    match value.as_seq() {
        Some(items) => all_names(items),
        None => false,
    }
}

// Whether items are one name or more.
fn some_names(items: &[Node]) -> bool
    ensures { result ≡ some_names items.now }
{
    !items.is_empty() && all_names(items)
}

/// Whether a value is one name or more, as the targets of a group are.
#[tactic(auto, unfolding(crate::specs::Values::are_group_targets))]
pub(crate) fn are_group_targets(value: &Node) -> bool
    ensures { result ≡ are_group_targets value.now }
{
    match value.as_seq() {
        Some(items) => some_names(items),
        None => false,
    }
}

// Whether a node is a name.
fn is_text(item: &Node, name: &[u8]) -> bool
    ensures { result ≡ is_text name.now (text_of item.now) }
{
    match item.as_scalar() {
        Some(text) => is(text, name),
        None => false,
    }
}

/// Whether a name stands among nodes.
#[tactic(auto, unfolding(crate::specs::Values::stands_in))]
pub(crate) fn stands_in(name: &[u8], items: &[Node]) -> bool
    ensures { result ≡ stands_in name.now items.now }
{
    for item in items {
        if is_text(item, name) {
            return true;
        }
    }
    false
}

// Whether the text of a node stands among others.
fn stands_again(item: &Node, others: &[Node]) -> bool
    ensures { result ≡ stands_again (text_of item.now) others.now }
{
    match item.as_scalar() {
        Some(name) => stands_in(name, others),
        None => false,
    }
}

// Whether no name stands twice. A library has few targets, and no memory is taken to sort them in.
fn all_differ(items: &[Node]) -> bool
    ensures { result ≡ all_differ items.now }
{
    let mut left = items;
    while let [item, others @ ..] = left {
        if stands_again(item, others) {
            return false;
        }
        left = others;
    }
    true
}

// Whether items are one name or more, each once.
fn different_names(items: &[Node]) -> bool
    ensures { result ≡ different_names items.now }
{
    some_names(items) && all_differ(items)
}

/// Whether a value is one name or more, each once, as the targets of a library are.
#[tactic(auto, unfolding(crate::specs::Values::are_library_targets))]
pub(crate) fn are_library_targets(value: &Node) -> bool
    ensures { result ≡ are_library_targets value.now }
{
    match value.as_seq() {
        Some(items) => different_names(items),
        None => false,
    }
}

/// Whether the version of the format is the one that is read.
pub(crate) fn has_version(entries: &[Entry]) -> bool
    ensures { result ≡ is_four (value_at (codes "tbd-version") entries.now) }
{
    match value_at(entries, b"tbd-version") {
        Some(value) => is_text(value, b"4"),
        None => false,
    }
}
