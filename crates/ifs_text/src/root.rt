//! The map of the root of a text: what is wrong with it.

ghost use Rattle.std.specs.Prelude.{◌≡◌, is_some, Some};
ghost use Rattle.std.specs.List.{list_all};
ghost use Rattle.yaml_nodes.specs.Nodes.{items_of};
ghost use Rattle.ifs_text.specs.Maps.{first_of};
ghost use Rattle.ifs_text.specs.Values.{name_in};
ghost use Rattle.ifs_text.specs.Faults.{are_names, is_version, has_version, version_fault, root_value_fault_by, root_value_fault, root_fault};

use crate::fault::{Fault, Wrong, bad_unless};
use crate::maps::{MapKind, is, keys_fault, value_at};
use crate::symbols::symbols_fault;
use crate::target::target_fault;
use crate::values::name_in;
use yaml_profile::{Entry, Node};

// Whether each item is a proper name.
fn all_names(items: &[Node]) -> bool
    ensures { result ≡ list_all (λ item. is_some (name_in item)) items.now }
{
    for item in items {
        if name_in(item).is_none() {
            return false;
        }
    }
    true
}

// Whether a value is a list of proper names.
fn are_names(value: &Node) -> bool
    ensures { result ≡ are_names (items_of value.now) }
{
    match value.as_seq() {
        Some(items) => all_names(items),
        None => false,
    }
}

// Whether a text is the version that is read.
fn is_version(text: &[u8]) -> bool
    ensures { result ≡ is_version (Some text.now) }
{
    is(text, b"3.0") || is(text, b"3")
}

// Whether the root gives that version.
fn has_version(entries: &[Entry]) -> bool
    ensures { result ≡ has_version entries.now }
{
    match value_at(entries, b"IfsVersion") {
        Some(value) => match value.as_scalar() {
            Some(text) => is_version(text),
            None => false,
        },
        None => false,
    }
}

// What is wrong with the version.
#[tactic(auto, unfolding(crate::specs::Faults::version_fault))]
fn version_fault<'a>(entries: &'a [Entry<'_>]) -> Option<Fault<'a>>
    ensures { result ≡ version_fault entries.now }
{
    if has_version(entries) {
        None
    } else {
        Some(Fault::new(Wrong::BadVersion, b""))
    }
}

// What is wrong with the value of a key.
fn value_fault<'a>(key: &'a [u8], value: &'a Node) -> Option<Fault<'a>>
    ensures { result ≡ root_value_fault_by key.now value.now }
{
    if is(key, b"SoName") {
        return bad_unless(name_in(value).is_some(), key);
    }
    if is(key, b"Target") {
        return target_fault(key, value);
    }
    if is(key, b"NeededLibs") {
        return bad_unless(are_names(value), key);
    }
    if is(key, b"Symbols") {
        return symbols_fault(key, value);
    }
    None
}

#[tactic(auto, unfolding(crate::specs::Faults::root_value_fault))]
fn root_value_fault<'a>(entry: &'a Entry<'_>) -> Option<Fault<'a>>
    ensures { result ≡ root_value_fault entry.now }
{
    value_fault(entry.key.as_bytes(), &entry.value)
}

// The first thing that is wrong with the values.
fn values_fault<'a>(entries: &'a [Entry<'_>]) -> Option<Fault<'a>>
    ensures { result ≡ first_of root_value_fault entries.now }
{
    for entry in entries {
        if let Some(fault) = root_value_fault(entry) {
            return Some(fault);
        }
    }
    None
}

/// What is wrong with the map of the root: its keys, the version, and then the other values.
#[tactic(auto, unfolding(crate::specs::Faults::root_fault))]
pub(crate) fn root_fault<'a>(entries: &'a [Entry<'_>]) -> Option<Fault<'a>>
    ensures { result ≡ root_fault entries.now }
{
    if let Some(fault) = keys_fault(MapKind::Root, entries) {
        return Some(fault);
    }
    match version_fault(entries) {
        Some(fault) => Some(fault),
        None => values_fault(entries),
    }
}
