//! The maps of a text, and their keys.

ghost use Rattle.std.specs.Prelude.{◌≡◌, [], Some, unwrap_or, option_map};
ghost use Rattle.std.specs.Option.{option_copied};
ghost use Rattle.yaml_maps.specs.Maps.{texts};
ghost use Rattle.tbd_v4_read.specs.Keys.{library_keys, library_needs, group_keys, group_needs, group_kind, key_cause, library_keys_fault, group_keys_fault, sequence_of, items_at, map_entries};

use tbd_core::{Fault, Wrong};
use yaml_maps::{KeyFault, is, value_at};
use yaml_profile::{Entry, Node};

/// The groups of a key, by the lists that they have.
#[derive(Clone, Copy, Debug)]
pub(crate) enum GroupKind {
    /// One umbrella.
    Umbrella,
    /// Clients.
    Clients,
    /// Libraries.
    Libraries,
    /// Symbols, a list for each kind.
    Symbols,
}

const LIBRARY_KEYS: [&[u8]; 14] = [
    b"tbd-version",
    b"targets",
    b"uuids",
    b"flags",
    b"install-name",
    b"current-version",
    b"compatibility-version",
    b"swift-abi-version",
    b"parent-umbrella",
    b"allowable-clients",
    b"reexported-libraries",
    b"exports",
    b"reexports",
    b"undefineds",
];

const LIBRARY_NEEDS: [&[u8]; 2] = [b"targets", b"install-name"];

const UMBRELLA_KEYS: [&[u8]; 2] = [b"targets", b"umbrella"];

const UMBRELLA_NEEDS: [&[u8]; 2] = [b"targets", b"umbrella"];

const CLIENTS_KEYS: [&[u8]; 2] = [b"targets", b"clients"];

const LIBRARIES_KEYS: [&[u8]; 2] = [b"targets", b"libraries"];

const SYMBOLS_KEYS: [&[u8]; 7] = [
    b"targets",
    b"symbols",
    b"objc-classes",
    b"objc-eh-types",
    b"objc-ivars",
    b"weak-symbols",
    b"thread-local-symbols",
];

const GROUP_NEEDS: [&[u8]; 1] = [b"targets"];

/// The groups that a key of a library has.
pub(crate) fn group_kind(key: &[u8]) -> Option<GroupKind>
    ensures { result ≡ group_kind key.now }
{
    if is(key, b"parent-umbrella") {
        return Some(GroupKind::Umbrella);
    }
    if is(key, b"allowable-clients") {
        return Some(GroupKind::Clients);
    }
    if is(key, b"reexported-libraries") {
        return Some(GroupKind::Libraries);
    }
    if is(key, b"exports") || is(key, b"reexports") || is(key, b"undefineds") {
        return Some(GroupKind::Symbols);
    }
    None
}

#[tactic(auto, unfolding(crate::specs::Keys::group_keys))]
fn group_keys(kind: GroupKind) -> &'static [&'static [u8]]
    ensures { texts result.now ≡ group_keys kind }
{
    match kind {
        GroupKind::Umbrella => &UMBRELLA_KEYS,
        GroupKind::Clients => &CLIENTS_KEYS,
        GroupKind::Libraries => &LIBRARIES_KEYS,
        GroupKind::Symbols => &SYMBOLS_KEYS,
    }
}

#[tactic(auto, unfolding(crate::specs::Keys::group_needs))]
fn group_needs(kind: GroupKind) -> &'static [&'static [u8]]
    ensures { texts result.now ≡ group_needs kind }
{
    match kind {
        GroupKind::Umbrella => &UMBRELLA_NEEDS,
        GroupKind::Clients => &GROUP_NEEDS,
        GroupKind::Libraries => &GROUP_NEEDS,
        GroupKind::Symbols => &GROUP_NEEDS,
    }
}

#[tactic(auto, unfolding(crate::specs::Keys::library_keys))]
fn library_keys() -> &'static [&'static [u8]]
    ensures { texts result.now ≡ library_keys }
{
    &LIBRARY_KEYS
}

#[tactic(auto, unfolding(crate::specs::Keys::library_needs))]
fn library_needs() -> &'static [&'static [u8]]
    ensures { texts result.now ≡ library_needs }
{
    &LIBRARY_NEEDS
}

// What is wrong with a key, as a fault.
fn key_fault<'a>(fault: &KeyFault<'a>) -> Fault<'a>
    ensures { result ≡ key_cause fault.now }
{
    match fault.wrong() {
        yaml_maps::Wrong::Unknown => Fault::new(Wrong::UnknownKey, fault.key()),
        yaml_maps::Wrong::Repeated => Fault::new(Wrong::RepeatedKey, fault.key()),
        yaml_maps::Wrong::Missing => Fault::new(Wrong::MissingKey, fault.key()),
    }
}

/// What is wrong with the keys of a library.
#[tactic(auto, unfolding(crate::specs::Keys::library_keys_fault))]
pub(crate) fn library_keys_fault<'a>(entries: &'a [Entry<'_>]) -> Option<Fault<'a>>
    ensures { result ≡ library_keys_fault entries.now }
{
    match yaml_maps::keys_fault(library_keys(), library_needs(), entries) {
        Some(fault) => Some(key_fault(&fault)),
        None => None,
    }
}

/// What is wrong with the keys of a group.
#[tactic(auto, unfolding(crate::specs::Keys::group_keys_fault))]
pub(crate) fn group_keys_fault<'a>(kind: GroupKind, entries: &'a [Entry<'_>]) -> Option<Fault<'a>>
    ensures { result ≡ group_keys_fault kind entries.now }
{
    match yaml_maps::keys_fault(group_keys(kind), group_needs(kind), entries) {
        Some(fault) => Some(key_fault(&fault)),
        None => None,
    }
}

/// What is there, or nothing.
pub(crate) fn or_none<'a, T>(items: Option<&'a [T]>) -> &'a [T]
    ensures { result.now ≡ unwrap_or (option_copied items.entry) [] }
{
    match items {
        Some(items) => items,
        None => &[],
    }
}

// The items of a sequence that may be there.
fn sequence_of<'a, 't>(value: Option<&'a Node<'t>>) -> Option<&'a [Node<'t>]>
    ensures { unwrap_or (option_copied result) [] ≡ sequence_of (option_copied value.entry) }
{
    value?.as_seq()
}

/// The items of the sequence that a key has; none where it has none.
#[tactic(auto, unfolding(crate::specs::Keys::items_at))]
pub(crate) fn items_at<'a, 't>(entries: &'a [Entry<'t>], key: &[u8]) -> &'a [Node<'t>]
    ensures { result.now ≡ items_at key.now entries.now }
{
    or_none(sequence_of(value_at(entries, key)))
}

/// The items of a sequence; none where it is none.
pub(crate) fn items_in<'a, 't>(value: &'a Node<'t>) -> &'a [Node<'t>]
    ensures { result.now ≡ sequence_of (Some value.now) }
{
    or_none(value.as_seq())
}

/// The entries of a map; none where it is no map.
pub(crate) fn map_entries<'a, 't>(node: &'a Node<'t>) -> &'a [Entry<'t>]
    ensures { result.now ≡ map_entries node.now }
{
    or_none(node.as_map())
}
