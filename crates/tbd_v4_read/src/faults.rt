//! The first thing that is wrong with a library.

ghost use Rattle.std.specs.Prelude.{◌≡◌};
ghost use Rattle.yaml_nodes.specs.Nodes.{key_of, value_of};
ghost use Rattle.yaml_maps.specs.Maps.{first_of};
ghost use Rattle.tbd_v4_read.specs.Faults.{is_group_value, group_value_fault, group_map_fault, group_fault, groups_fault, is_number_value, is_single_value, value_fault, version_fault, unless_known, unknown_in, unknown_in_group, unknown_at, unknown_target, values_fault, library_fault};

use crate::keys::{
    GroupKind, group_keys_fault, group_kind, items_at, items_in, library_keys_fault, map_entries,
};
use crate::values::{
    are_group_targets, are_library_targets, are_names, byte_in, has_version, name_in, stands_in,
    version_in,
};
use tbd_core::{Fault, Wrong, bad_unless};
use yaml_maps::is;
use yaml_profile::{Entry, Node};

// ---- a group

// Whether the value of a key has its form.
fn is_group_value(key: &[u8], value: &Node) -> bool
    ensures { result ≡ is_group_value key.now value.now }
{
    if is(key, b"targets") {
        return are_group_targets(value);
    }
    if is(key, b"umbrella") {
        return name_in(value).is_some();
    }
    are_names(value)
}

#[tactic(auto, unfolding(crate::specs::Faults::group_value_fault))]
fn group_value_fault<'a>(entry: &'a Entry<'_>) -> Option<Fault<'a>>
    ensures { result ≡ group_value_fault entry.now }
{
    bad_unless(is_group_value(entry.key(), entry.value()), entry.key())
}

// The first value of a group that hasn't its form.
fn group_values_fault<'a>(entries: &'a [Entry<'_>]) -> Option<Fault<'a>>
    ensures { result ≡ first_of group_value_fault entries.now }
{
    for entry in entries {
        if let Some(fault) = group_value_fault(entry) {
            return Some(fault);
        }
    }
    None
}

// What is wrong with the map of a group.
#[tactic(auto, unfolding(crate::specs::Faults::group_map_fault))]
fn group_map_fault<'a>(kind: GroupKind, entries: &'a [Entry<'_>]) -> Option<Fault<'a>>
    ensures { result ≡ group_map_fault kind entries.now }
{
    match group_keys_fault(kind, entries) {
        Some(fault) => Some(fault),
        None => group_values_fault(entries),
    }
}

// What is wrong with an item of the groups that a key has.
#[tactic(auto, unfolding(crate::specs::Faults::group_fault))]
fn group_fault<'a>(key: &'a [u8], kind: GroupKind, item: &'a Node) -> Option<Fault<'a>>
    ensures { result ≡ group_fault key.now kind item.now }
{
    match item.as_map() {
        Some(entries) => group_map_fault(kind, entries),
        None => bad_unless(false, key),
    }
}

// The first thing that is wrong with such items.
fn items_fault<'a>(key: &'a [u8], kind: GroupKind, items: &'a [Node]) -> Option<Fault<'a>>
    ensures { result ≡ first_of (group_fault key.now kind) items.now }
{
    for item in items {
        if let Some(fault) = group_fault(key, kind, item) {
            return Some(fault);
        }
    }
    None
}

// What is wrong with the groups that a key has.
#[tactic(auto, unfolding(crate::specs::Faults::groups_fault))]
fn groups_fault<'a>(key: &'a [u8], kind: GroupKind, value: &'a Node) -> Option<Fault<'a>>
    ensures { result ≡ groups_fault key.now kind value.now }
{
    match value.as_seq() {
        Some(items) => items_fault(key, kind, items),
        None => bad_unless(false, key),
    }
}

// ---- a library

// Whether the value of a key has the form of its number.
#[tactic(auto, unfolding(crate::specs::Faults::is_number_value))]
fn is_number_value(key: &[u8], value: &Node) -> bool
    ensures { result ≡ is_number_value key.now value.now }
{
    if is(key, b"current-version") {
        return version_in(value).is_some();
    }
    if is(key, b"compatibility-version") {
        return version_in(value).is_some();
    }
    if is(key, b"swift-abi-version") {
        return byte_in(value).is_some();
    }
    true
}

// Whether the value of a key without groups has its form.
#[tactic(auto, unfolding(crate::specs::Faults::is_single_value))]
fn is_single_value(key: &[u8], value: &Node) -> bool
    ensures { result ≡ is_single_value key.now value.now }
{
    if is(key, b"targets") {
        return are_library_targets(value);
    }
    if is(key, b"flags") {
        return are_names(value);
    }
    if is(key, b"install-name") {
        return name_in(value).is_some();
    }
    is_number_value(key, value)
}

// What is wrong with the value of a key.
#[tactic(auto, unfolding(crate::specs::Faults::value_fault))]
fn value_fault<'a>(entry: &'a Entry<'_>) -> Option<Fault<'a>>
    ensures { result ≡ value_fault entry.now }
{
    let key = entry.key();
    let value = entry.value();
    match group_kind(key) {
        Some(kind) => groups_fault(key, kind, value),
        None => bad_unless(is_single_value(key, value), key),
    }
}

// The first value that is wrong.
fn value_faults<'a>(entries: &'a [Entry<'_>]) -> Option<Fault<'a>>
    ensures { result ≡ first_of value_fault entries.now }
{
    for entry in entries {
        if let Some(fault) = value_fault(entry) {
            return Some(fault);
        }
    }
    None
}

// What is wrong with the version of the format.
#[tactic(auto, unfolding(crate::specs::Faults::version_fault))]
fn version_fault<'a>(entries: &'a [Entry<'_>]) -> Option<Fault<'a>>
    ensures { result ≡ version_fault entries.now }
{
    if has_version(entries) {
        None
    } else {
        Some(Fault::new(Wrong::BadVersion, b""))
    }
}

// ---- targets that the library hasn't

// A name that isn't one of the library's targets.
fn unless_known<'a>(targets: &[Node], name: &'a [u8]) -> Option<Fault<'a>>
    ensures { result ≡ unless_known targets.now name.now }
{
    if stands_in(name, targets) {
        None
    } else {
        Some(Fault::new(Wrong::UnknownTarget, name))
    }
}

#[tactic(auto, unfolding(crate::specs::Faults::unknown_in))]
fn unknown_in<'a>(targets: &[Node], item: &'a Node) -> Option<Fault<'a>>
    ensures { result ≡ unknown_in targets.now item.now }
{
    match item.as_scalar() {
        Some(name) => unless_known(targets, name),
        None => None,
    }
}

// The first such name of a list.
fn unknown_among<'a>(targets: &[Node], items: &'a [Node]) -> Option<Fault<'a>>
    ensures { result ≡ first_of (unknown_in targets.now) items.now }
{
    for item in items {
        if let Some(fault) = unknown_in(targets, item) {
            return Some(fault);
        }
    }
    None
}

// The first such name of the targets of a group.
#[tactic(auto, unfolding(crate::specs::Faults::unknown_in_group))]
fn unknown_in_group<'a>(targets: &[Node], group: &'a Node) -> Option<Fault<'a>>
    ensures { result ≡ unknown_in_group targets.now group.now }
{
    unknown_among(targets, items_at(map_entries(group), b"targets"))
}

// The first such name of groups.
fn unknown_in_groups<'a>(targets: &[Node], groups: &'a [Node]) -> Option<Fault<'a>>
    ensures { result ≡ first_of (unknown_in_group targets.now) groups.now }
{
    for group in groups {
        if let Some(fault) = unknown_in_group(targets, group) {
            return Some(fault);
        }
    }
    None
}

// The first such name of the groups of a key.
#[tactic(auto, unfolding(crate::specs::Faults::unknown_at))]
fn unknown_at<'a>(targets: &[Node], entry: &'a Entry<'_>) -> Option<Fault<'a>>
    ensures { result ≡ unknown_at targets.now entry.now }
{
    match group_kind(entry.key()) {
        Some(_) => unknown_in_groups(targets, items_in(entry.value())),
        None => None,
    }
}

// The first such name of entries.
fn unknown_within<'a>(targets: &[Node], entries: &'a [Entry<'_>]) -> Option<Fault<'a>>
    ensures { result ≡ first_of (unknown_at targets.now) entries.now }
{
    for entry in entries {
        if let Some(fault) = unknown_at(targets, entry) {
            return Some(fault);
        }
    }
    None
}

// The first target of a group that the library hasn't.
#[tactic(auto, unfolding(crate::specs::Faults::unknown_target))]
fn unknown_target<'a>(entries: &'a [Entry<'_>]) -> Option<Fault<'a>>
    ensures { result ≡ unknown_target entries.now }
{
    unknown_within(items_at(entries, b"targets"), entries)
}

// ---- the whole

#[tactic(auto, unfolding(crate::specs::Faults::values_fault))]
fn values_fault<'a>(entries: &'a [Entry<'_>]) -> Option<Fault<'a>>
    ensures { result ≡ values_fault entries.now }
{
    match value_faults(entries) {
        Some(fault) => Some(fault),
        None => unknown_target(entries),
    }
}

/// The first thing that is wrong with a library: its keys, the version of the format, the values in text
/// order, and then a target of a group that the library hasn't. Takes no memory.
#[tactic(auto, unfolding(crate::specs::Faults::library_fault))]
pub(crate) fn library_fault<'a>(entries: &'a [Entry<'_>]) -> Option<Fault<'a>>
    ensures { result ≡ library_fault entries.now }
{
    if let Some(fault) = library_keys_fault(entries) {
        return Some(fault);
    }
    match version_fault(entries) {
        Some(fault) => Some(fault),
        None => values_fault(entries),
    }
}
