//! The maps of a text, by the keys of their entries.

ghost use Rattle.std.specs.Prelude.{◌≡◌, ◌<◌, map, take, length};
ghost use Rattle.std.specs.List.{find, list_any};
ghost use Rattle.std.specs.Option.{option_copied};
ghost use Rattle.ifs_interface.specs.Triple.{same_name};
ghost use Rattle.ifs_text.specs.declared.maps.MapKind.TheVariants as MapKind;
ghost use Rattle.ifs_text.specs.Maps.{keys, is_among, key_of, value_at, key_fault_at, key_fault, missing, missing_fault, keys_fault};

use crate::fault::{Fault, Wrong};
use yaml_profile::{Entry, Node};

/// The maps of a text.
#[derive(Clone, Copy)]
pub(crate) enum MapKind {
    /// The root.
    Root,
    /// The value of `Target`.
    Target,
    /// An item of `Symbols`.
    Symbol,
}

impl MapKind {
    // Whether a map of this kind may have a key.
    fn has_key(self, key: &[u8]) -> bool
        ensures { result ≡ is_among key.now (keys self) }
    {
        match self {
            MapKind::Root => is_root_key(key),
            MapKind::Target => is_target_key(key),
            MapKind::Symbol => is_symbol_key(key),
        }
    }
}

fn is_root_key(key: &[u8]) -> bool
    ensures { result ≡ is_among key.now (keys MapKind.Root) }
{
    is(key, b"IfsVersion")
        || is(key, b"SoName")
        || is(key, b"Target")
        || is(key, b"NeededLibs")
        || is(key, b"Symbols")
}

fn is_target_key(key: &[u8]) -> bool
    ensures { result ≡ is_among key.now (keys MapKind.Target) }
{
    is(key, b"ObjectFormat") || is(key, b"Arch") || is(key, b"Endianness") || is(key, b"BitWidth")
}

fn is_symbol_key(key: &[u8]) -> bool
    ensures { result ≡ is_among key.now (keys MapKind.Symbol) }
{
    is(key, b"Name")
        || is(key, b"Type")
        || is(key, b"Size")
        || is(key, b"Undefined")
        || is(key, b"Weak")
        || is(key, b"Warning")
}

/// Whether a text is a word.
pub(crate) fn is(text: &[u8], word: &[u8]) -> bool
    ensures { result ≡ same_name text.now word.now }
{
    text == word
}

// Whether an entry has a key.
fn has_entry(entries: &[Entry], key: &[u8]) -> bool
    ensures { result ≡ is_among key.now (map key_of entries.now) }
{
    for entry in entries {
        if is(key, entry.key.as_bytes()) {
            return true;
        }
    }
    false
}

/// The value of a key.
#[tactic(auto, unfolding(crate::specs::Maps::value_at))]
pub(crate) fn value_at<'a, 't>(entries: &'a [Entry<'t>], key: &[u8]) -> Option<&'a Node<'t>>
    ensures { option_copied result ≡ value_at key.now entries.now }
{
    for entry in entries {
        if is(entry.key.as_bytes(), key) {
            return Some(&entry.value);
        }
    }
    None
}

// What is wrong with the key at a place.
#[tactic(auto, unfolding(crate::specs::Maps::key_fault_at), using(crate::proofs::Firsts::key_at))]
fn key_fault_at<'a>(kind: MapKind, entries: &'a [Entry], i: usize) -> Option<Fault<'a>>
    requires { i < length entries.now }
    ensures { result ≡ key_fault_at kind entries.now i }
{
    let key = entries[i].key.as_bytes();
    if !kind.has_key(key) {
        return Some(Fault::new(Wrong::UnknownKey, key));
    }
    if has_entry(&entries[..i], key) {
        return Some(Fault::new(Wrong::RepeatedKey, key));
    }
    None
}

// The first unknown or repeated key.
#[tactic(auto, unfolding(crate::specs::Maps::key_fault), using(crate::proofs::Firsts::first_here, crate::proofs::Firsts::first_later, crate::proofs::Firsts::first_end))]
fn key_fault<'a>(kind: MapKind, entries: &'a [Entry]) -> Option<Fault<'a>>
    ensures { result ≡ key_fault kind entries.now }
{
    for i in 0..entries.len() {
        if let Some(fault) = key_fault_at(kind, entries, i) {
            return Some(fault);
        }
    }
    None
}

// The first key that is needed and isn't there.
#[tactic(auto, unfolding(crate::specs::Maps::missing_fault))]
fn missing_fault<'a>(kind: MapKind, entries: &'a [Entry]) -> Option<Fault<'a>>
    ensures { result ≡ missing_fault kind entries.now }
{
    match kind {
        MapKind::Root => missing(entries, b"IfsVersion"),
        MapKind::Target => None,
        MapKind::Symbol => match missing(entries, b"Name") {
            Some(fault) => Some(fault),
            None => missing(entries, b"Type"),
        },
    }
}

// A key, where it isn't there.
fn missing<'a>(entries: &[Entry], key: &'a [u8]) -> Option<Fault<'a>>
    ensures { result ≡ missing (map key_of entries.now) key.now }
{
    if has_entry(entries, key) {
        None
    } else {
        Some(Fault::new(Wrong::MissingKey, key))
    }
}

/// What is wrong with the keys of a map: an unknown or repeated one, else a missing one.
#[tactic(auto, unfolding(crate::specs::Maps::keys_fault))]
pub(crate) fn keys_fault<'a>(kind: MapKind, entries: &'a [Entry]) -> Option<Fault<'a>>
    ensures { result ≡ keys_fault kind entries.now }
{
    match key_fault(kind, entries) {
        Some(fault) => Some(fault),
        None => missing_fault(kind, entries),
    }
}
