//! The keys of maps.

ghost use Rattle.std.specs.Prelude.{◌≡◌, ◌<◌, map, take, length, Option, option_map};
ghost use Rattle.std.specs.List.{find, list_any};
ghost use Rattle.std.specs.Option.{option_copied};
ghost use Rattle.ifs_interface.specs.Triple.{same_name};
ghost use Rattle.yaml_nodes.specs.Nodes.{key_of};
ghost use Rattle.yaml_maps.specs.Maps.{texts, found, is_among, value_at, key_fault_at, key_fault, missing, missing_fault, keys_fault};

use std::marker::Model;
use yaml_nodes::{Entry, Node};

/// What may be wrong with a key.
#[derive(Clone, Copy, Debug, PartialEq, Eq)]
pub enum Wrong {
    /// The map may not have it.
    Unknown,
    /// The map has it twice.
    Repeated,
    /// The map has to have it, and hasn't.
    Missing,
}

/// A key, and what is wrong with it. A contract sees it as these two.
#[derive(Debug, Drop)]
pub struct KeyFault<'a> {
    wrong: Wrong,
    key: &'a [u8],
}

impl<'a> Model for KeyFault<'a> {
    ghost use Rattle.yaml_maps.specs.Maps.{WrongKey, found};

    ghost Value = { WrongKey };

    ghost view = { λ f. found f.wrong f.key.now };
}

impl<'a> KeyFault<'a> {
    ghost use Rattle.std.specs.Prelude.{◌≡◌};
    ghost use Rattle.yaml_maps.specs.Maps.{found};

    // A key with what is wrong with it.
    fn new(wrong: Wrong, key: &'a [u8]) -> KeyFault<'a>
        ensures { result ≡ found wrong key.now }
    {
        KeyFault { wrong, key }
    }

    /// What is wrong.
    pub fn wrong(&self) -> Wrong
        ensures { result ≡ self.now.wrong }
    {
        self.wrong
    }

    /// The key: of a missing one the one that was asked for, else one of the text.
    pub fn key(&self) -> &'a [u8]
        ensures { result.now ≡ self.now.key }
    {
        self.key
    }
}

/// Whether a text is a word.
pub fn is(text: &[u8], word: &[u8]) -> bool
    ensures { result ≡ same_name text.now word.now }
{
    text == word
}

// Whether a name stands among names.
fn is_among(name: &[u8], names: &[&[u8]]) -> bool
    ensures { result ≡ is_among name.now (texts names.now) }
{
    for other in names {
        if is(name, other) {
            return true;
        }
    }
    false
}

// Whether an entry has a key.
fn has_entry(entries: &[Entry], key: &[u8]) -> bool
    ensures { result ≡ is_among key.now (map key_of entries.now) }
{
    for entry in entries {
        if is(key, entry.key()) {
            return true;
        }
    }
    false
}

/// The value of a key: of the first entry with it; None where there is none.
#[tactic(auto, unfolding(crate::specs::Maps::value_at))]
pub fn value_at<'a, 't>(entries: &'a [Entry<'t>], key: &[u8]) -> Option<&'a Node<'t>>
    ensures { option_copied result ≡ value_at key.now entries.now }
{
    for entry in entries {
        if is(entry.key(), key) {
            return Some(entry.value());
        }
    }
    None
}

// What is wrong with the key at a place.
#[tactic(auto, unfolding(crate::specs::Maps::key_fault_at), using(crate::proofs::Firsts::key_at))]
fn key_fault_at<'a>(keys: &[&[u8]], entries: &'a [Entry], i: usize) -> Option<KeyFault<'a>>
    requires { i < length entries.now }
    ensures { result ≡ key_fault_at (texts keys.now) entries.now i }
{
    let key = entries[i].key();
    if !is_among(key, keys) {
        return Some(KeyFault::new(Wrong::Unknown, key));
    }
    if has_entry(&entries[..i], key) {
        return Some(KeyFault::new(Wrong::Repeated, key));
    }
    None
}

// The first unknown or repeated key.
#[tactic(auto, unfolding(crate::specs::Maps::key_fault), using(crate::proofs::Firsts::first_here, crate::proofs::Firsts::first_later, crate::proofs::Firsts::first_end))]
fn key_fault<'a>(keys: &[&[u8]], entries: &'a [Entry]) -> Option<KeyFault<'a>>
    ensures { result ≡ key_fault (texts keys.now) entries.now }
{
    for i in 0..entries.len() {
        if let Some(fault) = key_fault_at(keys, entries, i) {
            return Some(fault);
        }
    }
    None
}

// A key, where it isn't there.
fn missing<'a>(entries: &[Entry], key: &'a [u8]) -> Option<KeyFault<'a>>
    ensures { result ≡ missing (map key_of entries.now) key.now }
{
    if has_entry(entries, key) {
        None
    } else {
        Some(KeyFault::new(Wrong::Missing, key))
    }
}

// The first key that is needed and isn't there.
#[tactic(auto, unfolding(crate::specs::Maps::missing_fault))]
fn missing_fault<'a>(needed: &[&'a [u8]], entries: &[Entry]) -> Option<KeyFault<'a>>
    ensures { result ≡ missing_fault (texts needed.now) entries.now }
{
    for key in needed {
        if let Some(fault) = missing(entries, key) {
            return Some(fault);
        }
    }
    None
}

/// What is wrong with the keys of a map that may have `keys` and has to have `needed`: the first unknown or
/// repeated one in the order of the text, else the first that is missing in the order of `needed`. Takes no
/// memory.
#[tactic(auto, unfolding(crate::specs::Maps::keys_fault))]
pub fn keys_fault<'a>(
    keys: &[&[u8]],
    needed: &[&'a [u8]],
    entries: &'a [Entry],
) -> Option<KeyFault<'a>>
    ensures { result ≡ keys_fault (texts keys.now) (texts needed.now) entries.now }
{
    match key_fault(keys, entries) {
        Some(fault) => Some(fault),
        None => missing_fault(needed, entries),
    }
}
