//! The symbols of a text: what is wrong with them, and what they are.

ghost use Rattle.std.specs.Prelude.{◌≡◌, ◌++◌, IfOk, OnOk};
ghost use Rattle.std.specs.List.{filter_map};
ghost use Rattle.std.specs.Option.{option_copied, option_to_list};
ghost use Rattle.yaml_nodes.specs.Nodes.{text_of};
ghost use Rattle.ifs_text.specs.Maps.{first_of};
ghost use Rattle.ifs_text.specs.Faults.{is_symbol_value, symbol_value_fault, symbol_map_fault, symbol_fault, symbols_fault};
ghost use Rattle.ifs_text.specs.Parts.{said_name, said_kind, said_size, said_warning, is_said, symbol_of, symbol_in_map, symbol_in};

use crate::fault::{Fault, bad_unless};
use crate::maps::{MapKind, is, keys_fault, value_at};
use crate::values::{kind_in, name_in, size_in, truth_in};
use ifs_bytes::{Memory, Text};
use ifs_interface::{Kind, Symbol};
use std::alloc::Global;
use yaml_profile::{Entry, Node};

// Whether the value of a key has its form.
fn is_symbol_value(key: &[u8], value: &Node) -> bool
    ensures { result ≡ is_symbol_value key.now value.now }
{
    if is(key, b"Name") {
        return name_in(value).is_some();
    }
    if is(key, b"Type") {
        return kind_in(value).is_some();
    }
    if is(key, b"Size") {
        return size_in(value).is_some();
    }
    if is(key, b"Warning") {
        return value.as_scalar().is_some();
    }
    truth_in(value).is_some()
}

#[tactic(auto, unfolding(crate::specs::Faults::symbol_value_fault))]
fn symbol_value_fault<'a>(entry: &'a Entry<'_>) -> Option<Fault<'a>>
    ensures { result ≡ symbol_value_fault entry.now }
{
    let key = entry.key.as_bytes();
    bad_unless(is_symbol_value(key, &entry.value), key)
}

// The first value of a symbol that hasn't its form.
fn symbol_values_fault<'a>(entries: &'a [Entry<'_>]) -> Option<Fault<'a>>
    ensures { result ≡ first_of symbol_value_fault entries.now }
{
    for entry in entries {
        if let Some(fault) = symbol_value_fault(entry) {
            return Some(fault);
        }
    }
    None
}

// What is wrong with the map of a symbol.
#[tactic(auto, unfolding(crate::specs::Faults::symbol_map_fault))]
fn symbol_map_fault<'a>(entries: &'a [Entry<'_>]) -> Option<Fault<'a>>
    ensures { result ≡ symbol_map_fault entries.now }
{
    match keys_fault(MapKind::Symbol, entries) {
        Some(fault) => Some(fault),
        None => symbol_values_fault(entries),
    }
}

// What is wrong with an item of the list of symbols, the value of a key.
#[tactic(auto, unfolding(crate::specs::Faults::symbol_fault))]
fn symbol_fault<'a>(key: &'a [u8], item: &'a Node) -> Option<Fault<'a>>
    ensures { result ≡ symbol_fault key.now item.now }
{
    match item.as_map() {
        Some(entries) => symbol_map_fault(entries),
        None => bad_unless(false, key),
    }
}

// The first thing that is wrong with such items.
fn items_fault<'a>(key: &'a [u8], items: &'a [Node]) -> Option<Fault<'a>>
    ensures { result ≡ first_of (symbol_fault key.now) items.now }
{
    for item in items {
        if let Some(fault) = symbol_fault(key, item) {
            return Some(fault);
        }
    }
    None
}

/// What is wrong with the list of symbols, the value of a key.
#[tactic(auto, unfolding(crate::specs::Faults::symbols_fault))]
pub(crate) fn symbols_fault<'a>(key: &'a [u8], value: &'a Node) -> Option<Fault<'a>>
    ensures { result ≡ symbols_fault key.now value.now }
{
    match value.as_seq() {
        Some(items) => items_fault(key, items),
        None => bad_unless(false, key),
    }
}

// The type of a symbol.
fn said_kind(entries: &[Entry]) -> Kind
    ensures { result ≡ said_kind entries.now }
{
    match value_at(entries, b"Type") {
        Some(value) => kind_in(value).unwrap_or(Kind::NoType),
        None => Kind::NoType,
    }
}

// Its size.
fn said_size(entries: &[Entry]) -> Option<u64>
    ensures { result ≡ said_size entries.now }
{
    size_in(value_at(entries, b"Size")?)
}

// Whether a key has the value true.
fn is_said(entries: &[Entry], key: &[u8]) -> bool
    ensures { result ≡ is_said key.now entries.now }
{
    match value_at(entries, key) {
        Some(value) => truth_in(value).unwrap_or(false),
        None => false,
    }
}

// Its warning.
fn said_warning<'a>(entries: &'a [Entry<'_>]) -> Option<&'a [u8]>
    ensures { option_copied result ≡ said_warning entries.now }
{
    value_at(entries, b"Warning")?.as_scalar()
}

// Its name.
fn said_name<'a>(entries: &'a [Entry<'_>]) -> Option<&'a [u8]>
    ensures { option_copied result ≡ said_name entries.now }
{
    name_in(value_at(entries, b"Name")?)
}

/// A copy of a text that may be there.
pub(crate) fn copied(alloc: Global, text: Option<&[u8]>) -> Result<Option<Text>, Memory>
    ensures { IfOk result (λ copy. copy ≡ option_copied text.entry) }
{
    match text {
        Some(bytes) => Ok(Some(Text::from_slice(alloc, bytes)?)),
        None => Ok(None),
    }
}

// The symbol of a map with a name.
fn symbol_of(alloc: Global, entries: &[Entry], name: &[u8]) -> Result<Symbol, Memory>
    ensures { IfOk result (λ symbol. symbol ≡ symbol_of entries.now name.now) }
{
    Ok(Symbol {
        name: Text::from_slice(alloc, name)?,
        kind: said_kind(entries),
        size: said_size(entries),
        weak: is_said(entries, b"Weak"),
        undefined: is_said(entries, b"Undefined"),
        warning: copied(alloc, said_warning(entries))?,
    })
}

// Appends the symbol of a map, if it has a name.
#[tactic(auto, unfolding(crate::specs::Parts::symbol_in_map))]
fn push_symbol_of(alloc: Global, symbols: &mut Vec<Symbol>, entries: &[Entry]) -> Result<(), Memory>
    ensures { OnOk result (symbols.new.items ≡ symbols.old.items ++ option_to_list (symbol_in_map entries.now)) }
{
    if let Some(name) = said_name(entries) {
        symbols.push(symbol_of(alloc, entries, name)?)?;
    }
    Ok(())
}

// Appends the symbol of an item of the list.
#[tactic(auto, unfolding(crate::specs::Parts::symbol_in))]
fn push_symbol(alloc: Global, symbols: &mut Vec<Symbol>, item: &Node) -> Result<(), Memory>
    ensures { OnOk result (symbols.new.items ≡ symbols.old.items ++ option_to_list (symbol_in item.now)) }
{
    match item.as_map() {
        Some(entries) => push_symbol_of(alloc, symbols, entries),
        None => Ok(()),
    }
}

/// The symbols of a list, in its order.
pub(crate) fn symbols_in(alloc: Global, items: &[Node]) -> Result<Vec<Symbol>, Memory>
    ensures { IfOk result (λ symbols. symbols.items ≡ filter_map symbol_in items.now) }
{
    let mut symbols = Vec::with_capacity(alloc, items.len())?;
    for item in items {
        push_symbol(alloc, &mut symbols, item)?;
    }
    Ok(symbols)
}
