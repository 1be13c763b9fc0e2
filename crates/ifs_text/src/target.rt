//! The target of a text: what is wrong with it, and what it is.

ghost use Rattle.std.specs.Prelude.{◌≡◌, true, false, is_some, IfOk};
ghost use Rattle.yaml_nodes.specs.Nodes.{text_of};
ghost use Rattle.ifs_interface.specs.Interface.{is_proper_target};
ghost use Rattle.ifs_text.specs.Maps.{first_of};
ghost use Rattle.ifs_text.specs.Faults.{is_elf, is_part_value, part_fault, parts_fault, target_fault};
ghost use Rattle.ifs_text.specs.Parts.{said_machine, said_order, said_width, nothing_known, target_of_triple, target_of_map, target_in};

use crate::fault::{Fault, bad_unless};
use crate::maps::{MapKind, is, keys_fault, value_at};
use crate::values::{machine_in, order_in, width_in};
use ifs_bytes::{Memory, Order, Text, Width};
use ifs_interface::{Target, triple_parts};
use std::alloc::Global;
use yaml_profile::{Entry, Node};

// Whether a value is the name of the one format.
fn is_elf(value: &Node) -> bool
    ensures { result ≡ is_elf (text_of value.now) }
{
    match value.as_scalar() {
        Some(text) => is(text, b"ELF"),
        None => false,
    }
}

// Whether the value of a key has its form.
fn is_part_value(key: &[u8], value: &Node) -> bool
    ensures { result ≡ is_part_value key.now value.now }
{
    if is(key, b"ObjectFormat") {
        return is_elf(value);
    }
    if is(key, b"Arch") {
        return machine_in(value).is_some();
    }
    if is(key, b"Endianness") {
        return order_in(value).is_some();
    }
    width_in(value).is_some()
}

#[tactic(auto, unfolding(crate::specs::Faults::part_fault))]
fn part_fault<'a>(entry: &'a Entry<'_>) -> Option<Fault<'a>>
    ensures { result ≡ part_fault entry.now }
{
    let key = entry.key.as_bytes();
    bad_unless(is_part_value(key, &entry.value), key)
}

// The first value that hasn't its form.
fn part_values_fault<'a>(entries: &'a [Entry<'_>]) -> Option<Fault<'a>>
    ensures { result ≡ first_of part_fault entries.now }
{
    for entry in entries {
        if let Some(fault) = part_fault(entry) {
            return Some(fault);
        }
    }
    None
}

// What is wrong with the map of a target.
#[tactic(auto, unfolding(crate::specs::Faults::parts_fault))]
fn parts_fault<'a>(entries: &'a [Entry<'_>]) -> Option<Fault<'a>>
    ensures { result ≡ parts_fault entries.now }
{
    match keys_fault(MapKind::Target, entries) {
        Some(fault) => Some(fault),
        None => part_values_fault(entries),
    }
}

/// What is wrong with a target, the value of a key.
#[tactic(auto, unfolding(crate::specs::Faults::target_fault))]
pub(crate) fn target_fault<'a>(key: &'a [u8], value: &'a Node) -> Option<Fault<'a>>
    ensures { result ≡ target_fault key.now value.now }
{
    match value.as_scalar() {
        Some(triple) => bad_unless(triple_parts(triple).is_some(), key),
        None => match value.as_map() {
            Some(entries) => parts_fault(entries),
            None => bad_unless(false, key),
        },
    }
}

fn said_machine(entries: &[Entry]) -> Option<u16>
    ensures { result ≡ said_machine entries.now }
{
    machine_in(value_at(entries, b"Arch")?)
}

fn said_order(entries: &[Entry]) -> Option<Order>
    ensures { result ≡ said_order entries.now }
{
    order_in(value_at(entries, b"Endianness")?)
}

fn said_width(entries: &[Entry]) -> Option<Width>
    ensures { result ≡ said_width entries.now }
{
    width_in(value_at(entries, b"BitWidth")?)
}

/// A target of which nothing is known.
pub(crate) fn nothing_known() -> Target
    ensures { result ≡ nothing_known }
{
    Target {
        triple: None,
        machine: None,
        order: None,
        width: None,
    }
}

// The target of a triple.
fn target_of_triple(alloc: Global, triple: &[u8]) -> Result<Target, Memory>
    ensures { IfOk result (λ target. target ≡ target_of_triple triple.now) }
{
    let mut target = nothing_known();
    if triple_parts(triple).is_some() {
        target.triple = Some(Text::from_slice(alloc, triple)?);
    }
    Ok(target)
}

// The target of a map.
fn target_of_map(entries: &[Entry]) -> Target
    ensures { result ≡ target_of_map entries.now }
{
    Target {
        triple: None,
        machine: said_machine(entries),
        order: said_order(entries),
        width: said_width(entries),
    }
}

/// The target that a value is.
#[tactic(auto, unfolding(crate::specs::Parts::target_in))]
pub(crate) fn target_in(alloc: Global, value: &Node) -> Result<Target, Memory>
    ensures { IfOk result (λ target. target ≡ target_in value.now) }
{
    match value.as_scalar() {
        Some(triple) => target_of_triple(alloc, triple),
        None => match value.as_map() {
            Some(entries) => Ok(target_of_map(entries)),
            None => Ok(nothing_known()),
        },
    }
}
