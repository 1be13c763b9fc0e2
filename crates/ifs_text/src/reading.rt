//! A text to its interface.

ghost use Rattle.std.specs.Prelude.{◌≡◌, ◌++◌, [], IfOk, OnOk, unwrap_or};
ghost use Rattle.yaml_nodes.specs.Nodes.{items_of};
ghost use Rattle.std.specs.List.{filter_map};
ghost use Rattle.std.specs.Option.{option_copied, option_to_list};
ghost use Rattle.ifs_bytes.specs.Outcome.{UnlessMemory};
ghost use Rattle.ifs_interface.specs.Interface.{names_of};
ghost use Rattle.ifs_text.specs.Values.{name_in};
ghost use Rattle.ifs_text.specs.Parts.{said, soname_of, target_of, needed_of, symbols_of, listed_at};
ghost use Rattle.ifs_text.specs.declared.cause.TextCause.TheVariants as TextCause;
ghost use Rattle.ifs_text.specs.Text.{root_of, second, interface_said, interface_in_map, interface_in, interface_of_text};

use crate::cause::TextCause;
use crate::maps::{is, value_at};
use crate::root::root_fault;
use crate::second::second;
use crate::symbols::{copied, symbols_in};
use crate::target::{nothing_known, target_in};
use crate::values::name_in;
use ifs_bytes::{Memory, Text};
use ifs_interface::{Interface, Symbol, Target};
use std::alloc::Global;
use yaml_profile::{Document, Entry, Node};

#[tactic(auto, unfolding(crate::specs::Text::root_of))]
// The entries of the root, where there is one document, it has the tag, and its root is a map.
fn root_of<'a, 't>(documents: &'a [Document<'t>]) -> Option<&'a [Entry<'t>]>
    ensures { option_copied result ≡ root_of documents.now }
{
    match documents {
        [document] => match &document.tag {
            Some(tag) if is(tag.as_bytes(), b"!ifs-v1") => document.root.as_map(),
            _ => None,
        },
        _ => None,
    }
}

// The items that are there, or none.
fn or_none<'a, T>(items: Option<&'a [T]>) -> &'a [T]
    ensures { result.now ≡ unwrap_or (option_copied items.entry) [] }
{
    match items {
        Some(items) => items,
        None => &[],
    }
}

// The items of the list that a key has, where it has one.
fn said_items<'a, 't>(entries: &'a [Entry<'t>], key: &[u8]) -> Option<&'a [Node<'t>]>
    ensures { option_copied result ≡ said items_of key.now entries.now }
{
    value_at(entries, key)?.as_seq()
}

// The items of the list that a key has.
#[tactic(auto, unfolding(crate::specs::Parts::listed_at))]
fn listed_at<'a, 't>(entries: &'a [Entry<'t>], key: &[u8]) -> &'a [Node<'t>]
    ensures { result.now ≡ listed_at key.now entries.now }
{
    or_none(said_items(entries, key))
}

fn said_soname<'a>(entries: &'a [Entry<'_>]) -> Option<&'a [u8]>
    ensures { option_copied result ≡ soname_of entries.now }
{
    name_in(value_at(entries, b"SoName")?)
}

fn target_of(alloc: Global, entries: &[Entry]) -> Result<Target, Memory>
    ensures { IfOk result (λ target. target ≡ target_of entries.now) }
{
    match value_at(entries, b"Target") {
        Some(value) => target_in(alloc, value),
        None => Ok(nothing_known()),
    }
}

// Appends the name that a node is, if it is one.
fn push_name(alloc: Global, names: &mut Vec<Text>, item: &Node) -> Result<(), Memory>
    ensures { OnOk result (names.new.items ≡ names.old.items ++ option_to_list (name_in item.now)) }
{
    if let Some(name) = name_in(item) {
        names.push(Text::from_slice(alloc, name)?)?;
    }
    Ok(())
}

// The names that nodes are.
fn names_in(alloc: Global, items: &[Node]) -> Result<Vec<Text>, Memory>
    ensures { IfOk result (λ names. names.items ≡ filter_map name_in items.now) }
{
    let mut names = Vec::new(alloc);
    for item in items {
        push_name(alloc, &mut names, item)?;
    }
    Ok(names)
}

fn symbols_of(alloc: Global, entries: &[Entry]) -> Result<Vec<Symbol>, Memory>
    ensures { IfOk result (λ symbols. symbols.items ≡ symbols_of entries.now) }
{
    symbols_in(alloc, listed_at(entries, b"Symbols"))
}

// A copy of the first name that a symbol before has too; where there is none, another.
fn second_or(alloc: Global, symbols: &[Symbol], other: Text) -> Result<Text, Memory>
    ensures { IfOk result (λ name. name ≡ unwrap_or (second (names_of symbols.now)) other) }
{
    match second(alloc, symbols)? {
        Some(name) => name.copy(alloc),
        None => Ok(other),
    }
}

// The cause of symbols of one name, of which `least` is the least.
fn repeated(alloc: Global, entries: &[Entry], least: Text) -> Result<TextCause, Memory>
    ensures { IfOk result (λ cause. cause ≡ TextCause.RepeatedSymbol (unwrap_or (second (names_of (symbols_of entries.now))) least)) }
{
    let symbols = symbols_of(alloc, entries)?;
    Ok(TextCause::RepeatedSymbol(second_or(alloc, &symbols, least)?))
}

// The interface of the map of the root, unless two symbols have one name.
#[tactic(auto, unfolding(crate::specs::Text::interface_said))]
fn interface_said(alloc: Global, entries: &[Entry]) -> Result<Interface, TextCause>
    ensures { UnlessMemory TextCause.Memory result (interface_said entries.now) }
{
    let soname = copied(alloc, said_soname(entries))?;
    let target = target_of(alloc, entries)?;
    let needed = names_in(alloc, listed_at(entries, b"NeededLibs"))?;
    let symbols = symbols_of(alloc, entries)?;
    match Interface::new(soname, target, needed, symbols) {
        Ok(interface) => Ok(interface),
        Err(least) => Err(repeated(alloc, entries, least)?),
    }
}

// The interface of the map of the root, or the first cause.
#[tactic(auto, unfolding(crate::specs::Text::interface_in_map))]
fn interface_in_map(alloc: Global, entries: &[Entry]) -> Result<Interface, TextCause>
    ensures { UnlessMemory TextCause.Memory result (interface_in_map entries.now) }
{
    match root_fault(entries) {
        Some(fault) => Err(fault.cause(alloc)?),
        None => interface_said(alloc, entries),
    }
}

// The interface of documents, or the first cause.
#[tactic(auto, unfolding(crate::specs::Text::interface_in))]
fn interface_in(alloc: Global, documents: &[Document]) -> Result<Interface, TextCause>
    ensures { UnlessMemory TextCause.Memory result (interface_in documents.now) }
{
    match root_of(documents) {
        Some(entries) => interface_in_map(alloc, entries),
        None => Err(TextCause::NotIfs),
    }
}

/// The interface that a text is, or the first cause why it is none: Yaml, what is wrong with it as YAML; NotIfs,
/// it isn't one document with the tag `!ifs-v1` whose root is a map; UnknownKey, RepeatedKey, then MissingKey of
/// the root; BadVersion; what is wrong with the values in text order, of a target or a symbol that is a map
/// UnknownKey, RepeatedKey, MissingKey, then its values, else BadValue of the key; RepeatedSymbol, the first name
/// that a symbol before it has too.
///
/// Public source: the interface stubs of LLVM, version 3.0; docs/format/ifs-text.md has the rules.
#[tactic(auto, unfolding(crate::specs::Text::interface_of_text))]
pub fn read(alloc: Global, text: &[u8]) -> Result<Interface, TextCause>
    ensures { UnlessMemory TextCause.Memory result (interface_of_text text.now) }
{
    let documents = yaml_profile::read(alloc, text)?;
    interface_in(alloc, documents.as_slice())
}
