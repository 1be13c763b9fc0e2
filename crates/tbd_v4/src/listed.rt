//! Names in the lists of a text, with the targets that each is said for.

ghost use Rattle.std.specs.Prelude.{◌≡◌, ◌++◌, ◌∷◌, [], if◌then◌else◌, map, filter, IfOk, OnOk};
ghost use Rattle.tbd_v4.specs.Listed.{list_rank, list_of, listed_name, listed_names, listed_symbol, is_of, listed_symbols, IsSortedByTargets};

use ifs_bytes::{Memory, Text};
use std::alloc::Global;
use std::marker::Model;
use tbd_core::{Named, Section, SymbolKind, TbdSymbol};

/// A list of names of a group.
#[derive(Clone, Copy, Debug)]
pub enum NameList {
    /// `symbols`
    Symbols,
    /// `objc-classes`
    ObjcClasses,
    /// `objc-eh-types`
    ObjcEhTypes,
    /// `objc-ivars`
    ObjcIvars,
    /// `weak-symbols`
    WeakSymbols,
    /// `thread-local-symbols`
    ThreadLocalSymbols,
    /// `umbrella`, which has one name
    Umbrellas,
    /// `clients`
    Clients,
    /// `libraries`
    Libraries,
}

/// A name, the list that it stands in, and the positions of its targets.
#[derive(Drop)]
pub(crate) struct Listed<'a> {
    list: NameList,
    name: &'a Text,
    targets: &'a [u64],
}

impl<'a> Model for Listed<'a> {
    ghost use Rattle.tbd_v4.specs.Listed as said;

    ghost Value = { said.Listed };

    ghost view = { λ e. record { list = e.list; name = e.name.now; targets = e.targets.now } };
}

impl NameList {
    /// The place in the order of lists.
    pub fn rank(self) -> u8
        ensures { result ≡ list_rank self }
    {
        match self {
            NameList::Symbols => 0,
            NameList::ObjcClasses => 1,
            NameList::ObjcEhTypes => 2,
            NameList::ObjcIvars => 3,
            NameList::WeakSymbols => 4,
            NameList::ThreadLocalSymbols => 5,
            NameList::Umbrellas => 6,
            NameList::Clients => 7,
            NameList::Libraries => 8,
        }
    }
}

impl<'a> Listed<'a> {
    /// The list that it stands in.
    pub(crate) fn list(&self) -> NameList
        ensures { result ≡ self.now.list }
    {
        self.list
    }

    /// The name.
    pub(crate) fn name(&self) -> &'a [u8]
        ensures { result.now ≡ self.now.name }
    {
        self.name.as_bytes()
    }

    /// The positions of its targets.
    pub(crate) fn targets(&self) -> &'a [u64]
        ensures { result.now ≡ self.now.targets }
    {
        self.targets
    }
}

// The list that symbols of a kind stand in.
fn list_of(kind: SymbolKind) -> NameList
    ensures { result ≡ list_of kind }
{
    match kind {
        SymbolKind::Global => NameList::Symbols,
        SymbolKind::ObjcClass => NameList::ObjcClasses,
        SymbolKind::ObjcEhType => NameList::ObjcEhTypes,
        SymbolKind::ObjcIvar => NameList::ObjcIvars,
        SymbolKind::Weak => NameList::WeakSymbols,
        SymbolKind::ThreadLocal => NameList::ThreadLocalSymbols,
    }
}

// Appends a name of a list.
fn push_name<'a>(
    entries: &mut Vec<Listed<'a>>,
    list: NameList,
    named: &'a Named,
) -> Result<(), Memory>
    ensures { OnOk result (entries.new.items ≡ entries.old.items ++ listed_name list named.now ∷ []) }
{
    entries.push(Listed {
        list,
        name: &named.name,
        targets: named.targets.as_slice(),
    })?;
    Ok(())
}

/// Names, as they stand in a list.
pub(crate) fn listed_names<'a>(
    alloc: Global,
    list: NameList,
    names: &'a [Named],
) -> Result<Vec<Listed<'a>>, Memory>
    ensures { IfOk result (λ entries. entries.items ≡ listed_names list names.now) }
{
    let mut entries = Vec::with_capacity(alloc, names.len())?;
    for named in names {
        push_name(&mut entries, list, named)?;
    }
    Ok(entries)
}

// Whether a symbol is of a section.
fn is_of(section: Section, symbol: &TbdSymbol) -> bool
    ensures { result ≡ is_of section symbol.now }
{
    symbol.section.rank() == section.rank()
}

// Appends a symbol, if it is of a section.
fn push_symbol<'a>(
    entries: &mut Vec<Listed<'a>>,
    section: Section,
    symbol: &'a TbdSymbol,
) -> Result<(), Memory>
    ensures { OnOk result (entries.new.items
        ≡ entries.old.items ++ (if is_of section symbol.now then listed_symbol symbol.now ∷ [] else [])) }
{
    if is_of(section, symbol) {
        entries.push(Listed {
            list: list_of(symbol.kind),
            name: &symbol.name,
            targets: symbol.targets.as_slice(),
        })?;
    }
    Ok(())
}

/// The symbols of a section, each in the list of its kind.
pub(crate) fn listed_symbols<'a>(
    alloc: Global,
    section: Section,
    symbols: &'a [TbdSymbol],
) -> Result<Vec<Listed<'a>>, Memory>
    ensures { IfOk result (λ entries. entries.items ≡ listed_symbols section symbols.now) }
{
    let mut entries = Vec::new(alloc);
    for symbol in symbols {
        push_symbol(&mut entries, section, symbol)?;
    }
    Ok(entries)
}

/// The names in order of their targets, those of equal targets in the order that they had.
pub(crate) fn sorted(entries: Vec<Listed<'_>>) -> Result<Vec<Listed<'_>>, Memory>
    ensures { IfOk result (λ sorted. IsSortedByTargets entries.entry.items sorted.items) }
{
    let mut sorted = entries;
    sorted.sort_by(|a, b| a.targets().cmp(b.targets()))?;
    Ok(sorted)
}
