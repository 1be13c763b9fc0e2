//! What a library says, where nothing is wrong with it.

ghost use Rattle.std.specs.Prelude.{◌≡◌, ◌++◌, ◌∷◌, [], None, Some, map, length, unwrap_or, option_and_then, IfOk, OnOk};
ghost use Rattle.std.specs.List.{filter_map, flat_map};
ghost use Rattle.std.specs.Option.{option_copied, option_to_list};
ghost use Rattle.ifs_bytes.specs.Places.{places};
ghost use Rattle.tbd_core.specs.Union.{united};
ghost use Rattle.tbd_v4_read.specs.Values.{name_in};
ghost use Rattle.tbd_v4_read.specs.Faults.{library_fault};
ghost use Rattle.tbd_v4_read.specs.Library.{target_in, targets_of, place_in, places_of, symbol, symbol_in, listed, umbrella_of, objc_symbols, symbols_of, names_of_group, names_in_group, names_at, named, names_once, flags_of, umbrellas_of, clients_of, reexported_of, sectioned, install_name, version_at, swift_abi, parts_with, parts_of};
ghost use Rattle.tbd_core.specs.declared.symbol.Section.TheVariants as section;
ghost use Rattle.tbd_v4_read.specs.declared.keys.GroupKind.TheVariants as kind;

use crate::keys::{GroupKind, items_at, map_entries};
use crate::values::{byte_in, name_in, version_in};
use ifs_bytes::{List, Memory, Text};
use std::alloc::Global;
use tbd_core::{
    Dylib, DylibParts, FIRST_VERSION, Named, Part, Section, SymbolKind, TbdSymbol, TbdTarget,
    Version, place_of, united,
};
use yaml_maps::value_at;
use yaml_profile::{Entry, Node};

// ---- targets

// Appends the target that a node names.
fn push_target(alloc: Global, targets: &mut Vec<TbdTarget>, item: &Node) -> Result<(), Memory>
    ensures { OnOk result (targets.new.items ≡ targets.old.items ++ option_to_list (target_in item.now)) }
{
    if let Some(name) = name_in(item) {
        targets.push(TbdTarget {
            name: Text::from_slice(alloc, name)?,
            min: None,
        })?;
    }
    Ok(())
}

// The targets of the library.
#[tactic(auto, unfolding(crate::specs::Library::targets_of))]
fn targets_of(alloc: Global, entries: &[Entry]) -> Result<Vec<TbdTarget>, Memory>
    ensures { IfOk result (λ targets. targets.items ≡ targets_of entries.now) }
{
    let items = items_at(entries, b"targets");
    let mut targets = Vec::with_capacity(alloc, items.len())?;
    for item in items {
        push_target(alloc, &mut targets, item)?;
    }
    Ok(targets)
}

// The position of the target that a node names.
fn place_in(targets: &[TbdTarget], item: &Node) -> Option<u64>
    ensures { result ≡ place_in targets.now item.now }
{
    place_of(targets, name_in(item)?)
}

// Appends the position of the target that a node names.
fn push_place(places: &mut Vec<u64>, targets: &[TbdTarget], item: &Node) -> Result<(), Memory>
    ensures { OnOk result (places.new.items ≡ places.old.items
        ++ option_to_list (place_in targets.now item.now)) }
{
    if let Some(place) = place_in(targets, item) {
        places.push(place)?;
    }
    Ok(())
}

// The positions of the targets of a group.
#[tactic(auto, unfolding(crate::specs::Library::places_of))]
fn places_of(alloc: Global, targets: &[TbdTarget], group: &[Entry]) -> Result<Vec<u64>, Memory>
    ensures { IfOk result (λ places. places.items ≡ places_of targets.now group.now) }
{
    let items = items_at(group, b"targets");
    let mut places = Vec::with_capacity(alloc, items.len())?;
    for item in items {
        push_place(&mut places, targets, item)?;
    }
    Ok(places)
}

// The positions of all targets.
#[tactic(auto, using(crate::proofs::Places::one_more))]
fn all_places(alloc: Global, targets: &[TbdTarget]) -> Result<Vec<u64>, Memory>
    ensures { IfOk result (λ all. all.items ≡ places 0 (length targets.now)) }
{
    let mut all = Vec::with_capacity(alloc, targets.len())?;
    for place in 0..targets.len() {
        all.push(place as u64)?;
    }
    Ok(all)
}

// ---- names

// What the names of a group are: their section, and the positions of the targets that they are said for.
#[derive(Drop)]
struct Said<'a> {
    section: Section,
    targets: &'a [u64],
}

// A name of a kind.
fn symbol(alloc: Global, said: &Said, kind: SymbolKind, name: &[u8]) -> Result<TbdSymbol, Memory>
    ensures { IfOk result (λ made. made ≡ symbol said.now.section kind said.now.targets.now name.now) }
{
    Ok(TbdSymbol {
        section: said.section,
        kind,
        segment: Part::Any,
        name: Text::from_slice(alloc, name)?,
        targets: List::from_vec(Vec::from_slice(alloc, said.targets)?),
    })
}

// Appends the name that a node is.
#[tactic(auto, unfolding(crate::specs::Library::symbol_in))]
fn push_name(
    alloc: Global,
    names: &mut Vec<TbdSymbol>,
    said: &Said,
    kind: SymbolKind,
    item: &Node,
) -> Result<(), Memory>
    ensures { OnOk result (names.new.items ≡ names.old.items
        ++ option_to_list (symbol_in said.now.section kind said.now.targets.now item.now)) }
{
    if let Some(name) = name_in(item) {
        names.push(symbol(alloc, said, kind, name)?)?;
    }
    Ok(())
}

// Appends the names that nodes are.
fn push_names(
    alloc: Global,
    names: &mut Vec<TbdSymbol>,
    said: &Said,
    kind: SymbolKind,
    items: &[Node],
) -> Result<(), Memory>
    ensures { OnOk result (names.new.items ≡ names.old.items
        ++ filter_map (symbol_in said.now.section kind said.now.targets.now) items.now) }
{
    for item in items {
        push_name(alloc, names, said, kind, item)?;
    }
    Ok(())
}

// Appends the names of a list of a group.
#[tactic(auto, unfolding(crate::specs::Library::listed))]
fn push_listed(
    alloc: Global,
    names: &mut Vec<TbdSymbol>,
    said: &Said,
    kind: SymbolKind,
    group: &[Entry],
    key: &[u8],
) -> Result<(), Memory>
    ensures { OnOk result (names.new.items ≡ names.old.items
        ++ listed said.now.section kind said.now.targets.now key.now group.now) }
{
    push_names(alloc, names, said, kind, items_at(group, key))
}

// Appends the umbrella of a group.
#[tactic(auto, unfolding(crate::specs::Library::umbrella_of))]
fn push_umbrella(
    alloc: Global,
    names: &mut Vec<TbdSymbol>,
    said: &Said,
    group: &[Entry],
) -> Result<(), Memory>
    ensures { OnOk result (names.new.items ≡ names.old.items
        ++ umbrella_of said.now.section said.now.targets.now group.now) }
{
    match value_at(group, b"umbrella") {
        Some(value) => push_name(alloc, names, said, SymbolKind::Global, value),
        None => Ok(()),
    }
}

// Appends the symbols of Objective-C of a group.
#[tactic(auto, unfolding(crate::specs::Library::objc_symbols))]
fn push_objc(
    alloc: Global,
    names: &mut Vec<TbdSymbol>,
    said: &Said,
    group: &[Entry],
) -> Result<(), Memory>
    ensures { OnOk result (names.new.items ≡ names.old.items
        ++ objc_symbols said.now.section said.now.targets.now group.now) }
{
    push_listed(
        alloc,
        names,
        said,
        SymbolKind::ObjcClass,
        group,
        b"objc-classes",
    )?;
    push_listed(
        alloc,
        names,
        said,
        SymbolKind::ObjcEhType,
        group,
        b"objc-eh-types",
    )?;
    push_listed(
        alloc,
        names,
        said,
        SymbolKind::ObjcIvar,
        group,
        b"objc-ivars",
    )?;
    Ok(())
}

// Appends the symbols of a group.
#[tactic(auto, unfolding(crate::specs::Library::symbols_of))]
fn push_symbols(
    alloc: Global,
    names: &mut Vec<TbdSymbol>,
    said: &Said,
    group: &[Entry],
) -> Result<(), Memory>
    ensures { OnOk result (names.new.items ≡ names.old.items
        ++ symbols_of said.now.section said.now.targets.now group.now) }
{
    push_listed(alloc, names, said, SymbolKind::Global, group, b"symbols")?;
    push_objc(alloc, names, said, group)?;
    push_listed(alloc, names, said, SymbolKind::Weak, group, b"weak-symbols")?;
    push_listed(
        alloc,
        names,
        said,
        SymbolKind::ThreadLocal,
        group,
        b"thread-local-symbols",
    )?;
    Ok(())
}

// Appends the names of a group.
fn push_group_names(
    alloc: Global,
    names: &mut Vec<TbdSymbol>,
    kind: GroupKind,
    said: &Said,
    group: &[Entry],
) -> Result<(), Memory>
    ensures { OnOk result (names.new.items ≡ names.old.items
        ++ names_of_group kind said.now.section said.now.targets.now group.now) }
{
    match kind {
        GroupKind::Umbrella => push_umbrella(alloc, names, said, group),
        GroupKind::Clients => {
            push_listed(alloc, names, said, SymbolKind::Global, group, b"clients")
        }
        GroupKind::Libraries => {
            push_listed(alloc, names, said, SymbolKind::Global, group, b"libraries")
        }
        GroupKind::Symbols => push_symbols(alloc, names, said, group),
    }
}

// Appends the names of an item of the groups that a key has.
#[tactic(auto, unfolding(crate::specs::Library::names_in_group))]
fn push_group(
    alloc: Global,
    names: &mut Vec<TbdSymbol>,
    kind: GroupKind,
    section: Section,
    targets: &[TbdTarget],
    item: &Node,
) -> Result<(), Memory>
    ensures { OnOk result (names.new.items ≡ names.old.items
        ++ names_in_group kind section targets.now item.now) }
{
    let group = map_entries(item);
    let places = places_of(alloc, targets, group)?;
    let said = Said {
        section,
        targets: places.as_slice(),
    };
    push_group_names(alloc, names, kind, &said, group)
}

// Appends the names of groups.
fn push_groups(
    alloc: Global,
    names: &mut Vec<TbdSymbol>,
    kind: GroupKind,
    section: Section,
    targets: &[TbdTarget],
    items: &[Node],
) -> Result<(), Memory>
    ensures { OnOk result (names.new.items ≡ names.old.items
        ++ flat_map (names_in_group kind section targets.now) items.now) }
{
    for item in items {
        push_group(alloc, names, kind, section, targets, item)?;
    }
    Ok(())
}

// Makes names of a list without kinds of what was gathered.
fn named_of(alloc: Global, symbols: &[TbdSymbol]) -> Result<List<Named>, Memory>
    ensures { IfOk result (λ names. names ≡ map named symbols.now) }
{
    let mut names = Vec::with_capacity(alloc, symbols.len())?;
    for symbol in symbols {
        names.push(named(alloc, symbol)?)?;
    }
    Ok(List::from_vec(names))
}

// A name without its kind.
fn named(alloc: Global, symbol: &TbdSymbol) -> Result<Named, Memory>
    ensures { IfOk result (λ name. name ≡ named symbol.now) }
{
    Ok(Named {
        name: symbol.name.copy(alloc)?,
        targets: List::from_vec(Vec::from_slice(alloc, symbol.targets.as_slice())?),
    })
}

// Each name once, with the targets of all groups that list it.
#[tactic(auto, unfolding(crate::specs::Library::names_once))]
fn names_once(alloc: Global, names: Vec<TbdSymbol>) -> Result<List<Named>, Memory>
    ensures { IfOk result (λ once. once ≡ names_once names.items) }
{
    let symbols = united(alloc, names)?;
    named_of(alloc, symbols.as_slice())
}

// The names of the groups of a key, each once.
#[tactic(auto, unfolding(crate::specs::Library::names_at))]
fn names_of_key(
    alloc: Global,
    kind: GroupKind,
    targets: &[TbdTarget],
    entries: &[Entry],
    key: &[u8],
) -> Result<List<Named>, Memory>
    ensures { IfOk result (λ once. once ≡
        names_once (names_at kind section.Exported key.now targets.now entries.now)) }
{
    let mut names = Vec::new(alloc);
    let items = items_at(entries, key);
    push_groups(alloc, &mut names, kind, Section::Exported, targets, items)?;
    names_once(alloc, names)
}

#[tactic(auto, unfolding(crate::specs::Library::umbrellas_of))]
fn umbrellas_of(
    alloc: Global,
    targets: &[TbdTarget],
    entries: &[Entry],
) -> Result<List<Named>, Memory>
    ensures { IfOk result (λ once. once ≡ umbrellas_of targets.now entries.now) }
{
    names_of_key(
        alloc,
        GroupKind::Umbrella,
        targets,
        entries,
        b"parent-umbrella",
    )
}

#[tactic(auto, unfolding(crate::specs::Library::clients_of))]
fn clients_of(
    alloc: Global,
    targets: &[TbdTarget],
    entries: &[Entry],
) -> Result<List<Named>, Memory>
    ensures { IfOk result (λ once. once ≡ clients_of targets.now entries.now) }
{
    names_of_key(
        alloc,
        GroupKind::Clients,
        targets,
        entries,
        b"allowable-clients",
    )
}

#[tactic(auto, unfolding(crate::specs::Library::reexported_of))]
fn reexported_of(
    alloc: Global,
    targets: &[TbdTarget],
    entries: &[Entry],
) -> Result<List<Named>, Memory>
    ensures { IfOk result (λ once. once ≡ reexported_of targets.now entries.now) }
{
    names_of_key(
        alloc,
        GroupKind::Libraries,
        targets,
        entries,
        b"reexported-libraries",
    )
}

// The flags, which are said for all targets.
#[tactic(auto, unfolding(crate::specs::Library::flags_of))]
fn flags_of(alloc: Global, targets: &[TbdTarget], entries: &[Entry]) -> Result<List<Named>, Memory>
    ensures { IfOk result (λ once. once ≡ flags_of targets.now entries.now) }
{
    let mut names = Vec::new(alloc);
    let places = all_places(alloc, targets)?;
    let said = Said {
        section: Section::Exported,
        targets: places.as_slice(),
    };
    push_listed(
        alloc,
        &mut names,
        &said,
        SymbolKind::Global,
        entries,
        b"flags",
    )?;
    names_once(alloc, names)
}

// Appends the symbols of a section.
#[tactic(auto, unfolding(crate::specs::Library::names_at))]
fn push_section(
    alloc: Global,
    symbols: &mut Vec<TbdSymbol>,
    section: Section,
    targets: &[TbdTarget],
    entries: &[Entry],
    key: &[u8],
) -> Result<(), Memory>
    ensures { OnOk result (symbols.new.items ≡ symbols.old.items
        ++ names_at kind.Symbols section key.now targets.now entries.now) }
{
    let items = items_at(entries, key);
    push_groups(alloc, symbols, GroupKind::Symbols, section, targets, items)
}

// The symbols of all sections.
#[tactic(auto, unfolding(crate::specs::Library::sectioned))]
fn sectioned(
    alloc: Global,
    targets: &[TbdTarget],
    entries: &[Entry],
) -> Result<List<TbdSymbol>, Memory>
    ensures { IfOk result (λ symbols. symbols ≡ sectioned targets.now entries.now) }
{
    let mut symbols = Vec::new(alloc);
    push_section(
        alloc,
        &mut symbols,
        Section::Exported,
        targets,
        entries,
        b"exports",
    )?;
    push_section(
        alloc,
        &mut symbols,
        Section::Reexported,
        targets,
        entries,
        b"reexports",
    )?;
    push_section(
        alloc,
        &mut symbols,
        Section::Undefined,
        targets,
        entries,
        b"undefineds",
    )?;
    united(alloc, symbols)
}

// ---- the whole

// The name that a value is; the empty text where it is none.
fn name_or_none<'a>(value: Option<&'a Node<'_>>) -> &'a [u8]
    ensures { result.now ≡ unwrap_or (option_and_then name_in (option_copied value.entry)) [] }
{
    match value {
        Some(value) => name_in(value).unwrap_or(b""),
        None => b"",
    }
}

#[tactic(auto, unfolding(crate::specs::Library::install_name))]
fn install_name(alloc: Global, entries: &[Entry]) -> Result<Text, Memory>
    ensures { IfOk result (λ name. name ≡ install_name entries.now) }
{
    Text::from_slice(alloc, name_or_none(value_at(entries, b"install-name")))
}

// The version that a key has, 1.0.0 where it has none.
#[tactic(auto, unfolding(crate::specs::Library::version_at))]
fn version_at(entries: &[Entry], key: &[u8]) -> Version
    ensures { result ≡ version_at key.now entries.now }
{
    match value_at(entries, key) {
        Some(value) => version_in(value).unwrap_or(FIRST_VERSION),
        None => FIRST_VERSION,
    }
}

#[tactic(auto, unfolding(crate::specs::Library::swift_abi))]
fn swift_abi(entries: &[Entry]) -> Option<u8>
    ensures { result ≡ swift_abi entries.now }
{
    byte_in(value_at(entries, b"swift-abi-version")?)
}

// The parts of a library with its targets.
#[tactic(auto, unfolding(crate::specs::Library::parts_with))]
fn parts_with(
    alloc: Global,
    targets: Vec<TbdTarget>,
    entries: &[Entry],
) -> Result<DylibParts, Memory>
    ensures { IfOk result (λ parts. parts ≡ parts_with targets.items entries.now) }
{
    let flags = flags_of(alloc, targets.as_slice(), entries)?;
    let umbrellas = umbrellas_of(alloc, targets.as_slice(), entries)?;
    let clients = clients_of(alloc, targets.as_slice(), entries)?;
    let reexported = reexported_of(alloc, targets.as_slice(), entries)?;
    let symbols = sectioned(alloc, targets.as_slice(), entries)?;
    Ok(DylibParts {
        targets: List::from_vec(targets),
        flags,
        install_name: install_name(alloc, entries)?,
        current: version_at(entries, b"current-version"),
        compatible: version_at(entries, b"compatibility-version"),
        swift_abi: swift_abi(entries),
        umbrellas,
        clients,
        reexported,
        rpaths: List::from_vec(Vec::new(alloc)),
        symbols,
    })
}

/// What a library says, with which nothing is wrong. It is in normal form, which isn't looked at again.
#[tactic(auto, using(crate::proofs::Normal::normal_parts))]
pub(crate) fn library(alloc: Global, entries: &[Entry]) -> Result<Dylib, Memory>
    requires { library_fault entries.now ≡ None }
    ensures { IfOk result (λ dylib. dylib ≡ parts_of entries.now) }
{
    let targets = targets_of(alloc, entries)?;
    let parts = parts_with(alloc, targets, entries)?;
    Ok(Dylib::of_normal(parts))
}
