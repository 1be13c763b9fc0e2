//! The first part of a library that isn't in normal form.

ghost use Rattle.std.specs.Prelude.{◌≡◌, ◌==◌, map};
ghost use Rattle.std.specs.List.{list_any, list_all};
ghost use Rattle.ifs_interface.specs.Interface.{is_proper_name, comes_before};
ghost use Rattle.ifs_interface.specs.Triple.{same_name};
ghost use Rattle.tbd_core.specs.Keys.{key_of};
ghost use Rattle.tbd_core.specs.Normal.{distinct, are_targets, ascend_from, are_places, comes_first, rise, is_named, are_names, is_symbol, are_symbols, count_of, unless_normal, broken_list, first_broken};

use crate::dylib::{DylibField, DylibParts, Named, TbdTarget};
use crate::symbol::TbdSymbol;
use ifs_bytes::Text;
use std::cmp::Ordering;

// Whether a NUL stands in a name.
fn has_nul(name: &[u8]) -> bool
    ensures { result ≡ list_any (λ c. c == 0) name.now }
{
    name.contains(&0)
}

/// Whether a name has a byte and no NUL.
#[tactic(auto, using(crate::proofs::Proper::proper_some))]
pub fn is_proper_name(name: &[u8]) -> bool
    ensures { result ≡ is_proper_name name.now }
{
    !name.is_empty() && !has_nul(name)
}

// Whether a target has a name.
fn has_target(targets: &[TbdTarget], name: &Text) -> bool
    ensures { result ≡ list_any (λ u. same_name u.name name.now) targets.now }
{
    targets.iter().any(|target| target.name == *name)
}

// Whether no two targets have one name. There are few of them, and no memory to sort them in.
fn are_distinct(targets: &[TbdTarget]) -> bool
    ensures { result ≡ distinct targets.now }
{
    let mut left = targets;
    while let [target, others @ ..] = left {
        if has_target(others, &target.name) {
            return false;
        }
        left = others;
    }
    true
}

// Whether each target has a proper name.
fn all_proper(targets: &[TbdTarget]) -> bool
    ensures { result ≡ list_all (λ t. is_proper_name t.name) targets.now }
{
    targets
        .iter()
        .all(|target| is_proper_name(target.name.as_bytes()))
}

#[tactic(auto, unfolding(crate::specs::Normal::are_targets))]
fn are_targets(targets: &[TbdTarget]) -> bool
    ensures { result ≡ are_targets targets.now }
{
    !targets.is_empty() && all_proper(targets) && are_distinct(targets)
}

// Whether positions ascend from 0 on and lie below `count`.
#[tactic(auto, using(crate::proofs::Ascending::below_least, crate::proofs::Ascending::past_count, crate::proofs::Ascending::goes_on))]
fn ascend(count: u64, places: &[u64]) -> bool
    ensures { result ≡ ascend_from 0 count places.now }
{
    let mut least = 0;
    let mut left = places;
    while let [place, others @ ..] = left {
        if *place < least {
            return false;
        }
        if *place >= count {
            return false;
        }
        least = *place + 1;
        left = others;
    }
    true
}

#[tactic(auto, unfolding(crate::specs::Normal::are_places))]
fn are_places(count: u64, places: &[u64]) -> bool
    ensures { result ≡ are_places count places.now }
{
    !places.is_empty() && ascend(count, places)
}

// Whether each is a proper name with positions of targets.
fn all_named(count: u64, names: &[Named]) -> bool
    ensures { result ≡ list_all (is_named count) names.now }
{
    names.iter().all(|name| is_named(count, name))
}

#[tactic(auto, unfolding(crate::specs::Normal::is_named))]
fn is_named(count: u64, name: &Named) -> bool
    ensures { result ≡ is_named count name.now }
{
    is_proper_name(name.name.as_bytes()) && are_places(count, name.targets.as_slice())
}

// Whether a name comes before the first of others.
fn name_first(name: &Named, others: &[Named]) -> bool
    ensures { result ≡ comes_first name.now.name (map (λ x. x.name) others.now) }
{
    match others {
        [next, ..] => name.name < next.name,
        [] => true,
    }
}

fn names_rise(names: &[Named]) -> bool
    ensures { result ≡ rise (map (λ x. x.name) names.now) }
{
    let mut left = names;
    while let [name, others @ ..] = left {
        if !name_first(name, others) {
            return false;
        }
        left = others;
    }
    true
}

#[tactic(auto, unfolding(crate::specs::Normal::are_names))]
fn are_names(count: u64, names: &[Named]) -> bool
    ensures { result ≡ are_names count names.now }
{
    all_named(count, names) && names_rise(names)
}

#[tactic(auto, unfolding(crate::specs::Normal::is_symbol))]
fn is_symbol(count: u64, symbol: &TbdSymbol) -> bool
    ensures { result ≡ is_symbol count symbol.now }
{
    is_proper_name(symbol.name.as_bytes()) && are_places(count, symbol.targets.as_slice())
}

// Whether each symbol has a proper name and positions of targets.
fn all_symbols(count: u64, symbols: &[TbdSymbol]) -> bool
    ensures { result ≡ list_all (is_symbol count) symbols.now }
{
    symbols.iter().all(|symbol| is_symbol(count, symbol))
}

// Whether a symbol comes before the first of others.
fn symbol_first(symbol: &TbdSymbol, others: &[TbdSymbol]) -> bool
    ensures { result ≡ comes_first (key_of symbol.now) (map key_of others.now) }
{
    match others {
        [next, ..] => symbol.order(next) == Ordering::Less,
        [] => true,
    }
}

fn symbols_rise(symbols: &[TbdSymbol]) -> bool
    ensures { result ≡ rise (map key_of symbols.now) }
{
    let mut left = symbols;
    while let [symbol, others @ ..] = left {
        if !symbol_first(symbol, others) {
            return false;
        }
        left = others;
    }
    true
}

#[tactic(auto, unfolding(crate::specs::Normal::are_symbols))]
fn are_symbols(count: u64, symbols: &[TbdSymbol]) -> bool
    ensures { result ≡ are_symbols count symbols.now }
{
    all_symbols(count, symbols) && symbols_rise(symbols)
}

// A field, where it isn't in normal form.
fn unless_normal(holds: bool, field: DylibField) -> Option<DylibField>
    ensures { result ≡ unless_normal holds field }
{
    if holds { None } else { Some(field) }
}

// How many targets there are.
fn count_of(parts: &DylibParts) -> u64
    ensures { result ≡ count_of parts.now }
{
    parts.targets.as_slice().len() as u64
}

// The first list behind the install name that isn't in normal form.
#[tactic(auto, unfolding(crate::specs::Normal::broken_list))]
fn broken_list(parts: &DylibParts) -> Option<DylibField>
    ensures { result ≡ broken_list parts.now }
{
    let count = count_of(parts);
    if !are_names(count, parts.umbrellas.as_slice()) {
        return Some(DylibField::Umbrellas);
    }
    if !are_names(count, parts.clients.as_slice()) {
        return Some(DylibField::Clients);
    }
    if !are_names(count, parts.reexported.as_slice()) {
        return Some(DylibField::Reexported);
    }
    if !are_names(count, parts.rpaths.as_slice()) {
        return Some(DylibField::Rpaths);
    }
    unless_normal(
        are_symbols(count, parts.symbols.as_slice()),
        DylibField::Symbols,
    )
}

/// The first part that isn't in normal form.
#[tactic(auto, unfolding(crate::specs::Normal::first_broken))]
pub(crate) fn first_broken(parts: &DylibParts) -> Option<DylibField>
    ensures { result ≡ first_broken parts.now }
{
    if !are_targets(parts.targets.as_slice()) {
        return Some(DylibField::Targets);
    }
    if !are_names(count_of(parts), parts.flags.as_slice()) {
        return Some(DylibField::Flags);
    }
    if !is_proper_name(parts.install_name.as_bytes()) {
        return Some(DylibField::InstallName);
    }
    broken_list(parts)
}
