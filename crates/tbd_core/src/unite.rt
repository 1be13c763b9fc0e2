//! Symbols that stand several times, as one.

ghost use Rattle.std.specs.Prelude.{◌≡◌, ◌<◌, ◌++◌, ◌∷◌, [], length, map, IfOk, OnOk};
ghost use Rattle.std.specs.Ordering.{nat_cmp};
ghost use Rattle.std.specs.Cmp.Lexicographic.{slice_cmp};
ghost use Rattle.std.specs.List.Sorted.{IsSortedByKey};
ghost use Rattle.tbd_core.specs.Keys.{key_of};
ghost use Rattle.tbd_core.specs.Groups.{grouped, run_size};
ghost use Rattle.tbd_core.specs.Union.{with_places, with_all_places, union, united_symbol, united, IsSortedByOrder};

use crate::symbol::TbdSymbol;
use ifs_bytes::{List, Memory};
use std::alloc::Global;
use std::cmp::Ordering;
use std::collections::BTreeSet;

// Puts symbols in their order, those of one key as they stand.
fn sort_symbols(symbols: &mut Vec<TbdSymbol>) -> Result<(), Memory>
    ensures { OnOk result (IsSortedByOrder symbols.old.items symbols.new.items) }
{
    symbols.sort_by(|one, other| one.order(other))?;
    Ok(())
}

// How many symbols at the front have the key of the first.
fn run_length(symbols: &[TbdSymbol]) -> usize
    requires { 0 < length symbols.now }
    ensures { result ≡ run_size key_of symbols.now }
{
    let first = &symbols[0];
    symbols
        .iter()
        .take_while(|symbol| symbol.order(first) == Ordering::Equal)
        .count()
}

// Puts positions among others.
fn add_places(all: &mut BTreeSet<u64>, places: &[u64]) -> Result<(), Memory>
    ensures { OnOk result (all.new.keys ≡ with_places all.old.keys places.now) }
{
    let mut left = places;
    while let [place, others @ ..] = left {
        all.insert(*place)?;
        left = others;
    }
    Ok(())
}

// Puts the positions of symbols among others.
fn add_all_places(all: &mut BTreeSet<u64>, symbols: &[TbdSymbol]) -> Result<(), Memory>
    ensures { OnOk result (all.new.keys ≡ with_all_places all.old.keys symbols.now) }
{
    let mut left = symbols;
    while let [symbol, others @ ..] = left {
        add_places(all, symbol.targets.as_slice())?;
        left = others;
    }
    Ok(())
}

// The positions of a set.
fn listed(alloc: Global, all: &BTreeSet<u64>) -> Result<Vec<u64>, Memory>
    ensures { IfOk result (λ places. places.items ≡ all.now.keys) }
{
    let mut places = Vec::new(alloc);
    for place in all {
        places.push(*place)?;
    }
    Ok(places)
}

// The positions that one of the symbols has.
#[tactic(auto, unfolding(crate::specs::Union::union))]
fn union(alloc: Global, symbols: &[TbdSymbol]) -> Result<List<u64>, Memory>
    ensures { IfOk result (λ places. places ≡ union symbols.now) }
{
    let mut all = BTreeSet::new(alloc);
    add_all_places(&mut all, symbols)?;
    Ok(List::from_vec(listed(alloc, &all)?))
}

// Symbols of one key as one.
fn united_symbol(alloc: Global, symbols: &[TbdSymbol]) -> Result<TbdSymbol, Memory>
    requires { 0 < length symbols.now }
    ensures { IfOk result (λ symbol. symbol ≡ united_symbol symbols.now) }
{
    let first = &symbols[0];
    Ok(TbdSymbol {
        section: first.section,
        kind: first.kind,
        segment: first.segment,
        name: first.name.copy(alloc)?,
        targets: union(alloc, symbols)?,
    })
}

// Appends a symbol.
fn push_symbol(symbols: &mut Vec<TbdSymbol>, symbol: TbdSymbol) -> Result<(), Memory>
    ensures { OnOk result (symbols.new.items ≡ symbols.old.items ++ symbol ∷ []) }
{
    symbols.push(symbol)?;
    Ok(())
}

// A symbol for each key of symbols in their order.
fn united_sorted(alloc: Global, sorted: &[TbdSymbol]) -> Result<Vec<TbdSymbol>, Memory>
    requires { IsSortedByKey key_of (slice_cmp nat_cmp) sorted.now }
    ensures { IfOk result (λ symbols. symbols.items ≡ united sorted.now) }
{
    let mut symbols = Vec::new(alloc);
    let mut start = 0;
    while start < sorted.len() {
        let (_, rest) = sorted.split_at(start);
        let (run, _) = rest.split_at(run_length(rest));
        push_symbol(&mut symbols, united_symbol(alloc, run)?)?;
        start += run.len();
    }
    Ok(symbols)
}

/// The symbols of a section, kind, segment and name as one each, in their order, with the positions that one of them
/// has. The only error is want of memory. In a time of n log n for n symbols.
pub fn united(alloc: Global, symbols: Vec<TbdSymbol>) -> Result<List<TbdSymbol>, Memory>
    ensures { IfOk result (λ all. all ≡ united symbols.items) }
{
    let mut sorted = symbols;
    sort_symbols(&mut sorted)?;
    Ok(List::from_vec(united_sorted(alloc, sorted.as_slice())?))
}
