//! The symbols of several interfaces, by their names.

ghost use Rattle.std.specs.Prelude.{◌≡◌, ◌<◌, ◌++◌, ◌∷◌, [], true, IfOk, OnOk, length};
ghost use Rattle.std.specs.List.{list_all};
ghost use Rattle.ifs_interface.specs.Interface.{is_proper_name, names_of};
ghost use Rattle.ifs_bytes.specs.Outcome.{UnlessMemory};
ghost use Rattle.ifs_edit.specs.Merged.{all_symbols, by_name, united_each};
ghost use Rattle.ifs_edit.specs.Sorted.{items_of, pointed, run_length, AreInNameOrder, IsSortedByName};

use crate::cause::MergeCause;
use crate::united::united;
use ifs_bytes::Memory;
use ifs_interface::{Interface, Symbol};
use std::alloc::Global;

// Appends references to symbols.
fn push_each<'a>(all: &mut Vec<&'a Symbol>, symbols: &'a [Symbol]) -> Result<(), Memory>
    ensures { OnOk result (pointed all.new.items ≡ pointed all.old.items ++ symbols.now) }
{
    for symbol in symbols {
        all.push(symbol)?;
    }
    Ok(())
}

// The symbols of all interfaces, those of the first one first.
#[tactic(auto, using(crate::proofs::Pointed::proper_more))]
fn all_symbols(alloc: Global, list: &[Interface]) -> Result<Vec<&Symbol>, Memory>
    ensures value { IfOk result (λ all. pointed all.items ≡ all_symbols list.now) }
    ensures proper { IfOk result (λ all. list_all is_proper_name (names_of (pointed all.items)) ≡ true) }
{
    let mut all = Vec::new(alloc);
    for interface in list {
        push_each(&mut all, interface.symbols())?;
    }
    Ok(all)
}

// The same in byte order of their names, those of one name in the order that they had. The inputs are in this order
// already, which a stable sort by merging makes use of.
pub(crate) fn sorted_symbols(alloc: Global, list: &[Interface]) -> Result<Vec<&Symbol>, Memory>
    ensures sorted { IfOk result (λ sorted. IsSortedByName (all_symbols list.now) sorted.items) }
    ensures proper { IfOk result (λ _. list_all is_proper_name (names_of (all_symbols list.now)) ≡ true) }
{
    let mut all = all_symbols(alloc, list)?;
    all.sort_by(|a, b| a.name.cmp(&b.name))?;
    Ok(all)
}

// How many symbols at the front have the name of the first.
fn run_length(symbols: &[&Symbol]) -> usize
    requires { 0 < length symbols.now }
    ensures { result ≡ run_length (pointed symbols.now) }
{
    let name = &symbols[0].name;
    symbols
        .iter()
        .take_while(|symbol| symbol.name == *name)
        .count()
}

// One symbol for each name of symbols that stand in byte order of their names.
pub(crate) fn united_each(alloc: Global, sorted: &[&Symbol]) -> Result<Vec<Symbol>, MergeCause>
    requires { AreInNameOrder sorted.now }
    ensures { UnlessMemory MergeCause.Memory (items_of result) (united_each (by_name (pointed sorted.now))) }
{
    let mut symbols = Vec::new(alloc);
    let mut start = 0;
    while start < sorted.len() {
        let (_, rest) = sorted.split_at(start);
        let (run, _) = rest.split_at(run_length(rest));
        push_symbol(&mut symbols, united(alloc, run)?)?;
        start += run.len();
    }
    Ok(symbols)
}

// Appends a symbol.
fn push_symbol(symbols: &mut Vec<Symbol>, symbol: Symbol) -> Result<(), Memory>
    ensures { OnOk result (symbols.new.items ≡ symbols.old.items ++ symbol ∷ []) }
{
    Ok(symbols.push(symbol)?)
}
