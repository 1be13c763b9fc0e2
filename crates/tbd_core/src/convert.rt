//! Libraries that a text of another version can hold.

ghost use Rattle.std.specs.Prelude.{◌≡◌, map, IfOk};
ghost use Rattle.tbd_core.specs.Converted.{forgotten_target, forgotten_symbol, forgotten, forgotten_for_v4, segment_of, segment_or, placed_symbol, placed, segments_for_v5};

use crate::dylib::{Dylib, DylibParts, Named, Tbd, TbdTarget};
use crate::symbol::{Part, SymbolKind, TbdSymbol};
use crate::unite::united;
use ifs_bytes::{List, Memory};
use std::alloc::Global;

// ---- copies

// Equal names with equal targets, in the same order.
fn copied_names(alloc: Global, names: &[Named]) -> Result<List<Named>, Memory>
    ensures { IfOk result (λ copies. copies ≡ names.now) }
{
    let mut copies = Vec::with_capacity(alloc, names.len())?;
    for name in names {
        copies.push(name.copy(alloc)?)?;
    }
    Ok(List::from_vec(copies))
}

// Equal targets, in the same order.
fn copied_targets(alloc: Global, targets: &[TbdTarget]) -> Result<List<TbdTarget>, Memory>
    ensures { IfOk result (λ copies. copies ≡ targets.now) }
{
    let mut copies = Vec::with_capacity(alloc, targets.len())?;
    for target in targets {
        copies.push(target.copy(alloc)?)?;
    }
    Ok(List::from_vec(copies))
}

// Equal parts but for other targets and symbols.
fn with_targets(
    alloc: Global,
    parts: &DylibParts,
    targets: List<TbdTarget>,
    symbols: List<TbdSymbol>,
) -> Result<DylibParts, Memory>
    ensures { IfOk result (λ copy. copy ≡ record parts.now { targets = targets; symbols = symbols }) }
{
    Ok(DylibParts {
        targets,
        flags: copied_names(alloc, parts.flags.as_slice())?,
        install_name: parts.install_name.copy(alloc)?,
        current: parts.current,
        compatible: parts.compatible,
        swift_abi: parts.swift_abi,
        umbrellas: copied_names(alloc, parts.umbrellas.as_slice())?,
        clients: copied_names(alloc, parts.clients.as_slice())?,
        reexported: copied_names(alloc, parts.reexported.as_slice())?,
        rpaths: copied_names(alloc, parts.rpaths.as_slice())?,
        symbols,
    })
}

/// The library of parts. They are in normal form, and are looked at again here.
pub(crate) fn whole(parts: DylibParts) -> Result<Dylib, Memory>
    ensures { IfOk result (λ dylib. dylib ≡ parts) }
{
    match Dylib::new(parts) {
        Ok(dylib) => Ok(dylib),
        Err(_) => Err(Memory),
    }
}

// ---- version 4

fn forgotten_target(alloc: Global, target: &TbdTarget) -> Result<TbdTarget, Memory>
    ensures { IfOk result (λ copy. copy ≡ forgotten_target target.now) }
{
    Ok(TbdTarget {
        name: target.name.copy(alloc)?,
        min: None,
    })
}

fn forgotten_targets(alloc: Global, targets: &[TbdTarget]) -> Result<List<TbdTarget>, Memory>
    ensures { IfOk result (λ copies. copies ≡ map forgotten_target targets.now) }
{
    let mut copies = Vec::with_capacity(alloc, targets.len())?;
    for target in targets {
        copies.push(forgotten_target(alloc, target)?)?;
    }
    Ok(List::from_vec(copies))
}

fn forgotten_symbol(alloc: Global, symbol: &TbdSymbol) -> Result<TbdSymbol, Memory>
    ensures { IfOk result (λ copy. copy ≡ forgotten_symbol symbol.now) }
{
    let mut copy = symbol.copy(alloc)?;
    copy.segment = Part::Any;
    Ok(copy)
}

fn forgotten_symbols(alloc: Global, symbols: &[TbdSymbol]) -> Result<Vec<TbdSymbol>, Memory>
    ensures { IfOk result (λ copies. copies.items ≡ map forgotten_symbol symbols.now) }
{
    let mut copies = Vec::with_capacity(alloc, symbols.len())?;
    for symbol in symbols {
        copies.push(forgotten_symbol(alloc, symbol)?)?;
    }
    Ok(copies)
}

fn forgotten(alloc: Global, dylib: &Dylib) -> Result<Dylib, Memory>
    ensures { IfOk result (λ copy. copy ≡ forgotten dylib.now) }
{
    let parts = dylib.parts();
    let targets = forgotten_targets(alloc, parts.targets.as_slice())?;
    let symbols = united(alloc, forgotten_symbols(alloc, parts.symbols.as_slice())?)?;
    whole(with_targets(alloc, parts, targets, symbols)?)
}

fn forgotten_each(alloc: Global, dylibs: &[Dylib]) -> Result<List<Dylib>, Memory>
    ensures { IfOk result (λ copies. copies ≡ map forgotten dylibs.now) }
{
    let mut copies = Vec::with_capacity(alloc, dylibs.len())?;
    for dylib in dylibs {
        copies.push(forgotten(alloc, dylib)?)?;
    }
    Ok(List::from_vec(copies))
}

/// The same with what a text of version 4 has no place for left out: the least versions of targets, and the parts
/// that symbols are in. A name that stood in several parts then has the targets of all. What has no place and says
/// more than that stays, and the printer refuses it. The only error is want of memory.
pub fn forget_for_v4(alloc: Global, tbd: &Tbd) -> Result<Tbd, Memory>
    ensures { IfOk result (λ copy. copy ≡ forgotten_for_v4 tbd.now) }
{
    Ok(Tbd {
        main: forgotten(alloc, &tbd.main)?,
        inlined: forgotten_each(alloc, tbd.inlined.as_slice())?,
    })
}

// ---- version 5

// The part that a symbol of a kind is put in where it isn't known.
fn segment_of(kind: SymbolKind) -> Part
    ensures { result ≡ segment_of kind }
{
    match kind {
        SymbolKind::Global => Part::Code,
        SymbolKind::Weak => Part::Code,
        SymbolKind::ObjcClass => Part::Data,
        SymbolKind::ObjcEhType => Part::Data,
        SymbolKind::ObjcIvar => Part::Data,
        SymbolKind::ThreadLocal => Part::Data,
    }
}

fn segment_or(kind: SymbolKind, segment: Part) -> Part
    ensures { result ≡ segment_or kind segment }
{
    match segment {
        Part::Any => segment_of(kind),
        Part::Data => Part::Data,
        Part::Code => Part::Code,
    }
}

fn placed_symbol(alloc: Global, symbol: &TbdSymbol) -> Result<TbdSymbol, Memory>
    ensures { IfOk result (λ copy. copy ≡ placed_symbol symbol.now) }
{
    let mut copy = symbol.copy(alloc)?;
    copy.segment = segment_or(symbol.kind, symbol.segment);
    Ok(copy)
}

fn placed_symbols(alloc: Global, symbols: &[TbdSymbol]) -> Result<Vec<TbdSymbol>, Memory>
    ensures { IfOk result (λ copies. copies.items ≡ map placed_symbol symbols.now) }
{
    let mut copies = Vec::with_capacity(alloc, symbols.len())?;
    for symbol in symbols {
        copies.push(placed_symbol(alloc, symbol)?)?;
    }
    Ok(copies)
}

fn placed(alloc: Global, dylib: &Dylib) -> Result<Dylib, Memory>
    ensures { IfOk result (λ copy. copy ≡ placed dylib.now) }
{
    let parts = dylib.parts();
    let targets = copied_targets(alloc, parts.targets.as_slice())?;
    let symbols = united(alloc, placed_symbols(alloc, parts.symbols.as_slice())?)?;
    whole(with_targets(alloc, parts, targets, symbols)?)
}

fn placed_each(alloc: Global, dylibs: &[Dylib]) -> Result<List<Dylib>, Memory>
    ensures { IfOk result (λ copies. copies ≡ map placed dylibs.now) }
{
    let mut copies = Vec::with_capacity(alloc, dylibs.len())?;
    for dylib in dylibs {
        copies.push(placed(alloc, dylib)?)?;
    }
    Ok(List::from_vec(copies))
}

/// The same with each symbol of an unknown part put where a text of version 5 has a place for it: a global or weak one
/// to the code, any other to the data. A name that stood there already then has the targets of both. The only error is
/// want of memory.
pub fn segments_for_v5(alloc: Global, tbd: &Tbd) -> Result<Tbd, Memory>
    ensures { IfOk result (λ copy. copy ≡ segments_for_v5 tbd.now) }
{
    Ok(Tbd {
        main: placed(alloc, &tbd.main)?,
        inlined: placed_each(alloc, tbd.inlined.as_slice())?,
    })
}
