//! An interface under the options of an adjustment.

ghost use Rattle.std.specs.Prelude.{◌≡◌, ◌++◌, ◌∷◌, [], true, IfOk, OnOk, if◌then◌else◌};
ghost use Rattle.std.specs.Option.{option_copied};
ghost use Rattle.std.specs.List.{list_any};
ghost use Rattle.ifs_bytes.specs.Outcome.{UnlessMemory};
ghost use Rattle.ifs_interface.specs.Interface.{is_proper_soname, is_proper_target};
ghost use Rattle.ifs_edit.specs.Glob.{matches};
ghost use Rattle.ifs_edit.specs.Adjusted.{adjusted, changed, filled, is_kept, kept_symbols, needed_by, or_given, sized, targets_agree};

use crate::cause::AdjustCause;
use crate::conflict::check_target;
use crate::glob::Glob;
use crate::soname::copied_soname;
use ifs_bytes::{List, Memory, Text};
use ifs_interface::{Interface, Symbol, Target, copied_texts};
use std::alloc::Global;

/// What an adjustment changes.
#[derive(Debug, Drop)]
pub struct AdjustOptions {
    /// What is said of the target: its triple, or what is known of its parts.
    pub given: Target,
    /// The soname in place of the one that is there; not empty, without NUL.
    pub soname: Option<Text>,
    /// Symbols whose names match one of these are left out.
    pub exclude: List<Glob>,
    /// Whether undefined symbols are left out.
    pub strip_undefined: bool,
    /// Whether the needed libraries are left out.
    pub strip_needed: bool,
    /// Whether the sizes of symbols are left out.
    pub strip_size: bool,
}

/// The interface under the options: absent fields of its target are filled, or a given triple stands in their
/// place; then soname, needed libraries and symbols are changed. Where a field of the target is known and given
/// otherwise it is refused, with the first such field in this order: two triples of other bytes, machine, width, byte
/// order. The fields of a triple are those of its parts.
#[tactic(auto, unfolding(crate::specs::Adjusted::adjusted))]
pub fn adjust(
    alloc: Global,
    interface: &Interface,
    options: &AdjustOptions,
) -> Result<Interface, AdjustCause>
    requires soname { is_proper_soname options.now.soname ≡ true }
    requires target { is_proper_target options.now.given.triple options.now.given ≡ true }
    ensures { UnlessMemory AdjustCause.Memory result (adjusted interface.now options.now) }
{
    check_target(alloc, interface.target(), &options.given)?;
    Ok(changed(alloc, interface, options)?)
}

// The interface under the options, where its target has no conflict.
#[tactic(auto, unfolding(crate::specs::Adjusted::changed))]
fn changed(
    alloc: Global,
    interface: &Interface,
    options: &AdjustOptions,
) -> Result<Interface, Memory>
    requires soname { is_proper_soname options.now.soname ≡ true }
    requires target { is_proper_target options.now.given.triple options.now.given ≡ true }
    ensures { IfOk result (λ i. i ≡ changed interface.now options.now) }
{
    Ok(Interface::from_sorted(
        changed_soname(alloc, interface.soname(), options.soname.as_ref())?,
        filled(alloc, interface.target(), &options.given)?,
        left_needed(alloc, interface.needed_list(), options.strip_needed)?,
        kept_symbols(alloc, interface.symbols(), options)?,
    ))
}

// The given soname, or else the one that is there.
fn changed_soname(
    alloc: Global,
    there: Option<&Text>,
    given: Option<&Text>,
) -> Result<Option<Text>, Memory>
    ensures { IfOk result (λ soname. soname ≡ or_given (option_copied given.entry) (option_copied there.entry)) }
{
    match given {
        Some(text) => Ok(Some(text.copy(alloc)?)),
        None => copied_soname(alloc, there),
    }
}

// The target with its absent fields filled, or the given triple.
fn filled(alloc: Global, there: &Target, given: &Target) -> Result<Target, Memory>
    ensures { IfOk result (λ target. target ≡ filled there.now given.now) }
{
    if given.triple.is_some() {
        return given.copy(alloc);
    }
    if there.triple.is_some() {
        return there.copy(alloc);
    }
    Ok(Target {
        triple: None,
        machine: there.machine.or(given.machine),
        order: there.order.or(given.order),
        width: there.width.or(given.width),
    })
}

// The needed libraries, or none.
fn left_needed(alloc: Global, needed: &[Text], strip: bool) -> Result<Vec<Text>, Memory>
    ensures { IfOk result (λ left. left.items ≡ needed_by strip needed.now) }
{
    if strip {
        Ok(Vec::new(alloc))
    } else {
        copied_texts(alloc, needed)
    }
}

// Whether one of the patterns matches the name.
fn some_match(globs: &[Glob], name: &[u8]) -> bool
    ensures { result ≡ list_any (λ glob. matches glob name.now) globs.now }
{
    globs.iter().any(|glob| glob.matches(name))
}

// Whether a symbol stays.
fn is_kept(symbol: &Symbol, options: &AdjustOptions) -> bool
    ensures { result ≡ is_kept options.now symbol.now }
{
    !some_match(options.exclude.as_slice(), symbol.name.as_bytes())
        && !(options.strip_undefined && symbol.undefined)
}

// A copy of the symbol, without its size where sizes are left out.
fn sized(alloc: Global, symbol: &Symbol, strip: bool) -> Result<Symbol, Memory>
    ensures { IfOk result (λ copy. copy ≡ sized strip symbol.now) }
{
    let mut copy = symbol.copy(alloc)?;
    if strip {
        copy.size = None;
    }
    Ok(copy)
}

// Appends the symbol where it stays.
fn push_kept(
    alloc: Global,
    kept: &mut Vec<Symbol>,
    symbol: &Symbol,
    options: &AdjustOptions,
) -> Result<(), Memory>
    ensures { OnOk result (kept.new.items ≡ kept.old.items ++ (if is_kept options.now symbol.now then sized options.now.strip_size symbol.now ∷ [] else [])) }
{
    if is_kept(symbol, options) {
        kept.push(sized(alloc, symbol, options.strip_size)?)?;
    }
    Ok(())
}

// The symbols that stay, as they stay.
#[tactic(auto, using(crate::proofs::Kept::kept_is_flat_map), unfolding(crate::specs::Adjusted::kept_symbols))]
fn kept_symbols(
    alloc: Global,
    symbols: &[Symbol],
    options: &AdjustOptions,
) -> Result<Vec<Symbol>, Memory>
    ensures { IfOk result (λ kept. kept.items ≡ kept_symbols options.now symbols.now) }
{
    let mut kept = Vec::new(alloc);
    for symbol in symbols {
        push_kept(alloc, &mut kept, symbol, options)?;
    }
    Ok(kept)
}
