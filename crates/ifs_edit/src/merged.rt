//! One interface of several.

ghost use Rattle.std.specs.Prelude.{◌≡◌, ◌<◌, IfOk, length, true};
ghost use Rattle.std.specs.List.{list_all};
ghost use Rattle.std.specs.Option.{option_copied};
ghost use Rattle.ifs_interface.specs.Interface.{ascends, is_proper_name, names_of};
ghost use Rattle.ifs_bytes.specs.Outcome.{UnlessMemory};
ghost use Rattle.ifs_edit.specs.Merged.{merged, parts_agree, same_names, same_parts, same_soname, same_target, with_symbols};

use crate::cause::MergeCause;
use crate::soname::copied_soname;
use crate::sorted::{sorted_symbols, united_each};
use ifs_bytes::{Memory, Text};
use ifs_interface::{Interface, Symbol, Target, copied_texts};
use std::alloc::Global;

/// The interface that one or more interfaces are together: the first with the symbols of all. It is refused, in this
/// order, with `TargetMismatch`, `SonameMismatch` or `NeededMismatch` of the first input that differs from the one at
/// position 0 in any of these, by the first in which it differs; and for the least name of which two inputs have
/// other symbols with `TypeMismatch`, `SizeMismatch`, `WeakMismatch`, `UndefinedMismatch` or `WarningMismatch`, by the
/// first of these fields that isn't the same in all, with the values of the first input that has the name and of the
/// first that differs from it there.
#[tactic(auto, unfolding(crate::specs::Merged::merged))]
pub fn merge(alloc: Global, list: &[Interface]) -> Result<Interface, MergeCause>
    requires { 0 < length list.now }
    ensures { UnlessMemory MergeCause.Memory result (merged list.now) }
{
    let first = &list[0];
    check_parts(first, list)?;
    let sorted = sorted_symbols(alloc, list)?;
    let symbols = united_each(alloc, sorted.as_slice())?;
    Ok(with_symbols(alloc, first, symbols)?)
}

// Ok where all inputs have the target, soname and needed libraries of the first; else the first that hasn't.
fn check_parts(first: &Interface, list: &[Interface]) -> Result<(), MergeCause>
    ensures { result ≡ parts_agree first.now 0 list.now }
{
    let mut at = 0;
    let mut rest = list;
    while let [other, more @ ..] = rest {
        check_input(first, at, other)?;
        at += 1;
        rest = more;
    }
    Ok(())
}

// The same for the input at a position.
#[tactic(auto, unfolding(crate::specs::Merged::same_parts))]
fn check_input(first: &Interface, at: u64, other: &Interface) -> Result<(), MergeCause>
    ensures { result ≡ same_parts first.now at other.now }
{
    if !same_target(first.target(), other.target()) {
        return Err(MergeCause::TargetMismatch(at));
    }
    if !same_text(first.soname(), other.soname()) {
        return Err(MergeCause::SonameMismatch(at));
    }
    if !same_names(first.needed_list(), other.needed_list()) {
        return Err(MergeCause::NeededMismatch(at));
    }
    Ok(())
}

// Whether two targets are the same, field by field.
fn same_target(one: &Target, other: &Target) -> bool
    ensures { result ≡ same_target one.now other.now }
{
    same_text(one.triple.as_ref(), other.triple.as_ref())
        && one.machine == other.machine
        && one.order == other.order
        && one.width == other.width
}

// Whether two texts are the same, or both absent.
fn same_text(one: Option<&Text>, other: Option<&Text>) -> bool
    ensures { result ≡ same_soname (option_copied one.entry) (option_copied other.entry) }
{
    match (one, other) {
        (Some(one), Some(other)) => one == other,
        (None, None) => true,
        _ => false,
    }
}

// Whether two lists have the same names in the same order.
fn same_names(one: &[Text], other: &[Text]) -> bool
    ensures { result ≡ same_names one.now other.now }
{
    one == other
}

// The interface with these symbols in place of its own.
fn with_symbols(
    alloc: Global,
    interface: &Interface,
    symbols: Vec<Symbol>,
) -> Result<Interface, Memory>
    requires ascending { ascends (names_of symbols.items) ≡ true }
    requires proper { list_all is_proper_name (names_of symbols.items) ≡ true }
    ensures { IfOk result (λ i. i ≡ with_symbols interface.now symbols.items) }
{
    let _own = interface.symbols();
    Ok(Interface::from_sorted(
        copied_soname(alloc, interface.soname())?,
        interface.target().copy(alloc)?,
        copied_texts(alloc, interface.needed_list())?,
        symbols,
    ))
}
