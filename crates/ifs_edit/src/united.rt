//! What the symbols of one name are together.

ghost use Rattle.std.specs.Prelude.{◌≡◌, ◌<◌, IfOk, length, not};
ghost use Rattle.std.specs.List.{find};
ghost use Rattle.std.specs.Option.{option_copied};
ghost use Rattle.ifs_bytes.specs.Outcome.{UnlessMemory};
ghost use Rattle.ifs_edit.specs.Merged.{agree_in, all_agree, mismatch, same_in, united};
ghost use Rattle.ifs_edit.specs.Sorted.{pointed};

use crate::cause::MergeCause;
use ifs_bytes::Memory;
use ifs_interface::Symbol;
use std::alloc::Global;

// What two symbols of one name may differ in.
#[derive(Clone, Copy)]
pub(crate) enum Field {
    Kind,
    Size,
    Weak,
    Undefined,
    Warning,
}

// Whether two symbols are the same in a field.
fn same_in(field: Field, one: &Symbol, other: &Symbol) -> bool
    ensures { result ≡ same_in field one.now other.now }
{
    match field {
        Field::Kind => one.kind == other.kind,
        Field::Size => one.size == other.size,
        Field::Weak => one.weak == other.weak,
        Field::Undefined => one.undefined == other.undefined,
        Field::Warning => one.warning == other.warning,
    }
}

// The cause that two symbols of one name differ in a field.
fn mismatch(alloc: Global, field: Field, one: &Symbol, other: &Symbol) -> Result<MergeCause, Memory>
    ensures { IfOk result (λ cause. cause ≡ mismatch field one.now other.now) }
{
    let name = one.name.copy(alloc)?;
    Ok(match field {
        Field::Kind => MergeCause::TypeMismatch(name, one.kind, other.kind),
        Field::Size => MergeCause::SizeMismatch(name, one.size, other.size),
        Field::Weak => MergeCause::WeakMismatch(name),
        Field::Undefined => MergeCause::UndefinedMismatch(name),
        Field::Warning => MergeCause::WarningMismatch(name),
    })
}

// The first symbol that differs from another in a field.
#[tactic(auto, using(crate::proofs::Pointed::find_unlike_from))]
fn first_unlike<'a>(field: Field, one: &Symbol, symbols: &[&'a Symbol]) -> Option<&'a Symbol>
    ensures { option_copied result ≡ find (λ s. not (same_in field one.now s)) (pointed symbols.now) }
{
    for symbol in symbols {
        if !same_in(field, one, symbol) {
            return Some(symbol);
        }
    }
    None
}

// Ok where all symbols are the same as one in a field; else the cause of the first that isn't.
#[tactic(auto, unfolding(crate::specs::Merged::agree_in))]
fn check_field(
    alloc: Global,
    field: Field,
    one: &Symbol,
    symbols: &[&Symbol],
) -> Result<(), MergeCause>
    ensures { UnlessMemory MergeCause.Memory result (agree_in field one.now (pointed symbols.now)) }
{
    match first_unlike(field, one, symbols) {
        Some(other) => Err(mismatch(alloc, field, one, other)?),
        None => Ok(()),
    }
}

// The same, field by field.
#[tactic(auto, unfolding(crate::specs::Merged::all_agree))]
fn check_fields(alloc: Global, one: &Symbol, symbols: &[&Symbol]) -> Result<(), MergeCause>
    ensures { UnlessMemory MergeCause.Memory result (all_agree one.now (pointed symbols.now)) }
{
    check_field(alloc, Field::Kind, one, symbols)?;
    check_field(alloc, Field::Size, one, symbols)?;
    check_field(alloc, Field::Weak, one, symbols)?;
    check_field(alloc, Field::Undefined, one, symbols)?;
    check_field(alloc, Field::Warning, one, symbols)
}

// The symbol that all symbols of one name are, one at least.
pub(crate) fn united(alloc: Global, symbols: &[&Symbol]) -> Result<Symbol, MergeCause>
    requires { 0 < length symbols.now }
    ensures { UnlessMemory MergeCause.Memory result (united (pointed symbols.now)) }
{
    let first = symbols[0];
    check_fields(alloc, first, symbols)?;
    Ok(first.copy(alloc)?)
}
