//! Options that don't go together.

ghost use Rattle.std.specs.Prelude.{◌≡◌, IfOk};
ghost use Rattle.std.specs.Option.{option_copied};
ghost use Rattle.ifs_bytes.specs.Outcome.{UnlessMemory};
ghost use Rattle.ifs_words.specs.Stub.{conflict, is_same_value, never_alike, never_both, no_conflict};

use crate::cause::WordCause;
use crate::given::{Given, has, value_of};
use crate::settings::Setting;
use ifs_bytes::{Memory, Text};
use std::alloc::Global;

// The conflict of two options.
fn conflict(alloc: Global, one: Setting, other: Setting) -> Result<WordCause, Memory>
    ensures { IfOk result (λ cause. cause ≡ conflict one other) }
{
    let one = Text::from_slice(alloc, one.name())?;
    let other = Text::from_slice(alloc, other.name())?;
    Ok(WordCause::Conflict(one, other))
}

// Refuses two options that are both given.
fn never_both(alloc: Global, one: Setting, other: Setting, given: &[Given]) -> Result<(), WordCause>
    ensures { UnlessMemory WordCause.Memory result (never_both one other given.now) }
{
    if has(one, given) && has(other, given) {
        return Err(conflict(alloc, one, other)?);
    }
    Ok(())
}

// Whether there are two values, and they are the same.
fn is_same_value(one: Option<&[u8]>, other: Option<&[u8]>) -> bool
    ensures { result ≡ is_same_value (option_copied one.entry) (option_copied other.entry) }
{
    match (one, other) {
        (Some(one), Some(other)) => one == other,
        (Some(_), None) => false,
        (None, _) => false,
    }
}

// Refuses two options that are given the same value.
fn never_alike(
    alloc: Global,
    one: Setting,
    other: Setting,
    given: &[Given],
) -> Result<(), WordCause>
    ensures { UnlessMemory WordCause.Memory result (never_alike one other given.now) }
{
    if is_same_value(value_of(one, given), value_of(other, given)) {
        return Err(conflict(alloc, one, other)?);
    }
    Ok(())
}

// Refuses options of `stub` that don't go together, the first two of them.
#[tactic(auto, unfolding(crate::specs::Stub::no_conflict))]
pub(crate) fn no_conflict(alloc: Global, given: &[Given]) -> Result<(), WordCause>
    ensures { UnlessMemory WordCause.Memory result (no_conflict given.now) }
{
    never_both(alloc, Setting::Target, Setting::Arch, given)?;
    never_both(alloc, Setting::Target, Setting::BitWidth, given)?;
    never_both(alloc, Setting::Target, Setting::Endianness, given)?;
    never_alike(alloc, Setting::OutputIfs, Setting::OutputElf, given)
}
