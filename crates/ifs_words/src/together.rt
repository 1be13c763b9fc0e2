//! What is looked at in all words together: how many paths and values there are, and options that are needed.

ghost use Rattle.std.specs.Prelude.{◌≡◌, ◌++◌, IfOk, OnOk};
ghost use Rattle.std.specs.Option.{unwrap_or};
ghost use Rattle.ifs_bytes.specs.Outcome.{UnlessMemory};
ghost use Rattle.ifs_words.specs.Reading.{value_of};
ghost use Rattle.ifs_words.specs.Together.{at_most, needed, paths_fit, value_if, values_of};

use crate::cause::WordCause;
use crate::given::{Given, is_of, value_of};
use crate::settings::Setting;
use ifs_bytes::{Memory, Text};
use std::alloc::Global;

// Refuses more than so many.
pub(crate) fn at_most(most: usize, values: &[Text]) -> Result<(), WordCause>
    ensures { result ≡ at_most most values.now }
{
    if values.len() > most {
        return Err(WordCause::TooManyInputs(values.len() as u64));
    }
    Ok(())
}

// Refuses no path, or more than so many.
#[tactic(auto, unfolding(crate::specs::Together::paths_fit))]
pub(crate) fn paths_fit(most: usize, paths: &[Text]) -> Result<(), WordCause>
    ensures { result ≡ paths_fit most paths.now }
{
    if paths.is_empty() {
        return Err(WordCause::NoInput);
    }
    at_most(most, paths)
}

// The value of an option as a text.
pub(crate) fn text_given(
    alloc: Global,
    setting: Setting,
    given: &[Given],
) -> Result<Option<Text>, Memory>
    ensures { IfOk result (λ text. text ≡ value_of setting given.now) }
{
    match value_of(setting, given) {
        Some(value) => Ok(Some(Text::from_slice(alloc, value)?)),
        None => Ok(None),
    }
}

// The value of an option as a text, or another where there is none.
pub(crate) fn text_or(
    alloc: Global,
    setting: Setting,
    given: &[Given],
    other: &[u8],
) -> Result<Text, Memory>
    ensures { IfOk result (λ text. text ≡ unwrap_or (value_of setting given.now) other.now) }
{
    match value_of(setting, given) {
        Some(value) => Text::from_slice(alloc, value),
        None => Text::from_slice(alloc, other),
    }
}

// The value of an option that has to be given.
pub(crate) fn needed(alloc: Global, setting: Setting, given: &[Given]) -> Result<Text, WordCause>
    ensures { UnlessMemory WordCause.Memory result (needed setting given.now) }
{
    match value_of(setting, given) {
        Some(value) => Ok(Text::from_slice(alloc, value)?),
        None => {
            let name = Text::from_slice(alloc, setting.name())?;
            Err(WordCause::MissingOption(name))
        }
    }
}

// Appends a value, where it is one of this option.
fn push_value(
    alloc: Global,
    setting: Setting,
    values: &mut Vec<Text>,
    given: &Given,
) -> Result<(), Memory>
    ensures { OnOk result (values.new.items ≡ values.old.items ++ value_if setting given.now) }
{
    if is_of(setting, given) {
        values.push(given.value.copy(alloc)?)?;
    }
    Ok(())
}

// The values that an option was given, in order.
pub(crate) fn values_of(
    alloc: Global,
    setting: Setting,
    given: &[Given],
) -> Result<Vec<Text>, Memory>
    ensures { IfOk result (λ values. values.items ≡ values_of setting given.now) }
{
    let mut values = Vec::new(alloc);
    let mut rest = given;
    while let [one, more @ ..] = rest {
        push_value(alloc, setting, &mut values, one)?;
        rest = more;
    }
    Ok(values)
}
