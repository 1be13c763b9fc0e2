//! Why a text is no interface.

ghost use Rattle.std.specs.Prelude.{◌≡◌, ◌++◌, IfOk, OnOk};
ghost use Rattle.ifs_text.specs.Cause.{with_field, printed_text_cause};

use ifs_bytes::{Memory, Text};
use std::alloc::{AllocError, AllocFailed, Global};
use yaml_profile::YamlCause;

/// Why a text is no interface.
#[derive(Debug, PartialEq, Eq, Drop)]
pub enum TextCause {
    /// It can't be read as YAML.
    Yaml(YamlCause),
    /// It isn't one document with the tag `!ifs-v1` whose root is a map.
    NotIfs,
    /// A map has a key that it may not have.
    UnknownKey(Text),
    /// A map has a key twice.
    RepeatedKey(Text),
    /// A map lacks a key that it has to have.
    MissingKey(Text),
    /// The value of a key is of a wrong form.
    BadValue(Text),
    /// Two symbols have one name.
    RepeatedSymbol(Text),
    /// The version isn't 3.0.
    BadVersion,
    /// Memory ran out.
    Memory,
}

impl From<Memory> for TextCause {
    ghost use Rattle.std.specs.Prelude.{◌≡◌};
    ghost use Rattle.ifs_text.specs.declared.cause.TextCause.TheVariants as causes;

    ghost from_gives = { λ _ cause. cause ≡ causes.Memory };

    fn from(_error: Memory) -> TextCause {
        TextCause::Memory
    }
}

impl From<AllocError> for TextCause {
    ghost use Rattle.std.specs.Prelude.{◌≡◌};
    ghost use Rattle.ifs_text.specs.declared.cause.TextCause.TheVariants as causes;

    ghost from_gives = { λ _ cause. cause ≡ causes.Memory };

    fn from(_error: AllocError) -> TextCause {
        TextCause::Memory
    }
}

impl<T: Drop> From<AllocFailed<T>> for TextCause {
    ghost use Rattle.std.specs.Prelude.{◌≡◌};
    ghost use Rattle.ifs_text.specs.declared.cause.TextCause.TheVariants as causes;

    ghost from_gives = { λ _ cause. cause ≡ causes.Memory };

    fn from(_error: AllocFailed<T>) -> TextCause {
        TextCause::Memory
    }
}

impl From<YamlCause> for TextCause {
    ghost use Rattle.std.specs.Prelude.{◌≡◌};
    ghost use Rattle.ifs_text.specs.Text.{yaml_cause};

    ghost from_gives = { λ fault cause. cause ≡ yaml_cause fault };

    fn from(fault: YamlCause) -> TextCause {
        match fault {
            YamlCause::At(at, kind) => TextCause::Yaml(YamlCause::At(at, kind)),
            YamlCause::Memory => TextCause::Memory,
        }
    }
}

// Appends a name, and a field in parentheses.
#[tactic(auto, unfolding(crate::specs::Cause::with_field))]
fn append_field(text: &mut Text, name: &[u8], field: &[u8]) -> Result<(), Memory>
    ensures { OnOk result (text.new ≡ text.old ++ with_field name.now field.now) }
{
    text.append(name)?;
    text.append(b"(")?;
    text.append(field)?;
    text.append(b")")
}

impl TextCause {
    /// The cause as text: its name, and its field in parentheses, as `BadValue(Size)`.
    pub fn printed(&self, alloc: Global) -> Result<Text, Memory>
        ensures { IfOk result (λ text. text ≡ printed_text_cause self.now) }
    {
        let mut text = Text::new(alloc);
        match self {
            TextCause::Yaml(cause) => {
                append_field(&mut text, b"Yaml", cause.printed(alloc)?.as_bytes())?
            }
            TextCause::NotIfs => text.append(b"NotIfs")?,
            TextCause::UnknownKey(key) => append_field(&mut text, b"UnknownKey", key.as_bytes())?,
            TextCause::RepeatedKey(key) => append_field(&mut text, b"RepeatedKey", key.as_bytes())?,
            TextCause::MissingKey(key) => append_field(&mut text, b"MissingKey", key.as_bytes())?,
            TextCause::BadValue(key) => append_field(&mut text, b"BadValue", key.as_bytes())?,
            TextCause::RepeatedSymbol(name) => {
                append_field(&mut text, b"RepeatedSymbol", name.as_bytes())?
            }
            TextCause::BadVersion => text.append(b"BadVersion")?,
            TextCause::Memory => text.append(b"Memory")?,
        }
        Ok(text)
    }

    /// An equal cause.
    pub fn copy(&self, alloc: Global) -> Result<TextCause, Memory>
        ensures { IfOk result (λ copy. copy ≡ self.now) }
    {
        Ok(match self {
            TextCause::Yaml(cause) => TextCause::Yaml(*cause),
            TextCause::NotIfs => TextCause::NotIfs,
            TextCause::UnknownKey(key) => TextCause::UnknownKey(key.copy(alloc)?),
            TextCause::RepeatedKey(key) => TextCause::RepeatedKey(key.copy(alloc)?),
            TextCause::MissingKey(key) => TextCause::MissingKey(key.copy(alloc)?),
            TextCause::BadValue(key) => TextCause::BadValue(key.copy(alloc)?),
            TextCause::RepeatedSymbol(name) => TextCause::RepeatedSymbol(name.copy(alloc)?),
            TextCause::BadVersion => TextCause::BadVersion,
            TextCause::Memory => TextCause::Memory,
        })
    }
}
