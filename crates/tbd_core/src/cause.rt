//! Why a text is no text-based stub, and why a stub has no text.

ghost use Rattle.std.specs.Prelude.{◌≡◌, ◌++◌, IfOk, OnOk};
ghost use Rattle.tbd_core.specs.Cause.{with_field, printed_tbd_cause, printed_print_cause};

use ifs_bytes::{Memory, Text};
use std::alloc::{AllocError, AllocFailed, Global};
use yaml_nodes::YamlCause;

/// Why a text is no text-based stub of a dynamic library.
#[derive(Debug, PartialEq, Eq, Drop)]
pub enum TbdCause {
    /// It can't be read as YAML.
    Yaml(YamlCause),
    /// It isn't of the shape of such stubs at all.
    NotTbd,
    /// A map has a key that it may not have.
    UnknownKey(Text),
    /// A map has a key twice.
    RepeatedKey(Text),
    /// A map lacks a key that it has to have.
    MissingKey(Text),
    /// The value of a key is of a wrong form.
    BadValue(Text),
    /// A name is given for a target that the library hasn't.
    UnknownTarget(Text),
    /// The version of the format is another.
    BadVersion,
    /// Memory ran out.
    Memory,
}

impl From<Memory> for TbdCause {
    ghost use Rattle.std.specs.Prelude.{◌≡◌};
    ghost use Rattle.tbd_core.specs.declared.cause.TbdCause.TheVariants as causes;

    ghost from_gives = { λ _ cause. cause ≡ causes.Memory };

    fn from(_error: Memory) -> TbdCause {
        TbdCause::Memory
    }
}

impl From<AllocError> for TbdCause {
    ghost use Rattle.std.specs.Prelude.{◌≡◌};
    ghost use Rattle.tbd_core.specs.declared.cause.TbdCause.TheVariants as causes;

    ghost from_gives = { λ _ cause. cause ≡ causes.Memory };

    fn from(_error: AllocError) -> TbdCause {
        TbdCause::Memory
    }
}

impl<T: Drop> From<AllocFailed<T>> for TbdCause {
    ghost use Rattle.std.specs.Prelude.{◌≡◌};
    ghost use Rattle.tbd_core.specs.declared.cause.TbdCause.TheVariants as causes;

    ghost from_gives = { λ _ cause. cause ≡ causes.Memory };

    fn from(_error: AllocFailed<T>) -> TbdCause {
        TbdCause::Memory
    }
}

impl From<YamlCause> for TbdCause {
    ghost use Rattle.std.specs.Prelude.{◌≡◌};
    ghost use Rattle.tbd_core.specs.Cause.{yaml_cause};

    ghost from_gives = { λ fault cause. cause ≡ yaml_cause fault };

    fn from(fault: YamlCause) -> TbdCause {
        match fault {
            YamlCause::At(at, kind) => TbdCause::Yaml(YamlCause::At(at, kind)),
            YamlCause::Memory => TbdCause::Memory,
        }
    }
}

/// Why a stub has no text in a version of the format.
#[derive(Debug, PartialEq, Eq, Drop)]
pub enum PrintCause {
    /// What the version has no place for, by the name of the field.
    NoPlace(Text),
    /// Memory ran out.
    Memory,
}

impl From<Memory> for PrintCause {
    ghost use Rattle.std.specs.Prelude.{◌≡◌};
    ghost use Rattle.tbd_core.specs.declared.cause.PrintCause.TheVariants as causes;

    ghost from_gives = { λ _ cause. cause ≡ causes.Memory };

    fn from(_error: Memory) -> PrintCause {
        PrintCause::Memory
    }
}

impl From<AllocError> for PrintCause {
    ghost use Rattle.std.specs.Prelude.{◌≡◌};
    ghost use Rattle.tbd_core.specs.declared.cause.PrintCause.TheVariants as causes;

    ghost from_gives = { λ _ cause. cause ≡ causes.Memory };

    fn from(_error: AllocError) -> PrintCause {
        PrintCause::Memory
    }
}

impl<T: Drop> From<AllocFailed<T>> for PrintCause {
    ghost use Rattle.std.specs.Prelude.{◌≡◌};
    ghost use Rattle.tbd_core.specs.declared.cause.PrintCause.TheVariants as causes;

    ghost from_gives = { λ _ cause. cause ≡ causes.Memory };

    fn from(_error: AllocFailed<T>) -> PrintCause {
        PrintCause::Memory
    }
}

// Appends a name, and a field in parentheses.
#[tactic(auto, unfolding(crate::specs::Cause::with_field))]
fn append_field(text: &mut Text, name: &[u8], field: &[u8]) -> Result<(), Memory>
    ensures { OnOk result (text.new ≡ text.old ++ with_field name.now field.now) }
{
    text.append(name)?;
    text.append(b"(")?;
    text.append(field)?;
    text.append(b")")
}

impl TbdCause {
    /// The cause as text: its name, and its field in parentheses, as `BadValue(targets)`.
    pub fn printed(&self, alloc: Global) -> Result<Text, Memory>
        ensures { IfOk result (λ text. text ≡ printed_tbd_cause self.now) }
    {
        let mut text = Text::new(alloc);
        match self {
            TbdCause::Yaml(cause) => {
                append_field(&mut text, b"Yaml", cause.printed(alloc)?.as_bytes())?
            }
            TbdCause::NotTbd => text.append(b"NotTbd")?,
            TbdCause::UnknownKey(key) => append_field(&mut text, b"UnknownKey", key.as_bytes())?,
            TbdCause::RepeatedKey(key) => append_field(&mut text, b"RepeatedKey", key.as_bytes())?,
            TbdCause::MissingKey(key) => append_field(&mut text, b"MissingKey", key.as_bytes())?,
            TbdCause::BadValue(key) => append_field(&mut text, b"BadValue", key.as_bytes())?,
            TbdCause::UnknownTarget(name) => {
                append_field(&mut text, b"UnknownTarget", name.as_bytes())?
            }
            TbdCause::BadVersion => text.append(b"BadVersion")?,
            TbdCause::Memory => text.append(b"Memory")?,
        }
        Ok(text)
    }

    /// An equal cause.
    pub fn copy(&self, alloc: Global) -> Result<TbdCause, Memory>
        ensures { IfOk result (λ copy. copy ≡ self.now) }
    {
        Ok(match self {
            TbdCause::Yaml(cause) => TbdCause::Yaml(*cause),
            TbdCause::NotTbd => TbdCause::NotTbd,
            TbdCause::UnknownKey(key) => TbdCause::UnknownKey(key.copy(alloc)?),
            TbdCause::RepeatedKey(key) => TbdCause::RepeatedKey(key.copy(alloc)?),
            TbdCause::MissingKey(key) => TbdCause::MissingKey(key.copy(alloc)?),
            TbdCause::BadValue(key) => TbdCause::BadValue(key.copy(alloc)?),
            TbdCause::UnknownTarget(name) => TbdCause::UnknownTarget(name.copy(alloc)?),
            TbdCause::BadVersion => TbdCause::BadVersion,
            TbdCause::Memory => TbdCause::Memory,
        })
    }
}

impl PrintCause {
    /// The cause as text: its name, and its field in parentheses, as `NoPlace(rpaths)`.
    pub fn printed(&self, alloc: Global) -> Result<Text, Memory>
        ensures { IfOk result (λ text. text ≡ printed_print_cause self.now) }
    {
        let mut text = Text::new(alloc);
        match self {
            PrintCause::NoPlace(field) => append_field(&mut text, b"NoPlace", field.as_bytes())?,
            PrintCause::Memory => text.append(b"Memory")?,
        }
        Ok(text)
    }
}
