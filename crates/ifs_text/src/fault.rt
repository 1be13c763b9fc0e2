//! What is wrong with a map, by the names in it.

ghost use Rattle.std.specs.Prelude.{◌≡◌};
ghost use Rattle.ifs_text.specs.Faults.{bad_unless};

use crate::cause::TextCause;
use ifs_bytes::{Memory, Text};
use std::alloc::Global;
use std::marker::Model;

/// What may be wrong with a key, a value or a version.
#[derive(Clone, Copy)]
pub(crate) enum Wrong {
    UnknownKey,
    RepeatedKey,
    MissingKey,
    BadValue,
    BadVersion,
}

/// A cause whose key stands in the text.
#[derive(Drop)]
pub(crate) struct Fault<'a> {
    wrong: Wrong,
    key: &'a [u8],
}

impl<'a> Model for Fault<'a> {
    ghost use Rattle.ifs_text.specs.declared.cause.TextCause.{TextCause};
    ghost use Rattle.ifs_text.specs.Fault.{cause_by};

    ghost Value = { TextCause };

    ghost view = { λ f. cause_by f.wrong f.key.now };
}

impl<'a> Fault<'a> {
    ghost use Rattle.std.specs.Prelude.{◌≡◌, IfOk};
    ghost use Rattle.ifs_text.specs.Fault.{cause_by};

    pub(crate) fn new(wrong: Wrong, key: &'a [u8]) -> Fault<'a>
        ensures { result ≡ cause_by wrong key.now }
    {
        Fault { wrong, key }
    }

    /// The cause with a copy of its key.
    pub(crate) fn cause(&self, alloc: Global) -> Result<TextCause, Memory>
        ensures { IfOk result (λ cause. cause ≡ self.now) }
    {
        Ok(match self.wrong {
            Wrong::UnknownKey => TextCause::UnknownKey(Text::from_slice(alloc, self.key)?),
            Wrong::RepeatedKey => TextCause::RepeatedKey(Text::from_slice(alloc, self.key)?),
            Wrong::MissingKey => TextCause::MissingKey(Text::from_slice(alloc, self.key)?),
            Wrong::BadValue => TextCause::BadValue(Text::from_slice(alloc, self.key)?),
            Wrong::BadVersion => TextCause::BadVersion,
        })
    }
}

/// The value of a key, where it hasn't its form.
pub(crate) fn bad_unless(holds: bool, key: &[u8]) -> Option<Fault<'_>>
    ensures { result ≡ bad_unless holds key.now }
{
    if holds {
        None
    } else {
        Some(Fault::new(Wrong::BadValue, key))
    }
}
