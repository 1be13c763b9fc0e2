//! A cause whose key or target stands in the text that is read.

ghost use Rattle.std.specs.Prelude.{◌≡◌};
ghost use Rattle.tbd_core.specs.Fault.{bad_unless};

use crate::cause::TbdCause;
use ifs_bytes::{Memory, Text};
use std::alloc::Global;
use std::marker::Model;

/// What may be wrong with a key, a value, a target or the version.
#[derive(Clone, Copy, Debug)]
pub enum Wrong {
    /// UnknownKey.
    UnknownKey,
    /// RepeatedKey.
    RepeatedKey,
    /// MissingKey.
    MissingKey,
    /// BadValue.
    BadValue,
    /// UnknownTarget.
    UnknownTarget,
    /// BadVersion, which has no text.
    BadVersion,
}

/// A cause whose text isn't copied yet.
#[derive(Debug, Drop)]
pub struct Fault<'a> {
    wrong: Wrong,
    text: &'a [u8],
}

impl<'a> Model for Fault<'a> {
    ghost use Rattle.tbd_core.specs.declared.cause.TbdCause.{TbdCause};
    ghost use Rattle.tbd_core.specs.Fault.{cause_by};

    ghost Value = { TbdCause };

    ghost view = { λ f. cause_by f.wrong f.text.now };
}

impl<'a> Fault<'a> {
    ghost use Rattle.std.specs.Prelude.{◌≡◌, IfOk};
    ghost use Rattle.tbd_core.specs.Fault.{cause_by};

    /// The cause of a text.
    pub fn new(wrong: Wrong, text: &'a [u8]) -> Fault<'a>
        ensures { result ≡ cause_by wrong text.now }
    {
        Fault { wrong, text }
    }

    /// The cause with a copy of its text.
    pub fn cause(&self, alloc: Global) -> Result<TbdCause, Memory>
        ensures { IfOk result (λ cause. cause ≡ self.now) }
    {
        Ok(match self.wrong {
            Wrong::UnknownKey => TbdCause::UnknownKey(Text::from_slice(alloc, self.text)?),
            Wrong::RepeatedKey => TbdCause::RepeatedKey(Text::from_slice(alloc, self.text)?),
            Wrong::MissingKey => TbdCause::MissingKey(Text::from_slice(alloc, self.text)?),
            Wrong::BadValue => TbdCause::BadValue(Text::from_slice(alloc, self.text)?),
            Wrong::UnknownTarget => TbdCause::UnknownTarget(Text::from_slice(alloc, self.text)?),
            Wrong::BadVersion => TbdCause::BadVersion,
        })
    }
}

/// The value of a key, where it hasn't its form.
pub fn bad_unless(holds: bool, key: &[u8]) -> Option<Fault<'_>>
    ensures { result ≡ bad_unless holds key.now }
{
    if holds {
        None
    } else {
        Some(Fault::new(Wrong::BadValue, key))
    }
}
