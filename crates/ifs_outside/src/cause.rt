//! Why a call on the outside gives no answer.

ghost use Rattle.std.specs.Prelude.{◌≡◌, IfOk};
ghost use Rattle.ifs_outside.specs.Cause.{printed_read_cause, printed_write_cause};

use ifs_bytes::{Memory, Text};
use std::alloc::{AllocError, Global};

/// A fault of the outside; it was counted where it came from.
#[derive(Clone, Copy, Debug, PartialEq, Eq)]
pub struct Failed;

/// Why a file or a source gave no bytes.
#[derive(Clone, Copy, Debug, PartialEq, Eq)]
pub enum ReadCause {
    /// The path isn't held.
    Missing,
    /// More bytes than the limit stand there.
    TooLarge,
    /// A fault of reading.
    Failed,
    /// No memory was left for the bytes.
    Memory,
}

/// Why bytes weren't written whole.
#[derive(Clone, Copy, Debug, PartialEq, Eq)]
pub enum WriteCause {
    /// A fault of writing.
    Failed,
    /// No memory was left for the bytes.
    Memory,
}

impl ReadCause {
    /// The name of the cause.
    pub fn printed(&self, alloc: Global) -> Result<Text, Memory>
        ensures { IfOk result (λ text. text ≡ printed_read_cause self.now) }
    {
        match self {
            ReadCause::Missing => Text::from_slice(alloc, b"Missing"),
            ReadCause::TooLarge => Text::from_slice(alloc, b"TooLarge"),
            ReadCause::Failed => Text::from_slice(alloc, b"Failed"),
            ReadCause::Memory => Text::from_slice(alloc, b"Memory"),
        }
    }
}

impl WriteCause {
    /// The name of the cause.
    pub fn printed(&self, alloc: Global) -> Result<Text, Memory>
        ensures { IfOk result (λ text. text ≡ printed_write_cause self.now) }
    {
        match self {
            WriteCause::Failed => Text::from_slice(alloc, b"Failed"),
            WriteCause::Memory => Text::from_slice(alloc, b"Memory"),
        }
    }
}

impl From<AllocError> for ReadCause {
    ghost use Rattle.ifs_outside.specs.declared.cause.ReadCause.TheVariants.{Memory as NoMemory};

    ghost from_gives = { λ _ cause. cause ≡ NoMemory };

    fn from(_error: AllocError) -> ReadCause {
        ReadCause::Memory
    }
}

impl From<Memory> for WriteCause {
    ghost use Rattle.ifs_outside.specs.declared.cause.WriteCause.TheVariants.{Memory as NoMemory};

    ghost from_gives = { λ _ cause. cause ≡ NoMemory };

    fn from(_error: Memory) -> WriteCause {
        WriteCause::Memory
    }
}

impl From<AllocError> for WriteCause {
    ghost use Rattle.ifs_outside.specs.declared.cause.WriteCause.TheVariants.{Memory as NoMemory};

    ghost from_gives = { λ _ cause. cause ≡ NoMemory };

    fn from(_error: AllocError) -> WriteCause {
        WriteCause::Memory
    }
}
