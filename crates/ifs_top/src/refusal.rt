//! Why a command ends early.

ghost use Rattle.std.specs.Prelude.{◌≡◌, ◌⊎◌};
ghost use Rattle.ifs_top.specs.Reply.{fault};
ghost use Rattle.ifs_top.specs.declared.refusal.Refusal.TheVariants as refusals;

use crate::reply::{Reply, fault};
use ifs_bytes::{Memory, Text};
use std::alloc::Global;

/// Why a command has no outputs.
#[derive(Debug, Drop)]
pub enum Refusal {
    /// Something was refused, or isn't there; the reply that says so.
    Fault(Reply),
    /// Memory ran out.
    Memory,
}

/// Why a run ended before it knew what to answer.
#[derive(Debug, Drop)]
pub enum Stop {
    /// A read failed; the line that says so.
    Unread(Text),
    /// Memory ran out.
    Memory,
}

impl From<Memory> for Refusal {
    ghost use Rattle.std.specs.Prelude.{◌≡◌};
    ghost use Rattle.ifs_top.specs.declared.refusal.Refusal.TheVariants as refusals;

    ghost from_gives = { λ _ refusal. refusal ≡ refusals.Memory };

    fn from(_error: Memory) -> Refusal {
        Refusal::Memory
    }
}

impl From<Memory> for Stop {
    ghost use Rattle.std.specs.Prelude.{◌≡◌};
    ghost use Rattle.ifs_top.specs.declared.refusal.Stop.TheVariants as stops;

    ghost from_gives = { λ _ stop. stop ≡ stops.Memory };

    fn from(_error: Memory) -> Stop {
        Stop::Memory
    }
}

/// The refusal of a subject, or want of memory to say so.
pub fn refuse(alloc: Global, subject: &[u8], text: &[u8], status: u8) -> Refusal
    ensures { (result ≡ refusals.Memory) ⊎ (result ≡ refusals.Fault (fault subject.now text.now status)) }
{
    match fault(alloc, subject, text, status) {
        Ok(reply) => Refusal::Fault(reply),
        Err(Memory) => Refusal::Memory,
    }
}
